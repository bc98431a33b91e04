// A block of bytes in front of a sink.
ghost use Rattle.std.specs.Prelude.{◌≡◌, ◌<◌, [], false, length, is_err};
ghost use Rattle.dcv_io.specs.Putting.{Puts, block_put};

use crate::held::Held;
use crate::{Failed, Sink, Target, write_all};

/// A block in front of a sink: pieces are collected in it until it is full, and are then written. It allocates nothing.
///
/// Once a write has failed nothing more is written.
#[derive(Drop)]
pub struct Block<'a, S> {
    // where the bytes go
    sink: &'a mut S,
    // the bytes that were put and not yet written
    held: Held,
    // whether a write has failed
    failed: bool,
}

impl<'a, S: Sink> Block<'a, S> {
    /// An empty block in front of this sink.
    pub fn new(sink: &'a mut S) -> Block<'a, S>
        ensures sink { result.sink ≡ sink.entry }
        ensures held { result.held ≡ [] }
        ensures failed { result.failed ≡ false }
    {
        Block {
            sink,
            held: Held::new(),
            failed: false,
        }
    }

    /// Writes the rest, and returns whether every piece was written.
    pub fn finish(&mut self) -> Result<(), Failed>
        ensures puts { Puts
            (block_put S.written S.faults S.last_failed self.old.sink self.old.held self.old.failed)
            (block_put S.written S.faults S.last_failed self.new.sink self.new.held self.new.failed) [] }
        ensures empty { self.new.held ≡ [] }
        ensures failed { is_err result ≡ self.new.failed }
    {
        self.flush();
        if self.failed { Err(Failed) } else { Ok(()) }
    }

    // Writes what waits.
    fn flush(&mut self)
        ensures puts { Puts
            (block_put S.written S.faults S.last_failed self.old.sink self.old.held self.old.failed)
            (block_put S.written S.faults S.last_failed self.new.sink self.new.held self.new.failed) [] }
        ensures empty { self.new.held ≡ [] }
    {
        if self.failed {
            self.held.clear();
            return;
        }
        self.failed = write_all(self.sink, self.held.as_slice()).is_err();
        self.held.clear();
    }

    // Writes what waits where there is no room for more.
    fn make_room(&mut self)
        ensures puts { Puts
            (block_put S.written S.faults S.last_failed self.old.sink self.old.held self.old.failed)
            (block_put S.written S.faults S.last_failed self.new.sink self.new.held self.new.failed) [] }
        ensures room { length self.new.held < 4096 }
    {
        if self.held.is_full() {
            self.flush();
        }
    }
}

impl<S: Sink> Target for Block<'_, S> {
    ghost standing = { λ b. block_put S.written S.faults S.last_failed b.sink b.held b.failed };

    fn put(&mut self, bytes: &[u8]) {
        let mut rest = bytes;
        while !rest.is_empty() {
            self.make_room();
            let count = self.held.fill(rest);
            rest = &rest[count..];
        }
    }
}
