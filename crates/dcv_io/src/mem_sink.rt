// A sink in memory.
ghost use Rattle.std.specs.Prelude.{◌≡◌, ◌<◌, ◌≤◌, All, [], false, is_err, length, take, IfOk, OnOk, OnErr};
ghost use Rattle.dcv_io.specs.Faults.{RisesIf};
ghost use Rattle.dcv_io.specs.SinkState.{refuses, taken_of, after_write, after_refusal};
ghost use Rattle.dcv_io.specs.Written.{Appends};

use crate::counts::raise;
use crate::schedule::Schedule;
use crate::{Failed, Sink};
use std::alloc::{AllocError, Global};
use std::marker::Model;

/// A sink in memory, which exposes everything. Tests use it in place of a real one.
#[derive(Drop)]
pub struct MemSink {
    // what was written
    bytes: Vec<u8>,
    // how many bytes there may be
    room: usize,
    // how long writes are, and which fail
    schedule: Schedule,
    // how many writes have failed
    faults: u64,
    // whether the last write has
    last_failed: bool,
}

impl Model for MemSink {
    ghost use Rattle.std.specs.Prelude.{◌+◌, ◌≤◌, vec_len, vec_capacity};
    ghost use Rattle.dcv_io.specs.SinkState.{SinkState};

    ghost Value = { SinkState };

    ghost view = { λ s. record {
      written = s.bytes.items;
      room = s.room;
      plan = s.schedule;
      faults = s.faults;
      last_failed = s.last_failed;
    } };

    ghost invariant = { λ s. vec_len s.bytes + s.room ≤ vec_capacity s.bytes };
}

impl MemSink {
    /// An empty sink with room for `room` bytes.
    ///
    /// The n-th write that takes bytes takes at most the n-th of `sizes`, and once they are used up as many as there
    /// is room for. The writes whose numbers, from 1, are in `fails` fail, and so does a write of some bytes where no room is
    /// left; of no bytes it does not.
    pub fn new(
        alloc: Global,
        room: usize,
        sizes: &[usize],
        fails: &[u64],
    ) -> Result<MemSink, AllocError>
        requires { All (λ size. 0 < size) sizes.now }
        ensures { IfOk result (λ sink. sink ≡ record {
          written = [];
          room = room;
          faults = 0;
          last_failed = false;
          plan = record { sizes = sizes.now; fails = fails.now; calls = 0 };
        }) }
    {
        Ok(MemSink {
            bytes: Vec::with_capacity(alloc, room)?,
            room,
            schedule: Schedule::new(alloc, sizes, fails)?,
            faults: 0,
            last_failed: false,
        })
    }

    /// All the bytes written so far.
    pub fn written(&self) -> &[u8]
        ensures { result.now ≡ self.now.written }
    {
        &self.bytes
    }
}

impl Sink for MemSink {
    ghost use Rattle.std.specs.Prelude.{Some};

    ghost faults = { λ s. s.faults };

    ghost last_failed = { λ s. s.last_failed };

    ghost written = { λ s. Some s.written };

    fn write(&mut self, bytes: &[u8]) -> Result<usize, Failed>
        ensures refused { is_err result ≡ refuses self.old bytes.now }
        ensures count { IfOk result (λ count. count ≡ taken_of self.old bytes.now) }
        ensures ok { IfOk result (λ count. self.new ≡ after_write self.old bytes.now count) }
        ensures err { OnErr result (self.new ≡ after_refusal self.old) }

        ensures progress { IfOk result (λ count. 0 < length bytes.now → 0 < count) }
        ensures faults { RisesIf (is_err result) self.old.faults self.new.faults }
    {
        let fails = self.schedule.begin_call();
        self.last_failed = fails || (!bytes.is_empty() && self.room == 0);
        if self.last_failed {
            raise(&mut self.faults);
            return Err(Failed);
        }
        let count = self.schedule.share(bytes.len().min(self.room));
        // There is capacity for the room that is left, so this asks for no memory.
        self.bytes.extend_from_slice(&bytes[..count]).unwrap();
        self.room -= count;
        self.schedule.advance(count);
        Ok(count)
    }
}
