// Bytes that wait to be written.
ghost use Rattle.std.specs.Prelude.{◌≡◌, ◌++◌, ◌≤◌, ◌<◌, [], false, length, take, drop, min};

use std::marker::Model;

const BLOCK: usize = 4096;

// At most a block of bytes.
#[derive(Drop)]
pub(crate) struct Held {
    // the bytes, from the start
    bytes: [u8; BLOCK],
    // how many of them count
    filled: usize,
}

impl Model for Held {
    ghost use Rattle.std.specs.Prelude.{◌≤◌, ℕ, List, take};

    ghost Value = { List ℕ };

    ghost view = { λ h. take h.filled h.bytes };

    ghost invariant = { λ h. h.filled ≤ 4096 };
}

impl Held {
    pub(crate) fn new() -> Held
        ensures { result ≡ [] }
    {
        Held {
            bytes: [0; BLOCK],
            filled: 0,
        }
    }

    pub(crate) fn as_slice(&self) -> &[u8]
        ensures { result.now ≡ self.now }
    {
        &self.bytes[..self.filled]
    }

    pub(crate) fn clear(&mut self)
        ensures { self.new ≡ [] }
    {
        self.filled = 0;
    }

    pub(crate) fn is_full(&self) -> bool
        ensures { result ≡ false → length self.now < 4096 }
    {
        self.filled == BLOCK
    }

    // Takes as many of the bytes as there is room for, and returns how many.
    pub(crate) fn fill(&mut self, bytes: &[u8]) -> usize
        ensures taken { self.new ≡ self.old ++ take result bytes.now }
        ensures count { result ≤ length bytes.now }
        ensures some { length self.old < 4096 → 0 < length bytes.now → 0 < result }
    {
        let count = copy_prefix(bytes, &mut self.bytes[self.filled..]);
        self.filled += count;
        count
    }
}

// Copies as many bytes as both have, and returns how many.
fn copy_prefix(from: &[u8], to: &mut [u8]) -> usize
    ensures count { result ≡ min (length from.now) (length to.old) }
    ensures copied { to.new ≡ take result from.now ++ drop result to.old }
{
    let count = from.len().min(to.len());
    to[..count].copy_from_slice(&from[..count]);
    count
}
