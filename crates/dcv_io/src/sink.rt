// What bytes are written to.
ghost use Rattle.std.specs.Prelude.{◌≡◌, ◌<◌, ◌≤◌, ℕ, Bool, List, Option, length, take, is_err, IfOk, OnErr};
ghost use Rattle.dcv_io.specs.Faults.{raised, RisesIf};
ghost use Rattle.dcv_io.specs.Written.{Appends};

use crate::Failed;

/// A place that bytes are written to, piece by piece.
///
/// A sink may expose all bytes written to it, or none, as the real streams do. It always counts its
/// failed writes.
pub trait Sink {
    /// How many calls of `write` have failed, up to 2^64 - 1.
    ghost faults: { Self → ℕ };

    /// Whether the last call of `write` has failed.
    ghost last_failed: { Self → Bool };

    /// All the bytes written so far; None claims nothing.
    ghost written: { Self → Option (List ℕ) };

    /// Takes some bytes from the front of the piece, and returns how many: at least one, if there is one.
    fn write(&mut self, bytes: &[u8]) -> Result<usize, Failed>
        ensures bound { IfOk result (λ count. count ≤ length bytes.now) }
        ensures progress { IfOk result (λ count. 0 < length bytes.now → 0 < count) }
        ensures taken { IfOk result (λ count.
            Appends (written self.old) (written self.new) (take count bytes.now)) }
        ensures stays { OnErr result (written self.new ≡ written self.old) }
        ensures faults { RisesIf (is_err result) (faults self.old) (faults self.new) }
        ensures once { OnErr result (faults self.new ≡ raised (faults self.old)) }
        ensures last { last_failed self.new ≡ is_err result };
}
