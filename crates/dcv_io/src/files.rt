// Files that are opened by name and read from the front, one at a time.
ghost use Rattle.std.specs.Prelude.{◌≡◌, ◌<◌, ◌≤◌, ℕ, List, [], ◌∷◌, Option, length, take, drop, is_err, IfOk, OnOk, OnErr, OnSome};
ghost use Rattle.dcv_io.specs.Asked.{Asks};
ghost use Rattle.dcv_io.specs.Disk.{Disk, held_of, WhereTold, Opens, Closes, Gives, IsAtEnd};
ghost use Rattle.dcv_io.specs.Faults.{raised, RisesIf};

use crate::Failed;

/// Files that are read by name. One is open at a time.
///
/// An object may expose its disk to specifications, and then the clauses say which bytes a read returns; or no bytes, as the real
/// files do. It may expose the names that it was asked for, and stop doing so. It always counts its failed opens and its failed reads.
pub trait Files {
    /// How many calls of `open_file` have failed, up to 2^64 - 1.
    ghost open_faults: { Self → ℕ };

    /// How many calls of `read` have failed, up to 2^64 - 1.
    ghost read_faults: { Self → ℕ };

    /// How many calls there have been, opens and reads together, up to 2^64 - 1.
    ghost calls: { Self → ℕ };

    /// What is held and what is open; None claims nothing.
    ghost told: { Self → Option Disk };

    /// The names by which files were asked for, in order, opened or not; None claims nothing.
    ghost asked: { Self → Option (List (List ℕ)) };

    /// Opens the file of this name, to be read from its front, in place of the file open before.
    /// A missing file is a failed open, and after a failed open no file is open.
    fn open_file(&mut self, name: &str) -> Result<(), Failed>
        ensures opened { OnOk result (WhereTold (Opens name.now) (told self.old) (told self.new)) }
        ensures closed { OnErr result (WhereTold Closes (told self.old) (told self.new)) }
        ensures held { held_of (told self.new) ≡ held_of (told self.old) }
        ensures asked { Asks (name.now ∷ []) (asked self.old) (asked self.new) }
        ensures calls { calls self.new ≡ raised (calls self.old) }
        ensures open_faults { RisesIf (is_err result)
            (open_faults self.old) (open_faults self.new) }
        ensures read_faults { read_faults self.new ≡ read_faults self.old };

    /// Reads the next bytes of the open file into the front of the buffer, and returns how many.
    /// With no file open it fails.
    fn read(&mut self, buf: &mut [u8]) -> Result<usize, Failed>
        ensures bound { IfOk result (λ count. count ≤ length buf.old) }

        // Into a buffer with room, 0 bytes come only at the end.
        ensures gives { IfOk result (λ count.
            WhereTold (Gives (take count buf.new)) (told self.old) (told self.new)) }
        ensures end { IfOk result (λ count.
            count ≡ 0 → 0 < length buf.old → IsAtEnd (told self.new)) }
        ensures buffer { IfOk result (λ count.
            OnSome (told self.old) (drop count buf.new ≡ drop count buf.old)) }

        ensures stays { OnErr result (told self.new ≡ told self.old) }
        ensures same_buffer { OnErr result (OnSome (told self.old) (buf.new ≡ buf.old)) }

        ensures held { held_of (told self.new) ≡ held_of (told self.old) }
        ensures asked { asked self.new ≡ asked self.old }
        ensures calls { calls self.new ≡ raised (calls self.old) }
        ensures read_faults { RisesIf (is_err result)
            (read_faults self.old) (read_faults self.new) }
        ensures open_faults { open_faults self.new ≡ open_faults self.old };
}
