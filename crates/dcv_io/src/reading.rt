// Takes a whole file.
ghost use Rattle.std.specs.Prelude.{◌≡◌, ◌⊎◌, ◌+◌, ◌^◌, ◌<◌, ◌≤◌, [], ◌∷◌, length, is_err, IfOk, OnOk, OnErr, IfErr, IsErr, IsOkUnless, IfSome, IfNone, IsSome, IsFalse, Some, Err};
ghost use Rattle.dcv_io.specs.Asked.{Asks};
ghost use Rattle.dcv_io.specs.Disk.{held_of, WhereTold, Opens, Closes, Gives, GivesMany, GivesAtMost, GivesAdded, ReadsAtMost, ReadsPast, IsAtEnd};
ghost use Rattle.dcv_io.specs.Faults.{RisesIf};
ghost use Rattle.dcv_io.specs.Taking.{is_open_fault, is_read_fault, IfTooLong};

use crate::{Files, TakeFault};
use std::alloc::Global;

const BLOCK: usize = 4096;

/// Reads all the bytes of the file of this name, if they are at most `limit`, which is in bytes.
///
/// The file is opened once. Whatever the outcome, at most one byte past the limit is read, to see that a file is
/// longer, in at most as many reads as bytes. After an `Err` open a file before the next read.
pub fn read_all<F: Files>(
    alloc: Global,
    files: &mut F,
    name: &str,
    limit: u64,
) -> Result<Vec<u8>, TakeFault>
    requires { limit < 2 ^ 32 }

    // All that is held under the name, to its end.
    ensures ok { IfOk result (λ bytes. IfSome (held_of (F.told files.old)) (λ held.
        held name.now ≡ Some bytes.items)) }
    ensures within { IfOk result (λ bytes. length bytes.items ≤ limit) }
    ensures end { OnOk result (IsAtEnd (F.told files.new)) }

    // A file that is too long, in both directions, and a missing file. An error that counts no fault is that the
    // file is too long, or that memory is out.
    ensures too_long { IfTooLong result (λ _.
        WhereTold (ReadsPast name.now limit) (F.told files.old) (F.told files.new)) }
    ensures limit { IfTooLong result (λ named. named ≡ limit) }
    ensures longer { IfSome (held_of (F.told files.old)) (λ held. IfSome (held name.now) (λ bytes.
        limit < length bytes → IsErr result)) }
    ensures missing { IfSome (held_of (F.told files.old)) (λ held.
        IfNone (held name.now) (result ≡ Err TakeFault.Open)) }

    // No fault is passed over, and none is invented.
    ensures open_faults { RisesIf (is_open_fault result)
        (F.open_faults files.old) (F.open_faults files.new) }
    ensures read_faults { RisesIf (is_read_fault result)
        (F.read_faults files.old) (F.read_faults files.new) }

    // Whatever the outcome: one open, at most `limit + 1` reads, and at most as many bytes.
    ensures asked { Asks (name.now ∷ []) (F.asked files.old) (F.asked files.new) }
    ensures calls { F.calls files.new ≤ F.calls files.old + limit + 2 }
    ensures at_most { WhereTold (ReadsAtMost name.now (limit + 1)) (F.told files.old) (F.told files.new) }
    ensures held { held_of (F.told files.new) ≡ held_of (F.told files.old) }
{
    open(files, name)?;
    read_to_end(alloc, files, limit)
}

// Opens the file of this name.
fn open<F: Files>(files: &mut F, name: &str) -> Result<(), TakeFault>
    ensures opened { OnOk result
        (WhereTold (Opens name.now) (F.told files.old) (F.told files.new)) }
    ensures closed { OnErr result (WhereTold Closes (F.told files.old) (F.told files.new)) }
    ensures fault { IsOkUnless result TakeFault.Open }
    ensures asked { Asks (name.now ∷ []) (F.asked files.old) (F.asked files.new) }
    ensures calls { F.calls files.new ≤ F.calls files.old + 1 }
    ensures held { held_of (F.told files.new) ≡ held_of (F.told files.old) }
    ensures open_faults { RisesIf (is_err result)
        (F.open_faults files.old) (F.open_faults files.new) }
    ensures read_faults { F.read_faults files.new ≡ F.read_faults files.old }
{
    match files.open_file(name) {
        Ok(()) => Ok(()),
        Err(_) => Err(TakeFault::Open),
    }
}

// Reads the open file to its end, if at most `limit` bytes are left of it.
fn read_to_end<F: Files>(alloc: Global, files: &mut F, limit: u64) -> Result<Vec<u8>, TakeFault>
    requires limit { limit < 2 ^ 32 }
    requires opened { IfSome (F.told files.old) (λ disk. IsSome disk.open) }

    ensures ok { IfOk result (λ bytes.
        WhereTold (Gives bytes.items) (F.told files.old) (F.told files.new)) }
    ensures within { IfOk result (λ bytes. length bytes.items ≤ limit) }
    ensures end { OnOk result (IsAtEnd (F.told files.new)) }
    ensures too_long { IfTooLong result (λ named.
        (named ≡ limit) × GivesMany (limit + 1) (F.told files.old) (F.told files.new)) }
    ensures at_most { GivesAtMost (limit + 1) (F.told files.old) (F.told files.new) }
    ensures not_open { IsFalse (is_open_fault result) }
    ensures asked { F.asked files.new ≡ F.asked files.old }
    ensures calls { F.calls files.new ≤ F.calls files.old + limit + 1 }
    ensures held { held_of (F.told files.new) ≡ held_of (F.told files.old) }
    ensures open_faults { F.open_faults files.new ≡ F.open_faults files.old }
    ensures read_faults { RisesIf (is_read_fault result)
        (F.read_faults files.old) (F.read_faults files.new) }
{
    let mut bytes = Vec::new(alloc);
    let most = limit as usize;
    let mut buffer = [0; BLOCK];
    while bytes.len() <= most {
        let room = (most + 1 - bytes.len()).min(BLOCK);
        let count = read_block(files, &mut buffer[..room], &mut bytes)?;
        if count == 0 {
            return Ok(bytes);
        }
    }
    Err(TakeFault::TooLong { limit })
}

// Reads once, adds the bytes that were read, and returns how many there are.
fn read_block<F: Files>(
    files: &mut F,
    buffer: &mut [u8],
    bytes: &mut Vec<u8>,
) -> Result<usize, TakeFault>
    requires { IfSome (F.told files.old) (λ disk. IsSome disk.open) }
    ensures bound { IfOk result (λ count. count ≤ length buffer.old) }
    ensures added { IfOk result (λ count. length bytes.new.items ≡ length bytes.old.items + count) }
    ensures gives { OnOk result
        (GivesAdded bytes.old.items bytes.new.items (F.told files.old) (F.told files.new)) }
    ensures end { IfOk result (λ count.
        count ≡ 0 → 0 < length buffer.old → IsAtEnd (F.told files.new)) }
    ensures at_most { GivesAtMost (length buffer.old) (F.told files.old) (F.told files.new) }
    ensures asked { F.asked files.new ≡ F.asked files.old }
    ensures calls { F.calls files.new ≤ F.calls files.old + 1 }
    ensures fault { IfErr result (λ fault. (fault ≡ TakeFault.Read) ⊎ (fault ≡ TakeFault.Memory)) }
    ensures held { held_of (F.told files.new) ≡ held_of (F.told files.old) }
    ensures open_faults { F.open_faults files.new ≡ F.open_faults files.old }
    ensures read_faults { RisesIf (is_read_fault result)
        (F.read_faults files.old) (F.read_faults files.new) }
{
    match files.read(buffer) {
        Ok(count) => {
            bytes.extend_from_slice(&buffer[..count])?;
            Ok(count)
        }
        Err(_) => Err(TakeFault::Read),
    }
}
