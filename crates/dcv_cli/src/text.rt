// The texts that a command reads.
ghost use Rattle.std.specs.Prelude.{◌≡◌, ◌<◌, ◌≤◌, Some, length, IfOk, IfErr, IfSome, IsTrue};
ghost use Rattle.dcv_io.specs.Disk.{held_of};
ghost use Rattle.std.specs.Bool.{OnTrue};
ghost use Rattle.dcv_cli.specs.Held.{OfHeldText};
ghost use Rattle.dcv_cli.specs.Outside.{of_files};
ghost use Rattle.dcv_cli.specs.Performed.{Takes};
ghost use Rattle.dcv_cli.specs.Status.{is_determined};
ghost use Rattle.dcv_cli.specs.Refusal.{is_of_text, status_of};

use crate::refusal::Refusal;
use dcv_io::{Files, TakeFault, read_all};
use std::alloc::Global;

/// The text that is held under the name. One with more bytes than the limit is refused for that.
pub(crate) fn take<F: Files>(
    alloc: Global,
    files: &mut F,
    name: &str,
    limit: u32,
    too_long: Refusal,
) -> Result<Vec<u8>, Refusal>
    requires { IsTrue (is_of_text too_long) }
    ensures ok { IfOk result (λ text. IfSome (held_of (F.told files.old)) (λ held. held name.now ≡ Some text.items)) }
    ensures short { IfOk result (λ text. length text.items ≤ limit) }

    // Where it is neither the outside nor memory, the text is too long.
    ensures refused { IfErr result (λ refusal. OnTrue (is_determined (status_of refusal))
        ((refusal ≡ too_long) × OfHeldText (F.told files.old) name.now (λ text. limit < length text))) }
    ensures taken { Takes limit name.now result (of_files F.Files files.old) (of_files F.Files files.new) }
{
    match read_all(alloc, files, name, u64::from(limit)) {
        Ok(text) => Ok(text),
        Err(TakeFault::Open) => Err(Refusal::Open),
        Err(TakeFault::Read) => Err(Refusal::Read),
        Err(TakeFault::TooLong { .. }) => Err(too_long),
        Err(TakeFault::Memory) => Err(Refusal::Memory),
    }
}
