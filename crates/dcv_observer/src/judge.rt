// What the judging of names has in common.
ghost use Rattle.std.specs.Prelude.{◌≡◌};
ghost use Rattle.dcv_observer.specs.declared.fault.ObsFault.TheVariants.{Names};

use crate::fault::ObsFault;
use crate::items::Item;

/// The fault at a word that breaks its rule.
pub fn broken(word: &Item<'_>) -> ObsFault
    ensures { result ≡ Names word.now.start }
{
    ObsFault::Names { at: word.start }
}
