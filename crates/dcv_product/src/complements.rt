// The complement of an automaton, which needs no machine.
ghost use Rattle.std.specs.Prelude.{◌≡◌};
ghost use Rattle.dcv_language.specs.Complement.{stands_alone};
ghost use Rattle.dcv_language.specs.Language.{HaveSameBehaviours, outside};
ghost use Rattle.dcv_dfa.specs.Raw.{raw_accepts};
ghost use Rattle.dcv_dfa.specs.Auto.{IsAuto, complement_of};

use dcv_dfa::Auto;

/// The canonical automaton of the words that this one does not accept. It takes no memory: the flags change where they stand,
/// but for that of a start which no word enters.
pub fn complement(auto: Auto) -> Auto
    ensures complement { (one : IsAuto auto) → result ≡ complement_of (stands_alone one.access) auto }
    ensures accepts { HaveSameBehaviours auto.arena.slots (raw_accepts result) (outside (raw_accepts auto)) }
    ensures canonical { IsAuto result }
{
    auto.complement()
}
