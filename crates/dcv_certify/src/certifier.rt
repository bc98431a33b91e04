//! The parts: where the access words lead, whether the words are the program's own, and else which states the suffixes tell apart.
ghost use Rattle.std.specs.Prelude.{IfOk, IfSome, IfNone};
ghost use Rattle.dcv_certify.specs.Certified.{HasGoodWords, HasAllTold, HasFewestStates, IsFirstPair, WhereMinimal, IsCertified};

use crate::alike::first_pair;
use crate::answer::Answer;
use crate::laws::minimal_shows_fewest_states;
use crate::own::lists_own_words;
use crate::words::first_astray;
use dcv_automaton_read::AutoFile;
use std::alloc::{AllocError, Global};

/// Whether the words of a text show by themselves that its table has the fewest states (A. Nerode, 1958).
///
/// The access word of a state is followed from state 0 as its line spells it. A suffix tells two states apart where both access words,
/// continued by it, have a letter at least, and exactly one of them is accepted.
pub fn certify(alloc: Global, file: &AutoFile) -> Result<Answer, AllocError>
    ensures answer { IfOk result (IsCertified file.now) }
    ensures fewest { IfOk result (WhereMinimal (HasFewestStates file.now)) }
    ensures reached { IfOk result (WhereMinimal (HasGoodWords file.now)) }
{
    minimal_shows_fewest_states();
    // for the prover: what is true of every file.
    file.keeps_the_rules();
    if let Some(state) = first_astray(alloc, file)? {
        return Ok(Answer::Access { state });
    }
    match first_untold(alloc, file)? {
        Some((first, second)) => Ok(Answer::Pair { first, second }),
        None => Ok(Answer::Minimal),
    }
}

// The first two states that no suffix tells apart. There are none where the words are the program's own.
fn first_untold(alloc: Global, file: &AutoFile) -> Result<Option<(u32, u32)>, AllocError>
    requires { HasGoodWords file.now }
    ensures some { IfOk result (λ found. IfSome found (λ pair. IsFirstPair file.now pair.0 pair.1)) }
    ensures none { IfOk result (λ found. IfNone found (HasAllTold file.now)) }
{
    if lists_own_words(alloc, file)? {
        return Ok(None);
    }
    first_pair(alloc, file)
}
