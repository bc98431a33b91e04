// The verdict of an automaton is that of the words that it accepts.
ghost use Rattle.std.specs.Prelude.{IfOk};
ghost use Rattle.dcv_language.specs.Language.{outside};
ghost use Rattle.dcv_language.specs.Verdict.{IsLeastOf, IsVerdict};
ghost use Rattle.dcv_dfa.specs.Raw.{raw_accepts};
ghost use Rattle.dcv_print.specs.Verdict.{letters_of, seen_verdict};
ghost use Rattle.dcv_print.specs.Said.{SaysSomeVerdict, SaysEachVerdict};

use crate::verdict_lines::Verdict;
use dcv_dfa::{Auto, Raw};
use dcv_language::laws::one_verdict;
use dcv_reach::shortest_in;
use dcv_word::Word;
use std::alloc::{AllocError, Global};

/// The verdict of the words that an automaton accepts.
pub fn verdict(alloc: Global, auto: &Auto) -> Result<Verdict, AllocError>
    ensures { IfOk result (λ verdict. IsVerdict auto.now.arena.slots (raw_accepts auto.now) (seen_verdict verdict)) }
{
    verdict_in(alloc, auto.raw())
}

/// The same of an automaton that need not be canonical.
pub fn verdict_in(alloc: Global, raw: &Raw) -> Result<Verdict, AllocError>
    ensures { IfOk result (λ verdict. IsVerdict raw.now.arena.slots (raw_accepts raw.now) (seen_verdict verdict)) }
{
    let counterexample = least_refused(alloc, raw)?;
    let example = least_accepted(alloc, raw)?;
    Ok(Verdict {
        counterexample,
        example,
    })
}

/// The lines that say the verdict of the words that an automaton accepts.
pub fn verdict_text(alloc: Global, auto: &Auto) -> Result<Vec<u8>, AllocError>
    // There is a verdict, and no other.
    ensures some { IfOk result (λ text. SaysSomeVerdict auto.now.arena.slots (raw_accepts auto.now) text.items) }
    ensures each { IfOk result (λ text. SaysEachVerdict auto.now.arena.slots (raw_accepts auto.now) text.items) }
{
    one_verdict();
    verdict(alloc, auto)?.text(alloc)
}

// The least word that an automaton refuses.
#[tactic(auto, using(crate::proofs::LeastWords::least_outside))]
fn least_refused(alloc: Global, raw: &Raw) -> Result<Option<Word>, AllocError>
    ensures { IfOk result (λ word. IsLeastOf raw.now.arena.slots (outside (raw_accepts raw.now)) (letters_of word)) }
{
    shortest_in(alloc, raw, false)
}

// The least word that an automaton accepts.
#[tactic(auto, using(crate::proofs::LeastWords::least_inside))]
fn least_accepted(alloc: Global, raw: &Raw) -> Result<Option<Word>, AllocError>
    ensures { IfOk result (λ word. IsLeastOf raw.now.arena.slots (raw_accepts raw.now) (letters_of word)) }
{
    shortest_in(alloc, raw, true)
}
