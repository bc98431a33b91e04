//! `together` and `follows`: what is asked of several formula files together.
ghost use Rattle.std.specs.Prelude.{ℕ, List};
ghost use Rattle.dcv_explore.specs.declared.explorer.Limits.{Limits};
ghost use Rattle.dcv_command.specs.Request.{Set};
ghost use Rattle.dcv_command.specs.declared.words.SetQuestion.{SetQuestion};
ghost use Rattle.dcv_cli.specs.Request.{AsksFor};
ghost use Rattle.dcv_promises.specs.Promises.{HoldEach, Ends, seen, IsDecided};

use dcv_cli::{Status, Words, run};
use dcv_io::{Files, Sink};
use std::alloc::Global;

/// `together FILE ..`: a least behaviour, over the names of all files, that satisfies the formula of each, if there is one, and whether every behaviour
/// that satisfied all of them at each instant so far can go on. `follows FILE ..`: whether each behaviour that satisfies all files after the first
/// satisfies the first, or a least behaviour that does not.
#[tactic(auto, using(crate::proofs::Asked::decided))]
pub fn set<F: Files, O: Sink, E: Sink>(
    alloc: Global,
    words: &Words,
    files: &mut F,
    out: &mut O,
    err: &mut E,
) -> Status
    ensures decided { (question : SetQuestion) (names : List (List ℕ)) (limits : Limits) (tuples : ℕ) (texts : List (List ℕ))
        → AsksFor words.now (Set question names limits tuples) → HoldEach (F.told files.old) names texts
        → Ends (IsDecided question texts limits tuples) result (seen (O.written out.old) (E.written err.old) (E.faults err.old))
        (seen (O.written out.new) (E.written err.new) (E.faults err.new)) }
{
    run(alloc, words, files, out, err)
}
