//! `all`, in the words of the logic alone.
ghost use Rattle.std.specs.Prelude.{ℕ, List};
ghost use Rattle.dcv_explore.specs.declared.explorer.Limits.{Limits};
ghost use Rattle.dcv_language.specs.declared.kind.Kind.TheVariants.{All};
ghost use Rattle.dcv_command.specs.Request.{Report};
ghost use Rattle.dcv_cli.specs.Headline.{AllIsSaid, IsAnswered};
ghost use Rattle.dcv_cli.specs.Request.{AsksFor};
ghost use Rattle.dcv_promises.specs.Promises.{Holds, Ends, seen};

use dcv_cli::laws::headline;
use dcv_cli::{Status, Words, run};
use dcv_io::{Files, Sink};
use std::alloc::Global;

/// `all FILE`, in the words of the logic alone: a verdict, an automaton and two observers of exactly the behaviours that satisfy the formula,
/// no automaton of which has fewer states; 0 exactly where each behaviour satisfies it.
#[tactic(auto, using(crate::proofs::Asked::answered))]
pub fn all<F: Files, O: Sink, E: Sink>(
    alloc: Global,
    words: &Words,
    files: &mut F,
    out: &mut O,
    err: &mut E,
) -> Status
    ensures answered { (name : List ℕ) (limits : Limits) (text : List ℕ)
        → AsksFor words.now (Report All name limits) → Holds (F.told files.old) name text
        → Ends (IsAnswered AllIsSaid text limits) result (seen (O.written out.old) (E.written err.old) (E.faults err.old))
        (seen (O.written out.new) (E.written err.new) (E.faults err.new)) }
{
    headline();
    run(alloc, words, files, out, err)
}
