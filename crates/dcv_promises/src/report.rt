//! `check`, `automaton`, `lustre`, `c`, `tables` and `all`: a report on a formula file.
ghost use Rattle.std.specs.Prelude.{ℕ, List};
ghost use Rattle.dcv_explore.specs.declared.explorer.Limits.{Limits};
ghost use Rattle.dcv_language.specs.declared.kind.Kind.{Kind};
ghost use Rattle.dcv_command.specs.Request.{Report};
ghost use Rattle.dcv_cli.specs.Request.{AsksFor};
ghost use Rattle.dcv_promises.specs.Promises.{Holds, Ends, seen, IsReported};

use dcv_cli::{Status, Words, run};
use dcv_io::{Files, Sink};
use std::alloc::Global;

/// `check FILE`, `automaton FILE`, `lustre FILE`, `c FILE`, `tables FILE` and `all FILE`: the first fault of the text is named, or the first step
/// that is over the limits; or what is written is the report that is asked for, on exactly the behaviours that satisfy the formula, and the status
/// is that of their verdict.
#[tactic(auto, using(crate::proofs::Asked::reported))]
pub fn report<F: Files, O: Sink, E: Sink>(
    alloc: Global,
    words: &Words,
    files: &mut F,
    out: &mut O,
    err: &mut E,
) -> Status
    ensures reported { (kind : Kind) (name : List ℕ) (limits : Limits) (text : List ℕ)
        → AsksFor words.now (Report kind name limits) → Holds (F.told files.old) name text
        → Ends (IsReported kind text limits) result (seen (O.written out.old) (E.written err.old) (E.faults err.old))
        (seen (O.written out.new) (E.written err.new) (E.faults err.new)) }
{
    run(alloc, words, files, out, err)
}
