//! `replay-lustre`, `replay-c` and `replay-tables`: an observer that is run over a trace.
ghost use Rattle.std.specs.Prelude.{ℕ, List};
ghost use Rattle.dcv_command.specs.Request.{Replay};
ghost use Rattle.dcv_command.specs.declared.words.Subset.{Subset};
ghost use Rattle.dcv_cli.specs.Request.{AsksFor};
ghost use Rattle.dcv_promises.specs.Promises.{Holds, Ends, seen, IsReplayed};

use dcv_cli::{Status, Words, run};
use dcv_io::{Files, Sink};
use std::alloc::Global;

/// `replay-lustre FILE FILE`, `replay-c FILE FILE` and `replay-tables FILE FILE`: the observer's answer at each instant of the trace, by the meaning of its text.
#[tactic(auto, using(crate::proofs::Asked::replayed))]
pub fn replay<F: Files, O: Sink, E: Sink>(
    alloc: Global,
    words: &Words,
    files: &mut F,
    out: &mut O,
    err: &mut E,
) -> Status
    ensures replayed { (subset : Subset) (observer trace : List ℕ) (one other : List ℕ)
        → AsksFor words.now (Replay subset observer trace) → Holds (F.told files.old) observer one → Holds (F.told files.old) trace other
        → Ends (IsReplayed subset one other) result (seen (O.written out.old) (E.written err.old) (E.faults err.old))
        (seen (O.written out.new) (E.written err.new) (E.faults err.new)) }
{
    run(alloc, words, files, out, err)
}
