//! `stuck`: whether what has kept to a formula so far can always go on.
ghost use Rattle.std.specs.Prelude.{ℕ, List};
ghost use Rattle.dcv_explore.specs.declared.explorer.Limits.{Limits};
ghost use Rattle.dcv_command.specs.Request.{Stuck};
ghost use Rattle.dcv_cli.specs.Request.{AsksFor};
ghost use Rattle.dcv_promises.specs.Promises.{Holds, Ends, seen, IsContinued};

use dcv_cli::{Status, Words, run};
use dcv_io::{Files, Sink};
use std::alloc::Global;

/// `stuck FILE`: whether every behaviour that satisfied the formula at each instant so far can go on so for ever, or a least one after which
/// no next instant satisfies it: the empty one where no first instant does.
#[tactic(auto, using(crate::proofs::Asked::continued))]
pub fn stuck<F: Files, O: Sink, E: Sink>(
    alloc: Global,
    words: &Words,
    files: &mut F,
    out: &mut O,
    err: &mut E,
) -> Status
    ensures continued { (name : List ℕ) (limits : Limits) (text : List ℕ)
        → AsksFor words.now (Stuck name limits) → Holds (F.told files.old) name text
        → Ends (IsContinued text limits) result (seen (O.written out.old) (E.written err.old) (E.faults err.old))
        (seen (O.written out.new) (E.written err.new) (E.faults err.new)) }
{
    run(alloc, words, files, out, err)
}
