//! `implies`: two formula files compared.
ghost use Rattle.std.specs.Prelude.{ℕ, List};
ghost use Rattle.dcv_explore.specs.declared.explorer.Limits.{Limits};
ghost use Rattle.dcv_command.specs.Request.{Implies};
ghost use Rattle.dcv_cli.specs.Request.{AsksFor};
ghost use Rattle.dcv_promises.specs.Promises.{Holds, Ends, seen, IsImplied};

use dcv_cli::{Status, Words, run};
use dcv_io::{Files, Sink};
use std::alloc::Global;

/// `implies FILE FILE`: whether each behaviour that satisfies the first formula satisfies the second, or a least behaviour that does not.
#[tactic(auto, using(crate::proofs::Asked::implied))]
pub fn implies<F: Files, O: Sink, E: Sink>(
    alloc: Global,
    words: &Words,
    files: &mut F,
    out: &mut O,
    err: &mut E,
) -> Status
    ensures implied { (first second : List ℕ) (limits : Limits) (one other : List ℕ)
        → AsksFor words.now (Implies first second limits) → Holds (F.told files.old) first one → Holds (F.told files.old) second other
        → Ends (IsImplied one other limits) result (seen (O.written out.old) (E.written err.old) (E.faults err.old))
        (seen (O.written out.new) (E.written err.new) (E.faults err.new)) }
{
    run(alloc, words, files, out, err)
}
