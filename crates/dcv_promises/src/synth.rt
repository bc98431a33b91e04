//! `synth`: a controller, or a strategy that beats every controller.
ghost use Rattle.std.specs.Prelude.{ℕ, List};
ghost use Rattle.dcv_explore.specs.declared.explorer.Limits.{Limits};
ghost use Rattle.dcv_command.specs.Request.{Synth};
ghost use Rattle.dcv_cli.specs.Request.{AsksFor};
ghost use Rattle.dcv_promises.specs.Promises.{Holds, Ends, seen, IsPlayed};

use dcv_cli::{Status, Words, run};
use dcv_io::{Files, Sink};
use std::alloc::Global;

/// `synth FILE --inputs N`: a controller that keeps to the formula at each instant whatever its inputs are, or how every controller is beaten.
#[tactic(auto, using(crate::proofs::Asked::played))]
pub fn synth<F: Files, O: Sink, E: Sink>(
    alloc: Global,
    words: &Words,
    files: &mut F,
    out: &mut O,
    err: &mut E,
) -> Status
    ensures played { (name : List ℕ) (inputs : ℕ) (limits : Limits) (text : List ℕ)
        → AsksFor words.now (Synth name inputs limits) → Holds (F.told files.old) name text
        → Ends (IsPlayed text inputs limits) result (seen (O.written out.old) (E.written err.old) (E.faults err.old))
        (seen (O.written out.new) (E.written err.new) (E.faults err.new)) }
{
    run(alloc, words, files, out, err)
}
