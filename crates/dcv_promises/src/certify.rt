//! `certify`: an automaton's text judged by its own words.
ghost use Rattle.std.specs.Prelude.{ℕ, List};
ghost use Rattle.dcv_command.specs.Request.{Certify};
ghost use Rattle.dcv_cli.specs.Request.{AsksFor};
ghost use Rattle.dcv_promises.specs.Promises.{Holds, Ends, seen, IsCertified};

use dcv_cli::{Status, Words, run};
use dcv_io::{Files, Sink};
use std::alloc::Global;

/// `certify FILE`: whether the words of an automaton's text show that no automaton for the same behaviours has fewer states.
#[tactic(auto, using(crate::proofs::Asked::certified))]
pub fn certify<F: Files, O: Sink, E: Sink>(
    alloc: Global,
    words: &Words,
    files: &mut F,
    out: &mut O,
    err: &mut E,
) -> Status
    ensures certified { (name text : List ℕ) → AsksFor words.now (Certify name) → Holds (F.told files.old) name text
        → Ends (IsCertified text) result (seen (O.written out.old) (E.written err.old) (E.faults err.old))
        (seen (O.written out.new) (E.written err.new) (E.faults err.new)) }
{
    run(alloc, words, files, out, err)
}
