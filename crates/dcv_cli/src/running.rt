// The run of the program.
ghost use Rattle.std.specs.Prelude.{◌≡◌};
ghost use Rattle.dcv_cli.specs.Ending.{Tells};
ghost use Rattle.dcv_cli.specs.Promise.{Promise, seen};
ghost use Rattle.dcv_cli.specs.Refusal.{status_of, message_of};
ghost use Rattle.dcv_command.specs.Request.{IsInRange};
ghost use Rattle.dcv_command.specs.Seen.{asked_by};
ghost use Rattle.dcv_cli.specs.Outside.{outside};
ghost use Rattle.dcv_cli.specs.Performed.{PerformsRequest};

use crate::certify::Certifier;
use crate::command::{over_automaton, over_formula};
use crate::convert::Converter;
use crate::file_set::{Question, decide_set};
use crate::implies::compare_files;
use crate::refusal::Refusal;
use crate::refused::{Ended, Refused, Which};
use crate::replay::replay_file;
use crate::reply::send;
use crate::report::Reporter;
use crate::status::Status;
use crate::stuck::StuckFinder;
use crate::sweep::sweep_formulas;
use crate::synth::Synthesiser;
use crate::words::Words;
use dcv_command::{Request, WordsFault, read_words};
use dcv_io::{Files, Sink, write_all};
use std::alloc::Global;

/// Runs the program: does what the words ask for with the files, writes the report to `out`, or a line that says
/// why there is none to `err`, and returns how it ended.
///
/// `check FILE` writes the verdict of the formula in the file: whether each behaviour satisfies it, whether some
/// does, a shortest behaviour that does not, and a shortest that does. `automaton FILE` writes its minimal automaton,
/// with words that show that none with fewer states accepts just the behaviours that satisfy it. `lustre FILE` and `c FILE`
/// write that automaton as an observer, and `all FILE` all four, each after a line that names it. `certify FILE` judges the words of an
/// automaton's text, and `convert FILE --to N` writes it in version N: version 2 says what each step of the formula took, and version 1 does
/// not. `implies FILE FILE` says whether each behaviour that satisfies the first formula satisfies the second, or writes a shortest that does
/// not. `stuck FILE` writes `never stuck`, or the least behaviour that keeps to the requirement and cannot be continued.
/// `synth FILE --inputs N` writes a controller whose outputs, the variables after the first N, satisfy the formula at each instant whatever
/// its inputs, the first N, are; or else how the inputs are picked by which no controller does, and within how many instants.
/// `replay-lustre OBSERVER TRACE`, `replay-c OBSERVER TRACE` and `replay-tables OBSERVER TRACE` write an observer's answer at each instant of a trace.
/// `sweep SEED COUNT` writes how many of the formulas that are drawn from the seed are valid, and what else is counted over them.
/// `together FILE ..` writes the least behaviour that satisfies the formulas of all files, over the names of all of them, and `never stuck`, or the
/// least behaviour that keeps to all of them and cannot be continued. `follows FILE ..` says whether each behaviour that satisfies all files after the
/// first satisfies the first, or writes a shortest that does not.
#[tactic(auto, using(crate::proofs::ThreeEnds::nothing_told))]
pub fn run<F: Files, O: Sink, E: Sink>(
    alloc: Global,
    words: &Words,
    files: &mut F,
    out: &mut O,
    err: &mut E,
) -> Status
    ensures { Promise words.now result
        (seen F.Files O.Sink E.Sink files.old out.old err.old) (seen F.Files O.Sink E.Sink files.new out.new err.new) }
{
    let request = match read_words(alloc, words.as_slice()) {
        Ok(request) => request,
        Err(WordsFault::Usage { text }) => {
            // A message that cannot be written changes nothing.
            let _ = write_all(err, text.as_bytes());
            return Status::Usage;
        }
        Err(WordsFault::Memory) => return refuse(err, Refusal::Memory.of(Which::Only)),
    };
    match perform(alloc, request, files, out) {
        Ok(status) => status,
        Err(refused) => refuse(err, refused),
    }
}

// Says why there is no report. A message that cannot be written changes nothing.
pub(crate) fn refuse<E: Sink>(err: &mut E, refused: Refused) -> Status
    ensures status { result ≡ status_of refused.refusal }
    ensures message { Tells (message_of refused) (E.written err.old) (E.written err.new) (E.faults err.old) (E.faults err.new) }
{
    let _ = send(&refused, err);
    refused.refusal.status()
}

/// Does what the request asks for, or says why not.
pub(crate) fn perform<F: Files, O: Sink>(
    alloc: Global,
    request: Request,
    files: &mut F,
    out: &mut O,
) -> Ended
    requires { IsInRange (asked_by request) }
    ensures { PerformsRequest (asked_by request.entry) result
        (outside F.Files O.Sink files.old out.old) (outside F.Files O.Sink files.new out.new) }
{
    match request {
        Request::Report { kind, file, limits } => {
            let reporter = Reporter { kind, limits };
            over_formula(alloc, &reporter, file, Which::Only, files, out)
        }
        Request::Certify { automaton } => over_automaton(alloc, &Certifier, automaton, files, out),
        Request::Convert { automaton, to } => {
            over_automaton(alloc, &Converter { to }, automaton, files, out)
        }
        Request::Implies {
            first,
            second,
            limits,
        } => compare_files(alloc, first, second, limits, files, out),
        Request::Stuck { file, limits } => {
            over_formula(
                alloc,
                &StuckFinder { limits },
                file,
                Which::Only,
                files,
                out,
            )
        }
        Request::Synth {
            file,
            inputs,
            limits,
        } => {
            let synthesiser = Synthesiser { inputs, limits };
            over_formula(alloc, &synthesiser, file, Which::Only, files, out)
        }
        Request::Replay {
            subset,
            observer,
            trace,
        } => replay_file(alloc, subset, observer, trace, files, out),
        Request::Sweep { seed, count } => sweep_formulas(alloc, seed, count, out),
        Request::Set {
            asked,
            files: names,
            limits,
            tuples,
        } => {
            let question = Question {
                asked,
                limits,
                tuples,
            };
            decide_set(alloc, question, &names, files, out)
        }
    }
}
