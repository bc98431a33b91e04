//! What holds of every run, however it ends.
ghost use Rattle.std.specs.Prelude.{◌≡◌, [], true};
ghost use Rattle.std.specs.Bool.{OnTrue};
ghost use Rattle.dcv_io.specs.Disk.{held_of};
ghost use Rattle.dcv_io.specs.Faults.{RisesIf};
ghost use Rattle.dcv_io.specs.Written.{Appends};
ghost use Rattle.clap.specs.Words.{takes};
ghost use Rattle.dcv_command.specs.Program.{program};
ghost use Rattle.dcv_cli.specs.Ending.{AddsFront, AsksFrontOf, HasInputCause};
ghost use Rattle.dcv_cli.specs.Right.{IsRightOver};
ghost use Rattle.dcv_cli.specs.Status.{is_answer, is_output, is_silent};

use dcv_cli::{Status, Words, run};
use dcv_io::{Files, Sink};
use std::alloc::Global;

/// However a run ends: no file is opened but those that the words name, and what they hold stays; on the output is a prefix of a right report;
/// words that are taken are never refused; and a fault of the files or of the output is never passed over, nor named where there was none.
pub fn any<F: Files, O: Sink, E: Sink>(
    alloc: Global,
    words: &Words,
    files: &mut F,
    out: &mut O,
    err: &mut E,
) -> Status
    ensures opens { AsksFrontOf words.now (F.asked files.old) (F.asked files.new) }
    ensures held { held_of (F.told files.new) ≡ held_of (F.told files.old) }
    ensures prefix { AddsFront (IsRightOver words.now (F.told files.old)) (O.written out.old) (O.written out.new) }
    ensures taken { result ≡ Status.Usage → ¬ (takes program words.now ≡ true) }
    ensures input { HasInputCause result (F.open_faults files.old) (F.open_faults files.new) (F.read_faults files.old) (F.read_faults files.new) }
    ensures output { RisesIf (is_output result) (O.faults out.old) (O.faults out.new) }
    ensures silent { OnTrue (is_silent result) (Appends (O.written out.old) (O.written out.new) []) }
    ensures no_message { OnTrue (is_answer result) (Appends (E.written err.old) (E.written err.new) []) }
{
    run(alloc, words, files, out, err)
}
