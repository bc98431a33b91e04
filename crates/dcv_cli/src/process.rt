// The program: from the arguments of its process to the exit code.
ghost use Rattle.std.specs.Prelude.{◌≡◌, ◌≢◌, map, drop, IfOk, OnErr, IfErr};
ghost use Rattle.std.specs.Process.{exit_status};
ghost use Rattle.std.specs.String.{string_bytes};
ghost use Rattle.dcv_cli.specs.Ending.{Tells};
ghost use Rattle.dcv_cli.specs.Outside.{outside};
ghost use Rattle.dcv_cli.specs.Promise.{Promise, seen, not_utf8};
ghost use Rattle.dcv_cli.specs.Refusal.{message_of, only};
ghost use Rattle.dcv_cli.specs.Status.{code_of};
ghost use Rattle.dcv_cli.specs.declared.refusal.Refusal.TheVariants.{Memory};

use crate::refusal::Refusal;
use crate::refused::Which;
use crate::running::{refuse, run};
use crate::status::Status;
use crate::words::Words;
use dcv_io::{Files, Sink, write_all};
use std::alloc::Global;
use std::io::ErrorKind;
use std::process::ExitCode;

/// Runs the program on the arguments of its process, of which the first is its name, and returns the exit code: that of the status with which
/// the run of the others ended. Where the arguments cannot be fetched nothing is run: it is 7 if memory ran out, and else 2.
pub fn program<F: Files, O: Sink, E: Sink>(
    alloc: Global,
    arguments: Result<&[String], ErrorKind>,
    files: &mut F,
    out: &mut O,
    err: &mut E,
) -> ExitCode
    ensures ran { IfOk arguments.entry (λ arguments. (status : Status) × (exit_status result ≡ code_of status) × Promise (map string_bytes (drop 1 arguments.now)) status
        (seen F.Files O.Sink E.Sink files.old out.old err.old) (seen F.Files O.Sink E.Sink files.new out.new err.new)) }

    // Without arguments the messages have a line, and all else stays as it was.
    ensures memory { IfErr arguments.entry (λ kind. kind ≡ ErrorKind.OutOfMemory → exit_status result ≡ 7) }
    ensures memory_message { IfErr arguments.entry (λ kind. kind ≡ ErrorKind.OutOfMemory →
        Tells (message_of (only Memory)) (E.written err.old) (E.written err.new) (E.faults err.old) (E.faults err.new)) }
    ensures usage { IfErr arguments.entry (λ kind. kind ≢ ErrorKind.OutOfMemory → exit_status result ≡ 2) }
    ensures usage_message { IfErr arguments.entry (λ kind. kind ≢ ErrorKind.OutOfMemory →
        Tells not_utf8 (E.written err.old) (E.written err.new) (E.faults err.old) (E.faults err.new)) }
    ensures untouched { OnErr arguments.entry (outside F.Files O.Sink files.new out.new ≡ outside F.Files O.Sink files.old out.old) }
{
    let status = match arguments {
        Ok(arguments) => run_arguments(alloc, arguments, files, out, err),
        Err(kind) => refuse_all(err, kind),
    };
    ExitCode::from(status.code())
}

// Runs the arguments after the program's name.
fn run_arguments<F: Files, O: Sink, E: Sink>(
    alloc: Global,
    arguments: &[String],
    files: &mut F,
    out: &mut O,
    err: &mut E,
) -> Status
    ensures { Promise (map string_bytes (drop 1 arguments.now)) result
        (seen F.Files O.Sink E.Sink files.old out.old err.old) (seen F.Files O.Sink E.Sink files.new out.new err.new) }
{
    match Words::of_arguments(alloc, arguments) {
        Ok(words) => run(alloc, &words, files, out, err),
        Err(_) => refuse(err, Refusal::Memory.of(Which::Only)),
    }
}

// Says why there are no arguments.
fn refuse_all<E: Sink>(err: &mut E, kind: ErrorKind) -> Status
    ensures memory { kind ≡ ErrorKind.OutOfMemory → result ≡ Status.Memory }
    ensures memory_message { kind ≡ ErrorKind.OutOfMemory →
        Tells (message_of (only Memory)) (E.written err.old) (E.written err.new) (E.faults err.old) (E.faults err.new) }
    ensures usage { kind ≢ ErrorKind.OutOfMemory → result ≡ Status.Usage }
    ensures usage_message { kind ≢ ErrorKind.OutOfMemory → Tells not_utf8 (E.written err.old) (E.written err.new) (E.faults err.old) (E.faults err.new) }
{
    if kind == ErrorKind::OutOfMemory {
        return refuse(err, Refusal::Memory.of(Which::Only));
    }
    say_not_utf8(err);
    Status::Usage
}

// A message that cannot be written changes nothing.
fn say_not_utf8<E: Sink>(err: &mut E)
    ensures { Tells not_utf8 (E.written err.old) (E.written err.new) (E.faults err.old) (E.faults err.new) }
{
    let _ = write_all(err, b"the arguments are not UTF-8 text\n");
}
