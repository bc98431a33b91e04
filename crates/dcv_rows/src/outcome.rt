// Runs the program on the arguments of a row, over its files in memory or on the system.
ghost use Rattle.std.specs.Prelude.{◌<◌, All, IfOk};

use crate::fault::Fault;
use crate::pattern::Pattern;
use crate::row::Row;
use dcv_cli::program;
use dcv_io::{MemFiles, MemSink, RealFiles, RealOut, TwinFiles, TwinStream};
use std::alloc::{AllocError, Global};
use std::fs;
use std::process::ExitCode;

// Room for each report and each message in memory, in bytes.
const ROOM: usize = 2_097_152;

// How many reads or writes are short, if they are.
const SHORT: usize = 1_024;

/// The exit status of a run, and what it wrote.
#[derive(Drop)]
pub(crate) struct Outcome {
    pub(crate) status: u8,
    pub(crate) out: Vec<u8>,
    pub(crate) err: Vec<u8>,
}

/// Runs the program over the files of the row in memory, by the code that reads files and writes streams of the system.
pub(crate) fn run_in_memory(
    alloc: Global,
    arguments: &[String],
    row: &Row,
) -> Result<Outcome, Fault> {
    let mut files = RealFiles::of(TwinFiles::new(files_of(alloc, row)?));
    let mut out = stream(alloc, row.numbers.writes, row.numbers.failing_write)?;
    let mut err = stream(alloc, None, row.numbers.failing_message)?;
    let code = program(alloc, Ok(arguments), &mut files, &mut out, &mut err);
    Ok(Outcome {
        status: number_of(code),
        out: written(alloc, out)?,
        err: written(alloc, err)?,
    })
}

/// Runs the program over files of the system, where those of the row are written first, and both streams are files, too.
pub(crate) fn run_on_system(
    rt: &HostRuntime,
    arguments: &[String],
    row: &Row,
) -> Result<Outcome, Fault> {
    put(rt, "f", &row.first)?;
    put(rt, "g", &row.second)?;
    if let Some(before) = &row.before {
        run_into(rt, before, "g")?;
    }
    let status = run_into(rt, arguments, "out")?;
    Ok(Outcome {
        status,
        out: fs::read(rt, "out")?,
        err: fs::read(rt, "err")?,
    })
}

// Runs the program over files of the system, and answers its status. The report goes to the file of this name.
fn run_into(rt: &HostRuntime, arguments: &[String], report: &str) -> Result<u8, Fault> {
    let mut out = RealOut::of(fs::create(rt, report)?);
    let mut err = RealOut::of(fs::create(rt, "err")?);
    let code = program(
        rt.alloc(),
        Ok(arguments),
        &mut RealFiles::new(rt),
        &mut out,
        &mut err,
    );
    Ok(number_of(code))
}

// Writes a file of the row under this name, or sees to it that there is none.
fn put(rt: &HostRuntime, name: &str, file: &Option<Pattern>) -> Result<(), Fault> {
    match file {
        Some(file) => fs::write(rt, name, &file.prefix)?,
        None => {
            // That there was none is as well.
            let _ = fs::remove_file(rt, name);
        }
    }
    Ok(())
}

// The number of an exit code.
fn number_of(code: ExitCode) -> u8 {
    (0..u8::MAX)
        .find(|&number| ExitCode::from(number) == code)
        .unwrap_or(u8::MAX)
}

// The files of the row, under the names `f` and `g`.
fn files_of(alloc: Global, row: &Row) -> Result<MemFiles, AllocError> {
    let sizes = sizes(alloc, row.numbers.reads)?;
    let mut files = MemFiles::new(alloc, &sizes, row.numbers.failing_call.as_slice())?;
    match (&row.first, &row.second) {
        (Some(first), Some(second)) => {
            files.hold("f", &first.prefix)?;
            files.hold("g", &second.prefix)?;
        }
        (Some(first), None) => files.hold("f", &first.prefix)?,
        (None, Some(second)) => files.hold("g", &second.prefix)?,
        (None, None) => {}
    }
    Ok(files)
}

// A stream that takes at most so many bytes a write, and of which this write fails.
fn stream(
    alloc: Global,
    writes: Option<u64>,
    failing: Option<u64>,
) -> Result<RealOut<TwinStream<MemSink>>, AllocError> {
    let sizes = sizes(alloc, writes)?;
    let sink = MemSink::new(alloc, ROOM, &sizes, failing.as_slice())?;
    Ok(RealOut::of(TwinStream::new(sink)))
}

// What was written to such a stream.
fn written(alloc: Global, stream: RealOut<TwinStream<MemSink>>) -> Result<Vec<u8>, AllocError> {
    stream.into_stream().into_sink().written().to_vec(alloc)
}

// The sizes of the first reads or writes, if they are short.
fn sizes(alloc: Global, most: Option<u64>) -> Result<Vec<usize>, AllocError>
    ensures { IfOk result (λ sizes. All (λ size. 0 < size) sizes.items) }
{
    match most {
        Some(most) if most > 0 => vec![in alloc; most as usize; SHORT],
        _ => Ok(Vec::new(alloc)),
    }
}
