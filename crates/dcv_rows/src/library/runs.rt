// A run of the program over a file in memory.
use anyhow::Result;
use dcv_cli::program;
use dcv_io::{MemFiles, MemSink};
use std::alloc::{AllocError, Global};

// Room for the report, and for the message, in bytes.
const ROOM: usize = 4_096;

/// Prints the report of `dcvalid check f`, where the file `f` is in memory.
pub(crate) fn print_run(rt: &HostRuntime) -> Result<()> {
    let alloc = rt.alloc();
    let mut files = MemFiles::new(alloc, &[], &[])?; // no read is short, and no call fails
    files.hold("f", b"var p; infer [[p]];")?;
    let mut out = MemSink::new(alloc, ROOM, &[], &[])?;
    let mut err = MemSink::new(alloc, ROOM, &[], &[])?;
    let arguments = arguments(alloc)?;
    // its exit code is that of the program
    let _ = program(alloc, Ok(&arguments), &mut files, &mut out, &mut err);
    let report = String::from_utf8_lossy(alloc, out.written())?;
    print!(rt; "{report}")?;
    Ok(())
}

// The program's name and the words.
fn arguments(alloc: Global) -> Result<Vec<String>, AllocError> {
    let mut arguments = Vec::new(alloc);
    for word in ["dcvalid", "check", "f"] {
        arguments.push(String::from_str(alloc, word)?)?;
    }
    Ok(arguments)
}
