// Twins of the system's files and streams, over files and sinks that expose their state to specifications.
ghost use Rattle.std.specs.Prelude.{◌≡◌, Some, option_and_then};
ghost use Rattle.dcv_io.specs.Disk.{held_of};

use crate::counts::raise;
use crate::file_system::FileSystem;
use crate::real_out::Stream;
use crate::{Failed, Files, Sink};

/// A file system over files that are read by name. It exposes their state, and the numbers of its own calls.
#[derive(Drop)]
pub struct TwinFiles<F: Files> {
    // the files
    files: F,
    // how many opens have failed
    failed_opens: u64,
    // how many reads have failed
    failed_reads: u64,
    // how many calls there were
    calls: u64,
}

/// An open file of a twin, whose bytes are with the files.
#[derive(Clone, Copy)]
pub struct TwinFile;

impl<F: Files> TwinFiles<F> {
    /// These files, before any call.
    pub fn new(files: F) -> Self
        ensures { result ≡ record { files = files; failed_opens = 0; failed_reads = 0; calls = 0 } }
    {
        TwinFiles {
            files,
            failed_opens: 0,
            failed_reads: 0,
            calls: 0,
        }
    }
}

impl<F: Files> FileSystem for TwinFiles<F> {
    type File = TwinFile;

    ghost remaining = { λ twin _. option_and_then (λ disk. disk.open) (F.told twin.files) };

    ghost held = { λ twin. held_of (F.told twin.files) };

    ghost asked = { λ twin. F.asked twin.files };

    ghost counts = { λ twin. Some (record { failed_opens = twin.failed_opens; failed_reads = twin.failed_reads; calls = twin.calls }) };

    fn open(&mut self, name: &str) -> Result<TwinFile, Failed> {
        raise(&mut self.calls);
        match self.files.open_file(name) {
            Ok(()) => Ok(TwinFile),
            Err(fault) => {
                raise(&mut self.failed_opens);
                Err(fault)
            }
        }
    }

    fn read(&mut self, file: &mut Option<TwinFile>, buf: &mut [u8]) -> Result<usize, Failed> {
        raise(&mut self.calls);
        if file.is_some()
            && let Ok(count) = self.files.read(buf)
        {
            return Ok(count);
        }
        raise(&mut self.failed_reads);
        Err(Failed)
    }
}

/// A stream over a sink. It exposes what was written to it, and how many writes have failed.
#[derive(Drop)]
pub struct TwinStream<S: Sink> {
    // the sink
    sink: S,
}

impl<S: Sink> TwinStream<S> {
    /// This sink.
    pub fn new(sink: S) -> Self
        ensures { result ≡ record { sink = sink } }
    {
        TwinStream { sink }
    }

    /// The sink itself.
    pub fn into_sink(self) -> S
        ensures { result ≡ self.sink }
    {
        self.sink
    }
}

impl<S: Sink + Drop> Stream for TwinStream<S> {
    ghost written = { λ twin. S.written twin.sink };

    ghost failures = { λ twin. Some (S.faults twin.sink) };

    fn write_once(&mut self, bytes: &[u8]) -> Result<usize, Failed> {
        self.sink.write(bytes)
    }
}
