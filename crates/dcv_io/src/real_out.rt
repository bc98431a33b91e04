// The streams that are written to, with their faults counted.
ghost use Rattle.std.specs.Prelude.{◌≡◌, ◌<◌, ◌≤◌, ℕ, false, List, Option, None, length, take, is_err, IfOk, OnErr};
ghost use Rattle.std.specs.Io.KnownBytes.{WriteAppends};
ghost use Rattle.dcv_io.specs.Called.{FailsAs, WhereCounted, counted};
ghost use Rattle.dcv_io.specs.Written.{Appends};

use crate::counts::raise;
use crate::{Failed, Sink};
use std::fs::File;
use std::io::Write;
use std::marker::Model;
use std::rt::{Stderr, Stdout};

/// A stream that bytes are written to: one of the process, or a twin of it that exposes its contents and the number of its failures.
pub trait Stream: Drop {
    /// All the bytes that it has taken; None claims nothing.
    ghost written: { Self → Option (List ℕ) };

    /// How many writes have failed; None claims nothing.
    ghost failures: { Self → Option ℕ };

    /// Writes once, and returns how many bytes were taken. A write that takes none of some bytes has failed.
    fn write_once(&mut self, bytes: &[u8]) -> Result<usize, Failed>
        ensures bound { IfOk result (λ count. count ≤ length bytes.now) }
        ensures progress { IfOk result (λ count. 0 < length bytes.now → 0 < count) }
        ensures taken { IfOk result (λ count. Appends (written self.old) (written self.new) (take count bytes.now)) }
        ensures stays { OnErr result (written self.new ≡ written self.old) }
        ensures failures { WhereCounted (FailsAs (is_err result)) (failures self.old) (failures self.new) };
}

impl Stream for Stdout {
    ghost written = { λ _. None };

    ghost failures = { λ _. None };

    fn write_once(&mut self, bytes: &[u8]) -> Result<usize, Failed> {
        taken(self, bytes)
    }
}

impl Stream for File {
    ghost written = { λ _. None };

    ghost failures = { λ _. None };

    fn write_once(&mut self, bytes: &[u8]) -> Result<usize, Failed> {
        taken(self, bytes)
    }
}

impl Stream for Stderr {
    ghost written = { λ _. None };

    ghost failures = { λ _. None };

    fn write_once(&mut self, bytes: &[u8]) -> Result<usize, Failed> {
        taken(self, bytes)
    }
}

/// A stream, whose failures are counted: by the stream itself, wherever it exposes their number. Nothing is kept back.
#[derive(Drop)]
pub struct RealOut<W: Stream> {
    // where the bytes go
    stream: W,
    // how many writes have failed
    faults: u64,
    // whether the last write has
    last_failed: bool,
}

impl<W: Stream> Model for RealOut<W> {
    ghost use Rattle.dcv_io.specs.RealState.{StreamState};
    ghost use Rattle.dcv_io.specs.Called.{counted};

    ghost Value = { StreamState };

    ghost view = { λ o. record {
      written = W.written o.stream;
      faults = counted (λ n. n) (W.failures o.stream) o.faults;
      last_failed = o.last_failed;
    } };
}

impl RealOut<Stdout> {
    /// The standard output, of which nothing is told, with no fault counted.
    pub fn output(stdout: Stdout) -> Self
        ensures { result ≡ record { written = None; faults = 0; last_failed = false } }
    {
        RealOut::of(stdout)
    }
}

impl RealOut<Stderr> {
    /// The standard error, of which nothing is told, with no fault counted.
    pub fn error(stderr: Stderr) -> Self
        ensures { result ≡ record { written = None; faults = 0; last_failed = false } }
    {
        RealOut::of(stderr)
    }
}

impl<W: Stream> RealOut<W> {
    /// This stream, with no fault counted.
    pub fn of(stream: W) -> Self
        ensures { result ≡ record { written = W.written stream; faults = counted (λ n. n) (W.failures stream) 0; last_failed = false } }
    {
        RealOut {
            stream,
            faults: 0,
            last_failed: false,
        }
    }
}

impl<W: Stream> RealOut<W> {
    /// The stream itself.
    pub fn into_stream(self) -> W
        ensures { W.written result ≡ self.written }
    {
        self.stream
    }
}

impl<W: Stream> Sink for RealOut<W> {
    ghost faults = { λ o. o.faults };

    ghost last_failed = { λ o. o.last_failed };

    ghost written = { λ o. o.written };

    fn write(&mut self, bytes: &[u8]) -> Result<usize, Failed> {
        let taken = self.stream.write_once(bytes);
        self.last_failed = taken.is_err();
        if self.last_failed {
            raise(&mut self.faults);
        }
        taken
    }
}

// Writes once, whatever it is written to. A write that takes none of some bytes has failed.
fn taken<T: Write>(target: &mut T, bytes: &[u8]) -> Result<usize, Failed>
    ensures bound { IfOk result (λ count. count ≤ length bytes.now) }
    ensures progress { IfOk result (λ count. 0 < length bytes.now → 0 < count) }
    ensures bytes { WriteAppends (T.contents target.old) (T.contents target.new) result bytes.now }
{
    match target.write(bytes) {
        Ok(count) if count > 0 || bytes.is_empty() => Ok(count),
        _ => Err(Failed),
    }
}
