//! Why a trace was not replayed to its end.
ghost use Rattle.std.specs.Prelude.{◌≡◌};
ghost use Rattle.dcv_replay.specs.Stops.{fault_of};

use thiserror::Error;

/// Why a trace was not replayed to its end.
#[derive(Clone, Copy, Debug, PartialEq, Eq, Error)]
pub enum ReplayFault {
    /// The trace could not be opened.
    #[error("the trace could not be opened")]
    Open,
    /// A read of the trace failed.
    #[error("the trace could not be read to its end")]
    Read,
    /// The line with this number, counted from 1, is no line of the observer's inputs.
    #[error("line {line} of the trace is no line of the observer's inputs")]
    Line { line: u32 },
    /// Something follows line 1,000,000.
    #[error("the trace has more than 1,000,000 lines")]
    TooLong,
    /// The trace has no byte.
    #[error("the trace is empty")]
    Empty,
    /// An answer could not be written.
    #[error("an answer could not be written")]
    Write,
}

/// Why the run over an open trace stops, apart from a write that fails.
#[derive(Clone, Copy)]
pub(crate) enum Stop {
    Read,
    Line { line: u32 },
    TooLong,
    Empty,
}

impl Stop {
    pub(crate) fn fault(self) -> ReplayFault
        ensures { result ≡ fault_of self }
    {
        match self {
            Stop::Read => ReplayFault::Read,
            Stop::Line { line } => ReplayFault::Line { line },
            Stop::TooLong => ReplayFault::TooLong,
            Stop::Empty => ReplayFault::Empty,
        }
    }
}
