// A refusal, as it is reported: of the one file that a request reads, or of which one.
ghost use Rattle.std.specs.Prelude.{◌≡◌};
ghost use Rattle.dcv_io.specs.Putting.{Puts};
ghost use Rattle.dcv_cli.specs.Refusal.{end_of, only, refusal_of_replay};
ghost use Rattle.dcv_cli.specs.declared.refusal.Refusal.TheVariants.{Memory};

use crate::faults::TraceFault;
use crate::refusal::Refusal;
use crate::reply::Reply;
use crate::status::Status;
use dcv_io::{Target, put_pieces};
use dcv_replay::ReplayFault;
use itoa::Buffer;
use std::alloc::AllocError;

/// Which of the formula files that a request reads.
#[derive(Clone, Copy)]
pub enum Which {
    /// It reads no more than one, or the refusal is of none.
    Only,
    /// The first of two.
    First,
    /// The second of two.
    Second,
    /// The one of a set with this number, counted from 1.
    Number(u64),
}

impl Which {
    // Puts the end of a line that says so.
    fn put_end<T: Target>(self, target: &mut T)
        ensures { Puts (T.standing target.old) (T.standing target.new) (end_of self) }
    {
        match self {
            Which::Only => target.put(b"\n"),
            Which::First => target.put(b" in first\n"),
            Which::Second => target.put(b" in second\n"),
            Which::Number(number) => {
                let mut digits = Buffer::new();
                put_pieces(
                    target,
                    &[b" in file ", digits.format(number).as_bytes(), b"\n"],
                );
            }
        }
    }
}

/// Why a run gives no report, and of which file.
#[derive(Clone, Copy)]
pub struct Refused {
    /// What is wrong.
    pub refusal: Refusal,
    /// In which of the files.
    pub which: Which,
}

/// How a command ends.
pub(crate) type Ended = Result<Status, Refused>;

impl Reply for Refused {
    ghost use Rattle.dcv_cli.specs.Refusal.{message_of};

    ghost text = { message_of };

    fn put<T: Target>(&self, target: &mut T) {
        self.refusal.put(target);
        self.which.put_end(target);
    }
}

impl From<Refusal> for Refused {
    ghost from_gives = { λ refusal refused. refused ≡ only refusal };

    fn from(refusal: Refusal) -> Self {
        refusal.of(Which::Only)
    }
}

impl From<ReplayFault> for Refused {
    ghost from_gives = { λ fault refused. refused ≡ only (refusal_of_replay fault) };

    fn from(fault: ReplayFault) -> Self {
        let refusal = match fault {
            ReplayFault::Open => Refusal::Open,
            ReplayFault::Read => Refusal::Read,
            ReplayFault::Line { line } => Refusal::Trace(TraceFault::Line { line }),
            ReplayFault::TooLong => Refusal::Trace(TraceFault::Length),
            ReplayFault::Empty => Refusal::Trace(TraceFault::Empty),
            ReplayFault::Write => Refusal::Write,
        };
        refusal.of(Which::Only)
    }
}

impl From<AllocError> for Refused {
    ghost from_gives = { λ _ refused. refused ≡ only Memory };

    fn from(_: AllocError) -> Self {
        Refusal::Memory.of(Which::Only)
    }
}
