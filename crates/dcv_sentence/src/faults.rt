// Why a text was not read.
ghost use Rattle.std.specs.Prelude.{◌≡◌};
ghost use Rattle.dcv_sentence.specs.declared.faults.ReadFault.TheVariants.{Memory};

use std::alloc::{AllocError, AllocFailed};
use thiserror::Error;

/// The first fault of a text. Its place is an offset in bytes, counted from 0. Of faults at one offset the first in
/// the order of the variants counts.
#[derive(Clone, Copy, Debug, PartialEq, Eq, Error)]
pub enum ReadFault {
    /// No token, space or comment begins there.
    #[error("no token begins at offset {at}")]
    Byte { at: u32 },
    /// A word has more than 24 characters.
    #[error("the name at offset {at} is too long")]
    Name { at: u32 },
    /// A number is above 9,999.
    #[error("the number at offset {at} is too large")]
    Number { at: u32 },
    /// What stands before may begin a formula file, but not with the token there, or the end.
    #[error("the token at offset {at} is misplaced")]
    Syntax { at: u32 },
    /// The 501st of the tokens `(`, `!`, `<>`, `[]`, `ex`, `all`, `=>`, `*`, `-` and `+` of one definition or of the goal.
    #[error("the token at offset {at} is nested too deeply")]
    Nest { at: u32 },
    /// Memory ran out.
    #[error("out of memory")]
    Memory,
}

impl ReadFault {
    ghost use Rattle.dcv_sentence.specs.Faults.{offset_of};

    /// Where the fault is, and 0 where memory ran out.
    pub fn offset(&self) -> u32
        ensures { result ≡ offset_of self.now }
    {
        match *self {
            ReadFault::Byte { at }
            | ReadFault::Name { at }
            | ReadFault::Number { at }
            | ReadFault::Syntax { at }
            | ReadFault::Nest { at } => at,
            ReadFault::Memory => 0,
        }
    }
}

impl From<AllocError> for ReadFault {
    ghost from_gives = { λ _ e. e ≡ Memory };

    fn from(_error: AllocError) -> ReadFault {
        ReadFault::Memory
    }
}

impl<T: Drop> From<AllocFailed<T>> for ReadFault {
    ghost from_gives = { λ _ e. e ≡ Memory };

    fn from(_error: AllocFailed<T>) -> ReadFault {
        ReadFault::Memory
    }
}
