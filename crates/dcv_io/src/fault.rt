// The faults of this crate's calls.
ghost use Rattle.std.specs.Prelude.{◌≡◌};
ghost use Rattle.dcv_io.specs.declared.fault.TakeFault.TheVariants.{Memory};

use std::alloc::{AllocError, AllocFailed};
use thiserror::Error;

/// A call of the outside failed. The object that was called has counted it.
#[derive(Clone, Copy, Debug, PartialEq, Eq, Error)]
#[error("a call of the outside failed")]
pub struct Failed;

/// Why a whole file was not taken.
#[derive(Clone, Copy, Debug, PartialEq, Eq, Error)]
pub enum TakeFault {
    /// The file is missing or could not be opened.
    #[error("the file could not be opened")]
    Open,
    /// The file was opened, and a read of it failed.
    #[error("the file could not be read to its end")]
    Read,
    /// The file has more bytes than the limit, which is in bytes.
    #[error("the file has more than {limit} bytes")]
    TooLong { limit: u64 },
    /// Memory ran out.
    #[error("out of memory")]
    Memory,
}

impl From<AllocError> for TakeFault {
    ghost from_gives = { λ _ e. e ≡ Memory };

    fn from(_: AllocError) -> Self {
        TakeFault::Memory
    }
}

impl<T: Drop> From<AllocFailed<T>> for TakeFault {
    ghost from_gives = { λ _ e. e ≡ Memory };

    fn from(_: AllocFailed<T>) -> Self {
        TakeFault::Memory
    }
}
