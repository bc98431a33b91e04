// Why a core has no automaton.
ghost use Rattle.std.specs.Prelude.{◌≡◌};
ghost use Rattle.dcv_build.specs.declared.faults.BuildFault.TheVariants.{Memory};

use std::alloc::{AllocError, AllocFailed};
use thiserror::Error;

/// Why a core has no automaton.
#[derive(Clone, Copy, Debug, PartialEq, Eq, Error)]
pub enum BuildFault {
    /// The machine of this step, the first that is over the limits, has more states than there may be.
    #[error("step {step} has more than {limit} states")]
    States { step: u32, limit: u32 },
    /// The machine of this step, the first that is over the limits, has, with its proposition, more nodes than there may be.
    #[error("step {step} needs more than {limit} nodes")]
    Nodes { step: u32, limit: u32 },
    /// The memory ran out.
    #[error("out of memory")]
    Memory,
}

impl From<AllocError> for BuildFault {
    ghost from_gives = { λ _ e. e ≡ Memory };

    fn from(_error: AllocError) -> BuildFault {
        BuildFault::Memory
    }
}

impl<T: Drop> From<AllocFailed<T>> for BuildFault {
    ghost from_gives = { λ _ e. e ≡ Memory };

    fn from(_error: AllocFailed<T>) -> BuildFault {
        BuildFault::Memory
    }
}
