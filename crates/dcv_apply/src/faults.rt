// Why a merge gives no number, and why an operation gives no function.
ghost use Rattle.std.specs.Prelude.{◌≡◌};
ghost use Rattle.dcv_apply.specs.declared.faults.MergeFault.TheVariants.{Memory as MergeMemory};
ghost use Rattle.dcv_apply.specs.declared.faults.ApplyFault.TheVariants.{Memory as ApplyMemory};
ghost use Rattle.dcv_apply.specs.Faults.{fault_of_merge, fault_of_arena};

use dcv_arena::ArenaFault;
use std::alloc::{AllocError, AllocFailed};
use thiserror::Error;

/// Why numbers were not merged into one.
#[derive(Clone, Copy, Debug, PartialEq, Eq, Error)]
pub enum MergeFault {
    /// The merge has given as many different numbers as it may.
    #[error("there are more than {limit} states")]
    States { limit: u32 },
    /// The memory ran out.
    #[error("out of memory")]
    Memory,
}

/// Why functions were not merged into one.
#[derive(Clone, Copy, Debug, PartialEq, Eq, Error)]
pub enum ApplyFault {
    /// The arena has as many nodes as it may have.
    #[error("the diagrams need more than {limit} nodes")]
    Full { limit: u32 },
    /// The merge has given as many different numbers as it may.
    #[error("there are more than {limit} states")]
    States { limit: u32 },
    /// The memory ran out.
    #[error("out of memory")]
    Memory,
}

impl From<AllocError> for MergeFault {
    ghost from_gives = { λ _ e. e ≡ MergeMemory };

    fn from(_error: AllocError) -> MergeFault {
        MergeFault::Memory
    }
}

impl<T: Drop> From<AllocFailed<T>> for MergeFault {
    ghost from_gives = { λ _ e. e ≡ MergeMemory };

    fn from(_error: AllocFailed<T>) -> MergeFault {
        MergeFault::Memory
    }
}

impl From<AllocError> for ApplyFault {
    ghost from_gives = { λ _ e. e ≡ ApplyMemory };

    fn from(_error: AllocError) -> ApplyFault {
        ApplyFault::Memory
    }
}

impl<T: Drop> From<AllocFailed<T>> for ApplyFault {
    ghost from_gives = { λ _ e. e ≡ ApplyMemory };

    fn from(_error: AllocFailed<T>) -> ApplyFault {
        ApplyFault::Memory
    }
}

impl From<MergeFault> for ApplyFault {
    ghost from_gives = { λ fault e. e ≡ fault_of_merge fault };

    fn from(fault: MergeFault) -> ApplyFault {
        match fault {
            MergeFault::States { limit } => ApplyFault::States { limit },
            MergeFault::Memory => ApplyFault::Memory,
        }
    }
}

impl From<ArenaFault> for ApplyFault {
    ghost from_gives = { λ fault e. e ≡ fault_of_arena fault };

    fn from(fault: ArenaFault) -> ApplyFault {
        match fault {
            ArenaFault::Full { limit } => ApplyFault::Full { limit },
            ArenaFault::Memory => ApplyFault::Memory,
        }
    }
}
