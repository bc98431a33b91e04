// Why an atom has no machine.
ghost use Rattle.std.specs.Prelude.{◌≡◌};
ghost use Rattle.dcv_atoms.specs.declared.faults.AtomFault.TheVariants.{Memory};
ghost use Rattle.dcv_atoms.specs.Faults.{fault_of_arena};

use dcv_arena::ArenaFault;
use std::alloc::{AllocError, AllocFailed};
use thiserror::Error;

/// Why an atom has no machine.
#[derive(Clone, Copy, Debug, PartialEq, Eq, Error)]
pub enum AtomFault {
    /// The diagrams of the proposition's parts have more nodes than there may be.
    #[error("the proposition needs more than {limit} nodes")]
    Nodes { limit: u32 },
    /// The memory ran out.
    #[error("out of memory")]
    Memory,
}

impl From<AllocError> for AtomFault {
    ghost from_gives = { λ _ e. e ≡ Memory };

    fn from(_error: AllocError) -> AtomFault {
        AtomFault::Memory
    }
}

impl<T: Drop> From<AllocFailed<T>> for AtomFault {
    ghost from_gives = { λ _ e. e ≡ Memory };

    fn from(_error: AllocFailed<T>) -> AtomFault {
        AtomFault::Memory
    }
}

impl From<ArenaFault> for AtomFault {
    ghost from_gives = { λ fault e. e ≡ fault_of_arena fault };

    fn from(fault: ArenaFault) -> AtomFault {
        match fault {
            ArenaFault::Full { limit } => AtomFault::Nodes { limit },
            ArenaFault::Memory => AtomFault::Memory,
        }
    }
}
