// Why two automata were not compared.
ghost use Rattle.std.specs.Prelude.{◌≡◌};
ghost use Rattle.dcv_implies.specs.declared.faults.OutsideFault.TheVariants.{Memory};
ghost use Rattle.dcv_implies.specs.Faults.{fault_of_exploring};

use dcv_explore::ExploreFault;
use std::alloc::AllocError;
use thiserror::Error;

/// Why two automata were not compared.
#[derive(Clone, Copy, Debug, PartialEq, Eq, Error)]
pub enum OutsideFault {
    /// Their product has more states than there may be.
    #[error("the product has more than {limit} states")]
    States { limit: u32 },
    /// The rows of the product's states have more nodes than there may be.
    #[error("the product needs more than {limit} nodes")]
    Nodes { limit: u32 },
    /// The memory ran out.
    #[error("out of memory")]
    Memory,
}

impl From<AllocError> for OutsideFault {
    ghost from_gives = { λ _ e. e ≡ Memory };

    fn from(_error: AllocError) -> OutsideFault {
        OutsideFault::Memory
    }
}

impl From<ExploreFault> for OutsideFault {
    ghost from_gives = { λ fault e. e ≡ fault_of_exploring fault };

    fn from(fault: ExploreFault) -> OutsideFault {
        match fault {
            ExploreFault::States { limit } => OutsideFault::States { limit },
            ExploreFault::Nodes { limit } => OutsideFault::Nodes { limit },
            ExploreFault::Memory => OutsideFault::Memory,
        }
    }
}
