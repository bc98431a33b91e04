// Why a node was not added to an arena.
use std::alloc::{AllocError, AllocFailed};
use thiserror::Error;

/// Why a node was not added.
#[derive(Clone, Copy, Debug, PartialEq, Eq, Error)]
pub enum ArenaFault {
    /// The arena has as many nodes as it may have.
    #[error("the diagrams need more than {limit} nodes")]
    Full { limit: u32 },
    /// The memory ran out.
    #[error("out of memory")]
    Memory,
}

impl From<AllocError> for ArenaFault {
    ghost use Rattle.std.specs.Prelude.{◌≡◌};
    ghost use Rattle.dcv_arena.specs.declared.faults.ArenaFault.TheVariants.{Memory};

    ghost from_gives = { λ _ e. e ≡ Memory };

    fn from(_error: AllocError) -> ArenaFault {
        ArenaFault::Memory
    }
}

impl<T: Drop> From<AllocFailed<T>> for ArenaFault {
    ghost use Rattle.std.specs.Prelude.{◌≡◌};
    ghost use Rattle.dcv_arena.specs.declared.faults.ArenaFault.TheVariants.{Memory};

    ghost from_gives = { λ _ e. e ≡ Memory };

    fn from(_error: AllocFailed<T>) -> ArenaFault {
        ArenaFault::Memory
    }
}
