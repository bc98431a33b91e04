// Why a file that is a sentence has no core.
ghost use Rattle.std.specs.Prelude.{◌≡◌};
ghost use Rattle.dcv_scope.specs.declared.faults.ScopeFault.TheVariants.{Memory as OutOfMemory};

use std::alloc::AllocError;
use thiserror::Error;

/// The most parameters of a macro.
pub(crate) const MOST_PARAMETERS: usize = 8;
/// The most macros.
pub(crate) const MOST_MACROS: usize = 256;
/// The most nodes of a goal whose macros are replaced by their bodies.
pub const MOST_NODES: u32 = 65_536;
/// The most nodes of such a goal that stand one below another.
pub const MOST_DEPTH: u32 = 512;
/// The most slots of a goal: its declared variables, one for each shift, and one for each quantifier that stands inside another.
pub const MOST_SLOTS: u32 = 32;

/// The first fault of a file's names, or else of its goal. Its place is the offset of the name, of the goal's first token,
/// or of the prior or next proposition, in bytes, counted from 0. Of faults of names at one offset the first in the order of
/// the variants counts, and so it does of those of a goal.
#[derive(Clone, Copy, Debug, PartialEq, Eq, Error)]
pub enum ScopeFault {
    /// The 17th declared variable, the 9th parameter of a macro, or the 257th macro.
    #[error("the name at offset {at} is one too many")]
    TooMany { at: u32 },
    /// The name stands in its list a second time.
    #[error("the name at offset {at} stands there twice")]
    Duplicate { at: u32 },
    /// The name is that of a macro, or, where a macro is defined, of a variable.
    #[error("the name at offset {at} is taken")]
    Taken { at: u32 },
    /// The name has no meaning at its place.
    #[error("the name at offset {at} is not known")]
    Unknown { at: u32 },
    /// The name has a meaning of another kind than its place asks for.
    #[error("the name at offset {at} has another kind than is asked for")]
    Kind { at: u32 },
    /// The name is used with another number of arguments than it has parameters.
    #[error("the name at offset {at} has another number of parameters")]
    Arity { at: u32 },
    /// The goal has more than [`MOST_NODES`] nodes.
    #[error("the goal at offset {at} is too large")]
    Size { at: u32 },
    /// The goal is nested deeper than [`MOST_DEPTH`].
    #[error("the goal at offset {at} is nested too deeply")]
    Depth { at: u32 },
    /// The goal has more than [`MOST_SLOTS`] slots.
    #[error("the goal at offset {at} has too many variables")]
    Slots { at: u32 },
    /// A prior or next proposition, at this place, looks at a quantified variable.
    #[error("the proposition at offset {at} looks at a quantified variable at another instant")]
    BoundShift { at: u32 },
    /// Memory ran out.
    #[error("out of memory")]
    Memory,
}

impl From<AllocError> for ScopeFault {
    ghost from_gives = { λ _ fault. fault ≡ OutOfMemory };

    fn from(_: AllocError) -> Self {
        ScopeFault::Memory
    }
}
