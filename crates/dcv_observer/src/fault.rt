// Why a text is no observer of its language.
use std::alloc::{AllocError, AllocFailed};

/// Why a text is no node, or no unit, of the subset in which it is written.
#[derive(Clone, Copy, Debug, PartialEq, Eq)]
pub enum ObsFault {
    /// Up to the token or byte that begins here, or to the end of the text, the text begins a sentence, and no further.
    Syntax { at: u32 },
    /// The text is a sentence. Here stands the first of its words that breaks a rule of names.
    Names { at: u32 },
    /// Memory ran out.
    Memory,
}

impl From<AllocError> for ObsFault {
    ghost use Rattle.std.specs.Prelude.{◌≡◌};
    ghost use Rattle.dcv_observer.specs.declared.fault.ObsFault.TheVariants.{Memory};

    ghost from_gives = { λ _ e. e ≡ Memory };

    fn from(_error: AllocError) -> ObsFault {
        ObsFault::Memory
    }
}

impl<T: Drop> From<AllocFailed<T>> for ObsFault {
    ghost use Rattle.std.specs.Prelude.{◌≡◌};
    ghost use Rattle.dcv_observer.specs.declared.fault.ObsFault.TheVariants.{Memory};

    ghost from_gives = { λ _ e. e ≡ Memory };

    fn from(_refused: AllocFailed<T>) -> ObsFault {
        ObsFault::Memory
    }
}
