// Why a text stands for no automaton, and why the rules stop at a word of it.
use std::alloc::{AllocError, AllocFailed};

/// Why a text stands for no automaton.
#[derive(Clone, Copy, Debug, PartialEq, Eq)]
pub enum AutoFault {
    /// Up to this byte, counted from 0, the text begins one of the form, and no further. It is the text's length where the text merely
    /// stops too early.
    Syntax { at: u32 },
    /// The text has the form. At this byte begins its first word that breaks a table rule.
    Table { at: u32 },
    /// Memory ran out.
    Memory,
}

// Where the rules stop.
#[derive(Clone, Copy)]
pub(crate) enum Stop {
    // At the word with this number.
    Word(u64),
    // Memory ran out.
    OutOfMemory,
}

impl<T: Drop> From<AllocFailed<T>> for Stop {
    ghost use Rattle.std.specs.Prelude.{◌≡◌};
    ghost use Rattle.dcv_automaton_read.specs.declared.faults.Stop.TheVariants.{OutOfMemory};

    ghost from_gives = { λ _ e. e ≡ OutOfMemory };

    fn from(_error: AllocFailed<T>) -> Stop {
        Stop::OutOfMemory
    }
}

impl From<AllocError> for AutoFault {
    ghost use Rattle.std.specs.Prelude.{◌≡◌};
    ghost use Rattle.dcv_automaton_read.specs.declared.faults.AutoFault.TheVariants.{Memory};

    ghost from_gives = { λ _ e. e ≡ Memory };

    fn from(_error: AllocError) -> AutoFault {
        AutoFault::Memory
    }
}
