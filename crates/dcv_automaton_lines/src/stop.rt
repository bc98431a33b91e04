// Why reading stops.
ghost use Rattle.std.specs.Prelude.{◌≡◌};
ghost use Rattle.dcv_automaton_lines.specs.declared.stop.Stop.TheVariants.{Syntax, Memory};

use std::alloc::{AllocError, AllocFailed};

/// A text that begins a part up to what is left of it, and no further.
#[derive(Clone, Copy)]
pub struct Stuck<'a> {
    /// The text from where no line goes on.
    pub left: &'a [u8],
}

/// Why the lines of a text were not read.
#[derive(Clone, Copy)]
pub enum Stop<'a> {
    /// The text is not of the form.
    Syntax(Stuck<'a>),
    /// Memory ran out.
    Memory,
}

impl<'a> From<Stuck<'a>> for Stop<'a> {
    ghost from_gives = { λ stuck e. e ≡ Syntax stuck };

    fn from(stuck: Stuck<'a>) -> Stop<'a> {
        Stop::Syntax(stuck)
    }
}

impl<'a> From<AllocError> for Stop<'a> {
    ghost from_gives = { λ _ e. e ≡ Memory };

    fn from(_error: AllocError) -> Stop<'a> {
        Stop::Memory
    }
}

impl<'a, T: Drop> From<AllocFailed<T>> for Stop<'a> {
    ghost from_gives = { λ _ e. e ≡ Memory };

    fn from(_error: AllocFailed<T>) -> Stop<'a> {
        Stop::Memory
    }
}
