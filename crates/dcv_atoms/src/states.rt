// What an atom remembers of the letters that it has read.
ghost use Rattle.std.specs.Prelude.{◌≡◌};
ghost use Rattle.dcv_atoms.specs.Leaves.{number_of, count_of, state_told};

/// What an atom remembers of the letters that it has read. An atom has those of these states that its form needs.
#[derive(Clone, Copy, Debug, PartialEq, Eq, Hash)]
pub enum AtomMacro {
    /// Nothing was read. A constant remembers nothing more either.
    Start,
    /// One letter was read, with the proposition, and the word may not end here. Of `back`: the last letter was one with the proposition, and
    /// the word may end. Of `fore`: the next letter has to be one with it, and the word may not end.
    First,
    /// The word may end here. Of a shift: the last letter was not one with the proposition (`back`), or the next has to be one without it
    /// (`fore`).
    Good,
    /// The word may end here, and not go on.
    Last,
    /// No word that goes on from here is accepted.
    Bad,
    /// So much was counted.
    Count(u32),
    /// So much was counted before the last letter, and this is whether the proposition holds in that.
    Lasted { count: u32, last: bool },
}

impl AtomMacro {
    // Which of the states it is, but for what was counted.
    pub(crate) fn number(self) -> u32
        ensures { result ≡ number_of self }
    {
        match self {
            AtomMacro::Start => 0,
            AtomMacro::First => 1,
            AtomMacro::Good => 2,
            AtomMacro::Last => 3,
            AtomMacro::Bad => 4,
            AtomMacro::Count(_) => 5,
            AtomMacro::Lasted { last, .. } => if last { 7 } else { 6 },
        }
    }

    // What was counted.
    pub(crate) fn count(self) -> u32
        ensures { result ≡ count_of self }
    {
        match self {
            AtomMacro::Count(count) | AtomMacro::Lasted { count, .. } => count,
            _ => 0,
        }
    }

    // The state of which these two are told.
    pub(crate) fn told(number: u32, count: u32) -> AtomMacro
        ensures { result ≡ state_told number count }
    {
        match number {
            0 => AtomMacro::Start,
            1 => AtomMacro::First,
            2 => AtomMacro::Good,
            3 => AtomMacro::Last,
            4 => AtomMacro::Bad,
            5 => AtomMacro::Count(count),
            _ => AtomMacro::Lasted {
                count,
                last: number == 7,
            },
        }
    }
}
