//! What is said of the text of an automaton.

/// Whether the access words and the suffixes of a text show that its table has the fewest states.
#[derive(Clone, Copy, Debug, PartialEq, Eq)]
pub enum Answer {
    /// They do: each access word leads to its state, and each two states are told apart by a suffix.
    Minimal,
    /// The access word of this state does not lead to it. It is the least such state.
    Access { state: u32 },
    /// All access words lead to their states, and no suffix tells these two apart. The first is the least of all such states, and the
    /// second the least that no suffix tells from it. It is the greater one.
    Pair { first: u32, second: u32 },
}
