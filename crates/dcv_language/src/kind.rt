// Which of the texts that say something of an automaton.

/// What is said of an automaton.
#[derive(Clone, Copy, Debug, PartialEq, Eq)]
pub enum Kind {
    /// The verdict of the words that it accepts.
    Check,
    /// Its own text, with words that show that it has the fewest states.
    Automaton,
    /// An observer of it in a flat subset of Lustre.
    Lustre,
    /// An observer of it in a flat subset of C.
    C,
    /// An observer of it in constant tables of C.
    Tables,
    /// The verdict, its own text and both flat observers, each after a line that names it.
    All,
}
