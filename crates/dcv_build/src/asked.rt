// What is explored once in a build, and what is known of it from then on.

use dcv_syntax::Connective;

// An operator with the numbers of its operands on the shelf.
#[derive(Clone, Copy, Debug, PartialEq, Eq, Hash)]
pub(crate) enum Asked {
    Joined(Connective, u32, u32),
    Chop(u32, u32),
    Star(u32),
    Exists(u32),
}

// The number of its automaton there, and what was counted as its machine was explored.
#[derive(Clone, Copy)]
pub(crate) struct Answer {
    // its number on the shelf
    pub(crate) number: u32,
    // how many states its exploration took
    pub(crate) states: u32,
    // how many nodes it took
    pub(crate) nodes: u32,
}
