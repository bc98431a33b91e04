// How large an automaton and its text may be: the numbers that commands, readers and writers share.

/// How many variables a formula may declare, and an automaton or an observer may have.
pub const MOST_VARIABLES: usize = 16;

/// How many states an automaton may have, and each step that leads to it.
pub const MOST_STATES: u32 = 32_000;

/// How many nodes the rows of an automaton may have together, and those of each step that leads to it.
pub const MOST_NODES: u32 = 1_000_000;
