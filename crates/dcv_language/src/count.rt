// What the building of one step of a formula took.

/// What a step took.
#[derive(Clone, Copy, Debug, PartialEq, Eq)]
pub struct Count {
    /// The byte of the source at which the step's span starts, counted from 0.
    pub at: u32,
    /// How many states words reach in the machine of the step.
    pub states: u32,
    /// How many nodes the rows of these states have together, and with them those of the step's proposition.
    pub nodes: u32,
}
