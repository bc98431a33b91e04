// What the lines of an automaton's text say. Names and letters are parts of the text.

use dcv_language::Child;

/// A node of the rows.
#[derive(Clone, Copy)]
pub struct NodeLine<'a> {
    /// The node's own number.
    pub number: u32,
    /// The name of its variable.
    pub name: &'a [u8],
    /// What comes next where the variable is true.
    pub hi: Child,
    /// What comes next where it is false.
    pub lo: Child,
}

/// A state.
#[derive(Clone, Copy)]
pub struct StateLine {
    /// Its own number.
    pub number: u32,
    /// Whether it accepts.
    pub accepting: bool,
    /// What comes first in its row.
    pub row: Child,
}

/// How an access word is spelled. A letter is as in a trace.
#[derive(Clone, Copy)]
pub enum AccessWord<'a> {
    /// The word with no letter.
    Empty,
    /// A word of this letter alone.
    Start(&'a [u8]),
    /// The access word of this state, and then the letter.
    After(u32, &'a [u8]),
}

/// The access word of the state with this number.
#[derive(Clone, Copy)]
pub struct AccessLine<'a> {
    /// The number of the state.
    pub number: u32,
    /// How its access word is spelled.
    pub access: AccessWord<'a>,
}

/// How a suffix is spelled. A letter is as in a trace.
#[derive(Clone, Copy)]
pub enum SuffixWord<'a> {
    /// The suffix with no letter.
    Empty,
    /// The letter, and then the suffix with this number.
    Then(&'a [u8], u32),
}

/// The suffix with this number.
#[derive(Clone, Copy)]
pub struct SuffixLine<'a> {
    /// The suffix's own number.
    pub number: u32,
    /// How it is spelled.
    pub suffix: SuffixWord<'a>,
}

/// What a step of the requirement took.
#[derive(Clone, Copy)]
pub struct StepLine {
    /// The step's own number.
    pub number: u32,
    /// The byte of the source at which the step's span starts.
    pub at: u32,
    /// How many states it took.
    pub states: u32,
    /// How many nodes it took.
    pub nodes: u32,
}

/// What the steps of the requirement took, in order.
#[derive(Drop)]
pub struct StepPart {
    /// How many steps it says there are.
    pub count: u32,
    /// The line of each step.
    pub lines: Vec<StepLine>,
}

/// What the lines of a text say, those of each kind in order.
#[derive(Drop)]
pub struct Lines<'a> {
    /// The names of the variables.
    pub names: Vec<&'a [u8]>,
    /// How many states it says there are.
    pub states: u32,
    /// The lines of the nodes.
    pub node_lines: Vec<NodeLine<'a>>,
    /// The lines of the states.
    pub state_lines: Vec<StateLine>,
    /// The lines of the access words.
    pub access_lines: Vec<AccessLine<'a>>,
    /// The lines of the suffixes.
    pub suffix_lines: Vec<SuffixLine<'a>>,
    /// The step part of a text of version 2. Version 1 has none.
    pub steps: Option<StepPart>,
    /// The text before the step part, or before the last line where there is none.
    pub front: &'a [u8],
}
