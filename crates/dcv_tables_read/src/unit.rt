// A unit of tables that was read. The names of its parameters are parts of the text.

/// A node.
#[derive(Clone, Copy)]
pub struct TableNode {
    /// The number of its parameter.
    pub variable: u32,
    /// The place that comes next where the parameter is true.
    pub high: u32,
    /// The place that comes next where it is false.
    pub low: u32,
}

/// A state.
#[derive(Clone, Copy)]
pub struct TableState {
    /// The place that a letter is looked up from.
    pub row: u32,
    /// Whether the state accepts.
    pub accepts: bool,
}

/// A unit of tables. A place below the number of states is a state, and any other is a node, counted from there.
#[derive(Drop)]
pub struct TableUnit<'a> {
    /// The names of the parameters, each without the `v_` before it.
    pub names: Vec<&'a [u8]>,
    /// The nodes, from the first place after the states on.
    pub nodes: Vec<TableNode>,
    /// The states.
    pub states: Vec<TableState>,
}
