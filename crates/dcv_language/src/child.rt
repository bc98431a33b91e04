// What a node of a row leads to.

/// What comes next in a row.
#[derive(Clone, Copy, Debug, PartialEq, Eq, Hash)]
pub enum Child {
    /// This state, whatever the later variables are.
    State(u32),
    /// What the node with this number says.
    Node(u32),
}
