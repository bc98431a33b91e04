// What both subsets ask of a name, which stands here by its place among the names of its text.

/// What has to hold of a name.
#[derive(Clone, Copy, Debug, PartialEq, Eq)]
pub enum Condition {
    /// It is true, or a number other than 0.
    Holds(u32),
    /// It is this number.
    Equals(u32, u16),
}

/// Whether a name is a number.
#[derive(Clone, Copy, Debug, PartialEq, Eq)]
pub struct Test {
    /// The place of the variable.
    pub name: u32,
    /// What it is compared with.
    pub number: u16,
}
