// A node as a text has it, with an item of the text for each name, constant and kind.
use dcv_observer::Item;

/// `if name then item`, or `if name = number then item`.
#[derive(Clone, Copy)]
pub struct PlacedArm<'a> {
    /// The variable that is tested.
    pub name: Item<'a>,
    /// Where the condition compares.
    pub number: Option<Item<'a>>,
    /// What is chosen where the test holds.
    pub item: Item<'a>,
}

/// `(name = number)`.
#[derive(Clone, Copy)]
pub struct PlacedTest<'a> {
    /// The variable that is compared.
    pub name: Item<'a>,
    /// What it is compared with.
    pub number: Item<'a>,
}

/// The text after the `=` of an equation.
#[derive(Drop)]
pub enum PlacedRight<'a> {
    /// `first -> pre source`.
    Delayed(Item<'a>, Item<'a>),
    /// The arms of a choice, and the item after the last `else`. There may be no arm.
    Chosen(Vec<PlacedArm<'a>>, Item<'a>),
    /// One test or more.
    Tested(Vec<PlacedTest<'a>>),
}

/// `left = right;`.
#[derive(Drop)]
pub struct PlacedEquation<'a> {
    /// The variable that it defines.
    pub left: Item<'a>,
    /// What the variable is.
    pub right: PlacedRight<'a>,
}

/// `name: kind;`.
#[derive(Clone, Copy)]
pub struct PlacedLocal<'a> {
    /// Its name.
    pub name: Item<'a>,
    /// Its type.
    pub kind: Item<'a>,
}

/// A whole node.
#[derive(Drop)]
pub struct PlacedNode<'a> {
    /// The name of the node.
    pub name: Item<'a>,
    /// Its inputs, in order.
    pub inputs: Vec<Item<'a>>,
    /// The word `ok` after `returns`.
    pub output: Item<'a>,
    /// Its local variables, in order.
    pub locals: Vec<PlacedLocal<'a>>,
    /// Its equations, in order.
    pub equations: Vec<PlacedEquation<'a>>,
    /// The last word.
    pub tel: Item<'a>,
}
