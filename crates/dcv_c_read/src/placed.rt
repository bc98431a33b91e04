// A unit as a text has it, with an item of the text for each name and number.
use dcv_observer::Item;

/// `name == number`.
#[derive(Clone, Copy)]
pub struct PlacedTest<'a> {
    /// The variable that is compared.
    pub name: Item<'a>,
    /// What it is compared with.
    pub number: Item<'a>,
}

/// The text after the name of a condition on a right side: `? item : otherwise`, or `== number ? item : otherwise`.
#[derive(Clone, Copy)]
pub struct PlacedChoice<'a> {
    /// Where the condition compares.
    pub number: Option<Item<'a>>,
    /// What is chosen where the test holds.
    pub item: Item<'a>,
    /// What is chosen where it does not.
    pub otherwise: Item<'a>,
}

/// The text after the `=` of an assignment.
#[derive(Drop)]
pub enum PlacedRight<'a> {
    Plain(Item<'a>),
    Chosen(Item<'a>, Box<PlacedChoice<'a>>),
}

/// A statement of a step.
///
/// Large parts are on the heap, since each statement, and each part of a body, has the size of the largest.
#[derive(Drop)]
pub enum PlacedStatement<'a> {
    /// `left = right;`.
    Assign(Item<'a>, PlacedRight<'a>),
    /// `if (name) left = item;`, or `if (name == number) left = item;`.
    When(Box<PlacedWhen<'a>>),
}

/// An assignment after `if`.
#[derive(Clone, Copy)]
pub struct PlacedWhen<'a> {
    /// The variable that is compared.
    pub name: Item<'a>,
    /// Where the condition compares.
    pub number: Option<Item<'a>>,
    /// The variable that is assigned to.
    pub left: Item<'a>,
    /// What it gets.
    pub item: Item<'a>,
}

/// The text after the name of the first test: `== number`, and `|| name == number` any number of times.
#[derive(Drop)]
pub struct PlacedTests<'a> {
    /// What the first test compares with.
    pub number: Item<'a>,
    /// From the last to the first.
    pub others: Vec<PlacedTest<'a>>,
}

/// The text after `return`.
#[derive(Drop)]
pub enum PlacedReturned<'a> {
    Fixed(Item<'a>),
    /// A name alone.
    Read(Item<'a>),
    /// One test or more.
    Tested(Vec<PlacedTest<'a>>),
}

/// `name = number;`.
#[derive(Clone, Copy)]
pub struct PlacedAssignment<'a> {
    /// The variable that is assigned to.
    pub name: Item<'a>,
    /// What it gets.
    pub number: Item<'a>,
}

/// The function that sets the statics.
#[derive(Drop)]
pub struct PlacedReset<'a> {
    /// The name of the function.
    pub name: Item<'a>,
    /// Its statements, in order.
    pub assignments: Vec<PlacedAssignment<'a>>,
    /// The brace after the assignments.
    pub end: Item<'a>,
}

/// The function that makes a step.
#[derive(Drop)]
pub struct PlacedStep<'a> {
    /// The name of the function.
    pub name: Item<'a>,
    /// Its parameters, in order.
    pub parameters: Vec<Item<'a>>,
    /// Its local variables, in order.
    pub locals: Vec<Item<'a>>,
    /// Its statements, in order.
    pub statements: Vec<PlacedStatement<'a>>,
    /// What it returns.
    pub returned: PlacedReturned<'a>,
}

/// A whole unit.
#[derive(Drop)]
pub struct PlacedUnit<'a> {
    /// The variables that keep their values, in order.
    pub statics: Vec<Item<'a>>,
    /// The function that begins anew.
    pub reset: PlacedReset<'a>,
    /// The function of one instant.
    pub step: PlacedStep<'a>,
}
