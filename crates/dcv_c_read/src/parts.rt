// What the symbols of the grammar stand for, in code.
use crate::placed::{
    PlacedAssignment, PlacedChoice, PlacedReset, PlacedReturned, PlacedRight, PlacedStatement,
    PlacedStep, PlacedTest, PlacedTests, PlacedUnit,
};
use dcv_observer::Item;
use dcv_translation::Body;
use std::alloc::AllocError;

// The parts of a body.
pub(crate) type Parts<'a> = Body<Part<'a>>;

// What an action makes of them.
pub(crate) type Made<'a> = Result<Part<'a>, AllocError>;

// What a symbol stands for. A list is kept from its last element to its first, since its last action is that of the first one.
#[derive(Drop)]
pub(crate) enum Part<'a> {
    Words(Words<'a>),
    Tokens(Vec<Item<'a>>),
    Assignments(Vec<PlacedAssignment<'a>>),
    Reset(PlacedReset<'a>),
    Statement(PlacedStatement<'a>),
    Statements(Vec<PlacedStatement<'a>>),
    Right(PlacedRight<'a>),
    // The parts that may come after a name on a right side.
    Choice(Option<Box<PlacedChoice<'a>>>),
    Returned(PlacedReturned<'a>),
    Tests(Vec<PlacedTest<'a>>),
    // The parts that may come after the first name of a result.
    Behind(Option<PlacedTests<'a>>),
    // Large parts are on the heap, since each part has the size of the largest.
    Step(Box<PlacedStep<'a>>),
    Unit(Box<PlacedUnit<'a>>),
}

// A few words, which own nothing.
#[derive(Clone, Copy)]
pub(crate) enum Words<'a> {
    Token(Item<'a>),
    Assignment(PlacedAssignment<'a>),
    // The number of a condition, which may not be there.
    Maybe(Option<Item<'a>>),
    // A condition.
    Compared(Item<'a>, Option<Item<'a>>),
    Test(PlacedTest<'a>),
}
