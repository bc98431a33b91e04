// What the symbols of the grammar stand for, in code.
use crate::placed::{PlacedArm, PlacedEquation, PlacedLocal, PlacedNode, PlacedRight, PlacedTest};
use dcv_observer::Item;
use dcv_translation::Body;
use std::alloc::AllocError;

// The parts of a body.
pub(crate) type Parts<'a> = Body<Part<'a>>;

// What an action makes of them.
pub(crate) type Made<'a> = Result<Part<'a>, AllocError>;

// What a symbol stands for. A list is kept from its last element to its first, since its last action is that of the first one.
#[derive(Drop)]
pub(crate) enum Part<'a> {
    Words(Words<'a>),
    Tokens(Vec<Item<'a>>),
    Locals(Vec<PlacedLocal<'a>>),
    Equation(PlacedEquation<'a>),
    Equations(Vec<PlacedEquation<'a>>),
    Right(PlacedRight<'a>),
    Choice(Vec<PlacedArm<'a>>, Item<'a>),
    Tests(Vec<PlacedTest<'a>>),
    // On the heap, since each part has the size of the largest.
    Node(Box<PlacedNode<'a>>),
}

// A few words, which own nothing.
#[derive(Clone, Copy)]
pub(crate) enum Words<'a> {
    Token(Item<'a>),
    Local(PlacedLocal<'a>),
    // A token that may not be there: the source of a delay, or the number of a condition.
    Maybe(Option<Item<'a>>),
    // A condition.
    Compared(Item<'a>, Option<Item<'a>>),
    Test(PlacedTest<'a>),
}
