// What the symbols of the grammar stand for, in code.
ghost use Rattle.std.specs.Prelude.{◌≡◌, ◌≤◌};
ghost use Rattle.dcv_tokens.specs.Classes.{number, class_of};
ghost use Rattle.dcv_tokens.specs.Decimal.{value_of};
ghost use Rattle.dcv_tokens.specs.Limits.{largest_number};

use crate::props::Arguments;
use dcv_syntax::{File, FormulaOperand, Macro, Name, PropOperand, Relation, Span};
use dcv_tokens::Token;
use dcv_translation::Body;
use std::alloc::AllocError;

// The parts of a body.
pub(crate) type Parts<'a> = Body<Part<'a>>;

// What an action makes of them.
pub(crate) type Made<'a> = Result<Part<'a>, AllocError>;

// A token that is no number which is too large.
#[derive(Clone, Copy)]
pub(crate) struct Leaf<'a> {
    pub(crate) token: Token<'a>,
    ghost small: { class_of token.bytes.now ≡ number → value_of token.bytes.now ≤ largest_number },
}

// What a symbol stands for. A list is kept from its last element to its first, since its last action is that of the first one. What is large is on the
// heap, since each part has the size of the largest.
#[derive(Drop)]
pub(crate) enum Part<'a> {
    Token(Leaf<'a>),
    Names(Vec<Name>),
    Arguments(Arguments),
    Relation(Relation),
    Prop(Box<PropOperand>),
    Formula(Box<FormulaOperand>),
    Props(Vec<PropOperand>),
    Formulas(Vec<FormulaOperand>),
    Stars(Vec<Span>),
    Macro(Box<Macro>),
    Macros(Vec<Macro>),
    File(Box<File>),
}
