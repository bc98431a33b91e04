// Propositions over slots, and the forms of a core without a formula in them.
ghost use Rattle.std.specs.Prelude.{◌≡◌, map, IfOk};
ghost use Rattle.dcv_core.specs.TruthViews.{plain_truth};

use dcv_syntax::{Bracket, Connective, Count, Direction, Relation as Rel, Span};
use std::alloc::{AllocError, Global};

/// A proposition over slots. A list may have any number of operands; `Iff` groups to the left.
#[cycle(truth)]
#[derive(Drop)]
pub enum Truth {
    Constant(bool),
    /// The value of the letter in this slot.
    Slot(u8),
    Not(Box<Truth>),
    Joined(Connective, Vec<Truth>),
    /// The operand one instant earlier or later, with its place. Only a goal has it whose shifts have no slots yet: none is
    /// left in the core that `dcv_scope::expand` makes.
    Shift(Direction, Box<Truth>, Span),
}

/// A form without a formula in it.
#[derive(Drop)]
pub enum Basic {
    Constant(bool),
    /// The proposition in these brackets.
    Bracketed(Bracket, Truth),
    /// The number of steps from instant to instant.
    Slen(Rel, u32),
    /// The number of those of these instants that have the proposition.
    Counted(Count, Truth, Rel, u32),
    /// The slot is at each instant what the proposition is at the instant before, or the next, and false where there is none.
    Track(Direction, Truth, u8),
}

impl Truth {
    /// Another proposition like this one.
    #[cycle(copy)]
    pub fn copy(&self, alloc: Global) -> Result<Truth, AllocError>
        ensures { IfOk result (λ truth. plain_truth truth ≡ plain_truth self.now) }
    {
        match self {
            Truth::Constant(truth) => Ok(Truth::Constant(*truth)),
            Truth::Slot(slot) => Ok(Truth::Slot(*slot)),
            Truth::Not(operand) => Ok(Truth::Not(Box::new(alloc, operand.copy(alloc)?)?)),
            Truth::Joined(connective, operands) => {
                Ok(Truth::Joined(*connective, copy_all(alloc, operands)?))
            }
            Truth::Shift(direction, operand, span) => Ok(Truth::Shift(
                *direction,
                Box::new(alloc, operand.copy(alloc)?)?,
                *span,
            )),
        }
    }
}

// Other propositions like these.
#[cycle(copy)]
fn copy_all(alloc: Global, truths: &[Truth]) -> Result<Vec<Truth>, AllocError>
    ensures { IfOk result (λ copies. map plain_truth copies.items ≡ map plain_truth truths.now) }
{
    let mut copies = Vec::new(alloc);
    for truth in truths {
        copies.push(truth.copy(alloc)?)?;
    }
    Ok(copies)
}
