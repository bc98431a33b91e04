// Propositions, which are judged at one instant.
use crate::names::{Name, Span};

/// What joins the operands of a list: `&&`, `||`, or `<=>`, which groups to the left.
#[derive(Clone, Copy, Debug, PartialEq, Eq, Hash)]
pub enum Connective {
    And,
    Or,
    Iff,
}

/// Where a shifted proposition looks.
#[derive(Clone, Copy, Debug, PartialEq, Eq)]
pub enum Direction {
    /// `-P`, prior: P at the instant before, and false at the first.
    Prior,
    /// `+P`, next: P at the next instant, and false at the last of the behaviour.
    Next,
}

/// A proposition and its place. Its own outermost parentheses are not in the span.
#[cycle(prop)]
#[derive(Drop)]
pub struct Prop {
    /// Which form it has, and its parts.
    pub kind: PropKind,
    /// Its place.
    pub span: Span,
}

/// The forms of a proposition. A list form has two operands or more.
#[cycle(prop)]
#[derive(Drop)]
pub enum PropKind {
    /// `true` or `false`.
    Constant(bool),
    /// A variable, parameter or quantified name, which has no arguments, or a call of a proposition macro.
    Call(Name, Vec<Prop>),
    /// `!P`.
    Not(Box<Prop>),
    /// `P && Q && ..`, `P || Q || ..` or `P <=> Q <=> ..`.
    Joined(Connective, Vec<PropOperand>),
    /// `P => Q`.
    Implies(Box<Prop>, Box<Prop>),
    /// `-P` or `+P`. The span is that of the form.
    Shifted(Direction, Span, Box<Prop>),
}

/// An operand of a list. Its span has the parentheses that stand round it.
#[cycle(prop)]
#[derive(Drop)]
pub struct PropOperand {
    /// The proposition.
    pub prop: Prop,
    /// Its place with the parentheses around it.
    pub span: Span,
}
