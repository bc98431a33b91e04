// Formulas, which are judged on an interval of instants.
use crate::names::{Name, Span};
use crate::propositions::{Connective, Prop};

/// How a measure is compared with a number: `=`, `<`, `<=`, `>` or `>=`.
#[derive(Clone, Copy, Debug, PartialEq, Eq)]
pub enum Relation {
    Equal,
    Less,
    AtMost,
    Greater,
    AtLeast,
}

/// A number as it stands in the source, 0 to 9,999.
#[derive(Clone, Copy, Debug, PartialEq, Eq)]
pub struct Number {
    /// Its value.
    pub value: u32,
    /// Its place.
    pub span: Span,
}

/// The brackets round a proposition.
#[derive(Clone, Copy, Debug, PartialEq, Eq)]
pub enum Bracket {
    /// `<P>`: one instant, which has P.
    Point,
    /// `[P]`: more than one instant, and each but the last has P.
    Run,
    /// `[[P]]`: each instant has P.
    Every,
    /// `{{P}}`: two instants, the first of which has P.
    Unit,
}

/// Which of the instants that have a proposition are counted.
#[derive(Clone, Copy, Debug, PartialEq, Eq)]
pub enum Count {
    /// `scount`: all of them.
    Scount,
    /// `sdur`: all but the last instant of the interval.
    Sdur,
}

/// What stands before or after one formula.
#[derive(Clone, Copy, Debug, PartialEq, Eq)]
pub enum Unary {
    /// `!D`.
    Not,
    /// `D*`: the interval is one instant, or a chop of parts of two instants or more that each have D.
    Star,
    /// `<>D`: some part has D.
    Somewhere,
    /// `[]D`: each part has D.
    Everywhere,
}

/// The quantifiers, over the values of a name at the instants.
#[derive(Clone, Copy, Debug, PartialEq, Eq)]
pub enum Quantifier {
    /// `ex`: for some values.
    Exists,
    /// `all`: for all values.
    ForAll,
}

/// A formula and its place. Its own outermost parentheses are not in the span; those of its operands are.
#[cycle(formula)]
#[derive(Drop)]
pub struct Formula {
    /// Which form it has, and its parts.
    pub kind: FormulaKind,
    /// Its place.
    pub span: Span,
}

/// The forms of a formula. A list form has two operands or more.
#[cycle(formula)]
#[derive(Drop)]
pub enum FormulaKind {
    /// `true` or `false`.
    Constant(bool),
    /// `pt`: the interval has one instant.
    Pt,
    /// `ext`: the interval has more than one instant.
    Ext,
    /// `<P>`, `[P]`, `[[P]]` or `{{P}}`.
    Bracketed(Bracket, Prop),
    /// `slen R n`: the number of instants less one.
    Slen(Relation, Number),
    /// `scount P R n` or `sdur P R n`.
    Counted(Count, Prop, Relation, Number),
    /// A call of a formula macro; the arguments may be left out where it has no parameters.
    Call(Name, Vec<Prop>),
    /// `!D`, `D*`, `<>D` or `[]D`.
    Applied(Unary, Box<Formula>),
    /// `D && E && ..`, `D || E || ..` or `D <=> E <=> ..`.
    Joined(Connective, Vec<FormulaOperand>),
    /// `D => E`.
    Implies(Box<Formula>, Box<Formula>),
    /// `D ^ E ^ ..`: the interval is cut, and the instant at a cut belongs to both parts.
    Chop(Vec<FormulaOperand>),
    /// `ex p. D` or `all p. D`.
    Quantified(Quantifier, Name, Box<Formula>),
}

/// An operand of a list, or the goal. Its span has the parentheses that stand round it.
#[cycle(formula)]
#[derive(Drop)]
pub struct FormulaOperand {
    /// The formula.
    pub formula: Formula,
    /// Its place with the parentheses around it.
    pub span: Span,
}
