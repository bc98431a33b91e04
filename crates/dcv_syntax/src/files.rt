// Formula files: declared variables, macros, and the goal.
ghost use Rattle.std.specs.Prelude.{◌≡◌};

use crate::formulas::{Formula, FormulaOperand};
use crate::names::{Name, Span};
use crate::propositions::Prop;

/// What a macro stands for.
#[derive(Drop)]
pub enum MacroBody {
    /// The body of `define`.
    Formula(Formula),
    /// The body of `prop`.
    Prop(Prop),
}

/// A macro: `define name(a, b) as F;` or `prop name(a, b) as P;`. The span has all of it, the `;` too.
#[derive(Drop)]
pub struct Macro {
    /// Its name.
    pub name: Name,
    /// The names of its parameters.
    pub parameters: Vec<Name>,
    /// What it stands for.
    pub body: MacroBody,
    /// The place of the whole definition.
    pub span: Span,
}

/// A formula file: the variables in declared order, the macros in order, and the formula after `infer`, whose
/// span begins at the first token after that word.
#[derive(Drop)]
pub struct File {
    /// The declared variables, in order.
    pub variables: Vec<Name>,
    /// The macros, in order.
    pub macros: Vec<Macro>,
    /// The formula after `infer`.
    pub goal: FormulaOperand,
}

impl File {
    /// The declared variables in order.
    pub fn names(&self) -> &[Name]
        ensures { result.now ≡ self.now.variables.items }
    {
        self.variables.as_slice()
    }
}
