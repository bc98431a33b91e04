// The parts of a body, taken one after another: each function takes the next part, which is of a kind that is known.
ghost use Rattle.std.specs.Prelude.{◌≡◌, ◌∷◌, map, reverse};
ghost use Rattle.dcv_syntax.specs.Views.{plain_prop_operand, plain_formula_operand, plain_macro};
ghost use Rattle.dcv_tokens.specs.Reading.{seen};
ghost use Rattle.dcv_translation.specs.Taken.{Begins};
ghost use Rattle.dcv_reader.specs.Actions.{AToken, Names, AProp, AFormula, Props, Formulas, Stars, Macros};
ghost use Rattle.dcv_reader.specs.Parts.{seen_part, IsToken, AreNames, IsProp, AreProps, IsFormula, AreFormulas, AreMacros, AreStars};

use crate::parts::{Leaf, Part, Parts};
use dcv_syntax::{FormulaOperand, Macro, Name, PropOperand, Span};
use dcv_translation::{copy_of_next, next_of};
use std::mem::forget;

pub(crate) fn token<'a>(parts: &mut Parts<'a>) -> Leaf<'a>
    requires { Begins IsToken (map seen_part parts.old) }
    ensures { map seen_part parts.old ≡ AToken (seen result.token) ∷ map seen_part parts.new }
{
    copy_of_next!(parts, Some(Part::Token(leaf)) => *leaf)
}

pub(crate) fn names(parts: &mut Parts<'_>) -> Vec<Name>
    requires { Begins AreNames (map seen_part parts.old) }
    ensures { map seen_part parts.old ≡ Names (reverse result.items) ∷ map seen_part parts.new }
{
    next_of!(parts, Names)
}

pub(crate) fn prop(parts: &mut Parts<'_>) -> Box<PropOperand>
    requires { Begins IsProp (map seen_part parts.old) }
    ensures { map seen_part parts.old ≡ AProp (plain_prop_operand result.value) ∷ map seen_part parts.new }
{
    next_of!(parts, Prop)
}

pub(crate) fn props(parts: &mut Parts<'_>) -> Vec<PropOperand>
    requires { Begins AreProps (map seen_part parts.old) }
    ensures { map seen_part parts.old ≡ Props (reverse (map plain_prop_operand result.items)) ∷ map seen_part parts.new }
{
    next_of!(parts, Props)
}

pub(crate) fn formula(parts: &mut Parts<'_>) -> Box<FormulaOperand>
    requires { Begins IsFormula (map seen_part parts.old) }
    ensures { map seen_part parts.old ≡ AFormula (plain_formula_operand result.value) ∷ map seen_part parts.new }
{
    next_of!(parts, Formula)
}

pub(crate) fn formulas(parts: &mut Parts<'_>) -> Vec<FormulaOperand>
    requires { Begins AreFormulas (map seen_part parts.old) }
    ensures { map seen_part parts.old ≡ Formulas (reverse (map plain_formula_operand result.items)) ∷ map seen_part parts.new }
{
    next_of!(parts, Formulas)
}

pub(crate) fn macros(parts: &mut Parts<'_>) -> Vec<Macro>
    requires { Begins AreMacros (map seen_part parts.old) }
    ensures { map seen_part parts.old ≡ Macros (reverse (map plain_macro result.items)) ∷ map seen_part parts.new }
{
    next_of!(parts, Macros)
}

pub(crate) fn stars(parts: &mut Parts<'_>) -> Vec<Span>
    requires { Begins AreStars (map seen_part parts.old) }
    ensures { map seen_part parts.old ≡ Stars (reverse result.items) ∷ map seen_part parts.new }
{
    next_of!(parts, Stars)
}
