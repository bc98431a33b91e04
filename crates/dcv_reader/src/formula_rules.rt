// What the rules of formulas stand for, by the parts of one of their bodies.
ghost use Rattle.std.specs.Prelude.{◌≡◌, ◌∷◌, map, reverse, IfOk};
ghost use Rattle.dcv_syntax.specs.Views.{plain_prop_operand, plain_formula_operand};
ghost use Rattle.dcv_tokens.specs.Reading.{seen};
ghost use Rattle.dcv_tokens.specs.Tokens.{Token as TextToken};
ghost use Rattle.dcv_translation.specs.Taken.{Begins};
ghost use Rattle.dcv_reader.specs.Nodes.{number_of, starred_by};
ghost use Rattle.dcv_reader.specs.Actions.{AToken, AProp, AFormula, formula_part, more_formulas_part, formula_implies_part, formula_prefix_part, formula_star_part};
ghost use Rattle.dcv_reader.specs.Actions.{stars_part, formula_atom_part, relation_part};
ghost use Rattle.dcv_reader.specs.Lists.{formula_list_part};
ghost use Rattle.dcv_reader.specs.Parts.{seen_part, IsMeant, IsNumber, HasNumber};

use crate::accessors;
use crate::formulas::{
    FormulaList, bare, bracketed, formula_call, implication, measure, prefixed, quantified,
    relation_of, starred, word_kind,
};
use crate::parts::{Made, Part, Parts};
use dcv_syntax::{FormulaKind, FormulaOperand, Number, PropOperand, Span};
use dcv_tokens::Token;
use dcv_translation::{list_with_first, with_first};
use std::alloc::{AllocError, Global};

// formula = ("ex" | "all") name "." formula | formula_iff
pub(crate) fn formula<'a>(alloc: Global, parts: &mut Parts<'a>) -> Made<'a>
    requires { IsMeant (formula_part (map seen_part parts.old)) }
    ensures { IfOk result (λ part. seen_part part ≡ formula_part (map seen_part parts.old)) }
{
    match parts.next() {
        Some(Part::Formula(body)) => Ok(Part::Formula(body)),
        Some(Part::Token(word)) => {
            let name = accessors::token(parts).token;
            let _dot = accessors::token(parts);
            let body = accessors::formula(parts);
            Ok(Part::Formula(quantified(alloc, &word.token, &name, body)?))
        }
        _ => unreachable!(),
    }
}

// {"<=>" D}, {"||" D}, {"&&" D} and {"^" D}, and also ["=>" D]
pub(crate) fn more_formulas<'a>(alloc: Global, parts: &mut Parts<'a>) -> Made<'a>
    requires { IsMeant (more_formulas_part (map seen_part parts.old)) }
    ensures { IfOk result (λ part. seen_part part ≡ more_formulas_part (map seen_part parts.old)) }
{
    match parts.next() {
        None => Ok(Part::Formulas(Vec::new(alloc))),
        Some(Part::Token(_)) => {
            let first = Box::into_inner(accessors::formula(parts));
            match parts.next() {
                None => list_with_first!(Formulas, first, Vec::new(alloc)),
                Some(Part::Formulas(others)) => list_with_first!(Formulas, first, others),
                _ => unreachable!(),
            }
        }
        _ => unreachable!(),
    }
}

// formula_iff = formula_implies formula_iff_more, and so for the other lists of operands
pub(crate) fn formula_list<'a>(alloc: Global, list: FormulaList, parts: &mut Parts<'a>) -> Made<'a>
    requires { IsMeant (formula_list_part list (map seen_part parts.old)) }
    ensures { IfOk result (λ part. seen_part part ≡ formula_list_part list (map seen_part parts.old)) }
{
    let first = accessors::formula(parts);
    let others = accessors::formulas(parts);
    if others.is_empty() {
        return Ok(Part::Formula(first));
    }
    let mut operands = with_first(Box::into_inner(first), others)?;
    operands.reverse();
    Ok(Part::Formula(list.of(alloc, operands)?))
}

// formula_implies = formula_or formula_implied
pub(crate) fn formula_implies<'a>(alloc: Global, parts: &mut Parts<'a>) -> Made<'a>
    requires { IsMeant (formula_implies_part (map seen_part parts.old)) }
    ensures { IfOk result (λ part. seen_part part ≡ formula_implies_part (map seen_part parts.old)) }
{
    let premise = accessors::formula(parts);
    match accessors::formulas(parts).pop() {
        None => Ok(Part::Formula(premise)),
        Some(conclusion) => Ok(Part::Formula(implication(alloc, premise, conclusion)?)),
    }
}

// formula_prefix = ("!" | "<>" | "[]") formula_prefix | formula_star
pub(crate) fn formula_prefix<'a>(alloc: Global, parts: &mut Parts<'a>) -> Made<'a>
    requires { IsMeant (formula_prefix_part (map seen_part parts.old)) }
    ensures { IfOk result (λ part. seen_part part ≡ formula_prefix_part (map seen_part parts.old)) }
{
    match parts.next() {
        Some(Part::Formula(body)) => Ok(Part::Formula(body)),
        Some(Part::Token(sign)) => {
            let body = accessors::formula(parts);
            Ok(Part::Formula(prefixed(alloc, &sign.token, body)?))
        }
        _ => unreachable!(),
    }
}

// formula_star = formula_atom stars
pub(crate) fn formula_star<'a>(alloc: Global, parts: &mut Parts<'a>) -> Made<'a>
    requires { IsMeant (formula_star_part (map seen_part parts.old)) }
    ensures { IfOk result (λ part. seen_part part ≡ formula_star_part (map seen_part parts.old)) }
{
    let body = accessors::formula(parts);
    let stars = accessors::stars(parts);
    Ok(Part::Formula(starred_by(alloc, body, stars)?))
}

// A formula with its stars, which stand from the last to the first.
fn starred_by(
    alloc: Global,
    mut body: Box<FormulaOperand>,
    mut stars: Vec<Span>,
) -> Result<Box<FormulaOperand>, AllocError>
    ensures { IfOk result (λ d. plain_formula_operand d.value ≡ starred_by (plain_formula_operand body.value) (reverse stars.items)) }
{
    while let Some(star) = stars.pop() {
        body = starred(alloc, body, star)?;
    }
    Ok(body)
}

// stars = {"*"}
pub(crate) fn stars<'a>(alloc: Global, parts: &mut Parts<'a>) -> Made<'a>
    requires { IsMeant (stars_part (map seen_part parts.old)) }
    ensures { IfOk result (λ part. seen_part part ≡ stars_part (map seen_part parts.old)) }
{
    match parts.next() {
        None => Ok(Part::Stars(Vec::new(alloc))),
        Some(Part::Token(star)) => {
            list_with_first!(Stars, star.token.span(), accessors::stars(parts))
        }
        _ => unreachable!(),
    }
}

// formula_atom = "(" formula ")" | "<" prop ">" | "[" prop "]" | "[[" prop "]]" | "{{" prop "}}" | "pt" | "ext" | "true" | "false"
//              | "slen" relation number | ("scount" | "sdur") prop_prefix relation number | name arguments
pub(crate) fn formula_atom<'a>(alloc: Global, parts: &mut Parts<'a>) -> Made<'a>
    requires meant { IsMeant (formula_atom_part (map seen_part parts.old)) }
    requires number { HasNumber (map seen_part parts.old) }
    ensures { IfOk result (λ part. seen_part part ≡ formula_atom_part (map seen_part parts.old)) }
{
    let first = accessors::token(parts).token;
    let atom = match parts.next() {
        Some(Part::Formula(mut inside)) => {
            let closing = accessors::token(parts).token;
            inside.span = first.span_to(&closing);
            return Ok(Part::Formula(inside));
        }
        None => bare(word_kind(&first), first.span()),
        Some(Part::Prop(inside)) => behind_prop(&first, Box::into_inner(inside), parts),
        Some(Part::Relation(relation)) => {
            let number = number(parts);
            let span = first.span().to(number.span);
            bare(FormulaKind::Slen(relation, number), span)
        }
        Some(Part::Arguments(arguments)) => formula_call(alloc, &first, arguments)?,
        _ => unreachable!(),
    };
    Ok(Part::Formula(Box::new(alloc, atom)?))
}

// What begins with a token and a proposition: a closing bracket, or a relation and a number.
fn behind_prop(first: &Token<'_>, inside: PropOperand, parts: &mut Parts<'_>) -> FormulaOperand
    requires meant { IsMeant (formula_atom_part (AToken (seen first.now) ∷ AProp (plain_prop_operand inside) ∷ map seen_part parts.old)) }
    requires number { HasNumber (AToken (seen first.now) ∷ AProp (plain_prop_operand inside) ∷ map seen_part parts.old) }
    ensures { AFormula (plain_formula_operand result)
        ≡ formula_atom_part (AToken (seen first.now) ∷ AProp (plain_prop_operand inside) ∷ map seen_part parts.old) }
{
    match parts.next() {
        Some(Part::Token(closing)) => bracketed(first, inside.prop, &closing.token),
        Some(Part::Relation(relation)) => measure(first, inside.prop, relation, number(parts)),
        _ => unreachable!(),
    }
}

// The number that the next part is.
fn number(parts: &mut Parts<'_>) -> Number
    requires { Begins IsNumber (map seen_part parts.old) }
    ensures { (token : TextToken) × (map seen_part parts.old ≡ AToken token ∷ map seen_part parts.new) × (result ≡ number_of token) }
{
    let token = accessors::token(parts).token;
    Number {
        value: token.value(),
        span: token.span(),
    }
}

// relation = "=" | "<" | "<=" | ">" | ">="
pub(crate) fn relation<'a>(parts: &mut Parts<'a>) -> Made<'a>
    requires { IsMeant (relation_part (map seen_part parts.old)) }
    ensures { IfOk result (λ part. seen_part part ≡ relation_part (map seen_part parts.old)) }
{
    Ok(Part::Relation(relation_of(&accessors::token(parts).token)))
}
