// What the rules of propositions stand for, by the parts of one of their bodies.
ghost use Rattle.std.specs.Prelude.{◌≡◌, map, reverse, IfOk};
ghost use Rattle.dcv_syntax.specs.Views.{plain_prop, plain_prop_operand};
ghost use Rattle.dcv_reader.specs.Actions.{arguments_part, more_props_part, joined_props_part, prop_implies_part, prop_prefix_part, prop_atom_part};
ghost use Rattle.dcv_reader.specs.Parts.{seen_part, IsMeant};

use crate::accessors;
use crate::parts::{Made, Part, Parts};
use crate::props::{
    Arguments, listed_prop, prop_call, prop_constant, prop_implication, prop_prefixed,
};
use dcv_syntax::{Connective, Prop, PropOperand};
use dcv_translation::{list_with_first, with_first};
use std::alloc::{AllocError, Global};

// arguments = ["(" prop more_arguments ")"]
pub(crate) fn arguments<'a>(alloc: Global, parts: &mut Parts<'a>) -> Made<'a>
    requires { IsMeant (arguments_part (map seen_part parts.old)) }
    ensures { IfOk result (λ part. seen_part part ≡ arguments_part (map seen_part parts.old)) }
{
    match parts.next() {
        None => Ok(Part::Arguments(Arguments {
            props: Vec::new(alloc),
            parentheses: None,
        })),
        Some(Part::Token(opening)) => {
            let first = Box::into_inner(accessors::prop(parts));
            let operands = with_first(first, accessors::props(parts))?;
            let closing = accessors::token(parts).token;
            Ok(Part::Arguments(Arguments {
                props: props_of(alloc, operands)?,
                parentheses: Some(opening.token.span_to(&closing)),
            }))
        }
        _ => unreachable!(),
    }
}

// The propositions of operands that stand from the last to the first, from the first to the last.
fn props_of(alloc: Global, mut operands: Vec<PropOperand>) -> Result<Vec<Prop>, AllocError>
    ensures { IfOk result (λ props. map plain_prop props.items
        ≡ map (λ operand. operand.prop) (reverse (map plain_prop_operand operands.items))) }
{
    let mut props = Vec::with_capacity(alloc, operands.len())?;
    while let Some(operand) = operands.pop() {
        props.push(operand.prop)?;
    }
    Ok(props)
}

// {"<=>" p}, {"||" p}, {"&&" p} and {"," p}, and also ["=>" p]
pub(crate) fn more_props<'a>(alloc: Global, parts: &mut Parts<'a>) -> Made<'a>
    requires { IsMeant (more_props_part (map seen_part parts.old)) }
    ensures { IfOk result (λ part. seen_part part ≡ more_props_part (map seen_part parts.old)) }
{
    match parts.next() {
        None => Ok(Part::Props(Vec::new(alloc))),
        Some(Part::Token(_)) => {
            let first = Box::into_inner(accessors::prop(parts));
            match parts.next() {
                None => list_with_first!(Props, first, Vec::new(alloc)),
                Some(Part::Props(others)) => list_with_first!(Props, first, others),
                _ => unreachable!(),
            }
        }
        _ => unreachable!(),
    }
}

// prop = prop_implies prop_iff_more, prop_or = prop_and prop_or_more, prop_and = prop_prefix prop_and_more
pub(crate) fn joined_props<'a>(
    alloc: Global,
    connective: Connective,
    parts: &mut Parts<'a>,
) -> Made<'a>
    requires { IsMeant (joined_props_part connective (map seen_part parts.old)) }
    ensures { IfOk result (λ part. seen_part part ≡ joined_props_part connective (map seen_part parts.old)) }
{
    let first = accessors::prop(parts);
    let others = accessors::props(parts);
    if others.is_empty() {
        return Ok(Part::Prop(first));
    }
    let mut operands = with_first(Box::into_inner(first), others)?;
    operands.reverse();
    Ok(Part::Prop(listed_prop(alloc, connective, operands)?))
}

// prop_implies = prop_or prop_implied
pub(crate) fn prop_implies<'a>(alloc: Global, parts: &mut Parts<'a>) -> Made<'a>
    requires { IsMeant (prop_implies_part (map seen_part parts.old)) }
    ensures { IfOk result (λ part. seen_part part ≡ prop_implies_part (map seen_part parts.old)) }
{
    let premise = accessors::prop(parts);
    match accessors::props(parts).pop() {
        None => Ok(Part::Prop(premise)),
        Some(conclusion) => Ok(Part::Prop(prop_implication(alloc, premise, conclusion)?)),
    }
}

// prop_prefix = ("!" | "-" | "+") prop_prefix | prop_atom
pub(crate) fn prop_prefix<'a>(alloc: Global, parts: &mut Parts<'a>) -> Made<'a>
    requires { IsMeant (prop_prefix_part (map seen_part parts.old)) }
    ensures { IfOk result (λ part. seen_part part ≡ prop_prefix_part (map seen_part parts.old)) }
{
    match parts.next() {
        Some(Part::Prop(operand)) => Ok(Part::Prop(operand)),
        Some(Part::Token(sign)) => {
            let operand = accessors::prop(parts);
            Ok(Part::Prop(prop_prefixed(alloc, &sign.token, operand)?))
        }
        _ => unreachable!(),
    }
}

// prop_atom = "(" prop ")" | "true" | "false" | name arguments
pub(crate) fn prop_atom<'a>(alloc: Global, parts: &mut Parts<'a>) -> Made<'a>
    requires { IsMeant (prop_atom_part (map seen_part parts.old)) }
    ensures { IfOk result (λ part. seen_part part ≡ prop_atom_part (map seen_part parts.old)) }
{
    let first = accessors::token(parts).token;
    match parts.next() {
        None => Ok(Part::Prop(Box::new(alloc, prop_constant(&first))?)),
        Some(Part::Prop(mut inside)) => {
            let closing = accessors::token(parts).token;
            inside.span = first.span_to(&closing);
            Ok(Part::Prop(inside))
        }
        Some(Part::Arguments(arguments)) => Ok(Part::Prop(prop_call(alloc, &first, arguments)?)),
        _ => unreachable!(),
    }
}
