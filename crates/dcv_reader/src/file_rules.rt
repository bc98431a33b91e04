// What the rules of files stand for, by the parts of one of their bodies.
ghost use Rattle.std.specs.Prelude.{◌≡◌, map, IfOk};
ghost use Rattle.dcv_reader.specs.Actions.{file_part, names_part, more_names_part, macros_part, macro_part};
ghost use Rattle.dcv_reader.specs.Parts.{seen_part, IsMeant};

use crate::accessors;
use crate::name::name_of;
use crate::parts::{Made, Part, Parts};
use dcv_syntax::{File, Macro, MacroBody};
use dcv_translation::list_with_first;
use std::alloc::Global;

// file = declaration macros "infer" formula ";"
#[tactic(auto, using(dcv_translation::proofs::Reversed::forwards))]
pub(crate) fn file<'a>(alloc: Global, parts: &mut Parts<'a>) -> Made<'a>
    requires { IsMeant (file_part (map seen_part parts.old)) }
    ensures { IfOk result (λ part. seen_part part ≡ file_part (map seen_part parts.old)) }
{
    let mut variables = accessors::names(parts);
    let mut macros = accessors::macros(parts);
    let _infer = accessors::token(parts);
    let goal = accessors::formula(parts);
    let _semicolon = accessors::token(parts);
    variables.reverse();
    macros.reverse();
    let file = File {
        variables,
        macros,
        goal: Box::into_inner(goal),
    };
    Ok(Part::File(Box::new(alloc, file)?))
}

// declaration = ["var" name more_names ";"], parameters = ["(" name more_names ")"]
pub(crate) fn names<'a>(alloc: Global, parts: &mut Parts<'a>) -> Made<'a>
    requires { IsMeant (names_part (map seen_part parts.old)) }
    ensures { IfOk result (λ part. seen_part part ≡ names_part (map seen_part parts.old)) }
{
    match parts.next() {
        None => Ok(Part::Names(Vec::new(alloc))),
        Some(Part::Token(_)) => {
            let token = accessors::token(parts).token;
            let others = accessors::names(parts);
            let _closing = accessors::token(parts);
            list_with_first!(Names, name_of(alloc, &token)?, others)
        }
        _ => unreachable!(),
    }
}

// more_names = {"," name}
pub(crate) fn more_names<'a>(alloc: Global, parts: &mut Parts<'a>) -> Made<'a>
    requires { IsMeant (more_names_part (map seen_part parts.old)) }
    ensures { IfOk result (λ part. seen_part part ≡ more_names_part (map seen_part parts.old)) }
{
    match parts.next() {
        None => Ok(Part::Names(Vec::new(alloc))),
        Some(Part::Token(_)) => {
            let token = accessors::token(parts).token;
            list_with_first!(Names, name_of(alloc, &token)?, accessors::names(parts))
        }
        _ => unreachable!(),
    }
}

// macros = {macro}
pub(crate) fn macros<'a>(alloc: Global, parts: &mut Parts<'a>) -> Made<'a>
    requires { IsMeant (macros_part (map seen_part parts.old)) }
    ensures { IfOk result (λ part. seen_part part ≡ macros_part (map seen_part parts.old)) }
{
    match parts.next() {
        None => Ok(Part::Macros(Vec::new(alloc))),
        Some(Part::Macro(first)) => {
            list_with_first!(Macros, Box::into_inner(first), accessors::macros(parts))
        }
        _ => unreachable!(),
    }
}

// macro = "define" name parameters "as" formula ";" | "prop" name parameters "as" prop ";"
pub(crate) fn one_macro<'a>(alloc: Global, parts: &mut Parts<'a>) -> Made<'a>
    requires { IsMeant (macro_part (map seen_part parts.old)) }
    ensures { IfOk result (λ part. seen_part part ≡ macro_part (map seen_part parts.old)) }
{
    let word = accessors::token(parts).token;
    let token = accessors::token(parts).token;
    let mut parameters = accessors::names(parts);
    let _as_word = accessors::token(parts);
    let body = match parts.next() {
        Some(Part::Formula(body)) => MacroBody::Formula(Box::into_inner(body).formula),
        Some(Part::Prop(body)) => MacroBody::Prop(Box::into_inner(body).prop),
        _ => unreachable!(),
    };
    let semicolon = accessors::token(parts).token;
    parameters.reverse();
    let made = Macro {
        name: name_of(alloc, &token)?,
        parameters,
        body,
        span: word.span_to(&semicolon),
    };
    Ok(Part::Macro(Box::new(alloc, made)?))
}
