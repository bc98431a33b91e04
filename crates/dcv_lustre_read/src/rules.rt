// What each rule of the grammar stands for, by the parts of one of its bodies.
ghost use Rattle.std.specs.Prelude.{◌≡◌, map, IfOk};
ghost use Rattle.dcv_lustre.specs.Actions.{more_inputs_part, truth_part, locals_part, local_part, token_part};
ghost use Rattle.dcv_lustre.specs.Actions.{equations_part, equation_part, maybe_part, condition_part, test_part, more_tests_part};
ghost use Rattle.dcv_lustre_read.specs.Symbols.{seen_part, IsMeant};

use crate::accessors;
use crate::parts::{Made, Part, Parts, Words};
use crate::placed::{PlacedEquation, PlacedLocal, PlacedTest};
use dcv_translation::list_with_first;
use std::alloc::Global;

// more_inputs = {";" input}
pub(crate) fn more_inputs<'a>(alloc: Global, parts: &mut Parts<'a>) -> Made<'a>
    requires { IsMeant (more_inputs_part (map seen_part parts.old)) }
    ensures { IfOk result (λ part. seen_part part ≡ more_inputs_part (map seen_part parts.old)) }
{
    match accessors::token_or_end(parts) {
        None => Ok(Part::Tokens(Vec::new(alloc))),
        Some(input) => list_with_first!(Tokens, input, accessors::tokens(parts)),
    }
}

// input = name ":" "bool", output = "returns" "(" "ok" ":" "bool" ")" ";"
pub(crate) fn truth<'a>(parts: &mut Parts<'a>) -> Part<'a>
    requires { IsMeant (truth_part (map seen_part parts.old)) }
    ensures { seen_part result ≡ truth_part (map seen_part parts.old) }
{
    Part::Words(Words::Token(accessors::token(parts)))
}

// variables = ["var" local locals], locals = {local}
pub(crate) fn locals<'a>(alloc: Global, parts: &mut Parts<'a>) -> Made<'a>
    requires { IsMeant (locals_part (map seen_part parts.old)) }
    ensures { IfOk result (λ part. seen_part part ≡ locals_part (map seen_part parts.old)) }
{
    match accessors::words_or_end(parts) {
        None => Ok(Part::Locals(Vec::new(alloc))),
        Some(Words::Local(local)) => list_with_first!(Locals, local, accessors::locals(parts)),
        _ => unreachable!(),
    }
}

// local = name ":" kind ";"
pub(crate) fn local<'a>(parts: &mut Parts<'a>) -> Part<'a>
    requires { IsMeant (local_part (map seen_part parts.old)) }
    ensures { seen_part result ≡ local_part (map seen_part parts.old) }
{
    let name = accessors::token(parts);
    let kind = accessors::token(parts);
    Part::Words(Words::Local(PlacedLocal { name, kind }))
}

// A rule that is one token.
pub(crate) fn token<'a>(parts: &mut Parts<'a>) -> Part<'a>
    requires { IsMeant (token_part (map seen_part parts.old)) }
    ensures { seen_part result ≡ token_part (map seen_part parts.old) }
{
    Part::Words(Words::Token(accessors::token(parts)))
}

// equations = {equation}
pub(crate) fn equations<'a>(alloc: Global, parts: &mut Parts<'a>) -> Made<'a>
    requires { IsMeant (equations_part (map seen_part parts.old)) }
    ensures { IfOk result (λ part. seen_part part ≡ equations_part (map seen_part parts.old)) }
{
    match parts.next() {
        None => Ok(Part::Equations(Vec::new(alloc))),
        Some(Part::Equation(equation)) => {
            list_with_first!(Equations, equation, accessors::equations(parts))
        }
        _ => unreachable!(),
    }
}

// equation = name "=" right ";"
pub(crate) fn equation<'a>(parts: &mut Parts<'a>) -> Part<'a>
    requires { IsMeant (equation_part (map seen_part parts.old)) }
    ensures { seen_part result ≡ equation_part (map seen_part parts.old) }
{
    let left = accessors::token(parts);
    match parts.next() {
        Some(Part::Right(right)) => Part::Equation(PlacedEquation { left, right }),
        _ => unreachable!(),
    }
}

// delay = ["->" "pre" name], compared = ["=" number]
pub(crate) fn maybe<'a>(parts: &mut Parts<'a>) -> Part<'a>
    requires { IsMeant (maybe_part (map seen_part parts.old)) }
    ensures { seen_part result ≡ maybe_part (map seen_part parts.old) }
{
    match accessors::token_or_end(parts) {
        None => Part::Words(Words::Maybe(None)),
        Some(token) => Part::Words(Words::Maybe(Some(token))),
    }
}

// condition = name compared
pub(crate) fn condition<'a>(parts: &mut Parts<'a>) -> Part<'a>
    requires { IsMeant (condition_part (map seen_part parts.old)) }
    ensures { seen_part result ≡ condition_part (map seen_part parts.old) }
{
    let name = accessors::token(parts);
    match accessors::words(parts) {
        Words::Maybe(number) => Part::Words(Words::Compared(name, number)),
        _ => unreachable!(),
    }
}

// test = "(" name "=" number ")"
pub(crate) fn test<'a>(parts: &mut Parts<'a>) -> Part<'a>
    requires { IsMeant (test_part (map seen_part parts.old)) }
    ensures { seen_part result ≡ test_part (map seen_part parts.old) }
{
    let name = accessors::token(parts);
    let number = accessors::token(parts);
    Part::Words(Words::Test(PlacedTest { name, number }))
}

// more_tests = {"or" test}
pub(crate) fn more_tests<'a>(alloc: Global, parts: &mut Parts<'a>) -> Made<'a>
    requires { IsMeant (more_tests_part (map seen_part parts.old)) }
    ensures { IfOk result (λ part. seen_part part ≡ more_tests_part (map seen_part parts.old)) }
{
    match accessors::words_or_end(parts) {
        None => Ok(Part::Tests(Vec::new(alloc))),
        Some(Words::Test(test)) => list_with_first!(Tests, test, accessors::tests(parts)),
        _ => unreachable!(),
    }
}
