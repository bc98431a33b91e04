// What each rule of the grammar with a short body stands for, by the parts of one of its bodies.
ghost use Rattle.std.specs.Prelude.{◌≡◌, map, IfOk};
ghost use Rattle.dcv_c.specs.Actions.{token_part, tokens_part, assignments_part, assignment_part, statements_part, condition_part};
ghost use Rattle.dcv_c.specs.Actions.{compared_part, tests_part, more_tests_part, test_part};
ghost use Rattle.dcv_c_read.specs.Symbols.{seen_part, IsMeant};

use crate::accessors;
use crate::parts::{Made, Part, Parts, Words};
use crate::placed::{PlacedAssignment, PlacedTest, PlacedTests};
use dcv_translation::list_with_first;
use std::alloc::Global;

// static = "static" "int" name ";", parameter = "int" name, local = "int" name ";", item = number | name
pub(crate) fn token<'a>(parts: &mut Parts<'a>) -> Part<'a>
    requires { IsMeant (token_part (map seen_part parts.old)) }
    ensures { seen_part result ≡ token_part (map seen_part parts.old) }
{
    Part::Words(Words::Token(accessors::token(parts)))
}

// more_statics = {static}, locals = {local}, parameters = "void" | parameter more_parameters, more_parameters = {"," parameter}
pub(crate) fn tokens<'a>(alloc: Global, parts: &mut Parts<'a>) -> Made<'a>
    requires { IsMeant (tokens_part (map seen_part parts.old)) }
    ensures { IfOk result (λ part. seen_part part ≡ tokens_part (map seen_part parts.old)) }
{
    match accessors::token_or_end(parts) {
        None => Ok(Part::Tokens(Vec::new(alloc))),
        Some(name) => list_with_first!(Tokens, name, accessors::tokens(parts)),
    }
}

// assignments = {assignment}
pub(crate) fn assignments<'a>(alloc: Global, parts: &mut Parts<'a>) -> Made<'a>
    requires { IsMeant (assignments_part (map seen_part parts.old)) }
    ensures { IfOk result (λ part. seen_part part ≡ assignments_part (map seen_part parts.old)) }
{
    match accessors::words_or_end(parts) {
        None => Ok(Part::Assignments(Vec::new(alloc))),
        Some(Words::Assignment(assignment)) => {
            list_with_first!(Assignments, assignment, accessors::assignments(parts))
        }
        _ => unreachable!(),
    }
}

// assignment = name "=" number ";"
pub(crate) fn assignment<'a>(parts: &mut Parts<'a>) -> Part<'a>
    requires { IsMeant (assignment_part (map seen_part parts.old)) }
    ensures { seen_part result ≡ assignment_part (map seen_part parts.old) }
{
    let name = accessors::token(parts);
    let number = accessors::token(parts);
    Part::Words(Words::Assignment(PlacedAssignment { name, number }))
}

// statements = {statement}
pub(crate) fn statements<'a>(alloc: Global, parts: &mut Parts<'a>) -> Made<'a>
    requires { IsMeant (statements_part (map seen_part parts.old)) }
    ensures { IfOk result (λ part. seen_part part ≡ statements_part (map seen_part parts.old)) }
{
    match parts.next() {
        None => Ok(Part::Statements(Vec::new(alloc))),
        Some(Part::Statement(statement)) => {
            list_with_first!(Statements, statement, accessors::statements(parts))
        }
        _ => unreachable!(),
    }
}

// condition = name compared
pub(crate) fn condition<'a>(parts: &mut Parts<'a>) -> Part<'a>
    requires { IsMeant (condition_part (map seen_part parts.old)) }
    ensures { seen_part result ≡ condition_part (map seen_part parts.old) }
{
    let name = accessors::token(parts);
    match accessors::words(parts) {
        Words::Maybe(number) => Part::Words(Words::Compared(name, number)),
        _ => unreachable!(),
    }
}

// compared = ["==" number]
pub(crate) fn compared<'a>(parts: &mut Parts<'a>) -> Part<'a>
    requires { IsMeant (compared_part (map seen_part parts.old)) }
    ensures { seen_part result ≡ compared_part (map seen_part parts.old) }
{
    match accessors::token_or_end(parts) {
        None => Part::Words(Words::Maybe(None)),
        Some(number) => Part::Words(Words::Maybe(Some(number))),
    }
}

// tests = ["==" number more_tests]
pub(crate) fn tests<'a>(parts: &mut Parts<'a>) -> Part<'a>
    requires { IsMeant (tests_part (map seen_part parts.old)) }
    ensures { seen_part result ≡ tests_part (map seen_part parts.old) }
{
    match accessors::token_or_end(parts) {
        None => Part::Behind(None),
        Some(number) => {
            let others = accessors::tests(parts);
            Part::Behind(Some(PlacedTests { number, others }))
        }
    }
}

// more_tests = {"||" test}
pub(crate) fn more_tests<'a>(alloc: Global, parts: &mut Parts<'a>) -> Made<'a>
    requires { IsMeant (more_tests_part (map seen_part parts.old)) }
    ensures { IfOk result (λ part. seen_part part ≡ more_tests_part (map seen_part parts.old)) }
{
    match accessors::words_or_end(parts) {
        None => Ok(Part::Tests(Vec::new(alloc))),
        Some(Words::Test(test)) => list_with_first!(Tests, test, accessors::tests(parts)),
        _ => unreachable!(),
    }
}

// test = name "==" number
pub(crate) fn test<'a>(parts: &mut Parts<'a>) -> Part<'a>
    requires { IsMeant (test_part (map seen_part parts.old)) }
    ensures { seen_part result ≡ test_part (map seen_part parts.old) }
{
    let name = accessors::token(parts);
    let number = accessors::token(parts);
    Part::Words(Words::Test(PlacedTest { name, number }))
}
