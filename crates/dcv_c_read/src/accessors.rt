// The parts of a body, taken one after another: each function takes the next part, which is of a kind that is known.
ghost use Rattle.std.specs.Prelude.{◌≡◌, ◌∷◌, map, reverse};
ghost use Rattle.dcv_observer.specs.Left.{seen};
ghost use Rattle.dcv_translation.specs.Taken.{Begins, EndsOrBegins, Takes};
ghost use Rattle.dcv_c.specs.Actions.{AToken, Tokens, Assignments, AReset, Statements, ARight, AReturned, Tests};
ghost use Rattle.dcv_c_read.specs.Seen.{seen_assignment, seen_statement, seen_right, seen_returned, seen_test};
ghost use Rattle.dcv_c_read.specs.Symbols.{seen_part, seen_words, seen_step};
ghost use Rattle.dcv_c_read.specs.Taken.{AreWords, IsToken, AreTokens, AreAssignments, AreStatements, AreTests, IsReset, IsRight, IsReturned, IsStep};

use crate::parts::{Part, Parts, Words};
use crate::placed::{
    PlacedAssignment, PlacedReset, PlacedReturned, PlacedRight, PlacedStatement, PlacedStep,
    PlacedTest,
};
use dcv_observer::Item;
use dcv_translation::{copy_of_next, next_of};
use std::mem::forget;

pub(crate) fn words<'a>(parts: &mut Parts<'a>) -> Words<'a>
    requires { Begins AreWords (map seen_part parts.old) }
    ensures { map seen_part parts.old ≡ seen_words result ∷ map seen_part parts.new }
{
    match words_or_end(parts) {
        Some(words) => words,
        None => unreachable!(),
    }
}

// None at the end of the body.
pub(crate) fn words_or_end<'a>(parts: &mut Parts<'a>) -> Option<Words<'a>>
    requires { EndsOrBegins AreWords (map seen_part parts.old) }
    ensures { Takes seen_words result (map seen_part parts.old) (map seen_part parts.new) }
{
    copy_of_next!(parts, None => None, Some(Part::Words(words)) => Some(*words))
}

pub(crate) fn token<'a>(parts: &mut Parts<'a>) -> Item<'a>
    requires { Begins IsToken (map seen_part parts.old) }
    ensures { map seen_part parts.old ≡ AToken (seen result) ∷ map seen_part parts.new }
{
    copy_of_next!(parts, Some(Part::Words(Words::Token(item))) => *item)
}

// None at the end of the body.
pub(crate) fn token_or_end<'a>(parts: &mut Parts<'a>) -> Option<Item<'a>>
    requires { EndsOrBegins IsToken (map seen_part parts.old) }
    ensures { Takes (λ item. AToken (seen item)) result (map seen_part parts.old) (map seen_part parts.new) }
{
    copy_of_next!(parts, None => None, Some(Part::Words(Words::Token(item))) => Some(*item))
}

pub(crate) fn tokens<'a>(parts: &mut Parts<'a>) -> Vec<Item<'a>>
    requires { Begins AreTokens (map seen_part parts.old) }
    ensures { map seen_part parts.old ≡ Tokens (reverse (map seen result.items)) ∷ map seen_part parts.new }
{
    next_of!(parts, Tokens)
}

pub(crate) fn assignments<'a>(parts: &mut Parts<'a>) -> Vec<PlacedAssignment<'a>>
    requires { Begins AreAssignments (map seen_part parts.old) }
    ensures { map seen_part parts.old ≡ Assignments (reverse (map seen_assignment result.items)) ∷ map seen_part parts.new }
{
    next_of!(parts, Assignments)
}

pub(crate) fn statements<'a>(parts: &mut Parts<'a>) -> Vec<PlacedStatement<'a>>
    requires { Begins AreStatements (map seen_part parts.old) }
    ensures { map seen_part parts.old ≡ Statements (reverse (map seen_statement result.items)) ∷ map seen_part parts.new }
{
    next_of!(parts, Statements)
}

pub(crate) fn tests<'a>(parts: &mut Parts<'a>) -> Vec<PlacedTest<'a>>
    requires { Begins AreTests (map seen_part parts.old) }
    ensures { map seen_part parts.old ≡ Tests (reverse (map seen_test result.items)) ∷ map seen_part parts.new }
{
    next_of!(parts, Tests)
}

pub(crate) fn reset<'a>(parts: &mut Parts<'a>) -> PlacedReset<'a>
    requires { Begins IsReset (map seen_part parts.old) }
    ensures { map seen_part parts.old ≡ AReset (seen result.name) (map seen_assignment result.assignments.items) (seen result.end) ∷ map seen_part parts.new }
{
    next_of!(parts, Reset)
}

pub(crate) fn right<'a>(parts: &mut Parts<'a>) -> PlacedRight<'a>
    requires { Begins IsRight (map seen_part parts.old) }
    ensures { map seen_part parts.old ≡ ARight (seen_right result) ∷ map seen_part parts.new }
{
    next_of!(parts, Right)
}

pub(crate) fn returned<'a>(parts: &mut Parts<'a>) -> PlacedReturned<'a>
    requires { Begins IsReturned (map seen_part parts.old) }
    ensures { map seen_part parts.old ≡ AReturned (seen_returned result) ∷ map seen_part parts.new }
{
    next_of!(parts, Returned)
}

pub(crate) fn step<'a>(parts: &mut Parts<'a>) -> Box<PlacedStep<'a>>
    requires { Begins IsStep (map seen_part parts.old) }
    ensures { map seen_part parts.old ≡ seen_step result.value ∷ map seen_part parts.new }
{
    next_of!(parts, Step)
}
