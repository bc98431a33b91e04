// The parts of a body, taken one after another: each function takes the next part, which is of a kind that is known.
ghost use Rattle.std.specs.Prelude.{◌≡◌, ◌∷◌, map, reverse};
ghost use Rattle.dcv_observer.specs.Left.{seen};
ghost use Rattle.dcv_translation.specs.Taken.{Begins, EndsOrBegins, Takes};
ghost use Rattle.dcv_lustre.specs.Actions.{AToken, Tokens, Locals, Equations, Tests};
ghost use Rattle.dcv_lustre_read.specs.Seen.{seen_local, seen_equation, seen_test};
ghost use Rattle.dcv_lustre_read.specs.Symbols.{seen_part, seen_words};
ghost use Rattle.dcv_lustre_read.specs.Taken.{AreWords, IsToken, AreTokens, AreLocals, AreEquations, AreTests};

use crate::parts::{Part, Parts, Words};
use crate::placed::{PlacedEquation, PlacedLocal, PlacedTest};
use dcv_observer::Item;
use dcv_translation::{copy_of_next, next_of};
use std::mem::forget;

pub(crate) fn words<'a>(parts: &mut Parts<'a>) -> Words<'a>
    requires { Begins AreWords (map seen_part parts.old) }
    ensures { map seen_part parts.old ≡ seen_words result ∷ map seen_part parts.new }
{
    match words_or_end(parts) {
        Some(words) => words,
        None => unreachable!(),
    }
}

// None at the end of the body.
pub(crate) fn words_or_end<'a>(parts: &mut Parts<'a>) -> Option<Words<'a>>
    requires { EndsOrBegins AreWords (map seen_part parts.old) }
    ensures { Takes seen_words result (map seen_part parts.old) (map seen_part parts.new) }
{
    copy_of_next!(parts, None => None, Some(Part::Words(words)) => Some(*words))
}

pub(crate) fn token<'a>(parts: &mut Parts<'a>) -> Item<'a>
    requires { Begins IsToken (map seen_part parts.old) }
    ensures { map seen_part parts.old ≡ AToken (seen result) ∷ map seen_part parts.new }
{
    copy_of_next!(parts, Some(Part::Words(Words::Token(item))) => *item)
}

// None at the end of the body.
pub(crate) fn token_or_end<'a>(parts: &mut Parts<'a>) -> Option<Item<'a>>
    requires { EndsOrBegins IsToken (map seen_part parts.old) }
    ensures { Takes (λ item. AToken (seen item)) result (map seen_part parts.old) (map seen_part parts.new) }
{
    copy_of_next!(parts, None => None, Some(Part::Words(Words::Token(item))) => Some(*item))
}

pub(crate) fn tokens<'a>(parts: &mut Parts<'a>) -> Vec<Item<'a>>
    requires { Begins AreTokens (map seen_part parts.old) }
    ensures { map seen_part parts.old ≡ Tokens (reverse (map seen result.items)) ∷ map seen_part parts.new }
{
    next_of!(parts, Tokens)
}

pub(crate) fn locals<'a>(parts: &mut Parts<'a>) -> Vec<PlacedLocal<'a>>
    requires { Begins AreLocals (map seen_part parts.old) }
    ensures { map seen_part parts.old ≡ Locals (reverse (map seen_local result.items)) ∷ map seen_part parts.new }
{
    next_of!(parts, Locals)
}

pub(crate) fn equations<'a>(parts: &mut Parts<'a>) -> Vec<PlacedEquation<'a>>
    requires { Begins AreEquations (map seen_part parts.old) }
    ensures { map seen_part parts.old ≡ Equations (reverse (map seen_equation result.items)) ∷ map seen_part parts.new }
{
    next_of!(parts, Equations)
}

pub(crate) fn tests<'a>(parts: &mut Parts<'a>) -> Vec<PlacedTest<'a>>
    requires { Begins AreTests (map seen_part parts.old) }
    ensures { map seen_part parts.old ≡ Tests (reverse (map seen_test result.items)) ∷ map seen_part parts.new }
{
    next_of!(parts, Tests)
}
