// What the rules of right sides stand for, by the parts of one of their bodies.
ghost use Rattle.std.specs.Prelude.{◌≡◌, ◌∷◌, map, reverse, option_map, IfOk};
ghost use Rattle.dcv_observer.specs.Left.{seen};
ghost use Rattle.dcv_lustre.specs.Actions.{AToken, ARight, Choice, right_part, choice_part};
ghost use Rattle.dcv_lustre_read.specs.Seen.{seen_arm, seen_right};
ghost use Rattle.dcv_lustre_read.specs.Symbols.{seen_part, IsMeant};
ghost use Rattle.dcv_lustre_read.specs.Taken.{behind_condition};

use crate::accessors;
use crate::parts::{Made, Part, Parts, Words};
use crate::placed::{PlacedArm, PlacedRight};
use dcv_observer::Item;
use dcv_translation::with_first;
use std::alloc::{AllocError, Global};

// choice = {"if" condition "then" item "else"} item
#[tactic(auto, using(crate::proofs::Bodies::choice_in_steps))]
pub(crate) fn choice<'a>(alloc: Global, parts: &mut Parts<'a>) -> Made<'a>
    requires { IsMeant (choice_part (map seen_part parts.old)) }
    ensures { IfOk result (λ part. seen_part part ≡ choice_part (map seen_part parts.old)) }
{
    match accessors::words(parts) {
        Words::Token(item) => Ok(Part::Choice(Vec::new(alloc), item)),
        Words::Compared(name, number) => {
            let (arms, otherwise) = longer_choice(name, number, parts)?;
            Ok(Part::Choice(arms, otherwise))
        }
        _ => unreachable!(),
    }
}

// The text after a condition: the arms, from the last to the first, and the last item.
fn longer_choice<'a>(
    name: Item<'a>,
    number: Option<Item<'a>>,
    parts: &mut Parts<'a>,
) -> Result<(Vec<PlacedArm<'a>>, Item<'a>), AllocError>
    requires { IsMeant (behind_condition (seen name) (option_map seen number) (map seen_part parts.old)) }
    ensures { IfOk result (λ made. Choice (reverse (map seen_arm made.0.items)) (seen made.1)
        ≡ behind_condition (seen name.entry) (option_map seen number.entry) (map seen_part parts.old)) }
{
    let item = accessors::token(parts);
    match parts.next() {
        Some(Part::Choice(arms, otherwise)) => {
            Ok((with_arm(PlacedArm { name, number, item }, arms)?, otherwise))
        }
        _ => unreachable!(),
    }
}

// An arm before others, from the last to the first. Most choices have one, for which there is room and no more.
fn with_arm<'a>(
    arm: PlacedArm<'a>,
    mut arms: Vec<PlacedArm<'a>>,
) -> Result<Vec<PlacedArm<'a>>, AllocError>
    ensures { IfOk result (λ all. reverse (map seen_arm all.items) ≡ seen_arm arm.entry ∷ reverse (map seen_arm arms.entry.items)) }
{
    if arms.is_empty() {
        arms.reserve_exact(1)?;
    }
    arms.push(arm)?;
    Ok(arms)
}

// right = literal delay | "if" condition "then" item "else" choice | test more_tests | name
#[tactic(auto, using(crate::proofs::Bodies::right_in_steps, dcv_translation::proofs::Reversed::forwards))]
pub(crate) fn right<'a>(alloc: Global, parts: &mut Parts<'a>) -> Made<'a>
    requires { IsMeant (right_part (map seen_part parts.old)) }
    ensures { IfOk result (λ part. seen_part part ≡ right_part (map seen_part parts.old)) }
{
    match accessors::words(parts) {
        Words::Token(first) => Ok(Part::Right(behind_token(alloc, first, parts))),
        Words::Compared(name, number) => {
            let (mut arms, otherwise) = longer_choice(name, number, parts)?;
            arms.reverse();
            Ok(Part::Right(PlacedRight::Chosen(arms, otherwise)))
        }
        Words::Test(test) => {
            let mut tests = with_first(test, accessors::tests(parts))?;
            tests.reverse();
            Ok(Part::Right(PlacedRight::Tested(tests)))
        }
        _ => unreachable!(),
    }
}

// A right side that begins with a token: literal delay | name
fn behind_token<'a>(alloc: Global, first: Item<'a>, parts: &mut Parts<'a>) -> PlacedRight<'a>
    requires { IsMeant (right_part (AToken (seen first) ∷ map seen_part parts.old)) }
    ensures { ARight (seen_right result) ≡ right_part (AToken (seen first.entry) ∷ map seen_part parts.old) }
{
    match accessors::words_or_end(parts) {
        None => PlacedRight::Chosen(Vec::new(alloc), first),
        Some(Words::Maybe(None)) => PlacedRight::Chosen(Vec::new(alloc), first),
        Some(Words::Maybe(Some(source))) => PlacedRight::Delayed(first, source),
        _ => unreachable!(),
    }
}
