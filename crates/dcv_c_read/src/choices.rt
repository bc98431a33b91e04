// What the rules of statements and of results stand for, by the parts of one of their bodies.
ghost use Rattle.std.specs.Prelude.{◌≡◌, map, Some, option_map, IfOk};
ghost use Rattle.dcv_observer.specs.Left.{seen};
ghost use Rattle.dcv_c.specs.Actions.{Choice, statement_part, right_part, choice_part, returned_part};
ghost use Rattle.dcv_c_read.specs.Symbols.{seen_part, IsMeant};

use crate::accessors;
use crate::parts::{Made, Part, Parts, Words};
use crate::placed::{
    PlacedChoice, PlacedReturned, PlacedRight, PlacedStatement, PlacedTest, PlacedTests, PlacedWhen,
};
use dcv_observer::Item;
use dcv_translation::with_first;
use std::alloc::Global;

// statement = "if" "(" condition ")" name "=" item ";" | name "=" right ";"
pub(crate) fn statement<'a>(alloc: Global, parts: &mut Parts<'a>) -> Made<'a>
    requires { IsMeant (statement_part (map seen_part parts.old)) }
    ensures { IfOk result (λ part. seen_part part ≡ statement_part (map seen_part parts.old)) }
{
    match accessors::words(parts) {
        Words::Compared(name, number) => {
            let left = accessors::token(parts);
            let item = accessors::token(parts);
            let placed = PlacedWhen {
                name,
                number,
                left,
                item,
            };
            Ok(Part::Statement(PlacedStatement::When(Box::new(alloc, placed)?)))
        }
        Words::Token(left) => Ok(Part::Statement(PlacedStatement::Assign(
            left,
            accessors::right(parts),
        ))),
        _ => unreachable!(),
    }
}

// right = number | name choice
pub(crate) fn right<'a>(parts: &mut Parts<'a>) -> Part<'a>
    requires { IsMeant (right_part (map seen_part parts.old)) }
    ensures { seen_part result ≡ right_part (map seen_part parts.old) }
{
    let name = accessors::token(parts);
    match parts.next() {
        None => Part::Right(PlacedRight::Plain(name)),
        Some(Part::Choice(None)) => Part::Right(PlacedRight::Plain(name)),
        Some(Part::Choice(Some(choice))) => Part::Right(PlacedRight::Chosen(name, choice)),
        _ => unreachable!(),
    }
}

// choice = ["?" item ":" item | "==" number "?" item ":" item]
pub(crate) fn choice<'a>(alloc: Global, parts: &mut Parts<'a>) -> Made<'a>
    requires { IsMeant (choice_part (map seen_part parts.old)) }
    ensures { IfOk result (λ part. seen_part part ≡ choice_part (map seen_part parts.old)) }
{
    let Some(first) = accessors::token_or_end(parts) else {
        return Ok(Part::Choice(None));
    };
    let second = accessors::token(parts);
    match accessors::token_or_end(parts) {
        None => chosen(alloc, None, first, second),
        Some(third) => chosen(alloc, Some(first), second, third),
    }
}

// On the heap.
fn chosen<'a>(
    alloc: Global,
    number: Option<Item<'a>>,
    item: Item<'a>,
    otherwise: Item<'a>,
) -> Made<'a>
    ensures { IfOk result (λ part. seen_part part ≡ Choice (Some (record {
      number = option_map seen number.entry;
      item = seen item.entry;
      otherwise = seen otherwise.entry;
    }))) }
{
    let placed = PlacedChoice {
        number,
        item,
        otherwise,
    };
    Ok(Part::Choice(Some(Box::new(alloc, placed)?)))
}

// returned = number | name tests
#[tactic(auto, using(dcv_translation::proofs::Reversed::forwards))]
pub(crate) fn returned<'a>(parts: &mut Parts<'a>) -> Made<'a>
    requires { IsMeant (returned_part (map seen_part parts.old)) }
    ensures { IfOk result (λ part. seen_part part ≡ returned_part (map seen_part parts.old)) }
{
    let name = accessors::token(parts);
    match parts.next() {
        None => Ok(Part::Returned(PlacedReturned::Fixed(name))),
        Some(Part::Behind(None)) => Ok(Part::Returned(PlacedReturned::Read(name))),
        Some(Part::Behind(Some(tests))) => {
            let number = tests.number;
            let mut tests = with_first(PlacedTest { name, number }, tests.others)?;
            tests.reverse();
            Ok(Part::Returned(PlacedReturned::Tested(tests)))
        }
        _ => unreachable!(),
    }
}
