//! A walk over the suffixes of a text. Each is tried after the one that it goes on from, and its column is made of the column of that, which
//! goes once the last suffix that goes on from it was tried.
ghost use Rattle.std.specs.Prelude.{◌≡◌, ◌<◌, ◌∷◌, ◌++◌, [], length, Option, OnOk, IsTrue};
ghost use Rattle.dcv_automaton_text.specs.Meaning.{table_of};
ghost use Rattle.dcv_certify.specs.Links.{AreLinks};
ghost use Rattle.dcv_certify.specs.Steps.{AreKept};
ghost use Rattle.dcv_certify.specs.Walk.{waiting, work_left, IsSteady, IsFirstBelow, IsWalk};

use crate::columns::column;
use crate::links::Links;
use crate::split::split_all;
use crate::steps::Steps;
use dcv_automaton_read::AutoFile;
use dcv_automaton_text::laws::good_files_are_tables;
use std::alloc::{AllocError, Global};

// A suffix that is to be tried, with the column of the one that it goes on from. After it come those that go on from the same one.
#[derive(Drop)]
pub(crate) struct Untried {
    // Whether the suffix that it goes on from is accepted from each entry.
    column: Vec<bool>,
    // Its place in the text.
    place: u32,
}

// Tries a suffix, and tells whether it splits classes. Then come those that go on from it, and after these the next that goes on from the
// same one.
pub(crate) fn try_next(
    alloc: Global,
    file: &AutoFile,
    links: &Links,
    steps: &mut Steps,
    at: Untried,
    left: &mut Vec<Untried>,
    numbers: &mut Vec<u32>,
) -> Result<bool, AllocError>
    requires kept { AreKept (table_of file.now) steps.old.kept.items }
    requires links { AreLinks file.now links.now.first.items links.now.next.items }
    requires walk { IsWalk file.now links.now.first.items links.now.next.items (left.old.items ++ at ∷ []) numbers.old.items }
    ensures kept { OnOk result (AreKept (table_of file.now) steps.new.kept.items) }
    ensures walk { OnOk result (IsWalk file.now links.now.first.items links.now.next.items left.new.items numbers.new.items) }
    ensures shorter { OnOk result (work_left file.now links.now.next.items left.new.items < work_left file.now links.now.next.items (left.old.items ++ at ∷ [])) }
{
    good_files_are_tables();
    // for the prover: what is true of every file.
    file.keeps_the_rules();
    let place = at.place as usize;
    let column = column(alloc, file, steps, &at.column, file.suffixes()[place])?;
    let splits = split_all(alloc, numbers, &column)?;
    wait(left, at.column, links.next[place])?;
    let below = first_below(links.first[place], &column);
    wait(left, column, below)?;
    Ok(splits)
}

// The first suffix below one, unless that tells no states apart. Then those below it do not either.
fn first_below(first: Option<u32>, column: &[bool]) -> Option<u32>
    requires { 0 < length column.now }
    ensures { IsFirstBelow column.now first result }
{
    let place = first?;
    if is_steady(column) { None } else { Some(place) }
}

// Whether a column is the same at all states.
fn is_steady(column: &[bool]) -> bool
    requires { 0 < length column.now }
    ensures { IsTrue result → IsSteady column.now }
{
    // all are looked at, since that takes less time than a test at each.
    let first = column[0];
    let mut steady = true;
    for entry in 0..column.len() - 1 {
        steady &= column[entry] == first;
    }
    steady
}

// Lets a suffix be tried next, given the column of the one that it goes on from.
pub(crate) fn wait(
    left: &mut Vec<Untried>,
    column: Vec<bool>,
    place: Option<u32>,
) -> Result<(), AllocError>
    ensures { OnOk result (left.new.items ≡ waiting left.old.items column place) }
{
    if let Some(place) = place {
        left.push(Untried { column, place })?;
    }
    Ok(())
}
