// What a set of states is to a machine: the rows of its states, their numbers at a letter, and whether one of them accepts.
ghost use Rattle.std.specs.Prelude.{◌≡◌, ◌<◌, ◌≤◌, ◌++◌, length, OnOk, IfOk, IfSome};
ghost use Rattle.std.specs.List.{All, list_any};
ghost use Rattle.dcv_apply.specs.Operands.{IsOperand};
ghost use Rattle.dcv_explore.specs.Operands.{numbers_merged};
ghost use Rattle.dcv_explore.specs.Classes.{AreClassesOf};
ghost use Rattle.dcv_sets.specs.Rows.{rows_of, states_below, numbers_of, IsRowOf};

use dcv_arena::Arena;
use dcv_dfa::Table;
use dcv_explore::{ClassLimits, Functions, LetterClasses, Operands};
use smallvec::SmallVec;
use std::alloc::{AllocError, Global};

/// The numbers of listed states, of which few lie in place.
pub type Numbers = SmallVec<u32, 16>;

// How many classes of letters there may be. Each state's row takes one step for each, so more of them do not pay.
const MOST_CLASSES: u32 = 64;

// Sets of so many states are made of smaller ones. Of fewer states the rows are merged as fast.
const LARGE: usize = 16;

// By classes a row takes a step for each state and class. So many steps take as long as a row that is made of that of a smaller set.
const LARGE_NUMBERS: usize = 512;

// How many numbers the classes' diagram may have, one of each row at each node. It bounds what is tried in vain.
const MOST_NUMBERS: usize = 1_048_576;

/// Adds the row of each of these states, as an operand of the place.
pub fn push_rows<T: Table>(
    table: &T,
    place: u32,
    states: &[u32],
    to: &mut Operands,
) -> Result<(), AllocError>
    requires place { place < 2 }
    requires states { All (λ state. state < T.states table.now) states.now }
    ensures added { OnOk result (to.new ≡ to.old ++ rows_of place (T.row_at table.now) states.now) }
    ensures rows { OnOk result (All (λ state. IsRowOf (T.automaton table.now) (T.slots table.now) (T.arena table.now) state (T.row_at table.now state)) states.now) }
{
    for state in states {
        to.push(place, table.row(*state))?;
    }
    Ok(())
}

/// Adds the row of each state of the table, as an operand of the place.
pub fn push_all_rows<T: Table>(table: &T, place: u32, to: &mut Operands) -> Result<(), AllocError>
    requires place { place < 2 }
    ensures added { OnOk result (to.new ≡ to.old ++ rows_of place (T.row_at table.now) (states_below (T.states table.now))) }
    ensures rows { OnOk result (All (λ state. IsRowOf (T.automaton table.now) (T.slots table.now) (T.arena table.now) state (T.row_at table.now state))
        (states_below (T.states table.now))) }
{
    for state in 0..table.states() {
        to.push(place, table.row(state))?;
    }
    Ok(())
}

/// The classes of letters of so many slots that these rows distinguish, where there are few of them.
pub fn few_classes(
    alloc: Global,
    slots: u8,
    first: &Arena,
    second: &Arena,
    rows: &Operands,
    both_last: bool,
) -> Result<Option<LetterClasses>, AllocError>
    requires slots { slots ≤ 32 }
    requires rows { All (IsOperand first.now second.now) rows.now }
    ensures { IfOk result (λ found. IfSome found (λ classes. AreClassesOf classes slots (numbers_merged both_last first.now second.now rows.now))) }
{
    let list = rows.as_slice();
    let nodes = MOST_NUMBERS / list.len().max(1);
    let limits = ClassLimits {
        classes: MOST_CLASSES,
        nodes: nodes as u32,
    };
    let functions = Functions {
        first,
        second,
        list,
        both_last,
    };
    LetterClasses::of(alloc, slots, functions, limits)
}

// Adds the number that each of these states has in the column.
pub(crate) fn push_numbers(
    column: &[u32],
    states: &[u32],
    to: &mut Numbers,
) -> Result<(), AllocError>
    requires { All (λ state. state < length column.now) states.now }
    ensures { OnOk result (to.new.items ≡ to.old.items ++ numbers_of column.now states.now) }
{
    to.reserve(states.len())?;
    for state in states {
        to.push_reserved(column[*state as usize]);
    }
    Ok(())
}

/// From how many states on a set is large, so that its row is made of that of a smaller set.
pub fn large_from(classes: Option<&LetterClasses>) -> usize {
    match classes {
        Some(classes) => (LARGE_NUMBERS / classes.count().max(1)).max(LARGE),
        None => LARGE,
    }
}

/// Whether one of these states accepts.
pub fn some_accepts<T: Table>(table: &T, states: &[u32]) -> bool
    requires { All (λ state. state < T.states table.now) states.now }
    ensures { result ≡ list_any (T.automaton table.now).accepting states.now }
{
    for state in states {
        if table.accepting(*state) {
            return true;
        }
    }
    false
}
