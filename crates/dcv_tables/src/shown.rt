// What automata look like: tables and texts, so that tests compare them with those written by hand.
ghost use Rattle.std.specs.Prelude.{◌≡◌, ◌<◌, map, IfOk};
ghost use Rattle.std.specs.List.{range_with_len};
ghost use Rattle.dcv_arena.specs.Arena.{value_of};
ghost use Rattle.dcv_word.specs.Letter.{letters_of_width};
ghost use Rattle.std.specs.String.{string_bytes};
ghost use Rattle.dcv_tables.specs.Spelled.{table_text};
ghost use Rattle.dcv_tables.specs.Tables.{table_state, state_over};

use crate::states::{State, text_of_states};
use crate::words::letters;
use dcv_dfa::Table;
use dcv_word::Letter;
use std::alloc::Global;
use std::test::Fail;

/// The text of a table, as `reject 0 1; accept 0 1`, with letters that have its slots.
pub fn text_of<T: Table>(alloc: Global, table: &T) -> Result<String, Fail>
    ensures { IfOk result (λ text. string_bytes text ≡ table_text (map
        (state_over (T.slots table.now) (T.arena table.now) (T.automaton table.now).accepting (T.row_at table.now)) (range_with_len 0 (T.states table.now)))) }
{
    text_over(alloc, table, table.slots())
}

/// The same with letters of so many slots, which may be more or fewer than the arena of the rows has.
pub fn text_over<T: Table>(alloc: Global, table: &T, slots: u8) -> Result<String, Fail>
    ensures { IfOk result (λ text. string_bytes text ≡ table_text (map
        (state_over slots (T.arena table.now) (T.automaton table.now).accepting (T.row_at table.now)) (range_with_len 0 (T.states table.now)))) }
{
    text_of_states(alloc, &states_over(alloc, table, slots)?)
}

/// The states of a table, with letters of so many slots.
pub fn states_over<T: Table>(alloc: Global, table: &T, slots: u8) -> Result<Vec<State>, Fail>
    ensures { IfOk result (λ states. map table_state states.items
        ≡ map (state_over slots (T.arena table.now) (T.automaton table.now).accepting (T.row_at table.now)) (range_with_len 0 (T.states table.now))) }
{
    let letters = letters(alloc, slots)?;
    let mut states = Vec::new(alloc);
    for number in 0..table.states() {
        let accepts = table.accepting(number);
        let row = row(alloc, table, number, &letters)?;
        states.push(State { accepts, row })?;
    }
    Ok(states)
}

// The states that come next after a state, in the letters' order.
fn row<T: Table>(alloc: Global, table: &T, state: u32, letters: &[Letter]) -> Result<Vec<u32>, Fail>
    requires { state < T.states table.now }
    ensures { IfOk result (λ row. row.items ≡ map (value_of (T.arena table.now) (T.row_at table.now state)) letters.now) }
{
    let root = table.row(state);
    let mut row = Vec::new(alloc);
    for letter in letters {
        row.push(table.arena().eval(root, letter))?;
    }
    Ok(row)
}
