// What a set that is kept as bits is to a machine: the rows of its states, their numbers in a column, and whether one of them accepts.
ghost use Rattle.std.specs.Prelude.{◌≡◌, ◌≤◌, ◌<◌, ◌^◌, ◌++◌, length, OnOk};
ghost use Rattle.std.specs.List.{All, list_any};
ghost use Rattle.dcv_sets.specs.Bits.{states_in};
ghost use Rattle.dcv_sets.specs.Rows.{rows_of, numbers_of, IsRowOf};

use crate::bits::has_bit;
use crate::rows::Numbers;
use dcv_dfa::Table;
use dcv_explore::Operands;
use std::alloc::AllocError;

/// Adds the row of each state of these bits, as an operand of the place.
pub fn push_bit_rows<T: Table>(
    table: &T,
    place: u32,
    words: &[u32],
    to: &mut Operands,
) -> Result<(), AllocError>
    requires place { place < 2 }
    requires width { length words.now ≤ 2 ^ 27 }
    requires states { All (λ state. state < T.states table.now) (states_in words.now) }
    ensures added { OnOk result (to.new ≡ to.old ++ rows_of place (T.row_at table.now) (states_in words.now)) }
    ensures rows { OnOk result (All (λ state. IsRowOf (T.automaton table.now) (T.slots table.now) (T.arena table.now) state (T.row_at table.now state)) (states_in words.now)) }
{
    for state in 0..32 * words.len() {
        if !has_bit(words, state) {
            continue;
        }
        to.push(place, table.row(state as u32))?;
    }
    Ok(())
}

/// Whether one of the states of these bits accepts.
pub fn some_bit_accepts<T: Table>(table: &T, words: &[u32]) -> bool
    requires width { length words.now ≤ 2 ^ 27 }
    requires states { All (λ state. state < T.states table.now) (states_in words.now) }
    ensures { result ≡ list_any (T.automaton table.now).accepting (states_in words.now) }
{
    for state in 0..32 * words.len() {
        if has_bit(words, state) && table.accepting(state as u32) {
            return true;
        }
    }
    false
}

/// Adds the number that each state of these bits has in the column.
pub fn push_bit_numbers(column: &[u32], words: &[u32], to: &mut Numbers) -> Result<(), AllocError>
    requires width { length words.now ≤ 2 ^ 27 }
    requires states { All (λ state. state < length column.now) (states_in words.now) }
    ensures { OnOk result (to.new.items ≡ to.old.items ++ numbers_of column.now (states_in words.now)) }
{
    for state in 0..32 * words.len() {
        if !has_bit(words, state) {
            continue;
        }
        to.push(column[state])?;
    }
    Ok(())
}
