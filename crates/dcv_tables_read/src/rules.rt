// The numbers of a unit are judged in the order of the text, and then its parameters.
ghost use Rattle.std.specs.Prelude.{◌≡◌, ◌+◌, ◌*◌, ◌^◌, ◌<◌, ◌≤◌, ◌++◌, ◌&&◌, nat_lt, nat_le, length, map, OnOk};
ghost use Rattle.dcv_language.specs.Limits.{most_states, most_nodes};
ghost use Rattle.dcv_c_tables.specs.Layout.{text_in, type_of, counts_line, opening, char_type, variable_head, high_head, low_head, row_head, node_arrays, state_arrays, text_of};
ghost use Rattle.dcv_tables_read.specs.Reading.{keeps_counts, keeps_variables, keeps_children, keeps_rows, entries, count_words, array_size, array_words, words_of, judged};
ghost use Rattle.dcv_tables_read.specs.Seen.{seen_tables};
ghost use Rattle.dcv_tables_read.specs.Judged.{IsJudged, IsJudgedWhole, judged_from, lines_of, variable_numbers, high_numbers, low_numbers, row_numbers, keeps_highs, keeps_lows, node_words, keeps_nodes};

use crate::array_rules::{Highs, Lows, Rows, Rule, Variables, digits_of, judge_numbers};
use crate::form::integer;
use crate::names::judge_names;
use crate::unit::TableUnit;
use dcv_language::{MOST_NODES, MOST_STATES, MOST_VARIABLES};

const CHAR: &[u8] = b"unsigned char";

// Whether there is a state, and not too many of them.
fn keeps_states(states: usize) -> bool
    ensures { result ≡ (nat_lt 0 states && nat_le states most_states) }
{
    0 < states && states <= MOST_STATES as usize
}

// The offset after the counts, or that of the first that breaks its rule.
fn judge_counts(unit: &TableUnit<'_>) -> Result<u32, u32>
    ensures judged { let tables = seen_tables unit.now in let states = length tables.states in let nodes = length tables.nodes in let parameters = length tables.parameters in
        IsJudged (count_words states nodes parameters) (keeps_counts tables) (length (text_in (counts_line states nodes parameters))) result }
    ensures few_states { OnOk result (length unit.now.states.items ≤ most_states) }
    ensures few_nodes { OnOk result (length unit.now.nodes.items ≤ most_nodes) }
{
    if !keeps_states(unit.states.len()) {
        return Err(16);
    }
    let nodes = 16 + digits_of(unit.states.len() as u64) + 10;
    if unit.nodes.len() > MOST_NODES as usize {
        return Err(nodes);
    }
    let parameters = nodes + digits_of(unit.nodes.len() as u64) + 14;
    if unit.names.len() > MOST_VARIABLES {
        return Err(parameters);
    }
    Ok(parameters + digits_of(unit.names.len() as u64) + 5)
}

// How many bytes stand before the lines of an array.
fn opening(integer: &[u8], head: &[u8]) -> u32
    requires short { length integer.now ≤ 14 }
    requires head { length head.now ≤ 32 }
    ensures { result ≡ length (text_in (opening integer.now head.now)) }
{
    13 + integer.len() as u32 + head.len() as u32
}

// The offset after an array, or that of the first of its numbers that breaks the rule.
fn judge_array<X, R: Rule<X>>(rule: &R, elements: &[X], opening: u32, at: u32) -> Result<u32, u32>
    requires { at + opening + length (text_in (lines_of (R.number rule.now) elements.now)) + 4 < 2 ^ 32 }
    ensures { IsJudged (entries (at + opening) (map (R.number rule.now) elements.now)) (judged_from (R.keeps rule.now) 0 elements.now)
        (at + opening + length (text_in (lines_of (R.number rule.now) elements.now)) + 4) result }
{
    let end = judge_numbers(rule, elements, at + opening)?;
    Ok(end + 4)
}

fn judge_variables(unit: &TableUnit<'_>, at: u32) -> Result<u32, u32>
    requires { at + array_size char_type variable_head (variable_numbers (seen_tables unit.now)) < 2 ^ 32 }
    ensures { let tables = seen_tables unit.now in let numbers = variable_numbers tables in
        IsJudged (array_words at char_type variable_head numbers) (keeps_variables tables) (at + array_size char_type variable_head numbers) result }
{
    let width = unit.names.len();
    let before = opening(CHAR, b" variable[nodes] = {\n");
    judge_array(&Variables { width }, &unit.nodes, before, at)
}

fn judge_highs(unit: &TableUnit<'_>, integer: &[u8], at: u32) -> Result<u32, u32>
    requires short { length integer.now ≤ 14 }
    requires room { at + array_size integer.now high_head (high_numbers (seen_tables unit.now)) < 2 ^ 32 }
    ensures { let tables = seen_tables unit.now in let numbers = high_numbers tables in
        IsJudged (array_words at integer.now high_head numbers) (keeps_highs tables) (at + array_size integer.now high_head numbers) result }
{
    let before = opening(integer, b" high[nodes] = {\n");
    judge_array(&Highs { unit }, &unit.nodes, before, at)
}

fn judge_lows(unit: &TableUnit<'_>, integer: &[u8], at: u32) -> Result<u32, u32>
    requires short { length integer.now ≤ 14 }
    requires room { at + array_size integer.now low_head (low_numbers (seen_tables unit.now)) < 2 ^ 32 }
    ensures { let tables = seen_tables unit.now in let numbers = low_numbers tables in
        IsJudged (array_words at integer.now low_head numbers) (keeps_lows tables) (at + array_size integer.now low_head numbers) result }
{
    let before = opening(integer, b" low[nodes] = {\n");
    judge_array(&Lows { unit }, &unit.nodes, before, at)
}

fn judge_rows(unit: &TableUnit<'_>, integer: &[u8], at: u32) -> Result<u32, u32>
    requires short { length integer.now ≤ 14 }
    requires few_states { length unit.now.states.items ≤ most_states }
    requires few_nodes { length unit.now.nodes.items ≤ most_nodes }
    requires room { at + array_size integer.now row_head (row_numbers (seen_tables unit.now)) < 2 ^ 32 }
    ensures { let tables = seen_tables unit.now in let numbers = row_numbers tables in
        IsJudged (array_words at integer.now row_head numbers) (keeps_rows tables) (at + array_size integer.now row_head numbers) result }
{
    let places = unit.states.len() + unit.nodes.len();
    let before = opening(integer, b" row[states] = {\n");
    judge_array(&Rows { places }, &unit.states, before, at)
}

// The offset after the arrays of nodes, or that of the first of their numbers that breaks its rule.
fn judge_nodes(unit: &TableUnit<'_>, integer: &[u8], at: u32) -> Result<u32, u32>
    requires short { length integer.now ≤ 14 }
    requires room { at + length (text_in (node_arrays integer.now (seen_tables unit.now).nodes)) < 2 ^ 32 }
    ensures { let tables = seen_tables unit.now in
        IsJudged (node_words integer.now at tables) (keeps_nodes tables) (at + length (text_in (node_arrays integer.now tables.nodes))) result }
{
    if unit.nodes.is_empty() {
        return Ok(at);
    }
    let highs = judge_variables(unit, at)?;
    let lows = judge_highs(unit, integer, highs)?;
    judge_lows(unit, integer, lows)
}

// The offset of the parameters, after the array of answers and the function that resets.
fn parameters_at(states: usize, integer: &[u8], at: u32) -> u32
    requires short { length integer.now ≤ 14 }
    requires few_states { states ≤ most_states }
    requires room { at + 5 * states + length integer.now + 122 < 2 ^ 32 }
    ensures { result ≡ at + 5 * states + length integer.now + 122 }
{
    let before = at + opening(CHAR, b" accept[states] = {\n");
    before + 5 * states as u32 + 4 + 7 + integer.len() as u32 + 65
}

/// Whether each number and each parameter keeps its rule, or else the offset of the first that breaks it.
pub(crate) fn judge(unit: &TableUnit<'_>) -> Result<(), u32>
    requires { length (text_of (seen_tables unit.now)) < 2 ^ 32 }
    ensures { IsJudgedWhole (words_of (seen_tables unit.now)) (judged (seen_tables unit.now)) result }
{
    let arrays = judge_counts(unit)?;
    let integer = integer((unit.states.len() + unit.nodes.len()) as u32);
    let rows = judge_nodes(unit, integer, arrays)?;
    let accepts = judge_rows(unit, integer, rows)?;
    judge_names(
        &unit.names,
        parameters_at(unit.states.len(), integer, accepts),
    )
}
