// The arrays.
ghost use Rattle.std.specs.Prelude.{◌≡◌, ◌++◌, length, map, nat_eq, IfOk};
ghost use Rattle.dcv_automaton_lines.specs.Stops.{IsStuckStop};
ghost use Rattle.dcv_c_tables.specs.Unit.{TableNode as Node, TableState as State};
ghost use Rattle.dcv_tables_read.specs.Parts.{AreEntries, array_text, ArraySet, AreNodes, nodes_text, NodesSet, AreStates, states_text, StatesSet};
ghost use Rattle.dcv_tables_read.specs.Seen.{seen_node, seen_state};

use crate::entries::{Entry, lines};
use crate::unit::{TableNode, TableState};
use crate::words::pieces;
use dcv_automaton_lines::{Stop, literal};
use std::alloc::{AllocFailed, Global};

const CHAR: &[u8] = b"unsigned char";

// The numbers of an array, and the text after it.
fn array<'a>(
    alloc: Global,
    text: &'a [u8],
    entry: Entry,
    integer: &[u8],
    head: &[u8],
    count: u32,
) -> Result<(Vec<u32>, &'a [u8]), Stop<'a>>
    ensures small { IfOk result (λ read. AreEntries entry count read.0.items) }
    ensures spelled { IfOk result (λ read. text.now ≡ array_text integer.now head.now read.0.items ++ read.1.now) }
    ensures fault { IsStuckStop (ArraySet entry integer.now head.now count) text.now result }
{
    let opened = pieces(text, &[b"static const ", integer, head])?;
    let (numbers, end) = lines(alloc, opened, entry, count)?;
    let rest = literal(end, b"};\n\n")?;
    Ok((numbers, rest))
}

// The nodes with these numbers.
fn nodes_of(
    alloc: Global,
    variables: &[u32],
    highs: &[u32],
    lows: &[u32],
) -> Result<Vec<TableNode>, AllocFailed<TableNode>>
    requires highs { length highs.now ≡ length variables.now }
    requires lows { length lows.now ≡ length variables.now }
    ensures variables { IfOk result (λ nodes. map (λ (node : Node). node.variable) (map seen_node nodes.items) ≡ variables.now) }
    ensures highs { IfOk result (λ nodes. map (λ (node : Node). node.high) (map seen_node nodes.items) ≡ highs.now) }
    ensures lows { IfOk result (λ nodes. map (λ (node : Node). node.low) (map seen_node nodes.items) ≡ lows.now) }
{
    let mut nodes = Vec::new(alloc);
    for (place, variable) in variables.iter().enumerate() {
        nodes.push(TableNode {
            variable: *variable,
            high: highs[place],
            low: lows[place],
        })?;
    }
    Ok(nodes)
}

// The states with these numbers.
fn states_of(
    alloc: Global,
    rows: &[u32],
    accepts: &[u32],
) -> Result<Vec<TableState>, AllocFailed<TableState>>
    requires { length accepts.now ≡ length rows.now }
    ensures rows { IfOk result (λ states. map (λ (state : State). state.row) (map seen_state states.items) ≡ rows.now) }
    ensures accepts { IfOk result (λ states. map (λ (state : State). state.accepts) (map seen_state states.items) ≡ map (nat_eq 1) accepts.now) }
{
    let mut states = Vec::new(alloc);
    for (place, row) in rows.iter().enumerate() {
        states.push(TableState {
            row: *row,
            accepts: accepts[place] == 1,
        })?;
    }
    Ok(states)
}

/// The nodes, and the text after their arrays.
pub fn node_arrays<'a>(
    alloc: Global,
    text: &'a [u8],
    integer: &[u8],
    count: u32,
) -> Result<(Vec<TableNode>, &'a [u8]), Stop<'a>>
    ensures small { IfOk result (λ read. AreNodes count (map seen_node read.0.items)) }
    ensures spelled { IfOk result (λ read. text.now ≡ nodes_text integer.now (map seen_node read.0.items) ++ read.1.now) }
    ensures fault { IsStuckStop (NodesSet integer.now count) text.now result }
{
    if count == 0 {
        return Ok((Vec::new(alloc), text));
    }
    let head = b" variable[nodes] = {\n";
    let (variables, after_variables) = array(alloc, text, Entry::Number, CHAR, head, count)?;
    let head = b" high[nodes] = {\n";
    let (highs, after_highs) = array(alloc, after_variables, Entry::Number, integer, head, count)?;
    let head = b" low[nodes] = {\n";
    let (lows, rest) = array(alloc, after_highs, Entry::Number, integer, head, count)?;
    let nodes = nodes_of(alloc, &variables, &highs, &lows)?;
    Ok((nodes, rest))
}

/// The states, and the text after their arrays.
pub fn state_arrays<'a>(
    alloc: Global,
    text: &'a [u8],
    integer: &[u8],
    count: u32,
) -> Result<(Vec<TableState>, &'a [u8]), Stop<'a>>
    ensures small { IfOk result (λ read. AreStates count (map seen_state read.0.items)) }
    ensures spelled { IfOk result (λ read. text.now ≡ states_text integer.now (map seen_state read.0.items) ++ read.1.now) }
    ensures fault { IsStuckStop (StatesSet integer.now count) text.now result }
{
    let head = b" row[states] = {\n";
    let (rows, after_rows) = array(alloc, text, Entry::Number, integer, head, count)?;
    let head = b" accept[states] = {\n";
    let (accepts, rest) = array(alloc, after_rows, Entry::Answer, CHAR, head, count)?;
    let states = states_of(alloc, &rows, &accepts)?;
    Ok((states, rest))
}
