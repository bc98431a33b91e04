// Tables of automata, the texts in which tests write them, and raw automata from them.
ghost use Rattle.std.specs.Prelude.{◌≡◌, ◌++◌, map, IfOk, OnOk};
ghost use Rattle.std.specs.String.{string_bytes};
ghost use Rattle.dcv_dfa.specs.Auto.{table_of_states};
ghost use Rattle.dcv_tables.specs.Spelled.{state_text, table_text};
ghost use Rattle.dcv_tables.specs.Tables.{table_state};

use crate::diagrams::function;
use crate::words::before;
use dcv_arena::Arena;
use dcv_dfa::Raw;
use std::alloc::Global;
use std::fmt::Write;
use std::test::Fail;

/// A state: whether it accepts, and the states that come next, in the letters' order.
#[derive(PartialEq, Eq, Drop)]
pub struct State {
    /// Whether it accepts.
    pub accepts: bool,
    /// The states that come next.
    pub row: Vec<u32>,
}

/// The states of a text, as `accept 1 0; reject 1 1`. It fails for a text that [`text_of_states`] writes in another way.
pub fn states_of(alloc: Global, text: &str) -> Result<Vec<State>, Fail>
    ensures { IfOk result (λ states. text.now ≡ table_text (map table_state states.items)) }
{
    let mut states = Vec::new(alloc);
    for line in text.split(';') {
        states.push(state_of(alloc, line)?)?;
    }
    if text_of_states(alloc, &states)?.as_str() != text {
        return Err(Fail::new("the states are not written so"));
    }
    Ok(states)
}

// One of these states.
fn state_of(alloc: Global, line: &str) -> Result<State, Fail> {
    let mut words = line.split_whitespace();
    let accepts = match words.next() {
        Some("accept") => true,
        Some("reject") => false,
        _ => return Err(Fail::new("a state accepts or rejects")),
    };
    let mut row = Vec::new(alloc);
    for word in words {
        row.push(word.parse::<u32>()?)?;
    }
    Ok(State { accepts, row })
}

/// The text of states.
pub fn text_of_states(alloc: Global, states: &[State]) -> Result<String, Fail>
    ensures { IfOk result (λ text. string_bytes text ≡ table_text (map table_state states.now)) }
{
    let mut text = String::new(alloc);
    for (number, state) in states.iter().enumerate() {
        let separator = before(number, "; ");
        write!(text, "{separator}")?;
        push_state(&mut text, state)?;
    }
    Ok(text)
}

// Adds the text of a state.
fn push_state(text: &mut String, state: &State) -> Result<(), Fail>
    ensures { OnOk result (string_bytes text.new ≡ string_bytes text.old ++ state_text (table_state state.now)) }
{
    let flag = if state.accepts { "accept" } else { "reject" };
    write!(text, "{flag}")?;
    for next in &state.row {
        write!(text, " {next}")?;
    }
    Ok(())
}

/// The raw automaton with these states. It fails where they are no table, as with the number of a state that there is not.
pub fn raw_of(alloc: Global, slots: u8, states: &[State], start: u32) -> Result<Raw, Fail>
    ensures slots { IfOk result (λ raw. raw.arena.slots ≡ slots) }
    ensures states { IfOk result (λ raw. table_of_states raw ≡ map table_state states.now) }
    ensures start { IfOk result (λ raw. raw.start ≡ start) }
{
    if slots > 32 {
        return Err(Fail::new("there are more than 32 slots"));
    }
    let Ok(bound) = u32::try_from(states.len()) else {
        return Err(Fail::new("too many states"));
    };
    if start >= bound {
        return Err(Fail::new("the start is no state"));
    }
    let mut arena = Arena::new(alloc, slots, u32::MAX);
    let mut rows = Vec::new(alloc);
    let mut accepting = Vec::new(alloc);
    for state in states {
        let row = function(&mut arena, &state.row, bound)?;
        rows.push(row)?;
        accepting.push(state.accepts)?;
    }
    Ok(Raw::new(arena, rows, accepting, start))
}

/// The raw automaton of such a text.
pub fn raw_of_text(alloc: Global, slots: u8, text: &str, start: u32) -> Result<Raw, Fail>
    ensures slots { IfOk result (λ raw. raw.arena.slots ≡ slots) }
    ensures text { IfOk result (λ raw. text.now ≡ table_text (table_of_states raw)) }
    ensures start { IfOk result (λ raw. raw.start ≡ start) }
{
    let states = states_of(alloc, text)?;
    raw_of(alloc, slots, &states, start)
}
