// The automaton of the stuck words. Where the automaton of the set goes to a state that rejects, this one goes to a sink, from which nothing is
// accepted: so words lead past it through states that accept alone, and are stuck where each letter leads to the sink. Its rows are made
// by exchanging numbers, and a row that leads to the sink alone is a leaf, so no row is searched for letters.
ghost use Rattle.std.specs.Prelude.{◌≡◌, ◌<◌, length, IfOk};
ghost use Rattle.dcv_stuck.specs.Sink.{number_in, numbers_of, HasRows, LeadTo, IsOfStuckWords};

use dcv_arena::{Arena, Ref};
use dcv_dfa::Raw;
use dcv_renumber::{Places, Renumbering};
use std::alloc::{AllocError, Global};

// Rows with their arena.
#[derive(Drop)]
struct Rows {
    // the nodes of the rows
    arena: Arena,
    // the row of each state
    rows: Vec<Ref>,
}

// The automaton of the stuck words of what the automaton accepts. The empty word is stuck where its start accepts.
pub(crate) fn stuck_words(alloc: Global, raw: &Raw) -> Result<Raw, AllocError>
    ensures { IfOk result (IsOfStuckWords raw.now) }
{
    let sink = raw.states();
    if sink == u32::MAX {
        // No number is left for the sink, so an automaton of so many states is as good as one for which there is no memory.
        return Err(AllocError);
    }
    let numbers = numbers_of(alloc, raw)?;
    let mut new = rows_of(alloc, raw, &numbers)?;
    let row = Ref::Leaf(sink);
    let mut accepting = lead_to(alloc, &new.rows, row)?;
    new.rows.push(row)?;
    accepting.push(false)?;
    Ok(Raw::new(new.arena, new.rows, accepting, raw.start()))
}

// For each state its number in the new automaton.
fn numbers_of(alloc: Global, raw: &Raw) -> Result<Vec<u32>, AllocError>
    ensures { IfOk result (λ numbers. numbers.items ≡ numbers_of raw.now (length raw.now.rows)) }
{
    let mut numbers = Vec::new(alloc);
    for state in 0..raw.states() {
        numbers.push(number_in(raw, state))?;
    }
    Ok(numbers)
}

// The state itself where it accepts, and else the sink.
fn number_in(raw: &Raw, state: u32) -> u32
    requires { state < length raw.now.rows }
    ensures { result ≡ number_in raw.now state }
{
    if raw.accepting(state) {
        state
    } else {
        raw.states()
    }
}

// The rows of all states, by their new numbers.
fn rows_of(alloc: Global, raw: &Raw, numbers: &[u32]) -> Result<Rows, AllocError>
    requires { numbers.now ≡ numbers_of raw.now (length raw.now.rows) }
    ensures rows { IfOk result (λ new. HasRows raw.now new.arena new.rows.items) }
    ensures count { IfOk result (λ new. length new.rows.items ≡ length raw.now.rows) }
{
    // for the prover: of an automaton that was asked it is known what is true of every one.
    let _ = raw.slots();
    let mut new = Renumbering::new(alloc, Places::new(alloc), raw.arena(), numbers);
    let mut rows = Vec::new(alloc);
    for state in 0..raw.states() {
        let row = new.renumber(raw.row(state))?;
        rows.push(row)?;
    }
    Ok(Rows {
        arena: new.into_arena(),
        rows,
    })
}

// For each of these rows whether it is the sink's.
fn lead_to(alloc: Global, rows: &[Ref], sink: Ref) -> Result<Vec<bool>, AllocError>
    ensures flags { IfOk result (λ flags. LeadTo sink rows.now flags.items) }
    ensures count { IfOk result (λ flags. length flags.items ≡ length rows.now) }
{
    rows.iter().map(|row| *row == sink).collect(alloc)
}
