// A table that leaves a shelf: an automaton whose arena is as wide as its letters, and has the nodes of its rows and no others.
ghost use Rattle.std.specs.Prelude.{◌≡◌, ◌<◌, ◌^◌, length, map, IfOk};
ghost use Rattle.std.specs.List.{range_with_len};
ghost use Rattle.dcv_dfa.specs.Auto.{IsAutoWith};
ghost use Rattle.dcv_dfa.specs.Raw.{IsRaw};
ghost use Rattle.dcv_shelf.specs.Shelf.{table_of_auto};
ghost use Rattle.dcv_shelf.specs.Stored.{IsStored, stored_table, HasRows};
ghost use Rattle.dcv_shelf.specs.declared.stored.State.{State as AnyState};

use crate::stored::{State, Stored};
use dcv_arena::{Arena, ArenaFault, Ref};
use dcv_dfa::{Auto, Raw};
use dcv_renumber::Remapping;
use std::alloc::{AllocError, Global};

// Rows, in an arena that has their nodes and no others.
#[derive(Drop)]
struct Rows {
    // the nodes of the rows and no others
    arena: Arena,
    // the row of each state
    rows: Vec<Ref>,
}

// The automaton of a table.
pub(crate) fn auto_of(alloc: Global, arena: &Arena, stored: &Stored) -> Result<Auto, AllocError>
    requires { IsStored arena.now stored.now }
    ensures { IfOk result (λ auto. table_of_auto auto ≡ stored_table arena.now stored.now) }
{
    let raw = raw_of(alloc, arena, stored)?;
    Ok(Auto::new(raw, stored.alone))
}

// The same without the promise that it is canonical.
pub(crate) fn raw_of(alloc: Global, arena: &Arena, stored: &Stored) -> Result<Raw, AllocError>
    requires { IsStored arena.now stored.now }
    ensures raw { IfOk result IsRaw }
    ensures canonical { IfOk result (λ raw. IsAutoWith raw stored.now.alone) }
    ensures table { IfOk result (λ raw. table_of_auto raw ≡ stored_table arena.now stored.now) }
{
    let numbers = numbers_below(alloc, stored.states.len() as u32)?;
    let rows = rows_of(alloc, arena, stored, &numbers)?;
    let accepting = flags_of(alloc, &stored.states)?;
    Ok(Raw::new(rows.arena, rows.rows, accepting, 0))
}

// Its rows: each state keeps its number, and slots that the letters do not have are left out.
fn rows_of(
    alloc: Global,
    arena: &Arena,
    stored: &Stored,
    numbers: &[u32],
) -> Result<Rows, AllocError>
    requires stored { IsStored arena.now stored.now }
    requires numbers { numbers.now ≡ range_with_len 0 (length stored.now.states.items) }
    ensures rows { IfOk result (λ new. HasRows arena.now stored.now new.arena new.rows.items) }
    ensures count { IfOk result (λ new. length new.rows.items ≡ length stored.now.states.items) }
{
    // for the prover: of an arena that was asked it is known what is true of every arena.
    let _ = arena.slots();
    let mut own = Arena::new(alloc, stored.slots, stored.nodes);
    let mut remapping = Remapping::new(alloc, arena, numbers);
    let mut rows = Vec::new(alloc);
    for state in &stored.states {
        let row = match remapping.remap(&mut own, state.row) {
            Ok(row) => row,
            Err(ArenaFault::Memory) => return Err(AllocError),
            Err(ArenaFault::Full { .. }) => unreachable!(),
        };
        rows.push(row)?;
    }
    Ok(Rows { arena: own, rows })
}

// The numbers below this one, in order.
fn numbers_below(alloc: Global, count: u32) -> Result<Vec<u32>, AllocError>
    ensures { IfOk result (λ numbers. numbers.items ≡ range_with_len 0 count) }
{
    let mut numbers = Vec::new(alloc);
    for number in 0..count {
        numbers.push(number)?;
    }
    Ok(numbers)
}

// Which states accept.
fn flags_of(alloc: Global, states: &[State]) -> Result<Vec<bool>, AllocError>
    ensures { IfOk result (λ flags. flags.items ≡ map (λ (state : AnyState). state.accepting) states.now) }
{
    states.iter().map(|state| state.accepting).collect(alloc)
}
