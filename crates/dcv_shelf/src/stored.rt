// A canonical table as a shelf keeps it: by its rows in the shelf's arena, which are the same refs exactly where the functions are the
// same. So two tables of one width are the same exactly where what is kept of them is.
ghost use Rattle.std.specs.Prelude.{◌≡◌, ◌≤◌, ◌+◌, length, if◌then◌else◌, IfOk};
ghost use Rattle.dcv_arena.specs.Arena.{IsArena, KeepsRefs};
ghost use Rattle.dcv_dfa.specs.Raw.{IsRaw};
ghost use Rattle.dcv_dfa.specs.Auto.{count_of_nodes};
ghost use Rattle.dcv_shelf.specs.Shelf.{table_of_auto};
ghost use Rattle.dcv_shelf.specs.Stored.{IsStored, stored_table, copied_states, flipped_state, IsTurned};

use crate::inclusion::{copied, include};
use dcv_arena::{Arena, Ref};
use dcv_dfa::Auto;
use std::alloc::{AllocError, Global};

// Whether a state accepts, and its row.
#[derive(Clone, Copy, Debug, PartialEq, Eq, Hash)]
pub(crate) struct State {
    // whether it accepts
    pub(crate) accepting: bool,
    // where its row begins in the shelf's arena
    pub(crate) row: Ref,
}

#[derive(Drop, PartialEq, Eq, Hash)]
pub(crate) struct Stored {
    // How many variables the letters have.
    pub(crate) slots: u8,
    // Whether no word leads to the start.
    pub(crate) alone: bool,
    // How many nodes the rows have together.
    pub(crate) nodes: u32,
    // the states by their numbers
    pub(crate) states: Vec<State>,
}

impl Stored {
    // The table of an automaton, whose rows come into the arena.
    pub(crate) fn of(alloc: Global, arena: &mut Arena, auto: &Auto) -> Result<Stored, AllocError>
        requires { auto.now.arena.slots ≤ arena.old.slots }
        ensures stored { IfOk result (IsStored arena.new) }
        ensures table { IfOk result (λ stored. stored_table arena.new stored ≡ table_of_auto auto.now) }
        ensures few { length arena.new.nodes ≤ length arena.old.nodes + count_of_nodes auto.now }
        ensures kept { KeepsRefs arena.old arena.new }
        ensures arena { IsArena arena.new }
    {
        let (slots, alone, nodes) = (auto.slots(), auto.starts_alone(), auto.nodes());
        // An arena that is full is as good as one without memory.
        let Ok(copies) = include(alloc, arena, auto.arena()) else {
            return Err(AllocError);
        };
        let states = states_of(alloc, auto, &copies)?;
        Ok(Stored {
            slots,
            alone,
            nodes,
            states,
        })
    }

    // The table of the complement: each flag turned, but for that of a start that stands alone.
    pub(crate) fn turned(&self, alloc: Global) -> Result<Stored, AllocError>
        ensures { IfOk result (IsTurned self.now) }
    {
        let mut states = Vec::new(alloc);
        for state in &self.states {
            let stays = self.alone && states.is_empty();
            states.push(state.turned(stays))?;
        }
        Ok(Stored {
            slots: self.slots,
            alone: self.alone,
            nodes: self.nodes,
            states,
        })
    }
}

impl State {
    // The state with its flag turned, unless it stays.
    fn turned(self, stays: bool) -> State
        ensures { result ≡ (if stays then self else flipped_state self) }
    {
        State {
            accepting: self.accepting == stays,
            row: self.row,
        }
    }
}

// The states of an automaton, given the copies of its arena's nodes.
fn states_of(alloc: Global, auto: &Auto, copies: &[Ref]) -> Result<Vec<State>, AllocError>
    requires { length copies.now ≡ length auto.now.arena.nodes }
    ensures states { IfOk result (λ states. states.items ≡ copied_states auto.now copies.now (length auto.now.rows)) }
    ensures raw { IsRaw auto.now }
{
    let mut states = Vec::new(alloc);
    for state in 0..auto.states() {
        states.push(State {
            accepting: auto.accepting(state),
            row: copied(copies, auto.row(state)),
        })?;
    }
    Ok(states)
}
