//! The replay of a unit of constant tables of C.
ghost use Rattle.std.specs.Prelude.{◌≡◌, ◌+◌, ◌<◌, ◌≤◌, [], length, map, IfOk};
ghost use Rattle.dcv_c_tables.specs.Meaning.{state_by, next_place};
ghost use Rattle.dcv_c_tables.specs.Rules.{IsTables};
ghost use Rattle.dcv_tables_read.specs.Seen.{seen_tables};
ghost use Rattle.dcv_replay.specs.Observer.{Tables, Follows};
ghost use Rattle.dcv_replay.specs.Program.{CanWalk, IsNodePlace, accepting};
ghost use Rattle.dcv_replay.specs.Seen.{seen_walk};

use crate::Replay;
use crate::replay::Steps;
use dcv_tables_read::{TableNode, TableState, TableUnit};
use dcv_word::Letter;
use std::alloc::{AllocError, Global};

// Nodes and states. A place below the number of states is a state, and any other is a node, counted from there.
#[derive(Drop)]
pub(crate) struct Walk {
    nodes: Vec<TableNode>,
    states: Vec<TableState>,
}

impl Replay {
    /// A replay of a unit of tables, as after its function that sets the state. It takes no memory later, and a step looks at one node a variable at most.
    pub fn tables(alloc: Global, unit: TableUnit<'_>) -> Result<Replay, AllocError>
        requires { IsTables (seen_tables unit) }
        ensures { IfOk result (Follows (Tables (seen_tables unit.entry)) []) }
    {
        let TableUnit {
            names,
            nodes,
            states,
        } = unit;
        let mut store = Vec::new(alloc);
        store.push(0)?;
        let walk = Walk { nodes, states };
        Ok(Replay::of(names.len() as u8, Steps::Walks(walk), store))
    }
}

impl Walk {
    // The state to which a letter leads.
    pub(crate) fn state_after(&self, letter: &Letter, state: u32) -> u32
        requires walk { CanWalk (length letter.now) (seen_walk self.now) }
        requires state { state < length self.now.states.items }
        ensures next { result ≡ state_by (seen_walk self.now) letter.now state }
        ensures within { result < length self.now.states.items }
    {
        let mut place = self.states[state as usize].row;
        while place as usize >= self.states.len() {
            place = self.next_place(letter, place);
        }
        place
    }

    // The place after a node.
    fn next_place(&self, letter: &Letter, place: u32) -> u32
        requires { IsNodePlace (length letter.now) (seen_walk self.now) place }
        ensures { result ≡ next_place (seen_walk self.now) letter.now place }
    {
        let node = self.nodes[place as usize - self.states.len()];
        if letter.get(node.variable as u8) {
            node.high
        } else {
            node.low
        }
    }

    // Whether a state accepts.
    pub(crate) fn accepts(&self, state: u32) -> bool
        requires { state < length self.now.states.items }
        ensures { result ≡ accepting (seen_walk self.now) state }
    {
        self.states[state as usize].accepts
    }
}
