// The rows of states by blocks. Two states have one key exactly where each letter leads from both to one block.
ghost use Rattle.std.specs.Prelude.{◌≡◌, ◌<◌, List, ℕ, length, IfOk};
ghost use Rattle.std.specs.List.{All};
ghost use Rattle.dcv_arena.specs.Arena.{KeepsRefs};
ghost use Rattle.dcv_minimise.specs.Rounds.{IsState};
ghost use Rattle.dcv_minimise.specs.Keys.{IsKeys, IsKeyOf, IsKeyed, blocks_in, states_in};

use dcv_arena::Ref;
use dcv_dfa::Raw;
use dcv_renumber::{Places, Renumbering};
use std::alloc::{AllocError, Global};

// A state beside its key.
#[derive(Clone, Copy)]
pub(crate) struct Keyed {
    // the state
    pub(crate) state: u32,
    // what its row becomes by the blocks
    pub(crate) key: Ref,
}

// Each node of the rows is gone through once, however many states are asked for.
#[derive(Drop)]
pub(crate) struct Keys<'a> {
    // from the rows' arena, by the blocks of the states
    pub(crate) renumbering: Renumbering<'a>,
}

impl<'a> Keys<'a> {
    // The keys by these blocks. What the keys of the round before kept of places does not count, but its memory is used again.
    pub(crate) fn new(alloc: Global, places: Places, raw: &'a Raw, blocks: &'a [u32]) -> Keys<'a>
        requires { length blocks.now ≡ length raw.now.rows }
        ensures { IsKeys raw.now blocks.now result }
    {
        Keys {
            renumbering: Renumbering::new(alloc, places, raw.arena(), blocks),
        }
    }
}

impl Keys<'_> {
    // What is kept of places, for the keys of the next round.
    pub(crate) fn into_places(self) -> Places
        ensures { result ≡ self.entry.renumbering.places }
    {
        self.renumbering.into_places()
    }

    // The key of a state.
    pub(crate) fn of(&mut self, raw: &Raw, state: u32) -> Result<Ref, AllocError>
        requires state { state < length raw.now.rows }
        requires keys { IsKeys raw.now (blocks_in self.old) self.old }
        ensures key { (blocks : List ℕ) → IsKeys raw.now blocks self.old → IfOk result (IsKeyOf raw.now blocks self.new.renumbering.own state) }
        ensures kept { KeepsRefs self.old.renumbering.own self.new.renumbering.own }
        ensures keys { (blocks : List ℕ) → IsKeys raw.now blocks self.old → IsKeys raw.now blocks self.new }
    {
        self.renumbering.renumber(raw.row(state))
    }

    // These states, each beside its key.
    pub(crate) fn of_all(
        &mut self,
        alloc: Global,
        raw: &Raw,
        states: &[u32],
    ) -> Result<Vec<Keyed>, AllocError>
        requires states { All (IsState raw.now) states.now }
        requires keys { IsKeys raw.now (blocks_in self.old) self.old }
        ensures states { IfOk result (λ keyed. states_in keyed.items ≡ states.now) }
        ensures keyed { IfOk result (λ keyed. All (IsKeyed raw.now (blocks_in self.old) self.new.renumbering.own) keyed.items) }
        ensures keys { IsKeys raw.now (blocks_in self.old) self.new }
    {
        let mut keyed = Vec::new(alloc);
        for state in states {
            let key = self.of(raw, *state)?;
            keyed.push(Keyed { state: *state, key })?;
        }
        Ok(keyed)
    }
}
