// One round's division of the blocks: each state that does not go with the witness of its block gets the number of another.
ghost use Rattle.std.specs.Prelude.{◌≡◌, ◌<◌, ◌+◌, ◌^◌, ℕ, length, slice_index_or, IfOk, OnOk};
ghost use Rattle.std.specs.List.{All};
ghost use Rattle.dcv_arena.specs.Arena.{KeepsRefs};
ghost use Rattle.dcv_minimise.specs.Keys.{IsKeys, IsKeyed, states_in};
ghost use Rattle.dcv_minimise.specs.Rounds.{IsState, IsWitnessed};
ghost use Rattle.dcv_minimise.specs.Division.{IsDividing, IsDivision, IsDivided, IsSettled, HasNumber};

use super::keys::{Keyed, Keys};
use super::listing::Listed;
use super::votes::choose;
use dcv_arena::Ref;
use dcv_dfa::Raw;
use dcv_renumber::Places;
use indexmap::IndexSet;
use std::alloc::{AllocError, Global};

// A state gets a number.
#[derive(Clone, Copy)]
pub(crate) struct Move {
    // the state that moves
    pub(crate) state: u32,
    // its new block
    pub(crate) number: u32,
}

// The states of a block with one key.
#[derive(Clone, Copy, Debug, PartialEq, Eq, Hash)]
pub(crate) struct Part {
    // the block that falls apart
    pub(crate) block: u32,
    // what the rows of the part become by the blocks of the round
    pub(crate) key: Ref,
}

// The division so far. The parts have the numbers from `count` on.
#[derive(Drop)]
struct Division<'a> {
    // how many blocks there were before
    count: usize,
    // what makes a row into its key
    keys: Keys<'a>,
    // the parts so far, in the order of their numbers
    parts: IndexSet<Part>,
    // the states that get a new block
    moves: Vec<Move>,
}

// Which of the listed states get another number, and which. Witnesses of blocks that are listed in full may change, and those of new
// numbers are added. The keys use `places`, which is given back for the next round.
pub(crate) fn divide(
    alloc: Global,
    raw: &Raw,
    places: Places,
    blocks: &[u32],
    witness: &mut Vec<u32>,
    listed: &Listed,
) -> Result<(Vec<Move>, Places), AllocError>
    requires witnessed { IsWitnessed raw.now blocks.now witness.old.items }
    requires listed { All (IsState raw.now) listed.now.states.items }
    ensures { IfOk result (λ divided. IsDivided raw.now blocks.now listed.now.full witness.old.items witness.new.items listed.now.states.items divided.0.items) }
{
    let mut keys = Keys::new(alloc, places, raw, blocks);
    let keyed = keys.of_all(alloc, raw, &listed.states)?;
    choose(alloc, blocks, witness, &listed.full, &keyed)?;
    settle_all(alloc, raw, blocks, witness, keys, &keyed)
}

// The same with the witnesses as they are.
fn settle_all(
    alloc: Global,
    raw: &Raw,
    blocks: &[u32],
    witness: &mut Vec<u32>,
    keys: Keys<'_>,
    listed: &[Keyed],
) -> Result<(Vec<Move>, Places), AllocError>
    requires witnessed { IsWitnessed raw.now blocks.now witness.old.items }
    requires keys { IsKeys raw.now blocks.now keys }
    requires listed { All (IsKeyed raw.now blocks.now keys.renumbering.own) listed.now }
    ensures { IfOk result (λ divided. IsDivision raw.now blocks.now witness.old.items witness.new.items (states_in listed.now) divided.0.items) }
{
    let mut division = Division {
        count: witness.len(),
        keys,
        parts: IndexSet::new(alloc),
        moves: Vec::new(alloc),
    };
    for keyed in listed {
        division.settle(raw, blocks, witness, *keyed)?;
    }
    Ok((division.moves, division.keys.into_places()))
}

impl Division<'_> {
    // Finds out whether a state keeps its number.
    fn settle(
        &mut self,
        raw: &Raw,
        blocks: &[u32],
        witness: &mut Vec<u32>,
        keyed: Keyed,
    ) -> Result<(), AllocError>
        requires keyed { IsKeyed raw.now blocks.now self.old.keys.renumbering.own keyed }
        requires keys { IsKeys raw.now blocks.now self.old.keys }
        requires dividing { IsDividing raw.now blocks.now self.old.count self.old.keys.renumbering.own witness.old.items self.old.parts.keys self.old.moves.items }
        ensures keys { IsKeys raw.now blocks.now self.new.keys }
        ensures refs { KeepsRefs self.old.keys.renumbering.own self.new.keys.renumbering.own }
        ensures dividing { OnOk result (IsDividing raw.now blocks.now self.old.count self.new.keys.renumbering.own witness.new.items self.new.parts.keys self.new.moves.items) }
        ensures settled { OnOk result (IsSettled raw.now blocks.now witness.new.items self.new.moves.items keyed.state) }
        ensures count { self.new.count ≡ self.old.count }

        // What was settled is settled, and the blocks that there were have the witnesses that they had.
        ensures kept { OnOk result ((other : ℕ) → IsState raw.now other → IsSettled raw.now blocks.now witness.old.items self.old.moves.items other
            → IsSettled raw.now blocks.now witness.new.items self.new.moves.items other) }
        ensures firsts { OnOk result ((block : ℕ) → block < self.old.count → slice_index_or witness.new.items block 0 ≡ slice_index_or witness.old.items block 0) }
    {
        let state = keyed.state;
        let key = keyed.key;
        let block = blocks[state as usize];
        let kept = self.keys.of(raw, witness[block as usize])?;
        if key == kept {
            return Ok(());
        }
        let number = self.number(witness, Part { block, key }, state)?;
        self.moves.push(Move { state, number })?;
        Ok(())
    }

    // The number of a part, which is added where it is not there, with the state as its witness.
    fn number(&mut self, witness: &mut Vec<u32>, part: Part, state: u32) -> Result<u32, AllocError>
        requires size { length witness.old.items ≡ self.old.count + length self.old.parts.keys }
        requires bound { length witness.old.items < 2 ^ 32 }
        ensures number { IfOk result (HasNumber self.old.count self.old.parts.keys self.new.parts.keys witness.old.items witness.new.items part state) }
        ensures count { self.new.count ≡ self.old.count }
        ensures keys { self.new.keys ≡ self.old.keys }
        ensures moves { self.new.moves ≡ self.old.moves }
    {
        let (place, is_new) = self.parts.insert_full(part)?;
        let number = (self.count + place) as u32;
        if !is_new {
            return Ok(number);
        }
        witness.push(state)?;
        Ok(number)
    }
}
