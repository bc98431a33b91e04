// Which states a round compares with the witnesses of their blocks. A block is gone through in full where its witness is looked at, or more
// than half of it. The lists of members are those of `dcv_refinement`, which `dcv_certificate` has too. The rest of a partition is not shared:
// here a block falls into parts by the keys of its states, and a vote finds the part that stays; there it falls in two by a test, and the
// blocks' sizes say which part is the smaller.
ghost use Rattle.std.specs.Prelude.{◌≡◌, ◌<◌, ◌⊎◌, ℕ, length, slice_index_or, IfOk, OnOk, Contains};
ghost use Rattle.std.specs.List.{All};
ghost use Rattle.dcv_refinement.specs.Members.{list_of, HaveTheirOwn, block_of};
ghost use Rattle.dcv_minimise.specs.Listing.{IsListed, IsListing, IsBlockAdded, IsBlockListed, LooksAt};

use super::counts::Counts;
use dcv_refinement::{Members, SparseSet};
use std::alloc::{AllocError, Global};

// The states that a round compares with the witnesses, and the blocks of which these are all. One is kept for all rounds.
#[derive(Drop)]
pub(crate) struct Listed {
    // the states that are compared
    pub(crate) states: Vec<u32>,
    // the blocks of which all states are compared
    pub(crate) full: SparseSet,
}

// Puts the states that moved into the lists of their blocks.
pub(crate) fn follow(
    alloc: Global,
    members: &mut Members,
    blocks: &[u32],
    moved: &[u32],
) -> Result<(), AllocError>
    requires has { (state : ℕ) → state < length blocks.now → Contains moved.now state ⊎ Contains (list_of members.old (block_of blocks.now state)) state }
    requires moved { All (λ state. state < length blocks.now) moved.now }
    ensures { OnOk result (HaveTheirOwn blocks.now (list_of members.new)) }
{
    for state in moved {
        members.put(alloc, blocks[*state as usize], *state)?;
    }
    Ok(())
}

impl Listed {
    // No states.
    pub(crate) fn new(alloc: Global) -> Listed {
        Listed {
            states: Vec::new(alloc),
            full: SparseSet::new(alloc),
        }
    }

    // Lists the states to be compared, where these are looked at, so many of each block. So the time is that of the looked-at states, and of
    // what is renumbered.
    pub(crate) fn fill(
        &mut self,
        members: &mut Members,
        blocks: &[u32],
        witness: &[u32],
        looked: &[u32],
        counts: &Counts,
    ) -> Result<(), AllocError>
        requires members { HaveTheirOwn blocks.now (list_of members.old) }
        requires own { (block : ℕ) → block < length witness.now → block_of blocks.now (slice_index_or witness.now block 0) ≡ block }
        requires witnesses { (block : ℕ) → block < length witness.now → slice_index_or witness.now block 0 < length blocks.now }
        requires numbers { (state : ℕ) → state < length blocks.now → block_of blocks.now state < length witness.now }
        requires looked { All (λ state. state < length blocks.now) looked.now }
        ensures members { OnOk result (HaveTheirOwn blocks.now (list_of members.new)) }
        ensures listing { OnOk result (IsListing blocks.now witness.now looked.now self.new.states.items self.new.full) }
    {
        self.states.clear();
        self.full.clear();
        for state in looked {
            self.look_at(members, blocks, witness, counts, *state)?;
        }
        Ok(())
    }

    // Lists a state that is looked at, or its block in full.
    fn look_at(
        &mut self,
        members: &mut Members,
        blocks: &[u32],
        witness: &[u32],
        counts: &Counts,
        state: u32,
    ) -> Result<(), AllocError>
        requires members { HaveTheirOwn blocks.now (list_of members.old) }
        requires own { (block : ℕ) → block < length witness.now → block_of blocks.now (slice_index_or witness.now block 0) ≡ block }
        requires witnesses { (block : ℕ) → block < length witness.now → slice_index_or witness.now block 0 < length blocks.now }
        requires state { state < length blocks.now }
        requires number { block_of blocks.now state < length witness.now }
        requires full { (block : ℕ) → Contains self.old.full block → IsListed blocks.now self.old.states.items block }
        ensures members { OnOk result (HaveTheirOwn blocks.now (list_of members.new)) }
        ensures looks { OnOk result (LooksAt blocks.now witness.now state self.old.states.items self.old.full self.new.states.items self.new.full) }
    {
        let block = blocks[state as usize];
        if self.full.contains(block) {
            return Ok(());
        }
        let many = counts.is_many(block, members.list(block).len());
        if many || witness[block as usize] == state {
            return self.list_block(members, blocks, block);
        }
        self.states.push(state)?;
        Ok(())
    }

    // Lists all states of a block, unless there is only one.
    fn list_block(
        &mut self,
        members: &mut Members,
        blocks: &[u32],
        block: u32,
    ) -> Result<(), AllocError>
        requires { HaveTheirOwn blocks.now (list_of members.old) }
        ensures members { OnOk result (HaveTheirOwn blocks.now (list_of members.new)) }
        ensures listed { OnOk result (IsBlockListed blocks.now block self.old.states.items self.old.full self.new.states.items self.new.full) }
    {
        members.mend(blocks, block);
        self.add_block(block, members.list(block))
    }

    // Adds the states of a block, unless there is only one.
    fn add_block(&mut self, block: u32, own: &[u32]) -> Result<(), AllocError>
        ensures { OnOk result (IsBlockAdded own.now block self.old.states.items self.old.full self.new.states.items self.new.full) }
    {
        if own.len() <= 1 {
            return Ok(());
        }
        self.states.extend_from_slice(own)?;
        self.full.insert(block)?;
        Ok(())
    }
}
