// States in blocks by what they go on to accept. Each round divides the blocks by the blocks to which letters lead (E. F. Moore,
// "Gedanken-experiments on sequential machines", 1956), but looks only at states that lead to one that moved in the round before.
ghost use Rattle.std.specs.Prelude.{◌≡◌, ◌≤◌, ◌<◌, ◌⊎◌, ℕ, true, false, length, IfOk, OnOk, Contains};
ghost use Rattle.std.specs.List.{All};
ghost use Rattle.dcv_minimise.specs.Partition.{IsPartition};
ghost use Rattle.dcv_minimise.specs.Rounds.{IsState, IsWitnessed, IsTold, LeadTo};
ghost use Rattle.dcv_refinement.specs.Members.{list_of};
ghost use Rattle.dcv_minimise.specs.Refining.{IsRefining};

mod counts;
mod division;
mod hashes;
pub(crate) mod keys;
mod listing;
mod partition;
mod votes;

use counts::Counts;
use dcv_dfa::Raw;
use dcv_refinement::{Above, Index, Members};
use dcv_renumber::Places;
use hashes::by_hashes;
use listing::{Listed, follow};
use partition::Partition;
use std::alloc::{AllocError, Global};

// The block of each state: two states have one block exactly where they go on to accept the same words.
//
// Once few states move, the time is that of the nodes above and below the states that move. A state moves only with a
// part that is no more than half of its block, so it moves as often as the logarithm of their number at most.
pub(crate) fn refine(alloc: Global, raw: &Raw) -> Result<Vec<u32>, AllocError>
    ensures { IfOk result (λ blocks. IsPartition raw.now blocks.items) }
{
    let partition = by_hashes(alloc, raw)?;
    if partition.is_discrete(raw.states()) {
        return Ok(partition.into_blocks());
    }
    divide_on(alloc, raw, partition)
}

// The same, from a partition on that tells no states apart that go on alike.
fn divide_on(alloc: Global, raw: &Raw, partition: Partition) -> Result<Vec<u32>, AllocError>
    requires witnessed { IsWitnessed raw.now partition.blocks.items partition.witness.items }
    requires told { IsTold raw.now partition.blocks.items }
    ensures { IfOk result (λ blocks. IsPartition raw.now blocks.items) }
{
    let mut refining = Refining::new(alloc, raw, partition)?;
    refining.divide_all(alloc, raw)?;
    let states = raw.states();
    if !refining.goes_on(states) {
        return Ok(refining.partition.into_blocks());
    }
    let index = Index::new(alloc, raw.arena(), raw.rows())?;
    'rounds: while refining.goes_on(states) {
        index.above(&refining.moved, &mut refining.found)?;
        refining.round(alloc, raw)?;
    }
    Ok(refining.partition.into_blocks())
}

// The blocks between two rounds, and the states that moved in the last one.
#[derive(Drop)]
struct Refining {
    // the block of each state, and a state of each block
    partition: Partition,
    // the states of each block
    members: Members,
    // the states that moved in the last round
    moved: Vec<u32>,
    // What keys keep of places, one list for all rounds: so a round costs what it looks at, and not what the arena holds.
    places: Places,
    // What was found above the states that moved, how many of each block that are, and what is listed of them: lists that each round fills.
    found: Above,
    // how many states each block has
    counts: Counts,
    // the states that a round looks at
    listed: Listed,
}

impl Refining {
    // The blocks of a partition, as if they had all been one.
    fn new(alloc: Global, raw: &Raw, partition: Partition) -> Result<Refining, AllocError>
        requires witnessed { IsWitnessed raw.now partition.blocks.items partition.witness.items }
        requires told { IsTold raw.now partition.blocks.items }
        ensures { IfOk result (λ refining. IsRefining raw.now refining.partition.blocks.items refining.partition.witness.items
            (list_of refining.members) refining.moved.items) }
    {
        let all = every_state(alloc, raw.states())?;
        let mut members = Members::new(alloc);
        follow(alloc, &mut members, &partition.blocks, &all)?;
        let moved = partition.outside_first(alloc)?;
        Ok(Refining {
            partition,
            members,
            moved,
            places: Places::new(alloc),
            found: Above::new(alloc),
            counts: Counts::new(alloc),
            listed: Listed::new(alloc),
        })
    }

    // Whether another round may find something: where each of so many states has a block of its own, none does.
    fn goes_on(&self, states: u32) -> bool
        ensures on { result ≡ true → 0 < length self.now.moved.items }
        ensures over { result ≡ false → (length self.now.moved.items ≡ 0) ⊎ (states ≤ length self.now.partition.witness.items) }
    {
        !self.moved.is_empty() && !self.partition.is_discrete(states)
    }

    // The first rounds, while many states move. What leads to these is nearly every state, so all are looked at, with no way up and no index.
    fn divide_all(&mut self, alloc: Global, raw: &Raw) -> Result<(), AllocError>
        requires refining { IsRefining raw.now self.old.partition.blocks.items self.old.partition.witness.items (list_of self.old.members) self.old.moved.items }
        ensures refining { OnOk result (IsRefining raw.now self.new.partition.blocks.items self.new.partition.witness.items (list_of self.new.members) self.new.moved.items) }
    {
        let states = raw.states();
        'rounds: while self.moves_many(raw) {
            self.found.rows = every_state(alloc, states)?;
            self.round(alloc, raw)?;
        }
        Ok(())
    }

    // Whether another round may find something, in which all states are to be looked at, since many moved: more than half of them. Where the rows
    // have more nodes than there are states, a quarter is many, and so is a block by flags, since the way up goes by nodes.
    fn moves_many(&self, raw: &Raw) -> bool
        ensures { result ≡ true → 0 < length self.now.moved.items }
    {
        let (states, moved) = (raw.states(), self.moved.len());
        let many = if raw.arena().len() > states {
            self.partition.witness.len() <= 2 || moved > states as usize / 4
        } else {
            moved > states as usize / 2
        };
        many && self.goes_on(states)
    }

    // One round, in which the states that lead to one that moved are looked at.
    fn round(&mut self, alloc: Global, raw: &Raw) -> Result<(), AllocError>
        requires looked { LeadTo raw.now self.old.moved.items self.old.found.rows.items }
        requires states { All (IsState raw.now) self.old.found.rows.items }
        requires refining { IsRefining raw.now self.old.partition.blocks.items self.old.partition.witness.items (list_of self.old.members) self.old.moved.items }
        ensures refining { OnOk result (IsRefining raw.now self.new.partition.blocks.items self.new.partition.witness.items (list_of self.new.members) self.new.moved.items) }
        ensures more { OnOk result (0 < length self.new.moved.items → length self.old.partition.witness.items < length self.new.partition.witness.items) }
        ensures no_fewer { OnOk result (length self.old.partition.witness.items ≤ length self.new.partition.witness.items) }
    {
        self.counts.count(&self.partition.blocks, &self.found.rows)?;
        self.listed.fill(
            &mut self.members,
            &self.partition.blocks,
            &self.partition.witness,
            &self.found.rows,
            &self.counts,
        )?;
        self.moved = self
            .partition
            .split(alloc, raw, &self.listed, &mut self.places)?;
        follow(
            alloc,
            &mut self.members,
            &self.partition.blocks,
            &self.moved,
        )
    }
}

// The numbers of so many states.
fn every_state(alloc: Global, states: u32) -> Result<Vec<u32>, AllocError>
    ensures each { IfOk result (λ all. (state : ℕ) → state < states → Contains all.items state) }
    ensures only { IfOk result (λ all. All (λ state. state < states) all.items) }
{
    let mut all = Vec::with_capacity(alloc, states as usize)?;
    for state in 0..states {
        all.push(state)?;
    }
    Ok(all)
}
