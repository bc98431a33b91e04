// States in blocks, with a witness for each block.
ghost use Rattle.std.specs.Prelude.{◌≡◌, ◌≢◌, ◌≤◌, ◌<◌, ◌^◌, ◌==◌, ◌⊎◌, ℕ, true, false, length, map, position, IfOk, OnOk, Contains};
ghost use Rattle.std.specs.List.{All};
ghost use Rattle.dcv_refinement.specs.Members.{block_of};
ghost use Rattle.dcv_minimise.specs.Rounds.{IsState, HaveOneRow, IsRound, IsWitnessed, IsTold, HaveStayed, IsByFlag, IsByNumber, witness_of, flag_block};
ghost use Rattle.dcv_minimise.specs.Division.{HasMoved};
ghost use Rattle.dcv_minimise.specs.Listing.{IsListed};

use super::division::{Move, divide};
use super::listing::Listed;
use dcv_dfa::Raw;
use dcv_renumber::Places;
use std::alloc::{AllocError, Global};
use std::mem;

#[derive(Drop)]
pub(crate) struct Partition {
    // the block of each state
    pub(crate) blocks: Vec<u32>,
    // a state of each block, which stands for it
    pub(crate) witness: Vec<u32>,
}

impl Partition {
    // Two blocks, or one: the states that have the first state's flag, and those that have the other.
    pub(crate) fn by_flags(alloc: Global, raw: &Raw) -> Result<Partition, AllocError>
        ensures witnessed { IfOk result (λ partition. IsWitnessed raw.now partition.blocks.items partition.witness.items) }
        ensures told { IfOk result (λ partition. IsTold raw.now partition.blocks.items) }
    {
        let blocks = blocks_by_flag(alloc, raw)?;
        let witness = witness_by_flag(alloc, &blocks)?;
        Ok(Partition { blocks, witness })
    }

    // Whether each of so many states has a block of its own.
    pub(crate) fn is_discrete(&self, states: u32) -> bool
        ensures all { result ≡ true → states ≤ length self.now.witness.items }
        ensures not_all { result ≡ false → length self.now.witness.items < states }
    {
        self.witness.len() >= states as usize
    }

    // The states that are not in block 0.
    pub(crate) fn outside_first(&self, alloc: Global) -> Result<Vec<u32>, AllocError>
        requires { length self.now.blocks.items < 2 ^ 32 }
        ensures all { IfOk result (λ others. (state : ℕ) → state < length self.now.blocks.items → block_of self.now.blocks.items state ≢ 0 → Contains others.items state) }
        ensures states { IfOk result (λ others. All (λ state. state < length self.now.blocks.items) others.items) }
    {
        let mut others = Vec::new(alloc);
        for (state, block) in self.blocks.iter().enumerate() {
            if *block != 0 {
                others.push(state as u32)?;
            }
        }
        Ok(others)
    }

    // Divides the blocks by the rows of the listed states, and answers the states that got another number. A state that is
    // not listed goes with the witness of its block. `places` is for the keys, and is lost where memory runs out.
    pub(crate) fn split(
        &mut self,
        alloc: Global,
        raw: &Raw,
        listed: &Listed,
        places: &mut Places,
    ) -> Result<Vec<u32>, AllocError>
        requires witnessed { IsWitnessed raw.now self.old.blocks.items self.old.witness.items }
        requires listed { All (IsState raw.now) listed.now.states.items }
        requires full { (block : ℕ) → Contains listed.now.full block → IsListed self.old.blocks.items listed.now.states.items block }
        requires others { (state : ℕ) → IsState raw.now state → Contains listed.now.states.items state
            ⊎ HaveOneRow raw.now self.old.blocks.items state (witness_of self.old.blocks.items self.old.witness.items state) }
        ensures round { OnOk result (IsRound raw.now self.old.blocks.items self.new.blocks.items) }
        ensures witnessed { OnOk result (IsWitnessed raw.now self.new.blocks.items self.new.witness.items) }
        ensures stayed { IfOk result (λ moved. HaveStayed raw.now self.old.blocks.items self.new.blocks.items moved.items) }

        // If there are any, there are more blocks.
        ensures more { IfOk result (λ moved. 0 < length moved.items → length self.old.witness.items < length self.new.witness.items) }
        ensures no_fewer { OnOk result (length self.old.witness.items ≤ length self.new.witness.items) }
        ensures states { IfOk result (λ moved. All (IsState raw.now) moved.items) }
    {
        let before = mem::replace(places, Places::new(alloc));
        let (moves, after) = divide(alloc, raw, before, &self.blocks, &mut self.witness, listed)?;
        *places = after;
        let moved = states_of(alloc, &moves)?;
        apply(&mut self.blocks, &moves);
        Ok(moved)
    }

    // The block of each state.
    pub(crate) fn into_blocks(self) -> Vec<u32>
        ensures { result ≡ self.blocks }
    {
        self.blocks
    }
}

// Which of the two blocks a flag gives.
fn block_of_flag(first: bool, accepting: bool) -> u32
    ensures { result ≡ flag_block first accepting }
{
    u32::from(accepting != first)
}

// The block of each state by its flag.
fn blocks_by_flag(alloc: Global, raw: &Raw) -> Result<Vec<u32>, AllocError>
    ensures each { IfOk result (λ blocks. length blocks.items ≡ length raw.now.rows) }
    ensures flags { IfOk result (λ blocks. IsByFlag raw.now blocks.items) }
    ensures some { IfOk result (λ blocks. 0 < length blocks.items) }
    ensures bound { IfOk result (λ blocks. length blocks.items < 2 ^ 32) }
{
    let states = raw.states();
    let first = raw.accepting(0);
    let mut blocks = Vec::with_capacity(alloc, states as usize)?;
    for state in 0..states {
        blocks.push(block_of_flag(first, raw.accepting(state)))?;
    }
    Ok(blocks)
}

// State 0, and the first state that is in the other block.
fn witness_by_flag(alloc: Global, blocks: &[u32]) -> Result<Vec<u32>, AllocError>
    requires some { 0 < length blocks.now }
    requires bound { length blocks.now < 2 ^ 32 }
    requires two { (state : ℕ) → state < length blocks.now → block_of blocks.now state < 2 }
    requires zero { block_of blocks.now 0 ≡ 0 }
    ensures { IfOk result (λ witness. IsByNumber blocks.now witness.items) }
{
    let mut witness = Vec::new(alloc);
    witness.push(0)?;
    let Some(other) = first_other(blocks) else {
        return Ok(witness);
    };
    witness.push(other as u32)?;
    Ok(witness)
}

// The first state in block 1.
fn first_other(blocks: &[u32]) -> Option<usize>
    ensures { result ≡ position (λ block. block == 1) blocks.now }
{
    blocks.iter().position(|block| *block == 1)
}

// The states that move.
fn states_of(alloc: Global, moves: &[Move]) -> Result<Vec<u32>, AllocError>
    ensures { IfOk result (λ states. states.items ≡ map (λ one. one.state) moves.now) }
{
    moves.iter().map(|one| one.state).collect(alloc)
}

// Gives each of the states its number.
fn apply(blocks: &mut [u32], moves: &[Move])
    requires { All (λ one. one.state < length blocks.old) moves.now }
    ensures { (state : ℕ) → state < length blocks.old → HasMoved moves.now blocks.old blocks.new state }
{
    for one in moves {
        blocks[one.state as usize] = one.number;
    }
}
