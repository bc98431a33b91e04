// Which part of a block keeps its number: where more than half of the states have one key, a state with that key becomes the
// witness (R. S. Boyer and J S. Moore, "MJRTY: A Fast Majority Vote Algorithm", 1991). So a state only ever moves with a part that
// is no more than half of its block (J. Hopcroft, "An n log n Algorithm for Minimizing States in a Finite Automaton", 1971).
ghost use Rattle.std.specs.Prelude.{◌<◌, ℕ, length, OnOk};
ghost use Rattle.std.specs.List.{All};
ghost use Rattle.dcv_refinement.specs.Members.{block_of};
ghost use Rattle.dcv_minimise.specs.Listing.{IsChosen};

use super::keys::Keyed;
use dcv_arena::Ref;
use dcv_refinement::SparseSet;
use std::alloc::{AllocError, Global};

// What the votes of a block have come to: the key that leads, and by how many votes.
#[derive(Clone, Copy)]
struct Ballot {
    // the key that leads
    key: Ref,
    // by how many votes it leads
    votes: u32,
}

// No vote was given yet.
const BLANK: Ballot = Ballot {
    key: Ref::Leaf(0),
    votes: 0,
};

// Chooses the witnesses of the blocks that are listed in full.
pub(crate) fn choose(
    alloc: Global,
    blocks: &[u32],
    witness: &mut [u32],
    full: &SparseSet,
    listed: &[Keyed],
) -> Result<(), AllocError>
    requires numbers { (state : ℕ) → state < length blocks.now → block_of blocks.now state < length witness.old }
    requires states { All (λ keyed. keyed.state < length blocks.now) listed.now }
    ensures { OnOk result (IsChosen blocks.now full.now witness.old witness.new) }
{
    let mut ballots = vec![in alloc; BLANK; full.len()]?;
    for keyed in listed {
        vote(blocks, witness, full, &mut ballots, *keyed);
    }
    Ok(())
}

// The vote of a state for its key. Where no key leads in its block, the state becomes the witness.
fn vote(blocks: &[u32], witness: &mut [u32], full: &SparseSet, ballots: &mut [Ballot], keyed: Keyed)
    requires state { keyed.state < length blocks.now }
    requires number { block_of blocks.now keyed.state < length witness.old }
    ensures { IsChosen blocks.now full.now witness.old witness.new }
{
    let block = blocks[keyed.state as usize];
    let Some(place) = full.place_of(block) else {
        return;
    };
    if !takes_over(ballots, place, keyed.key) {
        return;
    }
    witness[block as usize] = keyed.state;
}

// Counts a vote for a key, and says whether no other led.
fn takes_over(ballots: &mut [Ballot], place: usize, key: Ref) -> bool {
    if place >= ballots.len() {
        return false;
    }
    let before = ballots[place];
    if before.votes == 0 {
        ballots[place] = Ballot { key, votes: 1 };
        return true;
    }
    let votes = if before.key == key {
        before.votes.saturating_add(1)
    } else {
        before.votes - 1
    };
    ballots[place] = Ballot {
        key: before.key,
        votes,
    };
    false
}
