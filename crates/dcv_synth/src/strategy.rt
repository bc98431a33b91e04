// The environment's strategy as a table of moves.
ghost use Rattle.std.specs.Prelude.{◌≡◌, ◌<◌, ℕ, length, IfOk, OnOk};
ghost use Rattle.dcv_dfa.specs.Raw.{automaton_of};
ghost use Rattle.dcv_synth.specs.Ranked.{IsRanked, AreRanked};
ghost use Rattle.dcv_synth.specs.Moves.{AreMoves};
ghost use Rattle.dcv_synth.specs.Listing.{AreMovesBelow, IsMoveAt, with_move};

use crate::ranks::Ranked;
use dcv_dfa::Auto;
use dcv_word::Letter;
use std::alloc::{AllocError, Global};

/// How the environment beats every controller: it plays the moves of the states that the letters lead to.
#[derive(Drop)]
pub struct Strategy {
    /// Within how many letters: the rank of the start.
    pub bound: u32,
    /// The moves of the start and of the states that accept and have a rank, in the order of the states.
    pub moves: Vec<Move>,
}

/// What the environment picks in a state.
#[derive(Clone, Copy)]
pub struct Move {
    /// The state in which it is made.
    pub state: u32,
    /// Within how many letters a word is rejected, whatever the outputs are.
    pub rank: u32,
    /// The least inputs by which that is so.
    pub input: Letter,
}

// The moves by these ranks.
pub(crate) fn moves(
    alloc: Global,
    auto: &Auto,
    ranks: &[Option<Ranked>],
) -> Result<Vec<Move>, AllocError>
    requires { length ranks.now ≡ length auto.now.rows }
    ensures { IfOk result (λ moves. (n m : ℕ) → AreRanked n m (automaton_of auto.now) (length auto.now.rows) ranks.now
        → AreMoves n m (automaton_of auto.now) moves.items) }
{
    let mut moves = Vec::new(alloc);
    for state in 0..auto.states() {
        add(&mut moves, move_at(auto, state, ranks[state as usize]))?;
    }
    Ok(moves)
}

// The move of a state that has this rank, or none.
fn move_at(auto: &Auto, state: u32, rank: Option<Ranked>) -> Option<Move>
    requires { state < length auto.now.rows }
    ensures { (n m : ℕ) → IsRanked n m (automaton_of auto.now) state rank → IsMoveAt n m (automaton_of auto.now) state result }
{
    if state != auto.raw().start() && !auto.accepting(state) {
        return None;
    }
    let ranked = rank?;
    Some(Move {
        state,
        rank: ranked.rank,
        input: ranked.input,
    })
}

fn add(moves: &mut Vec<Move>, found: Option<Move>) -> Result<(), AllocError>
    ensures { OnOk result (moves.new.items ≡ with_move moves.old.items found) }
{
    if let Some(found) = found {
        moves.push(found)?;
    }
    Ok(())
}
