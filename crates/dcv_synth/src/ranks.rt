// The ranks of an automaton's states, round by round: in each round one letter more may be played (the attractor of the states that reject,
// as W. Thomas has it, 1995). A round looks only at the rows that lead to states that the round before has beaten.
ghost use Rattle.std.specs.Prelude.{◌≡◌, ◌≢◌, ◌↔◌, ◌-◌, ◌<◌, ◌≤◌, ℕ, suc, None, length, IfOk, OnOk, IsTrue, Contains};
ghost use Rattle.std.specs.List.{All, range_with_len};
ghost use Rattle.dcv_language.specs.Limits.{most_states};
ghost use Rattle.dcv_dfa.specs.Raw.{automaton_of, IsRaw};
ghost use Rattle.dcv_refinement.specs.Leads.{index_of};
ghost use Rattle.dcv_synth.specs.Winning.{IsWin, is_held, is_beaten};
ghost use Rattle.dcv_synth.specs.Ranked.{rank_at, AreRanked, win_by, IsRankedWithin, AreRankedWithin, lost_within, IsStanding, HasForced};
ghost use Rattle.dcv_synth.specs.Ranked.{IsJustNew, AreNew, IsDecided, AreUnranked};

use crate::forcing::Forcing;
use dcv_dfa::Auto;
use dcv_refinement::{Above, Index};
use dcv_word::Letter;
use std::alloc::{AllocError, Global};

// The rank of a state, and its move.
#[derive(Clone, Copy)]
pub(crate) struct Ranked {
    // within how many instants the environment can force a fault
    pub(crate) rank: u32,
    // what it gives first
    pub(crate) input: Letter,
}

// For each state its rank, where it has one. The states that accept and have none are those from which a controller holds out for ever.
pub(crate) fn ranks(
    alloc: Global,
    auto: &Auto,
    inputs: u8,
) -> Result<Vec<Option<Ranked>>, AllocError>
    requires inputs { inputs ≤ auto.now.arena.slots }
    requires few { length auto.now.rows ≤ most_states }
    ensures ranks { IfOk result (λ ranks. AreRanked inputs (auto.now.arena.slots - inputs) (automaton_of auto.now) (length auto.now.rows) ranks.items) }
    ensures win { IfOk result (λ ranks. IsWin inputs (auto.now.arena.slots - inputs) (automaton_of auto.now) (win_by (automaton_of auto.now) ranks.items)) }
    ensures held { IfOk result (λ ranks. (state : ℕ) → state < length auto.now.rows → rank_at ranks.items state ≡ None
        → IsTrue (is_held inputs (auto.now.arena.slots - inputs) (automaton_of auto.now) (win_by (automaton_of auto.now) ranks.items) state)) }
{
    let index = Index::new(alloc, auto.arena(), auto.raw().rows())?;
    let mut found = Above::new(alloc);
    let mut standing = Standing::at_first(alloc, auto, inputs)?;
    'rounds: while !standing.beaten.is_empty() {
        standing.advance(alloc, auto, &index, &mut found)?;
    }
    Ok(standing.ranks)
}

// What is known within one letter more than the bound.
#[derive(Drop)]
struct Standing<'a> {
    // the bound
    bound: u32,
    // What is forced while those states are lost that reject, or are beaten within the bound.
    forcing: Forcing<'a>,
    // For each state its rank, where that is no more than one above the bound.
    ranks: Vec<Option<Ranked>>,
    // The states that accept and have the rank above the bound.
    beaten: Vec<u32>,
}

// The entry of a state.
pub(crate) fn rank_of(ranks: &[Option<Ranked>], state: u32) -> Option<Ranked>
    ensures { result ≡ rank_at ranks.now state }
{
    ranks.get(state as usize).copied().unwrap_or(None)
}

impl<'a> Standing<'a> {
    // Within one letter those states are beaten whose inputs force a state that rejects.
    fn at_first(alloc: Global, auto: &'a Auto, inputs: u8) -> Result<Standing<'a>, AllocError>
        requires { inputs ≤ auto.now.arena.slots }
        ensures bound { IfOk result (λ first. first.bound ≡ 0) }
        ensures inputs { IfOk result (λ first. first.forcing.inputs ≡ inputs) }
        ensures standing { IfOk result (λ first. IsStanding auto.now 0 first.forcing first.ranks.items first.beaten.items) }
    {
        let lost = rejecting(alloc, auto)?;
        let forcing = Forcing::new(alloc, auto.arena(), inputs, lost)?;
        let mut ranks = vec![in alloc; None; auto.states() as usize]?;
        let all = all_states(alloc, auto)?;
        let beaten = rank_each(alloc, auto, &forcing, 0, &all, &mut ranks)?;
        Ok(Standing {
            bound: 0,
            forcing,
            ranks,
            beaten,
        })
    }
}

impl Standing<'_> {
    // The same within one letter more.
    fn advance(
        &mut self,
        alloc: Global,
        auto: &Auto,
        index: &Index<'_>,
        found: &mut Above,
    ) -> Result<(), AllocError>
        requires bound { self.old.bound ≤ most_states }
        requires index { index.now ≡ index_of auto.now.arena auto.now.rows }
        requires standing { IsStanding auto.now self.old.bound self.old.forcing self.old.ranks.items self.old.beaten.items }
        ensures bound { OnOk result (self.new.bound ≡ suc self.old.bound) }
        ensures inputs { OnOk result (self.new.forcing.inputs ≡ self.old.forcing.inputs) }
        ensures standing { OnOk result (IsStanding auto.now (suc self.old.bound) self.new.forcing self.new.ranks.items self.new.beaten.items) }
    {
        index.above(&self.beaten, found)?;
        self.forcing
            .lose(alloc, &self.beaten, found.nodes.as_slice())?;
        self.bound += 1;
        self.beaten = rank_each(
            alloc,
            auto,
            &self.forcing,
            self.bound,
            &found.rows,
            &mut self.ranks,
        )?;
        Ok(())
    }
}

// For each state whether it rejects.
fn rejecting(alloc: Global, auto: &Auto) -> Result<Vec<bool>, AllocError>
    ensures { IfOk result (λ lost. (n m : ℕ) → lost.items ≡ lost_within n m (automaton_of auto.now) (length auto.now.rows) 0) }
{
    let mut lost = Vec::new(alloc);
    for state in 0..auto.states() {
        lost.push(!auto.accepting(state))?;
    }
    Ok(lost)
}

fn all_states(alloc: Global, auto: &Auto) -> Result<Vec<u32>, AllocError>
    ensures { IfOk result (λ states. states.items ≡ range_with_len 0 (length auto.now.rows)) }
{
    let mut states = Vec::new(alloc);
    for state in 0..auto.states() {
        states.push(state)?;
    }
    Ok(states)
}

// Ranks those of the states that are beaten within one letter more than the bound, and gives those of them that accept.
fn rank_each(
    alloc: Global,
    auto: &Auto,
    forcing: &Forcing,
    bound: u32,
    looked: &[u32],
    ranks: &mut [Option<Ranked>],
) -> Result<Vec<u32>, AllocError>
    requires few { bound ≤ 32001 }
    requires forced { HasForced auto.now bound forcing.now }
    requires looked { All (λ state. state < length auto.now.rows) looked.now }
    requires others { AreUnranked forcing.now.inputs (auto.now.arena.slots - forcing.now.inputs) (automaton_of auto.now) (length auto.now.rows) bound looked.now }
    requires ranks { AreRankedWithin forcing.now.inputs (auto.now.arena.slots - forcing.now.inputs) (automaton_of auto.now)
        (length auto.now.rows) bound ranks.old }
    ensures ranks { OnOk result (AreRankedWithin forcing.now.inputs (auto.now.arena.slots - forcing.now.inputs) (automaton_of auto.now)
        (length auto.now.rows) (suc bound) ranks.new) }
    ensures beaten { IfOk result (λ beaten. AreNew forcing.now.inputs (auto.now.arena.slots - forcing.now.inputs) (automaton_of auto.now) bound beaten.items) }
{
    let mut beaten = Vec::new(alloc);
    for state in looked {
        if rank_one(auto, forcing, bound, *state, ranks) {
            beaten.push(*state)?;
        }
    }
    Ok(beaten)
}

// Ranks a state if it has no rank and is beaten within one letter more than the bound, and says whether it is so and accepts.
fn rank_one(
    auto: &Auto,
    forcing: &Forcing,
    bound: u32,
    state: u32,
    ranks: &mut [Option<Ranked>],
) -> bool
    requires few { bound ≤ 32001 }
    requires state { state < length auto.now.rows }
    requires forced { HasForced auto.now bound forcing.now }
    requires count { length ranks.old ≡ length auto.now.rows }
    requires before { IsDecided forcing.now.inputs (auto.now.arena.slots - forcing.now.inputs) (automaton_of auto.now) bound state (rank_at ranks.old state) }
    ensures count { length ranks.new ≡ length ranks.old }
    ensures others { (other : ℕ) → other ≢ state → rank_at ranks.new other ≡ rank_at ranks.old other }
    ensures own { IsRankedWithin forcing.now.inputs (auto.now.arena.slots - forcing.now.inputs) (automaton_of auto.now) (suc bound) state (rank_at ranks.new state) }
    ensures result { IsTrue result ↔ IsJustNew forcing.now.inputs (auto.now.arena.slots - forcing.now.inputs) (automaton_of auto.now) bound state (rank_at ranks.old state) }
{
    let row = auto.row(state);
    if ranks[state as usize].is_some() {
        return false;
    }
    if !forcing.is_forced(row) {
        return false;
    }
    ranks[state as usize] = Some(Ranked {
        rank: bound + 1,
        input: forcing.least_input(row),
    });
    auto.accepting(state)
}
