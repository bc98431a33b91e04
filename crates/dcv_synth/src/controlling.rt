// The controller of least outputs, where the start can be held.
ghost use Rattle.std.specs.Prelude.{◌≡◌, ◌<◌, ◌≤◌, ◌-◌, ◌+◌, ◌++◌, ◌∷◌, [], ℕ, length, IfOk, OnOk, IsTrue, if◌then◌else◌};
ghost use Rattle.std.specs.List.{filter, range_with_len};
ghost use Rattle.dcv_language.specs.Limits.{most_states};
ghost use Rattle.dcv_dfa.specs.Auto.{count_of_nodes};
ghost use Rattle.dcv_dfa.specs.Raw.{automaton_of};
ghost use Rattle.dcv_synth.specs.Winning.{IsWin, is_held};
ghost use Rattle.dcv_synth.specs.Ranked.{win_by};
ghost use Rattle.dcv_synth.specs.Answered.{won_at};
ghost use Rattle.dcv_synth.specs.Control.{IsControlOf};
ghost use Rattle.dcv_synth.specs.Listing.{starts_or_wins};

use crate::answers::Answers;
use crate::control::Control;
use crate::merging::{Part, rows_of};
use crate::ranks::{Ranked, rank_of};
use dcv_dfa::Auto;
use std::alloc::{AllocError, Global};

// The controller for these ranks.
pub(crate) fn control(
    alloc: Global,
    auto: &Auto,
    inputs: u8,
    ranks: &[Option<Ranked>],
) -> Result<Control, AllocError>
    requires inputs { inputs ≤ auto.now.arena.slots }
    requires outputs { auto.now.arena.slots ≤ inputs + 8 }
    requires few { length auto.now.rows ≤ most_states }
    requires count { length ranks.now ≡ length auto.now.rows }
    requires win { IsWin inputs (auto.now.arena.slots - inputs) (automaton_of auto.now) (win_by (automaton_of auto.now) ranks.now) }
    requires held { IsTrue (is_held inputs (auto.now.arena.slots - inputs) (automaton_of auto.now) (win_by (automaton_of auto.now) ranks.now) auto.now.start) }
    ensures control { IfOk result (IsControlOf inputs (auto.now.arena.slots - inputs) (automaton_of auto.now)) }
    ensures next_nodes { IfOk result (λ control. length control.next.arena.nodes ≤ count_of_nodes auto.now) }
    ensures output_nodes { IfOk result (λ control. length control.output.arena.nodes ≤ count_of_nodes auto.now) }
{
    // for the prover: what is true of every automaton.
    let _states = auto.states();
    let win = win_of(alloc, auto, ranks)?;
    let states = states_of(alloc, auto, &win)?;
    let answers = Answers::new(alloc, auto.arena(), &win)?;
    let next = rows_of(alloc, auto, inputs, &answers, Part::Next, &states)?;
    let output = rows_of(alloc, auto, inputs, &answers, Part::Output, &states)?;
    Ok(Control::new(states, next, output))
}

// For each state whether it is in Win: it accepts, and has no rank.
fn win_of(alloc: Global, auto: &Auto, ranks: &[Option<Ranked>]) -> Result<Vec<bool>, AllocError>
    requires { length ranks.now ≡ length auto.now.rows }
    ensures { IfOk result (λ win. (state : ℕ) → won_at win.items state ≡ win_by (automaton_of auto.now) ranks.now state) }
{
    let mut win = Vec::new(alloc);
    for state in 0..auto.states() {
        win.push(is_won(auto, ranks, state))?;
    }
    Ok(win)
}

fn is_won(auto: &Auto, ranks: &[Option<Ranked>], state: u32) -> bool
    requires { state < length auto.now.rows }
    ensures { result ≡ win_by (automaton_of auto.now) ranks.now state }
{
    auto.accepting(state) && rank_of(ranks, state).is_none()
}

// The start, and the states of Win.
fn states_of(alloc: Global, auto: &Auto, win: &[bool]) -> Result<Vec<u32>, AllocError>
    ensures { IfOk result (λ states. states.items ≡ filter (starts_or_wins auto.now.start win.now) (range_with_len 0 (length auto.now.rows))) }
{
    let start = auto.raw().start();
    let mut states = Vec::new(alloc);
    for state in 0..auto.states() {
        add(&mut states, state, is_kept(start, win, state))?;
    }
    Ok(states)
}

fn is_kept(start: u32, win: &[bool], state: u32) -> bool
    ensures { result ≡ starts_or_wins start win.now state }
{
    state == start || win.get(state as usize).copied().unwrap_or(false)
}

fn add(states: &mut Vec<u32>, state: u32, kept: bool) -> Result<(), AllocError>
    ensures { OnOk result (states.new.items ≡ states.old.items ++ (if kept then state ∷ [] else [])) }
{
    if kept {
        states.push(state)?;
    }
    Ok(())
}
