// Which of the two wins from the start of an automaton, and how.
ghost use Rattle.std.specs.Prelude.{◌≡◌, ◌↔◌, ◌<◌, ◌≤◌, ◌-◌, ◌+◌, ℕ, length, None, IfOk, IfSome, IfNone, IsTrue};
ghost use Rattle.dcv_language.specs.Limits.{most_states};
ghost use Rattle.dcv_dfa.specs.Auto.{count_of_nodes};
ghost use Rattle.dcv_dfa.specs.Raw.{automaton_of, raw_accepts};
ghost use Rattle.dcv_synth.specs.Game.{Wins, Beats};
ghost use Rattle.dcv_synth.specs.Play.{environment_of};
ghost use Rattle.dcv_synth.specs.Winning.{IsWin, is_held};
ghost use Rattle.dcv_synth.specs.Ranked.{rank_at, AreRanked, win_by};
ghost use Rattle.dcv_synth.specs.Moves.{input_at};
ghost use Rattle.dcv_synth.specs.Realisable.{IsRealisable};
ghost use Rattle.dcv_synth.specs.Control.{IsControlOf, controller_by};
ghost use Rattle.dcv_synth.specs.Outcome.{IsUnrealisable, is_controller, IfController, IfStrategy};

use crate::control::Control;
use crate::controlling::control;
use crate::laws::{controls_win, least_moves_beat, one_side_is_right};
use crate::ranks::{Ranked, rank_of, ranks};
use crate::strategy::{Strategy, moves};
use dcv_dfa::Auto;
use std::alloc::{AllocError, Global};

/// What is found for a requirement.
#[derive(Drop)]
pub enum Outcome {
    /// A controller that wins.
    Controller(Control),
    /// A strategy by which the environment beats every controller.
    Strategy(Strategy),
}

/// A controller that wins, or else the strategy by which the environment beats every controller. The first `inputs` variables are the
/// environment's, the others the controller's. A controller wins if every behaviour that it makes is accepted.
pub fn synth(alloc: Global, auto: &Auto, inputs: u8) -> Result<Outcome, AllocError>
    requires inputs { inputs ≤ auto.now.arena.slots }
    requires outputs { auto.now.arena.slots ≤ inputs + 8 }
    requires few { length auto.now.rows ≤ most_states }

    // There is a controller exactly where each first input can be answered by an output that leads into Win.
    ensures realisable { IfOk result (λ outcome. IsTrue (is_controller outcome) ↔ IsRealisable inputs (auto.now.arena.slots - inputs) (automaton_of auto.now)) }

    // It is the one of least outputs, and the strategy is the one of the ranks and of least inputs.
    ensures controller { IfOk result (λ outcome. IfController outcome (IsControlOf inputs (auto.now.arena.slots - inputs) (automaton_of auto.now))) }
    ensures strategy { IfOk result (λ outcome. IfStrategy outcome (IsUnrealisable inputs (auto.now.arena.slots - inputs) (automaton_of auto.now))) }

    // The controller wins. Whoever plays the moves beats every controller within the bound.
    ensures wins { IfOk result (λ outcome. IfController outcome (λ control.
        Wins inputs (auto.now.arena.slots - inputs) (raw_accepts auto.now) (controller_by (auto.now.arena.slots - inputs) control))) }
    ensures beats { IfOk result (λ outcome. IfStrategy outcome (λ strategy. Beats inputs (auto.now.arena.slots - inputs) (raw_accepts auto.now)
        (environment_of (automaton_of auto.now) (input_at inputs strategy.moves.items)) strategy.bound)) }

    // Its diagrams have no more nodes than the automaton.
    ensures next_nodes { IfOk result (λ outcome. IfController outcome (λ control. length control.next.arena.nodes ≤ count_of_nodes auto.now)) }
    ensures output_nodes { IfOk result (λ outcome. IfController outcome (λ control. length control.output.arena.nodes ≤ count_of_nodes auto.now)) }
{
    controls_win();
    one_side_is_right();
    // for the prover: what is true of every automaton.
    let _states = auto.states();
    let ranks = ranks(alloc, auto, inputs)?;
    match winning_strategy(alloc, auto, inputs, &ranks)? {
        Some(strategy) => Ok(Outcome::Strategy(strategy)),
        None => Ok(Outcome::Controller(control(alloc, auto, inputs, &ranks)?)),
    }
}

// The strategy by the ranks, where the start has one.
fn winning_strategy(
    alloc: Global,
    auto: &Auto,
    inputs: u8,
    ranks: &[Option<Ranked>],
) -> Result<Option<Strategy>, AllocError>
    requires { AreRanked inputs (auto.now.arena.slots - inputs) (automaton_of auto.now) (length auto.now.rows) ranks.now }
    ensures strategy { IfOk result (λ found. IfSome found (IsUnrealisable inputs (auto.now.arena.slots - inputs) (automaton_of auto.now))) }
    ensures none { IfOk result (λ found. IfNone found (rank_at ranks.now auto.now.start ≡ None)) }
    ensures beats { IfOk result (λ found. IfSome found (λ strategy. Beats inputs (auto.now.arena.slots - inputs) (raw_accepts auto.now)
        (environment_of (automaton_of auto.now) (input_at inputs strategy.moves.items)) strategy.bound)) }
{
    least_moves_beat();
    let start = auto.raw().start();
    let Some(ranked) = rank_of(ranks, start) else {
        return Ok(None);
    };
    let moves = moves(alloc, auto, ranks)?;
    Ok(Some(Strategy {
        bound: ranked.rank,
        moves,
    }))
}
