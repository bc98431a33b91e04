//! What the parts promise to a program that uses them by themselves.
ghost use Rattle.std.specs.Prelude.{◌≡◌, ◌↔◌, ◌++◌, ◌∷◌, [], ◌-◌, ◌+◌, ◌≤◌, ℕ, length, Err, IfOk, OnOk, IsTrue};
ghost use Rattle.dcv_word.specs.Behaviour.{Word};
ghost use Rattle.dcv_language.specs.Limits.{most_states};
ghost use Rattle.dcv_core.specs.Core.{CoreTree};
ghost use Rattle.dcv_core.specs.Holds.{words_of};
ghost use Rattle.dcv_core.specs.Steps.{steps_of};
ghost use Rattle.dcv_dfa.specs.Raw.{automaton_of, raw_accepts};
ghost use Rattle.dcv_explore.specs.Budget.{TooManyStates, TooManyNodes};
ghost use Rattle.dcv_build.specs.declared.faults.BuildFault.TheVariants.{States, Nodes};
ghost use Rattle.dcv_build.specs.Given.{IsCoreOf, IsCore};
ghost use Rattle.dcv_build.specs.Budget.{IsWithinBudget, IsOver, IsAutomatonOf};
ghost use Rattle.dcv_minimise.specs.Minimal.{IsMinimalOf};
ghost use Rattle.dcv_certify.specs.Certified.{HasFewestStates, HasGoodWords, WhereMinimal};
ghost use Rattle.dcv_synth.specs.Game.{Wins, Beats};
ghost use Rattle.dcv_synth.specs.Play.{environment_of};
ghost use Rattle.dcv_synth.specs.Moves.{input_at};
ghost use Rattle.dcv_synth.specs.Control.{controller_by};
ghost use Rattle.dcv_synth.specs.Outcome.{IfController, IfStrategy};
ghost use Rattle.dcv_replay.specs.Observer.{Observer, Accepts, Follows};

use dcv_automaton_read::AutoFile;
use dcv_build::BuildFault;
use dcv_certify::Answer;
use dcv_core::Core;
use dcv_dfa::{Auto, Raw};
use dcv_explore::Limits;
use dcv_replay::Replay;
use dcv_synth::Outcome;
use dcv_word::Letter;
use std::alloc::{AllocError, Global};

/// The automaton of a formula: the canonical one of the words that satisfy it, where each of its steps is within the limits; else the first
/// step that is not.
pub fn build(alloc: Global, core: &Core, limits: Limits) -> Result<Auto, BuildFault>
    requires { IsCore core.now }
    ensures canonical { (tree : CoreTree) → IsCoreOf tree core.now → IfOk result (IsAutomatonOf core.now.declared (words_of tree)) }
    ensures within { (tree : CoreTree) → IsCoreOf tree core.now → OnOk result (IsWithinBudget (steps_of core.now.declared tree) limits) }
    ensures first_over { (tree : CoreTree) (step limit : ℕ) → IsCoreOf tree core.now → result ≡ Err (States step limit)
        → (limit ≡ limits.states) × IsOver (steps_of core.now.declared tree) limits TooManyStates step }
    ensures first_over_nodes { (tree : CoreTree) (step limit : ℕ) → IsCoreOf tree core.now → result ≡ Err (Nodes step limit)
        → (limit ≡ limits.nodes) × IsOver (steps_of core.now.declared tree) limits TooManyNodes step }
{
    dcv_build::build(alloc, core, limits)
}

/// The canonical automaton of what an automaton accepts: no automaton for the same words has fewer states.
pub fn minimise(alloc: Global, raw: Raw) -> Result<Auto, AllocError>
    ensures minimal { IfOk result (IsMinimalOf raw) }
{
    dcv_minimise::minimise(alloc, raw)
}

/// An automaton's text whose words show that it has the fewest states: each state is reached by its access word, and no table automaton for
/// the same behaviours has fewer.
pub fn certify(alloc: Global, file: &AutoFile) -> Result<Answer, AllocError>
    ensures fewest { IfOk result (WhereMinimal (HasFewestStates file.now)) }
    ensures reached { IfOk result (WhereMinimal (HasGoodWords file.now)) }
{
    dcv_certify::certify(alloc, file)
}

/// A controller that wins against every environment, or moves of the environment that beat every controller within the bound.
pub fn synth(alloc: Global, auto: &Auto, inputs: u8) -> Result<Outcome, AllocError>
    requires inputs { inputs ≤ auto.now.arena.slots }
    requires outputs { auto.now.arena.slots ≤ inputs + 8 }
    requires few { length auto.now.rows ≤ most_states }
    ensures wins { IfOk result (λ outcome. IfController outcome (λ control.
        Wins inputs (auto.now.arena.slots - inputs) (raw_accepts auto.now) (controller_by (auto.now.arena.slots - inputs) control))) }
    ensures beats { IfOk result (λ outcome. IfStrategy outcome (λ strategy. Beats inputs (auto.now.arena.slots - inputs) (raw_accepts auto.now)
        (environment_of (automaton_of auto.now) (input_at inputs strategy.moves.items)) strategy.bound)) }
{
    dcv_synth::synth(alloc, auto, inputs)
}

/// An observer that is run: after each letter it answers whether it accepts the behaviour so far, and goes on from there.
pub fn step(replay: &mut Replay, letter: &Letter) -> bool
    requires { length letter.now ≡ replay.old.program.width }
    ensures accepts { (observer : Observer) (before : Word) → Follows observer before replay.old
        → IsTrue result ↔ Accepts observer (before ++ letter.now ∷ []) }
    ensures follows { (observer : Observer) (before : Word) → Follows observer before replay.old
        → Follows observer (before ++ letter.now ∷ []) replay.new }
{
    replay.step(letter)
}
