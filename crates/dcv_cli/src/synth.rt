// The command that asks for a controller which keeps to the requirement of a formula file.
ghost use Rattle.std.specs.Prelude.{◌≡◌, ◌≤◌, ◌<◌, ◌-◌, ◌∷◌, [], ℕ, length, take, IfOk, IsTrue};
ghost use Rattle.std.specs.List.{flat_map};
ghost use Rattle.dcv_io.specs.Putting.{Puts};
ghost use Rattle.dcv_language.specs.Language.{Language};
ghost use Rattle.dcv_language.specs.Limits.{most_nodes};
ghost use Rattle.dcv_dfa.specs.Raw.{automaton_of};
ghost use Rattle.dcv_build.specs.Budget.{IsAutomatonOf};
ghost use Rattle.dcv_automaton_file.specs.File.{texts_of};
ghost use Rattle.dcv_synth.specs.Control.{IsControlOf};
ghost use Rattle.dcv_cli.specs.ReadFile.{CanBePrinted};
ghost use Rattle.dcv_cli.specs.Synthesis.{can_be_divided as can_be_divided_so, move_line, strategy_text, IsSynthesis};
ghost use Rattle.dcv_cli.specs.Synthesised.{status_of_synthesis, synthesised};

use crate::command::FormulaCommand;
use crate::faults::FormulaFault;
use crate::formula_file::FormulaFile;
use crate::refusal::Refusal;
use crate::refused::{Ended, Which};
use crate::reply::{Reply, reply_with};
use crate::status::Status;
use dcv_build::Built;
use dcv_c::laws::texts_spell_units;
use dcv_c::{CUnit, put as put_unit};
use dcv_explore::Limits;
use dcv_io::{Sink, Target, put_pieces};
use dcv_print::put_letter;
use dcv_syntax::Name;
use dcv_synth::laws::{
    answers_are_of_tables, controls_win, least_lines_are_one, strategies_beat,
    winners_of_same_behaviours,
};
use dcv_synth::{Control, Move, Outcome, Strategy, synth};
use itoa::Buffer;
use std::alloc::{AllocError, Global};

// The most outputs that a controller has.
const MOST_OUTPUTS: u64 = 8;

/// What is found for a requirement of which some variables are inputs.
#[derive(Drop)]
pub(crate) enum Synthesis {
    /// A controller that wins.
    Controller(CUnit),
    /// How the inputs beat every controller.
    Strategy(Strategy),
}

/// Finds a controller for a requirement of which so many variables are inputs, or how these beat every controller.
#[derive(Clone, Copy)]
pub(crate) struct Synthesiser {
    /// How many of the variables are inputs.
    pub inputs: u32,
    /// How large a step may be.
    pub limits: Limits,
}

impl FormulaCommand for Synthesiser {
    ghost use Rattle.dcv_command.specs.Request.{AreInputsInRange};
    ghost use Rattle.dcv_cli.specs.Synthesis.{IsSynthesised};

    ghost fits = { λ asked. AreInputsInRange asked.inputs asked.limits };

    ghost right = { λ asked. IsSynthesised asked.inputs asked.limits };

    fn answer<O: Sink>(&self, alloc: Global, formula: &FormulaFile, out: &mut O) -> Ended {
        if !can_be_divided(self.inputs, formula.names()) {
            return Err(Refusal::Formula(FormulaFault::Outputs).of(Which::Only));
        }
        let built = formula.build(alloc, self.limits)?;
        let found = synthesise(alloc, formula.names(), &built, self.inputs as u8)?;
        reply_with(&found, found.status(), out)
    }
}

// Whether there are as many variables as inputs, and no more outputs than a controller may have.
fn can_be_divided(inputs: u32, names: &[Name]) -> bool
    ensures { result ≡ can_be_divided_so inputs (length names.now) }
{
    let variables = names.len() as u64;
    u64::from(inputs) <= variables && variables <= u64::from(inputs) + MOST_OUTPUTS
}

// The controller, or the strategy, of the automaton.
fn synthesise(
    alloc: Global,
    names: &[Name],
    built: &Built,
    inputs: u8,
) -> Result<Synthesis, AllocError>
    requires printable { CanBePrinted names.now built.now }
    requires divided { IsTrue (can_be_divided_so inputs (length names.now)) }
    ensures { (k : ℕ) (L : Language) → IsAutomatonOf k L built.now.auto
        → IfOk result (λ found. IsSynthesis inputs (k - inputs) L (take inputs (texts_of names.now)) (synthesised found)) }
{
    answers_are_of_tables();
    strategies_beat();
    winners_of_same_behaviours();
    // for the prover: what is true of every canonical automaton.
    let _ = built.auto.states();
    match synth(alloc, &built.auto, inputs)? {
        Outcome::Controller(control) => controller(alloc, names, built, inputs, &control),
        Outcome::Strategy(strategy) => Ok(Synthesis::Strategy(strategy)),
    }
}

// The controller as a unit of the subset of C, by the names of the inputs.
fn controller(
    alloc: Global,
    names: &[Name],
    built: &Built,
    inputs: u8,
    control: &Control,
) -> Result<Synthesis, AllocError>
    requires printable { CanBePrinted names.now built.now }
    requires inputs { inputs ≤ built.now.auto.arena.slots }
    requires control { IsControlOf inputs (built.now.auto.arena.slots - inputs) (automaton_of built.now.auto) control.now }
    requires next_nodes { length control.now.next.arena.nodes ≤ most_nodes }
    requires output_nodes { length control.now.output.arena.nodes ≤ most_nodes }
    ensures { (k : ℕ) (L : Language) → IsAutomatonOf k L built.now.auto
        → IfOk result (λ found. IsSynthesis inputs (k - inputs) L (take inputs (texts_of names.now)) (synthesised found)) }
{
    answers_are_of_tables();
    controls_win();
    winners_of_same_behaviours();
    least_lines_are_one();
    texts_spell_units();
    // for the prover: what is true of every canonical automaton, and of every controller.
    let _ = built.auto.states();
    let _ = control.states().len();
    let unit = control.unit(alloc, &names[..inputs as usize])?;
    // for the prover: what is true of every unit.
    unit.keeps_the_rules();
    Ok(Synthesis::Controller(unit))
}

impl Synthesis {
    fn status(&self) -> Status
        ensures { result ≡ status_of_synthesis self.now }
    {
        match self {
            Synthesis::Controller(_) => Status::Valid,
            Synthesis::Strategy(_) => Status::NotValid,
        }
    }
}

impl Reply for Synthesis {
    ghost use Rattle.dcv_cli.specs.Synthesised.{synthesis_text};

    ghost text = { synthesis_text };

    fn put<T: Target>(&self, target: &mut T) {
        match self {
            Synthesis::Controller(unit) => {
                target.put(b"realisable\n");
                put_unit(unit, target);
            }
            Synthesis::Strategy(strategy) => put_strategy(target, strategy),
        }
    }
}

// The lines of a strategy.
fn put_strategy<T: Target>(target: &mut T, strategy: &Strategy)
    ensures { Puts (T.standing target.old) (T.standing target.new) (strategy_text strategy.now) }
{
    let mut digits = Buffer::new();
    put_pieces(
        target,
        &[
            b"unrealisable\nbound ",
            digits.format(strategy.bound).as_bytes(),
            b"\n",
        ],
    );
    put_moves(target, &strategy.moves);
    target.put(b"end\n");
}

// A line for each move.
fn put_moves<T: Target>(target: &mut T, moves: &[Move])
    ensures { Puts (T.standing target.old) (T.standing target.new) (flat_map move_line moves.now) }
{
    for one in moves {
        put_move(target, *one);
    }
}

// What is picked in a state.
fn put_move<T: Target>(target: &mut T, one: Move)
    ensures { Puts (T.standing target.old) (T.standing target.new) (move_line one) }
{
    let (mut state, mut rank) = (Buffer::new(), Buffer::new());
    put_pieces(
        target,
        &[
            b"state ",
            state.format(one.state).as_bytes(),
            b" rank ",
            rank.format(one.rank).as_bytes(),
            b" input ",
        ],
    );
    put_letter(target, one.input);
    target.put(b"\n");
}
