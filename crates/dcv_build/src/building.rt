// The steps of a core, built one after another. A step takes the automata of its operands from the end of those that wait, and its own
// waits in their place. That of the last operator goes on no shelf: it is minimised and turned where it is by the `!` after it, or
// handed out as it is, where a verdict is all that is asked.
ghost use Rattle.std.specs.Prelude.{◌≡◌, ◌<◌, ◌≤◌, ◌+◌, [], ℕ, false, length, IfOk, IfErr, OnOk};
ghost use Rattle.dcv_atoms.specs.AtomRows.{atom_machine};
ghost use Rattle.dcv_atoms.specs.Parts.{atom_nodes};
ghost use Rattle.dcv_atoms.specs.Steps.{IsAtom};
ghost use Rattle.dcv_core.specs.Core.{CoreTree, PlainBasic};
ghost use Rattle.dcv_core.specs.Steps.{OpNot, steps_of};
ghost use Rattle.dcv_dfa.specs.Raw.{RawValue};
ghost use Rattle.dcv_explore.specs.declared.explorer.Limits.{Limits as AnyLimits};
ghost use Rattle.dcv_shelf.specs.Shelf.{KeepsNumbers};
ghost use Rattle.dcv_build.specs.Asked.{tables_at, AreThere};
ghost use Rattle.dcv_build.specs.Budget.{IsFaultOver};
ghost use Rattle.dcv_build.specs.Building.{IsBuilding, ForTree, Goes, GoesWith, Makes, IsGoal, IsExploredGoal, IsVerdictGoal, DecidesStep, IsNoted};
ghost use Rattle.dcv_build.specs.Tasks.{Here, TurnFrom, IsNoComplement};
ghost use Rattle.dcv_build.specs.Settled.{Answers, Settles};
ghost use Rattle.dcv_build.specs.Given.{IsCoreOf, IsCore};

use crate::asked::Answer;
use crate::faults::BuildFault;
use crate::known::Known;
use crate::operations;
use crate::settling::{Explored, least};
use crate::tasks::{Task, task_of};
use dcv_atoms::laws::machines_accept_steps as atoms_accept_steps;
use dcv_core::Core;
use dcv_dfa::Auto;
use dcv_explore::Limits;
use dcv_language::Count;
use dcv_language::laws::one_canonical_table;
use std::alloc::{AllocError, Global};

// What a build has so far: the numbers of the automata that wait, on the shelf of what is known, and the count of each step.
#[derive(Drop)]
pub(crate) struct Building {
    // where automata are allocated
    alloc: Global,
    // the automata so far, and which operators gave them
    known: Known,
    // the numbers of the automata that wait for their operator, the newest last
    waiting: Vec<u32>,
    // what each step so far took
    counts: Vec<Count>,
}

// Automata that wait, on another shelf.
#[derive(Drop)]
struct Moved {
    // the automata, on a new shelf
    known: Known,
    // their numbers there
    waiting: Vec<u32>,
}

impl Building {
    // Before the first step.
    pub(crate) fn new(alloc: Global, limits: Limits) -> Building
        ensures tables { result.known.tables ≡ [] }
        ensures limits { result.known.limits ≡ limits }
        ensures waiting { result.waiting.items ≡ [] }
        ensures counts { result.counts.items ≡ [] }
    {
        Building {
            alloc,
            known: Known::new(alloc, limits, 0),
            waiting: Vec::new(alloc),
            counts: Vec::new(alloc),
        }
    }

    // How many explorations there were.
    pub(crate) fn explored(&self) -> u32 {
        self.known.explored()
    }

    // Builds the steps up to this one, which is no `!`, and gives an automaton for it.
    pub(crate) fn take_to(&mut self, core: &Core, last: u32) -> Result<Explored, BuildFault>
        requires core { IsCore core.now }
        requires last { last < length core.now.steps }
        requires operator { IsNoComplement core.now last }
        requires begun { IsBuilding core.now 0 self.old }
        ensures goal { IfOk result (λ explored. IsExploredGoal core.now self.old.known.limits (last + 1) explored.raw self.new.counts.items) }
        ensures over { (tree : CoreTree) → IsCoreOf tree core.now → IfErr result (IsFaultOver (steps_of core.now.declared tree) self.old.known.limits) }
    {
        self.take_steps(core, last)?;
        let explored = self.make(core, last)?;
        note(
            core,
            last,
            explored.states,
            explored.nodes,
            &mut self.counts,
        )?;
        Ok(explored)
    }

    // Builds the steps up to this one, which is no `!`, and gives an automaton with its verdict. Of this step nothing is counted.
    pub(crate) fn decide(&mut self, core: &Core, last: u32) -> Result<Explored, BuildFault>
        requires core { IsCore core.now }
        requires last { last < length core.now.steps }
        requires operator { IsNoComplement core.now last }
        requires begun { IsBuilding core.now 0 self.old }
        ensures { DecidesStep core.now self.old.known.limits last result }
    {
        atoms_accept_steps();
        self.take_steps(core, last)?;
        match task_of(core, last, &mut self.waiting) {
            Task::Atom => self.make_atom(core, last),
            Task::Complement(_) => unreachable!(),
            Task::Operator(asked) => self.known.decide(asked, last),
        }
    }

    // The canonical automaton of the last step, given what was explored for the one before this: from here on each is a complement.
    pub(crate) fn finish(
        &mut self,
        core: &Core,
        from: u32,
        explored: Explored,
    ) -> Result<Auto, AllocError>
        requires within { from ≤ length core.now.steps }
        requires turn { TurnFrom core.now from }
        ensures { (limits : AnyLimits) → IsExploredGoal core.now limits from explored.raw self.old.counts.items
            → IfOk result (λ auto. IsGoal core.now limits (length core.now.steps) auto self.new.counts.items) }
    {
        let made = least(self.alloc, explored)?;
        turn(core, from, made.auto, &mut self.counts)
    }

    // Builds the steps before this one.
    fn take_steps(&mut self, core: &Core, end: u32) -> Result<(), BuildFault>
        requires core { IsCore core.now }
        requires end { end ≤ length core.now.steps }
        requires begun { IsBuilding core.now 0 self.old }
        ensures limits { self.new.known.limits ≡ self.old.known.limits }
        ensures built { OnOk result (IsBuilding core.now end self.new) }
        ensures over { (tree : CoreTree) → IsCoreOf tree core.now → IfErr result (IsFaultOver (steps_of core.now.declared tree) self.old.known.limits) }
    {
        for step in 0..end {
            self.make_room()?;
            let answer = self.take_step(core, step)?;
            self.push(core, step, answer)?;
        }
        Ok(())
    }

    // An automaton for a step that is no `!`, where those before it are built. Its operands wait no more, and it goes on no shelf.
    fn make(&mut self, core: &Core, step: u32) -> Result<Explored, BuildFault>
        requires core { IsCore core.now }
        requires step { step < length core.now.steps }
        requires operator { IsNoComplement core.now step }
        requires built { IsBuilding core.now step self.old }
        ensures counts { self.new.counts ≡ self.old.counts }
        ensures makes { ForTree core.now (λ steps. Makes steps self.old.known.limits step
            (tables_at self.new.known.tables self.new.waiting.items) self.old.counts.items result) }
    {
        atoms_accept_steps();
        match task_of(core, step, &mut self.waiting) {
            Task::Atom => self.make_atom(core, step),
            Task::Complement(_) => unreachable!(),
            Task::Operator(asked) => self.known.make(asked, step),
        }
    }

    // The automaton of a form without a formula in it, which is explored always.
    fn make_atom(&mut self, core: &Core, step: u32) -> Result<Explored, BuildFault>
        requires { (basic : PlainBasic) × (slots : ℕ) × IsAtom core.now step basic slots }
        ensures known { self.new.known ≡ self.old.known }
        ensures waiting { self.new.waiting ≡ self.old.waiting }
        ensures counts { self.new.counts ≡ self.old.counts }
        ensures settles { (basic : PlainBasic) (slots : ℕ) → IsAtom core.now step basic slots
            → Settles (atom_machine slots basic) (atom_nodes slots basic) self.old.known.limits step result }
    {
        self.known.count();
        operations::atom(self.alloc, core, step, self.known.limits())
    }

    // What each step took.
    pub(crate) fn into_counts(self) -> Vec<Count>
        ensures { result ≡ self.counts }
    {
        self.counts
    }

    // The answer to a form without a formula in it, which is explored always.
    fn take_atom(&mut self, core: &Core, step: u32) -> Result<Answer, BuildFault>
        requires { (basic : PlainBasic) × (slots : ℕ) × IsAtom core.now step basic slots }
        ensures waiting { self.new.waiting ≡ self.old.waiting }
        ensures counts { self.new.counts ≡ self.old.counts }
        ensures limits { self.new.known.limits ≡ self.old.known.limits }
        ensures kept { KeepsNumbers self.old.known.tables self.new.known.tables }
        ensures answers { (basic : PlainBasic) (slots : ℕ) → IsAtom core.now step basic slots
            → Answers (atom_machine slots basic) (atom_nodes slots basic) self.old.known.limits step self.new.known.tables result }
    {
        let explored = operations::atom(self.alloc, core, step, self.known.limits())?;
        let made = least(self.alloc, explored)?;
        Ok(self.known.put(&made)?)
    }

    // The answer to a step, where those before it are built. Its operands wait no more.
    fn take_step(&mut self, core: &Core, step: u32) -> Result<Answer, BuildFault>
        requires core { IsCore core.now }
        requires step { step < length core.now.steps }
        requires built { IsBuilding core.now step self.old }
        ensures limits { self.new.known.limits ≡ self.old.known.limits }
        ensures counts { self.new.counts ≡ self.old.counts }
        ensures there { AreThere self.new.known.tables self.new.waiting.items }
        ensures number { IfOk result (λ answer. answer.number < length self.new.known.tables) }
        ensures goes { ForTree core.now (λ steps. Goes steps self.old.known.limits step (tables_at self.new.known.tables self.new.waiting.items) self.old.counts.items self.new.known.tables result) }
    {
        atoms_accept_steps();
        one_canonical_table();
        match task_of(core, step, &mut self.waiting) {
            Task::Atom => self.take_atom(core, step),
            Task::Complement(operand) => Ok(self.known.not(operand)?),
            Task::Operator(asked) => self.known.ask(asked, step),
        }
    }

    // What answers a step waits, and its counts are noted.
    fn push(&mut self, core: &Core, step: u32, answer: Answer) -> Result<(), AllocError>
        requires step { step < length core.now.steps }
        requires there { AreThere self.old.known.tables self.old.waiting.items }
        requires number { answer.number < length self.old.known.tables }
        requires goes { ForTree core.now (λ steps. GoesWith steps self.old.known.limits step (tables_at self.old.known.tables self.old.waiting.items) self.old.counts.items self.old.known.tables answer) }
        ensures limits { self.new.known.limits ≡ self.old.known.limits }
        ensures built { OnOk result (IsBuilding core.now (step + 1) self.new) }
    {
        self.waiting.push(answer.number)?;
        note(core, step, answer.states, answer.nodes, &mut self.counts)
    }

    // Where the shelf is full, what waits moves to a new one, and all else that is known goes with the old.
    fn make_room(&mut self) -> Result<(), AllocError>
        requires { AreThere self.old.known.tables self.old.waiting.items }
        ensures limits { self.new.known.limits ≡ self.old.known.limits }
        ensures counts { self.new.counts ≡ self.old.counts }
        ensures there { OnOk result (AreThere self.new.known.tables self.new.waiting.items) }
        ensures waiting { OnOk result (tables_at self.new.known.tables self.new.waiting.items ≡ tables_at self.old.known.tables self.old.waiting.items) }
    {
        if !self.known.is_full() {
            return Ok(());
        }
        let moved = move_on(self.alloc, &self.known, &self.waiting)?;
        self.known = moved.known;
        self.waiting = moved.waiting;
        Ok(())
    }
}

// The automata that wait, on a new shelf.
fn move_on(alloc: Global, known: &Known, waiting: &[u32]) -> Result<Moved, AllocError>
    requires { AreThere known.now.tables waiting.now }
    ensures limits { IfOk result (λ moved. moved.known.limits ≡ known.now.limits) }
    ensures there { IfOk result (λ moved. AreThere moved.known.tables moved.waiting.items) }
    ensures waiting { IfOk result (λ moved. tables_at moved.known.tables moved.waiting.items ≡ tables_at known.now.tables waiting.now) }
{
    let mut new = Known::new(alloc, known.limits(), known.explored());
    let mut numbers = Vec::new(alloc);
    for number in waiting {
        let auto = known.copy_out(*number)?;
        let moved = new.add(&auto)?;
        numbers.push(moved)?;
    }
    new.begin();
    Ok(Moved {
        known: new,
        waiting: numbers,
    })
}

// The automaton of the last step, given that of the step before this one: from here on each is the complement of the one before, with the
// states and nodes of its own machine.
fn turn(core: &Core, from: u32, first: Auto, counts: &mut Vec<Count>) -> Result<Auto, AllocError>
    requires within { from ≤ length core.now.steps }
    requires turn { TurnFrom core.now from }
    ensures { (limits : AnyLimits) → IsGoal core.now limits from first counts.old.items
        → IfOk result (λ last. IsGoal core.now limits (length core.now.steps) last counts.new.items) }
{
    let mut auto = first;
    for step in from..core.steps() {
        auto = turned(core, step, auto, counts)?;
    }
    Ok(auto)
}

// The automaton of a step, given that of the step before, of which it is the complement.
fn turned(core: &Core, step: u32, auto: Auto, counts: &mut Vec<Count>) -> Result<Auto, AllocError>
    requires step { step < length core.now.steps }
    requires turn { (operand : ℕ) × Here core.now step (OpNot operand) }
    ensures { (limits : AnyLimits) → IsGoal core.now limits step auto counts.old.items
        → IfOk result (λ turned. IsGoal core.now limits (step + 1) turned counts.new.items) }
{
    atoms_accept_steps();
    one_canonical_table();
    note(core, step, auto.states(), auto.nodes(), counts)?;
    Ok(auto.complement())
}

// The counts of a step are noted.
fn note(
    core: &Core,
    step: u32,
    states: u32,
    nodes: u32,
    counts: &mut Vec<Count>,
) -> Result<(), AllocError>
    requires { step < length core.now.steps }
    ensures { OnOk result (IsNoted core.now step states nodes counts.old.items counts.new.items) }
{
    counts.push(Count {
        at: core.span(step).start,
        states,
        nodes,
    })?;
    Ok(())
}

// Whether the last step is the complement of the one before this, given that from here on each is that of the one before.
pub(crate) fn is_complemented(core: &Core, from: u32) -> bool
    requires within { from ≤ length core.now.steps }
    requires turn { TurnFrom core.now from }
    ensures { (limits : AnyLimits) (raw : RawValue) → IsVerdictGoal core.now limits from raw false → IsVerdictGoal core.now limits (length core.now.steps) raw result }
{
    atoms_accept_steps();
    one_canonical_table();
    let mut complemented = false;
    for _step in from..core.steps() {
        complemented = !complemented;
    }
    complemented
}
