// What is known in a build: its automata, which share one shelf, and which of them answers an operator that was explored. So an operator
// is explored once for all steps that have it over the same tables of one shelf.
ghost use Rattle.std.specs.Prelude.{◌≡◌, ◌<◌, [], Bool, IsTrue, length, Some, slice_get, IfOk, IfSome};
ghost use Rattle.dcv_language.specs.OperationMachines.{pair_machine};
ghost use Rattle.dcv_explore.specs.Budget.{IsWithin};
ghost use Rattle.dcv_shelf.specs.Shelf.{ShelfTable, table_of_auto, KeepsNumbers};
ghost use Rattle.dcv_build.specs.Asked.{asked_row, at_number, plain_tables, AreTwo, AreOperands, SettlesAsked, ServesAsked, DecidesAsked, AnswersAsked, IsAnswer, IsRecalled, IsPut, IsTurned};
ghost use Rattle.dcv_build.specs.Rows.{pair_row, operand_at};

use crate::asked::{Answer, Asked};
use crate::bounds::cannot_exceed;
use crate::faults::BuildFault;
use crate::operations;
use crate::settling::{Explored, Extent, Made, least};
use dcv_dfa::{Auto, Table};
use dcv_explore::Limits;
use dcv_language::laws::one_canonical_table;
use dcv_shelf::Shelf;
use indexmap::IndexMap;
use std::alloc::{AllocError, Global};
use std::marker::Model;

// As many slots as letters may have. A shelf of this width takes every automaton.
const SLOTS: u8 = 32;

// How many states and nodes the automata of a shelf may always have.
const MOST_HELD: u64 = 16_777_216;

// How many times as many as waited when the shelf was begun, where these were more.
const TIMES_HELD: u64 = 4;

#[derive(Drop)]
pub(crate) struct Known {
    // where automata are allocated
    alloc: Global,
    // how large a step may be
    limits: Limits,
    // the automata
    shelf: Shelf,
    // what each operator over automata of the shelf has given
    found: IndexMap<Asked, Answer>,
    // how many operators were explored
    explored: u32,
    // How many states and nodes the automata had that were put on the shelf, and how many may come before they move on.
    held: u64,
    // the most nodes that the shelf has at once
    most: u64,
}

impl Model for Known {
    ghost use Rattle.std.specs.Prelude.{◌≡◌};
    ghost use Rattle.dcv_build.specs.Asked.{KnownValue, AreAnswers};

    ghost Value = { KnownValue };

    ghost view = { λ known. record { tables = known.shelf.tables; limits = known.limits } };

    ghost invariant = { λ known. (known.shelf.slots ≡ 32) × AreAnswers known.shelf.tables known.limits known.found.entries };
}

impl Known {
    // Nothing is known yet. `explored` counts the explorations before.
    pub(crate) fn new(alloc: Global, limits: Limits, explored: u32) -> Known
        ensures tables { result.tables ≡ [] }
        ensures limits { result.limits ≡ limits }
    {
        Known {
            alloc,
            limits,
            shelf: Shelf::new(alloc, SLOTS),
            found: IndexMap::new(alloc),
            explored,
            held: 0,
            most: MOST_HELD,
        }
    }

    // The limits of each exploration.
    pub(crate) fn limits(&self) -> Limits
        ensures { result ≡ self.now.limits }
    {
        self.limits
    }

    // How many explorations there were.
    pub(crate) fn explored(&self) -> u32 {
        self.explored
    }

    // Whether what waits is to move to a new shelf: this one has too little room, or holds many times what it began with.
    pub(crate) fn is_full(&self) -> bool {
        self.shelf.room() < self.limits.nodes || self.held > self.most
    }

    // From here on the shelf may hold many times what it holds now.
    pub(crate) fn begin(&mut self)
        ensures { self.new ≡ self.old }
    {
        self.most = MOST_HELD.max(self.held.saturating_mul(TIMES_HELD));
    }

    // The answer to an operator over automata of the shelf, which is explored where it is not known.
    pub(crate) fn ask(&mut self, asked: Asked, step: u32) -> Result<Answer, BuildFault>
        requires { AreOperands self.old.tables asked }
        ensures answers { AnswersAsked self.old.tables asked self.old.limits step self.new.tables result }
        ensures kept { KeepsNumbers self.old.tables self.new.tables }
        ensures limits { self.new.limits ≡ self.old.limits }
    {
        if let Some(answer) = self.find(asked) {
            return Ok(answer);
        }
        let explored = self.explore(asked, step, Extent::Whole)?;
        let made = least(self.alloc, explored)?;
        let answer = self.put(&made)?;
        self.remember(asked, answer)?;
        Ok(answer)
    }

    // An automaton for an operator over automata of the shelf, which goes on none: the canonical one where it is known, or else the one
    // that is explored.
    pub(crate) fn make(&mut self, asked: Asked, step: u32) -> Result<Explored, BuildFault>
        requires { AreOperands self.old.tables asked }
        ensures same { self.new ≡ self.old }
        ensures serves { ServesAsked self.old.tables asked self.old.limits step result }
    {
        one_canonical_table();
        match self.find(asked) {
            Some(answer) => Ok(self.recall(answer)?),
            None => {
                self.count();
                self.explore(asked, step, Extent::Whole)
            }
        }
    }

    // An automaton with the verdict of an operator over automata of the shelf, which goes on none: no more than that is explored where the
    // operator is not known and cannot exceed the limits.
    pub(crate) fn decide(&mut self, asked: Asked, step: u32) -> Result<Explored, BuildFault>
        requires { AreOperands self.old.tables asked }
        ensures same { self.new ≡ self.old }
        ensures decides { DecidesAsked self.old.tables asked self.old.limits step result }
    {
        if self.is_within(asked) && self.find(asked).is_none() {
            self.count();
            return self.explore(asked, step, Extent::Verdict);
        }
        self.make(asked, step)
    }

    // Whether the sizes of the operands tell that the operator is within the limits.
    fn is_within(&self, asked: Asked) -> bool
        requires { AreOperands self.now.tables asked }
        ensures { IsTrue result → IsWithin (asked_row self.now.tables asked) self.now.limits }
    {
        match asked {
            Asked::Joined(_, first, second) => self.is_product_within(first, second),
            _ => false,
        }
    }

    // The same of two operands side by side, however their truths are joined.
    fn is_product_within(&self, first: u32, second: u32) -> bool
        requires { AreTwo self.now.tables first second }
        ensures { IsTrue result → (join : Bool → Bool → Bool) → IsWithin (pair_row (pair_machine (at_number self.now.tables first).slots join
            (operand_at (plain_tables self.now.tables) first) (operand_at (plain_tables self.now.tables) second))) self.now.limits }
    {
        let (first, second) = (self.shelf.view(first), self.shelf.view(second));
        cannot_exceed(self.alloc, &first, &second, self.limits)
    }

    // The automaton of an answer, beside its counts.
    fn recall(&self, answer: Answer) -> Result<Explored, AllocError>
        requires { answer.number < length self.now.tables }
        ensures { IfOk result (IsRecalled self.now.tables answer) }
    {
        Ok(Explored {
            raw: self.shelf.copy_raw(answer.number)?,
            states: answer.states,
            nodes: answer.nodes,
        })
    }

    // What is known of an operator.
    fn find(&self, asked: Asked) -> Option<Answer>
        ensures { IfSome result (IsAnswer self.now.tables self.now.limits asked) }
    {
        self.found.get(&asked).copied()
    }

    // From here on this is known of it.
    fn remember(&mut self, asked: Asked, answer: Answer) -> Result<(), AllocError>
        requires { IsAnswer self.old.tables self.old.limits asked answer }
        ensures { self.new ≡ self.old }
    {
        self.found.insert(asked, answer)?;
        Ok(())
    }

    // The automaton of an operator over automata of the shelf, as it is explored, or one with its verdict.
    fn explore(&self, asked: Asked, step: u32, extent: Extent) -> Result<Explored, BuildFault>
        requires { AreOperands self.now.tables asked }
        ensures { SettlesAsked extent self.now.tables asked self.now.limits step result }
    {
        let (alloc, limits, shelf) = (self.alloc, self.limits, &self.shelf);
        match asked {
            Asked::Joined(connective, first, second) => operations::joined(
                alloc,
                connective,
                shelf.view(first),
                shelf.view(second),
                limits,
                step,
                extent,
            ),
            Asked::Chop(first, second) => operations::chop(
                alloc,
                shelf.view(first),
                shelf.view(second),
                limits,
                step,
                extent,
            ),
            Asked::Star(operand) => operations::star(
                alloc,
                shelf.view(operand),
                limits,
                step,
                extent,
            ),
            Asked::Exists(operand) => {
                operations::some_track(alloc, shelf.view(operand), limits, step, extent)
            }
        }
    }

    // Counts one exploration more.
    pub(crate) fn count(&mut self)
        ensures { self.new ≡ self.old }
    {
        self.explored = self.explored.saturating_add(1);
    }

    // The number of an automaton that was explored, beside its counts.
    pub(crate) fn put(&mut self, made: &Made) -> Result<Answer, AllocError>
        ensures put { IfOk result (IsPut made.now self.new.tables) }
        ensures kept { KeepsNumbers self.old.tables self.new.tables }
        ensures limits { self.new.limits ≡ self.old.limits }
    {
        let number = self.add(&made.auto)?;
        self.count();
        Ok(Answer {
            number,
            states: made.states,
            nodes: made.nodes,
        })
    }

    // The number of an automaton.
    pub(crate) fn add(&mut self, auto: &Auto) -> Result<u32, AllocError>
        ensures added { IfOk result (λ number. slice_get self.new.tables number ≡ Some (table_of_auto auto.now)) }
        ensures kept { KeepsNumbers self.old.tables self.new.tables }
        ensures limits { self.new.limits ≡ self.old.limits }
    {
        // for the prover: letters have no more slots than a shelf.
        let _ = auto.slots();
        self.held = held_with(self.held, auto.states(), auto.nodes());
        self.shelf.add(auto)
    }

    // The number of the complement of an automaton. It has the states and nodes of its own machine, so nothing is explored.
    pub(crate) fn not(&mut self, operand: u32) -> Result<Answer, AllocError>
        requires { operand < length self.old.tables }
        ensures turned { (one : ShelfTable) → slice_get self.old.tables operand ≡ Some one → IfOk result (IsTurned one self.new.tables) }
        ensures kept { KeepsNumbers self.old.tables self.new.tables }
        ensures limits { self.new.limits ≡ self.old.limits }
    {
        let view = self.shelf.view(operand);
        let (states, nodes) = (view.states(), view.nodes());
        self.held = held_with(self.held, states, 0);
        let number = self.shelf.not(operand)?;
        Ok(Answer {
            number,
            states,
            nodes,
        })
    }

    // The automaton with this number, in an arena of its own.
    pub(crate) fn copy_out(&self, number: u32) -> Result<Auto, AllocError>
        requires { number < length self.now.tables }
        ensures { IfOk result (λ auto. slice_get self.now.tables number ≡ Some (table_of_auto auto)) }
    {
        self.shelf.copy_out(number)
    }
}

// How many states and nodes a shelf holds with so many more.
fn held_with(held: u64, states: u32, nodes: u32) -> u64 {
    held.saturating_add(u64::from(states))
        .saturating_add(u64::from(nodes))
}
