// The core of a formula, as the list of its steps: its operators in post-order, each after its operands.
ghost use Rattle.std.specs.Prelude.{◌≡◌, ◌<◌, ◌+◌, ◌^◌, [], length, Some, slice_get, IfOk, OnErr};
ghost use Rattle.std.specs.Option.{option_map};
ghost use Rattle.dcv_core.specs.Steps.{Pushed};
ghost use Rattle.dcv_core.specs.StepViews.{plain_op, plain_operator};

use crate::truths::Basic;
use dcv_syntax::{Connective, Span};
use std::alloc::{AllocError, Global};
use std::marker::Model;

/// The operator of a step. Its operands are the numbers of earlier steps.
#[derive(Drop)]
pub enum Op<'a> {
    Atom(&'a Basic),
    Not(u32),
    Joined(Connective, u32, u32),
    Chop(u32, u32),
    Star(u32),
    /// The operand is over one slot more, the last.
    Exists(u32),
}

/// The same, with a form of its own, as a step is made.
#[derive(Drop)]
pub enum Operator {
    Atom(Basic),
    Not(u32),
    Joined(Connective, u32, u32),
    Chop(u32, u32),
    Star(u32),
    Exists(u32),
}

// An operator with its place and the number of slots over which it is judged.
#[derive(Drop)]
struct Step {
    // what the step does to earlier ones
    operator: Operator,
    // where it stands in the source
    span: Span,
    // over how many slots it is judged
    slots: u8,
}

/// The core of a goal: how many variables are declared, and its steps, numbered from 0. The last is that of the whole.
#[derive(Drop)]
pub struct Core {
    // how many variables are declared
    declared: u8,
    // operands stand before their operators
    steps: Vec<Step>,
}

impl Model for Core {
    ghost use Rattle.std.specs.Prelude.{◌<◌, ◌^◌, length, map};
    ghost use Rattle.dcv_core.specs.Steps.{PlainCore};
    ghost use Rattle.dcv_core.specs.StepViews.{plain_step};
    ghost use Rattle.dcv_core.specs.TruthCode.{truth_code};
    ghost use Rattle.std.specs.Coded.{codes};

    ghost Value = { PlainCore };

    ghost coded = { Prim.hlevel (codes, truth_code) };

    ghost view = { λ c. record { declared = c.declared; steps = map plain_step c.steps.items } };

    ghost invariant = { λ c. length c.steps.items < 2 ^ 32 };
}

impl Core {
    /// A core without steps.
    pub fn new(alloc: Global, declared: u8) -> Core
        ensures { result ≡ record { declared = declared; steps = [] } }
    {
        Core {
            declared,
            steps: Vec::new(alloc),
        }
    }

    /// How many variables are declared.
    pub fn declared(&self) -> u8
        ensures { result ≡ self.now.declared }
    {
        self.declared
    }

    /// How many steps there are.
    pub fn steps(&self) -> u32
        ensures { result ≡ length self.now.steps }
    {
        self.steps.len() as u32
    }

    /// The part of the source that the step is for.
    pub fn span(&self, step: u32) -> Span
        requires { step < length self.now.steps }
        ensures { option_map (λ s. s.span) (slice_get self.now.steps step) ≡ Some result }
    {
        self.steps[step as usize].span
    }

    /// The number of slots over which the step is judged.
    pub fn slots(&self, step: u32) -> u8
        requires { step < length self.now.steps }
        ensures { option_map (λ s. s.slots) (slice_get self.now.steps step) ≡ Some result }
    {
        self.steps[step as usize].slots
    }

    /// The operator of the step.
    pub fn op(&self, step: u32) -> Op<'_>
        requires { step < length self.now.steps }
        ensures { option_map (λ s. s.op) (slice_get self.now.steps step) ≡ Some (plain_op result) }
    {
        self.steps[step as usize].operator.seen()
    }

    /// Adds a step, and gives its number.
    pub fn push(&mut self, operator: Operator, span: Span, slots: u8) -> Result<u32, AllocError>
        requires { length self.old.steps + 1 < 2 ^ 32 }
        ensures ok { IfOk result (Pushed self.old (plain_operator operator) span slots self.new) }
        ensures err { OnErr result (self.new ≡ self.old) }
    {
        let number = self.steps.len() as u32;
        self.steps.push(Step {
            operator,
            span,
            slots,
        })?;
        Ok(number)
    }
}

impl Operator {
    fn seen(&self) -> Op<'_>
        ensures { plain_op result ≡ plain_operator self.now }
    {
        match self {
            Operator::Atom(basic) => Op::Atom(basic),
            Operator::Not(operand) => Op::Not(*operand),
            Operator::Joined(connective, first, second) => Op::Joined(*connective, *first, *second),
            Operator::Chop(first, second) => Op::Chop(*first, *second),
            Operator::Star(operand) => Op::Star(*operand),
            Operator::Exists(operand) => Op::Exists(*operand),
        }
    }
}
