// A core over other slots: those of its names go to their places, and all others after so many names.
ghost use Rattle.std.specs.Prelude.{◌≡◌, ◌<◌, ◌≤◌, ◌+◌, ◌-◌, ◌^◌, ◌∷◌, ◌++◌, [], length, map, slice_get, true, Some, IfOk, IfErr, OnOk};
ghost use Rattle.std.specs.List.{All};
ghost use Rattle.dcv_core.specs.Core.{CoreTree};
ghost use Rattle.dcv_core.specs.Slots.{IsBelow, AreBelow, BasicIsBelow, OpIsBelow};
ghost use Rattle.dcv_core.specs.StepViews.{plain_op, plain_operator};
ghost use Rattle.dcv_core.specs.Steps.{CoreStep, IsCoreOf};
ghost use Rattle.dcv_core.specs.TruthViews.{plain_truth, plain_basic, truths_of};
ghost use Rattle.dcv_joint.specs.Faults.{has_few_slots, IsFaultOfCore};
ghost use Rattle.dcv_joint.specs.Moved.{moved_slot, moved_slots, moved_truth, all_moved, moved_basic, moved_op, moved_step, moved_tree};
ghost use Rattle.dcv_tracks.specs.ShiftSteps.{with_steps};

use crate::joint::{JointFault, MOST_NAMES};
use dcv_core::{Basic, Core, Op, Operator, Truth};
use std::alloc::{AllocError, Global};

// Where slots go.
#[derive(Drop)]
struct Moving<'a> {
    // where what is made is allocated
    alloc: Global,
    // the place of each own name
    places: &'a [u8],
    // how many names have places
    width: u8,
}

impl Moving<'_> {
    // Where a slot goes.
    fn slot(&self, slot: u8) -> u8
        requires { slot + self.now.width < length self.now.places.now + 256 }
        ensures { result ≡ moved_slot self.now.places.now self.now.width slot }
    {
        match self.places.get(slot as usize) {
            Some(place) => *place,
            None => (slot as usize - self.places.len() + self.width as usize) as u8,
        }
    }

    // How many slots are in use, of so many.
    fn moved_slots(&self, slots: u8) -> usize
        ensures { result ≡ moved_slots self.now.places.now self.now.width slots }
    {
        self.width as usize + (slots as usize).saturating_sub(self.places.len())
    }
}

// The proposition over the slots that it goes to.
#[cycle(moved)]
fn moved_truth(truth: &Truth, moving: &Moving<'_>) -> Result<Truth, AllocError>
    requires { IsBelow (length moving.now.places.now + 256 - moving.now.width) (plain_truth truth.now) }
    ensures { IfOk result (λ moved. plain_truth moved ≡ moved_truth moving.now.places.now moving.now.width (plain_truth truth.now)) }
{
    match truth {
        Truth::Constant(truth) => Ok(Truth::Constant(*truth)),
        Truth::Slot(slot) => Ok(Truth::Slot(moving.slot(*slot))),
        Truth::Not(operand) => Ok(Truth::Not(Box::new(
            moving.alloc,
            moved_truth(operand, moving)?,
        )?)),
        Truth::Joined(connective, operands) => Ok(Truth::Joined(
            *connective,
            all_moved(operands, moving)?,
        )),
        Truth::Shift(direction, operand, span) => Ok(Truth::Shift(
            *direction,
            Box::new(moving.alloc, moved_truth(operand, moving)?)?,
            *span,
        )),
    }
}

#[cycle(moved)]
fn all_moved(truths: &[Truth], moving: &Moving<'_>) -> Result<Vec<Truth>, AllocError>
    requires { AreBelow (length moving.now.places.now + 256 - moving.now.width) (truths_of (map plain_truth truths.now)) }
    ensures { IfOk result (λ moved. truths_of (map plain_truth moved.items)
        ≡ all_moved moving.now.places.now moving.now.width (truths_of (map plain_truth truths.now))) }
{
    let mut all = Vec::new(moving.alloc);
    for truth in truths {
        all.push(moved_truth(truth, moving)?)?;
    }
    Ok(all)
}

impl Moving<'_> {
    // The form over the slots that it goes to.
    fn basic(&self, basic: &Basic) -> Result<Basic, AllocError>
        requires { BasicIsBelow (length self.now.places.now + 256 - self.now.width) (plain_basic basic.now) }
        ensures { IfOk result (λ moved. plain_basic moved ≡ moved_basic self.now.places.now self.now.width (plain_basic basic.now)) }
    {
        Ok(match basic {
            Basic::Constant(truth) => Basic::Constant(*truth),
            Basic::Bracketed(bracket, truth) => Basic::Bracketed(
                *bracket,
                moved_truth(truth, self)?,
            ),
            Basic::Slen(relation, number) => Basic::Slen(*relation, *number),
            Basic::Counted(count, truth, relation, number) => {
                Basic::Counted(*count, moved_truth(truth, self)?, *relation, *number)
            }
            Basic::Track(direction, truth, slot) => {
                Basic::Track(*direction, moved_truth(truth, self)?, self.slot(*slot))
            }
        })
    }

    // The operator of a step over the slots that it goes to.
    fn operator(&self, op: Op<'_>) -> Result<Operator, AllocError>
        requires { OpIsBelow (length self.now.places.now + 256 - self.now.width) (plain_op op) }
        ensures { IfOk result (λ moved. plain_operator moved ≡ moved_op self.now.places.now self.now.width (plain_op op.entry)) }
    {
        Ok(match op {
            Op::Atom(basic) => Operator::Atom(self.basic(basic)?),
            Op::Not(operand) => Operator::Not(operand),
            Op::Joined(connective, first, second) => Operator::Joined(connective, first, second),
            Op::Chop(first, second) => Operator::Chop(first, second),
            Op::Star(operand) => Operator::Star(operand),
            Op::Exists(operand) => Operator::Exists(operand),
        })
    }

    // Whether each step is over few slots once it is moved.
    fn has_few_slots(&self, core: &Core) -> bool
        ensures { result ≡ has_few_slots self.now.places.now self.now.width core.now.steps }
    {
        for step in 0..core.steps() {
            if self.moved_slots(core.slots(step)) > MOST_NAMES as usize {
                return false;
            }
        }
        true
    }

    // Adds the moved step.
    fn add_step(&self, core: &Core, step: u32, moved: &mut Core) -> Result<(), AllocError>
        requires step { step < length core.now.steps }
        requires in_use { All (λ step. OpIsBelow step.slots step.op) core.now.steps }
        requires few { has_few_slots self.now.places.now self.now.width core.now.steps ≡ true }
        requires steps { length moved.old.steps + 1 < 2 ^ 32 }
        ensures { IfOk result (λ _. (from : CoreStep) → slice_get core.now.steps step ≡ Some from → moved.new ≡ with_steps moved.old
            (moved.old.steps ++ moved_step self.now.places.now self.now.width from ∷ [])) }
    {
        let operator = self.operator(core.op(step))?;
        let slots = self.moved_slots(core.slots(step)) as u8;
        moved.push(operator, core.span(step), slots)?;
        Ok(())
    }

    // Adds the moved steps.
    fn add_steps(&self, core: &Core, moved: &mut Core) -> Result<(), AllocError>
        requires in_use { All (λ step. OpIsBelow step.slots step.op) core.now.steps }
        requires few { has_few_slots self.now.places.now self.now.width core.now.steps ≡ true }
        requires none { moved.old.steps ≡ [] }
        ensures { IfOk result (λ _. moved.new ≡ with_steps moved.old (map (moved_step self.now.places.now self.now.width) core.now.steps)) }
    {
        for step in 0..core.steps() {
            self.add_step(core, step, moved)?;
        }
        Ok(())
    }
}

/// The core with the slots of its names at these places, of so many names.
pub(crate) fn core_over(
    alloc: Global,
    places: &[u8],
    width: u8,
    core: &Core,
) -> Result<Core, JointFault>
    requires declared { core.now.declared ≡ length places.now }
    requires in_use { All (λ step. OpIsBelow step.slots step.op) core.now.steps }
    ensures declared { IfOk result (λ moved. moved.declared ≡ width) }
    ensures core { IfOk result (λ moved. (tree : CoreTree) → IsCoreOf tree core.now → IsCoreOf (moved_tree places.now width tree) moved) }
    ensures few { OnOk result (has_few_slots places.now width core.now.steps ≡ true) }
    ensures fault { IfErr result (IsFaultOfCore places.now width core.now.steps) }
{
    let moving = Moving {
        alloc,
        places,
        width,
    };
    if !moving.has_few_slots(core) {
        return Err(JointFault::Slots);
    }
    let mut moved = Core::new(alloc, width);
    moving.add_steps(core, &mut moved)?;
    Ok(moved)
}
