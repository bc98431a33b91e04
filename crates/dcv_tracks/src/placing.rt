// A goal with slots for its shifts, closed.
ghost use Rattle.std.specs.Prelude.{◌≡◌, ◌<◌, ◌+◌, ◌-◌, ◌*◌, ◌^◌, [], ◌∷◌, ◌++◌, Some, length, map, slice_get, IfOk};
ghost use Rattle.std.specs.List.{All};
ghost use Rattle.dcv_core.specs.Core.{CoreTree};
ghost use Rattle.dcv_core.specs.Steps.{CoreStep, IsCoreOf};
ghost use Rattle.dcv_core.specs.Slots.{IsBelow, AreBelow, BasicIsBelow, OpIsBelow};
ghost use Rattle.dcv_core.specs.StepViews.{plain_op, plain_operator};
ghost use Rattle.dcv_core.specs.TruthViews.{plain_truth, plain_basic, truths_of};
ghost use Rattle.dcv_tracks.specs.Shifting.{placed_slot, slot_of, placed, all_placed, placed_basic, placed_core, shift_basic, closed};
ghost use Rattle.dcv_tracks.specs.ShiftViews.{plain_shift};
ghost use Rattle.dcv_tracks.specs.ShiftSteps.{with_steps, placed_op, placed_step, closed_step, closed_steps};

use crate::gathering::{Shift, place_of};
use dcv_core::{Basic, Connective, Core, Op, Operator, Truth};
use std::alloc::{AllocError, Global};

// The shifts of a goal over so many declared variables.
#[derive(Drop)]
struct Placing<'a> {
    // where what is made is allocated
    alloc: Global,
    // how many variables are declared
    declared: u8,
    // the shifts that have a slot, in the order of their slots
    shifts: &'a [Shift<'a>],
}

impl Placing<'_> {
    // A declared slot stays, and one of a quantifier goes after those of the shifts.
    fn slot(&self, slot: u8) -> u8
        requires { slot < 256 - length self.now.shifts.now }
        ensures { result ≡ placed_slot self.now.declared (map plain_shift self.now.shifts.now) slot }
    {
        if slot < self.declared {
            slot
        } else {
            slot + self.shifts.len() as u8
        }
    }

    // The slot of a shift.
    fn slot_of(&self, shift: &Shift<'_>) -> u8
        requires { self.now.declared + length self.now.shifts.now < 256 }
        ensures { result ≡ slot_of self.now.declared (map plain_shift self.now.shifts.now) (plain_shift shift.now) }
    {
        self.declared + place_of(shift, self.shifts) as u8
    }

    // The proposition, in which slots stand for its shifts.
    #[cycle(placed)]
    fn truth(&self, truth: &Truth) -> Result<Truth, AllocError>
        requires declared { self.now.declared + length self.now.shifts.now < 256 }
        requires below { IsBelow (256 - length self.now.shifts.now) (plain_truth truth.now) }
        ensures { IfOk result (λ result. plain_truth result ≡ placed self.now.declared (map plain_shift self.now.shifts.now) (plain_truth truth.now)) }
    {
        match truth {
            Truth::Constant(truth) => Ok(Truth::Constant(*truth)),
            Truth::Slot(slot) => Ok(Truth::Slot(self.slot(*slot))),
            Truth::Not(operand) => Ok(Truth::Not(Box::new(self.alloc, self.truth(operand)?)?)),
            Truth::Joined(connective, operands) => {
                Ok(Truth::Joined(*connective, self.truths(operands)?))
            }
            Truth::Shift(direction, operand, span) => {
                let shift = Shift {
                    direction: *direction,
                    operand,
                    span: *span,
                };
                Ok(Truth::Slot(self.slot_of(&shift)))
            }
        }
    }

    #[cycle(placed)]
    fn truths(&self, truths: &[Truth]) -> Result<Vec<Truth>, AllocError>
        requires declared { self.now.declared + length self.now.shifts.now < 256 }
        requires below { AreBelow (256 - length self.now.shifts.now) (truths_of (map plain_truth truths.now)) }
        ensures { IfOk result (λ result. truths_of (map plain_truth result.items)
            ≡ all_placed self.now.declared (map plain_shift self.now.shifts.now) (truths_of (map plain_truth truths.now))) }
    {
        let mut all = Vec::new(self.alloc);
        for truth in truths {
            all.push(self.truth(truth)?)?;
        }
        Ok(all)
    }

    fn basic(&self, basic: &Basic) -> Result<Basic, AllocError>
        requires declared { self.now.declared + length self.now.shifts.now < 256 }
        requires below { BasicIsBelow (256 - length self.now.shifts.now) (plain_basic basic.now) }
        ensures { IfOk result (λ result. plain_basic result ≡ placed_basic self.now.declared (map plain_shift self.now.shifts.now) (plain_basic basic.now)) }
    {
        Ok(match basic {
            Basic::Constant(truth) => Basic::Constant(*truth),
            Basic::Bracketed(bracket, truth) => Basic::Bracketed(*bracket, self.truth(truth)?),
            Basic::Slen(relation, number) => Basic::Slen(*relation, *number),
            Basic::Counted(count, truth, relation, number) => {
                Basic::Counted(*count, self.truth(truth)?, *relation, *number)
            }
            Basic::Track(direction, truth, slot) => {
                Basic::Track(*direction, self.truth(truth)?, self.slot(*slot))
            }
        })
    }

    // A step of the goal, over the slots of the core.
    fn operator(&self, op: Op<'_>) -> Result<Operator, AllocError>
        requires declared { self.now.declared + length self.now.shifts.now < 256 }
        requires below { OpIsBelow (256 - length self.now.shifts.now) (plain_op op) }
        ensures { IfOk result (λ result. plain_operator result ≡ placed_op self.now.declared (map plain_shift self.now.shifts.now) (plain_op op.entry)) }
    {
        Ok(match op {
            Op::Atom(basic) => Operator::Atom(self.basic(basic)?),
            Op::Not(operand) => Operator::Not(operand),
            Op::Joined(connective, first, second) => Operator::Joined(connective, first, second),
            Op::Chop(first, second) => Operator::Chop(first, second),
            Op::Star(operand) => Operator::Star(operand),
            Op::Exists(operand) => Operator::Exists(operand),
        })
    }

    // A step of the goal more, over the slots of the core.
    fn place_step(&self, goal: &Core, step: u32, core: &mut Core) -> Result<(), AllocError>
        requires step { step < length goal.now.steps }
        requires in_use { All (λ step. OpIsBelow step.slots step.op) goal.now.steps }
        requires declared { self.now.declared + length self.now.shifts.now < 256 }
        requires slots { All (λ step. step.slots + length self.now.shifts.now < 256) goal.now.steps }
        requires steps { length core.old.steps + 1 < 2 ^ 32 }
        ensures { IfOk result (λ _. (placed : CoreStep) → slice_get goal.now.steps step ≡ Some placed → core.new ≡ with_steps core.old
            (core.old.steps ++ placed_step self.now.declared (map plain_shift self.now.shifts.now) placed ∷ [])) }
    {
        let operator = self.operator(goal.op(step))?;
        let slots = goal.slots(step) + self.shifts.len() as u8;
        core.push(operator, goal.span(step), slots)?;
        Ok(())
    }

    // The steps of the goal, over the slots of the core.
    fn place(&self, goal: &Core, core: &mut Core) -> Result<(), AllocError>
        requires in_use { All (λ step. OpIsBelow step.slots step.op) goal.now.steps }
        requires declared { self.now.declared + length self.now.shifts.now < 256 }
        requires slots { All (λ step. step.slots + length self.now.shifts.now < 256) goal.now.steps }
        requires steps { length core.old.steps + length goal.now.steps < 2 ^ 32 }
        ensures { IfOk result (λ _. core.new ≡ with_steps core.old
            (core.old.steps ++ map (placed_step self.now.declared (map plain_shift self.now.shifts.now)) goal.now.steps)) }
    {
        for step in 0..goal.steps() {
            self.place_step(goal, step, core)?;
        }
        Ok(())
    }

    // That the slot is what the shift is.
    fn track(&self, shift: &Shift<'_>, slot: u8) -> Result<Basic, AllocError>
        requires declared { self.now.declared + length self.now.shifts.now < 256 }
        requires operand { IsBelow self.now.declared (plain_truth shift.now.operand.now) }
        ensures { IfOk result (λ result. plain_basic result ≡ shift_basic self.now.declared (map plain_shift self.now.shifts.now) (plain_shift shift.now) slot) }
    {
        Ok(Basic::Track(shift.direction, self.truth(shift.operand)?, slot))
    }

    // Closes the slot of a shift.
    fn close_slot(&self, shift: &Shift<'_>, slot: u8, core: &mut Core) -> Result<(), AllocError>
        requires declared { self.now.declared + length self.now.shifts.now < 256 }
        requires operand { IsBelow self.now.declared (plain_truth shift.now.operand.now) }
        requires slot { slot + 1 < 256 }
        requires some { 0 < length core.old.steps }
        requires steps { length core.old.steps + 3 < 2 ^ 32 }
        ensures { IfOk result (λ _. core.new ≡ with_steps core.old
            (closed_step self.now.declared (map plain_shift self.now.shifts.now) slot (plain_shift shift.now) core.old.steps)) }
    {
        let goal = core.steps() - 1;
        let track = Operator::Atom(self.track(shift, slot)?);
        let track = core.push(track, shift.span, slot + 1)?;
        let both = core.push(
            Operator::Joined(Connective::And, goal, track),
            shift.span,
            slot + 1,
        )?;
        core.push(Operator::Exists(both), shift.span, slot)?;
        Ok(())
    }

    // Closes the slots of the shifts, that of the last one first.
    fn close(&self, core: &mut Core) -> Result<(), AllocError>
        requires declared { self.now.declared + length self.now.shifts.now < 256 }
        requires operands { All (λ shift. IsBelow self.now.declared (plain_shift shift).operand) self.now.shifts.now }
        requires some { 0 < length core.old.steps }
        requires steps { length core.old.steps + 3 * length self.now.shifts.now < 2 ^ 32 }
        ensures { IfOk result (λ _. core.new ≡ with_steps core.old
            (closed_steps self.now.declared (map plain_shift self.now.shifts.now) self.now.declared (map plain_shift self.now.shifts.now) core.old.steps)) }
    {
        for place in (0..self.shifts.len()).rev() {
            self.close_slot(&self.shifts[place], self.declared + place as u8, core)?;
        }
        Ok(())
    }
}

/// The core of a goal, in which each of these shifts has a slot and a track. The shifts are the goal's, as [`shifts_of`](crate::shifts_of) gives them.
pub fn core_of(alloc: Global, goal: &Core, shifts: &[Shift<'_>]) -> Result<Core, AllocError>
    requires in_use { All (λ step. OpIsBelow step.slots step.op) goal.now.steps }
    requires operands { All (λ shift. IsBelow goal.now.declared (plain_shift shift).operand) shifts.now }
    requires declared { goal.now.declared + length shifts.now < 256 }
    requires slots { All (λ step. step.slots + length shifts.now < 256) goal.now.steps }
    requires steps { length goal.now.steps + 3 * length shifts.now < 2 ^ 32 }
    ensures declared { IfOk result (λ core. core.declared ≡ goal.now.declared) }
    ensures core { IfOk result (λ core. (tree : CoreTree) → IsCoreOf tree goal.now
        → IsCoreOf (closed goal.now.declared (map plain_shift shifts.now) (placed_core goal.now.declared (map plain_shift shifts.now) tree)) core) }
{
    let placing = Placing {
        alloc,
        declared: goal.declared(),
        shifts,
    };
    let mut core = Core::new(alloc, goal.declared());
    placing.place(goal, &mut core)?;
    // A goal without steps has nothing to close.
    if core.steps() > 0 {
        placing.close(&mut core)?;
    }
    Ok(core)
}
