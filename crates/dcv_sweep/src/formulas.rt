// A formula as it is drawn: its steps are made on the way, each after those of its operands.
ghost use Rattle.std.specs.Prelude.{◌≡◌, ◌<◌, ◌≤◌, ◌+◌, ◌*◌, ◌^◌, length, map, IfOk, OnOk};
ghost use Rattle.dcv_core.specs.Steps.{without_core, steps_of};
ghost use Rattle.dcv_core.specs.StepViews.{plain_operator};
ghost use Rattle.dcv_core.specs.TruthViews.{plain_truth, plain_basic};
ghost use Rattle.dcv_sweep.specs.DrawnCores.{drawn_literal, drawn_atom, over_none, over_two, operation_of, drawn_core, drawn_formula};
ghost use Rattle.dcv_sweep.specs.Making.{join_of, join_op, Adds, most_steps};

use crate::generator::Draw;
use dcv_core::{Basic, Bracket, Connective, Core, Count, Operator, Rel, Truth};
use dcv_syntax::Span;
use std::alloc::{AllocError, Global};

// What is drawn has no place in a source.
const NOWHERE: Span = Span { start: 0, end: 0 };

// What joins two formulas: a connective, or a chop where there is none.
fn operator(join: Option<Connective>, first: u32, second: u32) -> Operator
    ensures { plain_operator result ≡ join_op join first second }
{
    match join {
        Some(connective) => Operator::Joined(connective, first, second),
        None => Operator::Chop(first, second),
    }
}

/// Draws the core of a formula over three declared variables, whose operators nest three deep at most.
pub fn drawn_core(alloc: Global, draw: &mut Draw) -> Result<Core, AllocError>
    ensures declared { IfOk result (λ core. core.declared ≡ 3) }
    ensures steps { IfOk result (λ core. core.steps ≡ map without_core (steps_of 3 (drawn_formula draw.old).made)) }
    ensures state { OnOk result (draw.new ≡ (drawn_formula draw.old).after) }
{
    let mut core = Core::new(alloc, 3);
    formula(alloc, &mut core, draw, 3, 3)?;
    Ok(core)
}

// Adds the steps of a formula over these slots, whose operators nest no deeper than this, and gives the number of the last.
#[cycle(formulas)]
fn formula(
    alloc: Global,
    core: &mut Core,
    draw: &mut Draw,
    depth: u8,
    slots: u8,
) -> Result<u32, AllocError>
    requires slots { (1 ≤ slots) × (slots + depth < 256) }
    requires room { length core.old.steps + most_steps depth < 2 ^ 32 }
    ensures { IfOk result (Adds core.old slots (drawn_core depth slots draw.old) core.new draw.new) }
{
    if depth == 0 {
        return atom(alloc, core, draw, slots);
    }
    let kind = draw.draw(8);
    operation(alloc, core, draw, kind, depth - 1, slots)
}

// The same of the operator of this kind, whose operands nest no deeper than this.
#[cycle(formulas)]
fn operation(
    alloc: Global,
    core: &mut Core,
    draw: &mut Draw,
    kind: u32,
    depth: u8,
    slots: u8,
) -> Result<u32, AllocError>
    requires slots { (1 ≤ slots) × (slots + 1 + depth < 256) }
    requires room { length core.old.steps + 2 * most_steps depth + 1 < 2 ^ 32 }
    ensures { IfOk result (Adds core.old slots (operation_of kind (drawn_core depth) slots draw.old) core.new draw.new) }
{
    match kind {
        0 => atom(alloc, core, draw, slots),
        1 => {
            let operand = formula(alloc, core, draw, depth, slots)?;
            core.push(Operator::Not(operand), NOWHERE, slots)
        }
        2 => joined(alloc, core, draw, Some(Connective::And), depth, slots),
        3 => joined(alloc, core, draw, Some(Connective::Or), depth, slots),
        4 => joined(alloc, core, draw, None, depth, slots),
        5 => {
            let operand = formula(alloc, core, draw, depth, slots)?;
            core.push(Operator::Star(operand), NOWHERE, slots)
        }
        6 => {
            let operand = formula(alloc, core, draw, depth, slots + 1)?;
            core.push(Operator::Exists(operand), NOWHERE, slots)
        }
        _ => joined(alloc, core, draw, Some(Connective::Iff), depth, slots),
    }
}

// An operator of two operands, the first of which is drawn first.
#[cycle(formulas)]
#[tactic(auto, using(crate::proofs::Adding::adds_two))]
fn joined(
    alloc: Global,
    core: &mut Core,
    draw: &mut Draw,
    join: Option<Connective>,
    depth: u8,
    slots: u8,
) -> Result<u32, AllocError>
    requires slots { (1 ≤ slots) × (slots + depth < 256) }
    requires room { length core.old.steps + 2 * most_steps depth + 1 < 2 ^ 32 }
    ensures { IfOk result (Adds core.old slots (over_two (join_of join) (drawn_core depth slots) draw.old) core.new draw.new) }
{
    let first = formula(alloc, core, draw, depth, slots)?;
    let second = formula(alloc, core, draw, depth, slots)?;
    core.push(operator(join, first, second), NOWHERE, slots)
}

// The step of a form without a formula in it.
fn atom(alloc: Global, core: &mut Core, draw: &mut Draw, slots: u8) -> Result<u32, AllocError>
    requires slots { 1 ≤ slots }
    requires room { length core.old.steps + 1 < 2 ^ 32 }
    ensures { IfOk result (Adds core.old slots (over_none (drawn_atom slots draw.old)) core.new draw.new) }
{
    let basic = basic(alloc, draw, slots)?;
    core.push(Operator::Atom(basic), NOWHERE, slots)
}

// A form without a formula in it.
fn basic(alloc: Global, draw: &mut Draw, slots: u8) -> Result<Basic, AllocError>
    requires { 1 ≤ slots }
    ensures basic { IfOk result (λ basic. plain_basic basic ≡ (drawn_atom slots draw.old).made) }
    ensures state { OnOk result (draw.new ≡ (drawn_atom slots draw.old).after) }
{
    let kind = draw.draw(6);
    let truth = literal(alloc, draw, slots)?;
    match kind {
        0 => Ok(Basic::Bracketed(Bracket::Point, truth)),
        1 => Ok(Basic::Bracketed(Bracket::Run, truth)),
        2 => Ok(Basic::Bracketed(Bracket::Every, truth)),
        3 => Ok(Basic::Bracketed(Bracket::Unit, truth)),
        4 => Ok(Basic::Counted(Count::Scount, truth, Rel::AtLeast, 1 + draw.draw(4))),
        _ => Ok(Basic::Counted(Count::Sdur, truth, Rel::Less, 1 + draw.draw(4))),
    }
}

// One of these slots, negated or not.
fn literal(alloc: Global, draw: &mut Draw, slots: u8) -> Result<Truth, AllocError>
    requires { 1 ≤ slots }
    ensures truth { IfOk result (λ truth. plain_truth truth ≡ (drawn_literal slots draw.old).made) }
    ensures state { OnOk result (draw.new ≡ (drawn_literal slots draw.old).after) }
{
    let slot = Truth::Slot(draw.draw(u32::from(slots)) as u8);
    if draw.draw(2) == 1 {
        Ok(Truth::Not(Box::new(alloc, slot)?))
    } else {
        Ok(slot)
    }
}
