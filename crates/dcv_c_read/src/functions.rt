// What the rules of a unit and of its functions stand for, by the parts of their bodies.
ghost use Rattle.std.specs.Prelude.{◌≡◌, map, IfOk};
ghost use Rattle.dcv_c.specs.Actions.{unit_part, reset_part, step_part};
ghost use Rattle.dcv_c_read.specs.Symbols.{seen_part, seen_step, IsMeant};

use crate::accessors;
use crate::parts::{Made, Part, Parts};
use crate::placed::{PlacedReset, PlacedStep, PlacedUnit};
use dcv_translation::with_first;
use std::alloc::Global;

// unit = static more_statics reset step
#[tactic(auto, using(dcv_translation::proofs::Reversed::forwards))]
pub(crate) fn unit<'a>(alloc: Global, parts: &mut Parts<'a>) -> Made<'a>
    requires { IsMeant (unit_part (map seen_part parts.old)) }
    ensures { IfOk result (λ part. seen_part part ≡ unit_part (map seen_part parts.old)) }
{
    let first = accessors::token(parts);
    let mut statics = with_first(first, accessors::tokens(parts))?;
    statics.reverse();
    let reset = accessors::reset(parts);
    let step = Box::into_inner(accessors::step(parts));
    let placed = PlacedUnit {
        statics,
        reset,
        step,
    };
    Ok(Part::Unit(Box::new(alloc, placed)?))
}

// reset = "void" name "(" "void" ")" "{" assignments "}"
#[tactic(auto, using(dcv_translation::proofs::Reversed::forwards))]
pub(crate) fn reset<'a>(parts: &mut Parts<'a>) -> Part<'a>
    requires { IsMeant (reset_part (map seen_part parts.old)) }
    ensures { seen_part result ≡ reset_part (map seen_part parts.old) }
{
    let name = accessors::token(parts);
    let mut assignments = accessors::assignments(parts);
    let end = accessors::token(parts);
    assignments.reverse();
    Part::Reset(PlacedReset {
        name,
        assignments,
        end,
    })
}

// step = "int" name "(" parameters ")" "{" locals statements "return" returned ";" "}"
pub(crate) fn step<'a>(alloc: Global, parts: &mut Parts<'a>) -> Made<'a>
    requires { IsMeant (step_part (map seen_part parts.old)) }
    ensures { IfOk result (λ part. seen_part part ≡ step_part (map seen_part parts.old)) }
{
    let placed = plain_step(parts);
    Ok(Part::Step(Box::new(alloc, placed)?))
}

// The same, not on the heap yet.
#[tactic(auto, using(dcv_translation::proofs::Reversed::forwards))]
fn plain_step<'a>(parts: &mut Parts<'a>) -> PlacedStep<'a>
    requires { IsMeant (step_part (map seen_part parts.old)) }
    ensures { seen_step result ≡ step_part (map seen_part parts.old) }
{
    let name = accessors::token(parts);
    let mut parameters = accessors::tokens(parts);
    let mut locals = accessors::tokens(parts);
    let mut statements = accessors::statements(parts);
    let returned = accessors::returned(parts);
    parameters.reverse();
    locals.reverse();
    statements.reverse();
    PlacedStep {
        name,
        parameters,
        locals,
        statements,
        returned,
    }
}
