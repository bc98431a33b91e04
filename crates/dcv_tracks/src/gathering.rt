// The shifts of a goal, each once.
ghost use Rattle.std.specs.Prelude.{◌≡◌, ◌<◌, ◌≤◌, length, map, IfOk, IfErr};
ghost use Rattle.std.specs.List.{list_any, position_or_len};
ghost use Rattle.std.specs.Option.{option_map};
ghost use Rattle.dcv_core.specs.Core.{CoreTree, truth_in};
ghost use Rattle.dcv_core.specs.Steps.{IsCoreOf};
ghost use Rattle.dcv_core.specs.StepViews.{plain_op};
ghost use Rattle.dcv_core.specs.TruthViews.{plain_truth, plain_basic, truths_of};
ghost use Rattle.dcv_tracks.specs.Shifting.{same_truth, same_truths, same_shift, with_shift, collected, all_collected};
ghost use Rattle.dcv_tracks.specs.Shifting.{shifts_in, most_shifts};
ghost use Rattle.dcv_tracks.specs.ShiftViews.{plain_shift};
ghost use Rattle.dcv_tracks.specs.ShiftSteps.{step_truth};

use dcv_core::{Basic, Core, Direction, Op, Truth};
use dcv_syntax::Span;
use std::alloc::{AllocFailed, Global};
use thiserror::Error;

/// The most shifts of a goal.
pub const MOST_SHIFTS: usize = 32;

/// A prior or next proposition, with the first place where it stands.
#[derive(Clone, Copy, Drop)]
pub struct Shift<'a> {
    // to the instant before, or to the next
    pub(crate) direction: Direction,
    // what is looked at there
    pub(crate) operand: &'a Truth,
    // its place in the text
    pub(crate) span: Span,
}

/// Why the shifts of a goal were not gathered.
#[derive(Clone, Copy, Debug, PartialEq, Eq, Error)]
pub enum GatherFault {
    /// There are more than [`MOST_SHIFTS`].
    #[error("there are more than 32 prior and next propositions")]
    TooMany,
    /// Memory ran out.
    #[error("out of memory")]
    Memory,
}

impl<T: Drop> From<AllocFailed<T>> for GatherFault {
    ghost use Rattle.std.specs.Prelude.{◌≡◌};
    ghost use Rattle.dcv_tracks.specs.declared.gathering.GatherFault.TheVariants.{Memory};

    ghost from_gives = { λ _ fault. fault ≡ Memory };

    fn from(_: AllocFailed<T>) -> Self {
        GatherFault::Memory
    }
}

// The proposition in a step, where it has one.
pub(crate) fn proposition(op: Op<'_>) -> Option<&Truth>
    ensures { option_map (λ truth. plain_truth truth.now) result ≡ step_truth (plain_op op.entry) }
{
    match op {
        Op::Atom(basic) => within(basic),
        _ => None,
    }
}

// The proposition in a form.
fn within(basic: &Basic) -> Option<&Truth>
    ensures { option_map (λ truth. plain_truth truth.now) result ≡ truth_in (plain_basic basic.now) }
{
    match basic {
        Basic::Constant(_) | Basic::Slen(..) => None,
        Basic::Bracketed(_, truth) | Basic::Counted(_, truth, ..) | Basic::Track(_, truth, _) => {
            Some(truth)
        }
    }
}

// ---- the same but for places

// Whether two propositions are the same but for their places.
#[cycle(same)]
fn same(one: &Truth, other: &Truth) -> bool
    ensures { result ≡ same_truth (plain_truth one.now) (plain_truth other.now) }
{
    match (one, other) {
        (Truth::Constant(one), Truth::Constant(other)) => one == other,
        (Truth::Slot(one), Truth::Slot(other)) => one == other,
        (Truth::Not(one), Truth::Not(other)) => same(one, other),
        (Truth::Joined(one, ones), Truth::Joined(other, others)) => {
            one == other && same_all(ones, others)
        }
        (Truth::Shift(direction, one, _), Truth::Shift(other_direction, other, _)) => {
            direction == other_direction && same(one, other)
        }
        _ => false,
    }
}

#[cycle(same)]
fn same_all(ones: &[Truth], others: &[Truth]) -> bool
    ensures { result ≡ same_truths (truths_of (map plain_truth ones.now)) (truths_of (map plain_truth others.now)) }
{
    if ones.len() != others.len() {
        return false;
    }
    for (one, other) in ones.iter().zip(others) {
        if !same(one, other) {
            return false;
        }
    }
    true
}

impl Shift<'_> {
    // Whether it is this shift, wherever that stands.
    fn is(&self, shift: &Shift<'_>) -> bool
        ensures { result ≡ same_shift (plain_shift shift.now) (plain_shift self.now) }
    {
        shift.direction == self.direction && same(shift.operand, self.operand)
    }
}

// Whether the shift is one of these.
fn is_among(shift: &Shift<'_>, shifts: &[Shift<'_>]) -> bool
    ensures { result ≡ list_any (same_shift (plain_shift shift.now)) (map plain_shift shifts.now) }
{
    shifts.iter().any(|seen| seen.is(shift))
}

// Which of these the shift is.
pub(crate) fn place_of(shift: &Shift<'_>, shifts: &[Shift<'_>]) -> usize
    ensures place { result ≡ position_or_len (same_shift (plain_shift shift.now)) (map plain_shift shifts.now) }
    ensures within { result ≤ length shifts.now }
{
    let place = shifts.iter().position(|seen| seen.is(shift));
    place.unwrap_or(shifts.len())
}

// ---- the shifts of a goal

// One more, unless the same is there.
fn add<'a>(shift: Shift<'a>, shifts: &mut Vec<Shift<'a>>) -> Result<(), GatherFault>
    requires few { length shifts.old.items ≤ most_shifts }
    ensures ok { IfOk result (λ _. map plain_shift shifts.new.items ≡ with_shift (map plain_shift shifts.old.items) (plain_shift shift.entry)) }
    ensures few { length shifts.new.items ≤ most_shifts }
    ensures too_many { IfErr result (λ fault. fault ≡ GatherFault.TooMany
        → most_shifts < length (with_shift (map plain_shift shifts.old.items) (plain_shift shift.entry))) }
{
    if is_among(&shift, shifts) {
        return Ok(());
    }
    if shifts.len() >= MOST_SHIFTS {
        return Err(GatherFault::TooMany);
    }
    shifts.push(shift)?;
    Ok(())
}

// The shifts of a proposition after those that are there, an inner one before the outer one.
#[cycle(gather)]
fn gather<'a>(truth: &'a Truth, shifts: &mut Vec<Shift<'a>>) -> Result<(), GatherFault>
    requires few { length shifts.old.items ≤ most_shifts }
    ensures ok { IfOk result (λ _. map plain_shift shifts.new.items ≡ collected (map plain_shift shifts.old.items) (plain_truth truth.now)) }
    ensures few { length shifts.new.items ≤ most_shifts }
    ensures too_many { IfErr result (λ fault. fault ≡ GatherFault.TooMany
        → most_shifts < length (collected (map plain_shift shifts.old.items) (plain_truth truth.now))) }
{
    match truth {
        Truth::Constant(_) | Truth::Slot(_) => Ok(()),
        Truth::Not(operand) => gather(operand, shifts),
        Truth::Joined(_, operands) => gather_all(operands, shifts),
        Truth::Shift(direction, operand, span) => {
            gather(operand, shifts)?;
            let shift = Shift {
                direction: *direction,
                operand,
                span: *span,
            };
            add(shift, shifts)
        }
    }
}

#[cycle(gather)]
fn gather_all<'a>(truths: &'a [Truth], shifts: &mut Vec<Shift<'a>>) -> Result<(), GatherFault>
    requires few { length shifts.old.items ≤ most_shifts }
    ensures ok { IfOk result (λ _. map plain_shift shifts.new.items
        ≡ all_collected (map plain_shift shifts.old.items) (truths_of (map plain_truth truths.now))) }
    ensures few { length shifts.new.items ≤ most_shifts }
    ensures too_many { IfErr result (λ fault. fault ≡ GatherFault.TooMany
        → most_shifts < length (all_collected (map plain_shift shifts.old.items) (truths_of (map plain_truth truths.now)))) }
{
    for truth in truths {
        gather(truth, shifts)?;
    }
    Ok(())
}

/// The shifts of a goal, an inner one before the outer one, from left to right.
pub fn shifts_of<'a>(alloc: Global, goal: &'a Core) -> Result<Vec<Shift<'a>>, GatherFault>
    ensures shifts { IfOk result (λ shifts. (tree : CoreTree) → IsCoreOf tree goal.now → map plain_shift shifts.items ≡ shifts_in tree) }
    ensures few { IfOk result (λ shifts. length shifts.items ≤ most_shifts) }
    ensures too_many { IfErr result (λ fault. fault ≡ GatherFault.TooMany → (tree : CoreTree) → IsCoreOf tree goal.now → most_shifts < length (shifts_in tree)) }
{
    let mut shifts = Vec::new(alloc);
    for step in 0..goal.steps() {
        if let Some(truth) = proposition(goal.op(step)) {
            gather(truth, &mut shifts)?;
        }
    }
    Ok(shifts)
}
