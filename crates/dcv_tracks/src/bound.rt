// The first shift of a goal that looks at a quantified variable.
ghost use Rattle.std.specs.Prelude.{◌≡◌, map};
ghost use Rattle.dcv_core.specs.Core.{CoreTree};
ghost use Rattle.dcv_core.specs.Steps.{IsCoreOf};
ghost use Rattle.dcv_core.specs.TruthViews.{plain_truth, truths_of};
ghost use Rattle.dcv_tracks.specs.Shifting.{names_bound, some_names_bound, bound_in, first_bound, bound_shift};

use crate::gathering::proposition;
use dcv_core::{Core, Truth};

// Whether a slot after the declared ones stands in it.
#[cycle(bound)]
fn has_bound(declared: u8, truth: &Truth) -> bool
    ensures { result ≡ names_bound declared (plain_truth truth.now) }
{
    match truth {
        Truth::Constant(_) => false,
        Truth::Slot(slot) => declared <= *slot,
        Truth::Not(operand) | Truth::Shift(_, operand, _) => has_bound(declared, operand),
        Truth::Joined(_, operands) => has_bound_among(declared, operands),
    }
}

#[cycle(bound)]
fn has_bound_among(declared: u8, truths: &[Truth]) -> bool
    ensures { result ≡ some_names_bound declared (truths_of (map plain_truth truths.now)) }
{
    for truth in truths {
        if has_bound(declared, truth) {
            return true;
        }
    }
    false
}

// Where the first shift of a proposition stands that looks at a quantified variable, the outer one before those in it.
#[cycle(first)]
fn bound_within(declared: u8, truth: &Truth) -> Option<u32>
    ensures { result ≡ bound_in declared (plain_truth truth.now) }
{
    match truth {
        Truth::Constant(_) | Truth::Slot(_) => None,
        Truth::Not(operand) => bound_within(declared, operand),
        Truth::Joined(_, operands) => first_bound_among(declared, operands),
        Truth::Shift(_, operand, span) => has_bound(declared, operand).then_some(span.start),
    }
}

#[cycle(first)]
fn first_bound_among(declared: u8, truths: &[Truth]) -> Option<u32>
    ensures { result ≡ first_bound declared (truths_of (map plain_truth truths.now)) }
{
    for truth in truths {
        if let Some(at) = bound_within(declared, truth) {
            return Some(at);
        }
    }
    None
}

/// The offset of the first shift of a goal whose operand has a quantified variable, or none. An outer shift comes before those
/// in its operand.
pub fn bound_shift_of(goal: &Core) -> Option<u32>
    ensures { (tree : CoreTree) → IsCoreOf tree goal.now → result ≡ bound_shift goal.now.declared tree }
{
    for step in 0..goal.steps() {
        if let Some(truth) = proposition(goal.op(step)) {
            if let Some(at) = bound_within(goal.declared(), truth) {
                return Some(at);
            }
        }
    }
    None
}
