// From a file to its core, or to the first fault of its names or its goal.
ghost use Rattle.std.specs.Prelude.{◌≡◌, ◌≢◌, ◌≤◌, None, Some, length, map, IfOk, IfErr, OnOk};
ghost use Rattle.dcv_syntax.specs.Views.{plain_file};
ghost use Rattle.dcv_scope.specs.Faults.{most_slots, measure_fault, fault_of_goal, fault_of_file};
ghost use Rattle.dcv_scope.specs.Linear.{capped_numbers, numbers_of};
ghost use Rattle.dcv_scope.specs.Measures.{measure_of_file, slots_of_file};
ghost use Rattle.dcv_scope.specs.CoreOf.{expanded_file, core_of_file};
ghost use Rattle.dcv_tracks.specs.Shifting.{shifts_in};
ghost use Rattle.dcv_tracks.specs.ShiftViews.{plain_shift};
ghost use Rattle.dcv_core.specs.Steps.{steps_of, without_core, IsCoreOf};

use crate::expansion::expanded_goal;
use crate::faults::{MOST_DEPTH, MOST_NODES, MOST_SLOTS, ScopeFault};
use crate::measures::{Measure, measure_of_goal, measures_of_macros};
use crate::naming::fault_of_names;
use dcv_core::Core;
use dcv_syntax::File;
use dcv_tracks::{GatherFault, Shift, bound_shift_of, core_of, shifts_of};
use std::alloc::Global;

/// The core of the file's goal, or the first fault of the file: of its names in the order of the text, whether a macro is called
/// or not; then of the goal's size, depth and slots; then of a prior or next proposition that looks at a quantified variable.
/// Size and depth are found before any step is made.
pub fn expand(alloc: Global, file: &File) -> Result<Core, ScopeFault>
    ensures declared { IfOk result (λ core. core.declared ≡ length (plain_file file.now).variables) }
    ensures steps { IfOk result (λ core. core.steps ≡ map without_core
        (steps_of (length (plain_file file.now).variables) (core_of_file (plain_file file.now)))) }
    ensures no_fault { OnOk result (fault_of_file (plain_file file.now) ≡ None) }
    ensures fault { IfErr result (λ fault. fault ≢ ScopeFault.Memory → fault_of_file (plain_file file.now) ≡ Some fault) }
{
    if let Some(fault) = fault_of_names(alloc, file)? {
        return Err(fault);
    }
    let macros = measures_of_macros(alloc, file)?;
    let measure = measure_of_goal(alloc, file, &macros)?;
    if let Some(fault) = measure_fault(file, measure) {
        return Err(fault);
    }
    let goal = expanded_goal(alloc, file, &macros)?;
    core_of_goal(alloc, file, measure, &goal)
}

// The fault of the goal that its measure alone shows.
fn measure_fault(file: &File, measure: Measure) -> Option<ScopeFault>
    requires { measure ≡ capped_numbers (numbers_of (measure_of_file (plain_file file.now))) }
    ensures { result ≡ measure_fault (plain_file file.now) }
{
    let at = file.goal.span.start;
    let slots = file.variables.len() + measure.quantifiers as usize;
    if measure.size > MOST_NODES {
        return Some(ScopeFault::Size { at });
    }
    if measure.depth > MOST_DEPTH {
        return Some(ScopeFault::Depth { at });
    }
    if slots > MOST_SLOTS as usize {
        return Some(ScopeFault::Slots { at });
    }
    None
}

// The core of the goal that is left of a file without its macros.
fn core_of_goal(
    alloc: Global,
    file: &File,
    measure: Measure,
    goal: &Core,
) -> Result<Core, ScopeFault>
    requires measure { measure ≡ capped_numbers (numbers_of (measure_of_file (plain_file file.now))) }
    requires within { measure_fault (plain_file file.now) ≡ None }
    requires declared { goal.now.declared ≡ length (plain_file file.now).variables }
    requires steps { goal.now.steps ≡ map without_core (steps_of (length (plain_file file.now).variables) (expanded_file (plain_file file.now))) }
    ensures declared { IfOk result (λ core. core.declared ≡ length (plain_file file.now).variables) }
    ensures steps { IfOk result (λ core. core.steps ≡ map without_core
        (steps_of (length (plain_file file.now).variables) (core_of_file (plain_file file.now)))) }
    ensures no_fault { OnOk result (fault_of_goal (plain_file file.now) ≡ None) }
    ensures fault { IfErr result (λ fault. fault ≢ ScopeFault.Memory → fault_of_goal (plain_file file.now) ≡ Some fault) }
{
    let shifts = shifts_within_slots(alloc, file, measure, goal)?;
    if let Some(at) = bound_shift_of(goal) {
        return Err(ScopeFault::BoundShift { at });
    }
    Ok(core_of(alloc, goal, &shifts)?)
}

// The shifts of the goal, where it has slots for them.
fn shifts_within_slots<'a>(
    alloc: Global,
    file: &File,
    measure: Measure,
    goal: &'a Core,
) -> Result<Vec<Shift<'a>>, ScopeFault>
    requires measure { measure ≡ capped_numbers (numbers_of (measure_of_file (plain_file file.now))) }
    requires within { measure_fault (plain_file file.now) ≡ None }
    requires goal { IsCoreOf (expanded_file (plain_file file.now)) goal.now }
    ensures shifts { IfOk result (λ shifts. map plain_shift shifts.items ≡ shifts_in (expanded_file (plain_file file.now))) }
    ensures slots { OnOk result (slots_of_file (plain_file file.now) ≤ most_slots) }
    ensures fault { IfErr result (λ fault. fault ≢ ScopeFault.Memory → fault_of_goal (plain_file file.now) ≡ Some fault) }
{
    let at = file.goal.span.start;
    let shifts = match shifts_of(alloc, goal) {
        Ok(shifts) => shifts,
        Err(GatherFault::TooMany) => return Err(ScopeFault::Slots { at }),
        Err(GatherFault::Memory) => return Err(ScopeFault::Memory),
    };
    let slots = file.variables.len() + shifts.len() + measure.quantifiers as usize;
    if slots > MOST_SLOTS as usize {
        return Err(ScopeFault::Slots { at });
    }
    Ok(shifts)
}
