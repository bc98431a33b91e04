//! Laws of a file's core. Each function here does nothing: its contract is the law.
ghost use Rattle.dcv_scope.specs.Laws.{GoalMeansText, CoreMeansText, WordsAreModels, StepsAreFew, SlotsAreFew, SlotsAreInUse, NoShiftIsLeft};

/// The goal without its macros means what the text means, whether or not its names are well used. So does the core, on the tracks of its prior and next
/// propositions, where none of these looks at a quantified variable.
pub fn core_means_text()
    ensures goal { GoalMeansText }
    ensures interval { CoreMeansText }
    ensures whole { WordsAreModels }
{}

/// The measures that are taken on the text bound the core: the number of its steps, and the slots of each. Its propositions
/// name no other slots.
pub fn measures_bound_core()
    ensures steps { StepsAreFew }
    ensures slots { SlotsAreFew }
    ensures in_use { SlotsAreInUse }
{}

/// No prior or next proposition is left in the core: each stands after the slot that it has.
pub fn no_shift_is_left()
    ensures { NoShiftIsLeft }
{}
