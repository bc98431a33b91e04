//! Laws of shifts. Each function here does nothing: its contract is the law.
ghost use Rattle.dcv_tracks.specs.Laws.{OneListOfTracks, GoalHoldsOnTracks, CoreHoldsOnWord};

/// For every word there is exactly one list of tracks that the rows of a goal's shifts accept.
pub fn one_list_of_tracks()
    ensures { OneListOfTracks }
{}

/// Where no shift looks at a quantified variable the goal with slots for its shifts holds on these tracks wherever the goal holds, and the core, which has a
/// track for each slot, on the words on which the goal does.
pub fn core_means_goal()
    ensures interval { GoalHoldsOnTracks }
    ensures whole { CoreHoldsOnWord }
{}
