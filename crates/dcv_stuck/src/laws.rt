//! Laws of stuck words. Each function here does nothing: its contract is the law.
ghost use Rattle.dcv_stuck.specs.Laws.{SomeLeastStuck, OneLeastStuck, LeastStuckOfSameBehaviours, NeverStuckGoesOn};

/// A set with a canonical table has a least stuck word or none, a set has no two, and which it is depends on the behaviours of the set
/// alone.
pub fn least_stuck_is_of_sets()
    ensures some { SomeLeastStuck }
    ensures one { OneLeastStuck }
    ensures same { LeastStuckOfSameBehaviours }
{}

/// No word is stuck exactly where each word that keeps to the set can go on for ever.
pub fn never_stuck_goes_on()
    ensures { NeverStuckGoesOn }
{}
