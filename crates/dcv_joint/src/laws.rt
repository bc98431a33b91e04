//! Laws of joint names. Each function here does nothing: its contract is the law.
ghost use Rattle.dcv_joint.specs.Laws.{MovedMeansRestricted, FileMeansOver, StepsAreInUse, NamesFit, JointNamesDiffer, JointHasEach, JointOfOne};
ghost use Rattle.dcv_joint.specs.Laws.{RestrictedIsBehaviour, RestrictedToAll, RestrictedInTurn, EachIsRestricted};

use dcv_scope::laws::{core_means_text, measures_bound_core};

/// A moved core holds on a behaviour over the joint names exactly where the core holds on what that is on the own names, and so for the core of a
/// file. The steps of that name only slots in use.
pub fn moved_means_restricted()
    ensures tree { MovedMeansRestricted }
    ensures file { FileMeansOver }
    ensures in_use { StepsAreInUse }
{
    core_means_text();
    measures_bound_core();
}

/// The joint list has the names of each list once, and that of one list is the list. Names fit exactly where the list is not too long.
pub fn names_are_joint()
    ensures fit { NamesFit }
    ensures differ { JointNamesDiffer }
    ensures each { JointHasEach }
    ensures one { JointOfOne }
{}

/// A behaviour over the joint names is a behaviour on the own ones. On all of its names it is itself, and on some names and then on fewer of these it
/// is what it is on these at once. Each behaviour over the own names comes from one over the joint names.
pub fn words_are_restricted()
    ensures behaviour { RestrictedIsBehaviour }
    ensures all { RestrictedToAll }
    ensures in_turn { RestrictedInTurn }
    ensures each { EachIsRestricted }
{}
