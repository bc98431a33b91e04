//! Laws of the working machines: what each accepts, and of the sets of states that some of them keep. Each function here
//! does nothing: its contract is the law.
ghost use Rattle.dcv_language.specs.MachineLaws.{ConstantMachineAccepts, PointMachineAccepts, RunMachineAccepts, EveryMachineAccepts, UnitMachineAccepts};
ghost use Rattle.dcv_language.specs.MachineLaws.{SlenMachineAccepts, ScountMachineAccepts, SdurMachineAccepts};
ghost use Rattle.dcv_language.specs.MachineLaws.{EqualSettles, LessSettles, AtMostSettles, GreaterSettles, AtLeastSettles};
ghost use Rattle.dcv_language.specs.MachineLaws.{NotMachineAccepts, AndMachineAccepts, OrMachineAccepts, IffMachineAccepts};
ghost use Rattle.dcv_language.specs.MachineLaws.{ChopMachineAccepts, StarMachineAccepts, ExistsMachineAccepts};
ghost use Rattle.dcv_language.specs.MachineLaws.{NotMachineOfSet, AndMachineOfSets, OrMachineOfSets, IffMachineOfSets};
ghost use Rattle.dcv_language.specs.MachineLaws.{ChopMachineOfSets, StarMachineOfSet, ExistsMachineOfSet};
ghost use Rattle.dcv_language.specs.MachineLaws.{SetAscends, SetHasTheListed, SetIsOne};

use crate::laws::operations_keep_sameness;

/// The machines of the constants and of the brackets accept what these say.
pub fn brackets_accept()
    ensures constant { ConstantMachineAccepts }
    ensures point { PointMachineAccepts }
    ensures run { RunMachineAccepts }
    ensures every { EveryMachineAccepts }
    ensures unit { UnitMachineAccepts }
{}

/// The machine of a measure accepts what the measure says, although it does not count beyond `n + 1`: the test of the count
/// must not tell greater numbers apart.
pub fn measures_accept()
    ensures slen { SlenMachineAccepts }
    ensures scount { ScountMachineAccepts }
    ensures sdur { SdurMachineAccepts }
{}

/// None of the five comparisons with `n` tells numbers above `n` apart.
pub fn comparisons_settle()
    ensures equal { EqualSettles }
    ensures less { LessSettles }
    ensures at_most { AtMostSettles }
    ensures greater { GreaterSettles }
    ensures at_least { AtLeastSettles }
{}

/// The machine of an operation accepts the operation of what its operands accept.
pub fn operations_accept()
    ensures not { NotMachineAccepts }
    ensures and { AndMachineAccepts }
    ensures or { OrMachineAccepts }
    ensures iff { IffMachineAccepts }
    ensures chop { ChopMachineAccepts }
    ensures star { StarMachineAccepts }
    ensures exists { ExistsMachineAccepts }
{}

/// Where the operands accept the behaviours of some sets, the machine accepts those of the operation of these sets.
pub fn operations_accept_sets()
    ensures not { NotMachineOfSet }
    ensures and { AndMachineOfSets }
    ensures or { OrMachineOfSets }
    ensures iff { IffMachineOfSets }
    ensures chop { ChopMachineOfSets }
    ensures star { StarMachineOfSet }
    ensures exists { ExistsMachineOfSet }
{
    operations_accept();
    operations_keep_sameness();
}

/// A set of listed states ascends, has what the listed states have, and is the only ascending list of these states.
pub fn sets_are_lists()
    ensures ascends { SetAscends }
    ensures some { SetHasTheListed }
    ensures one { SetIsOne }
{}
