//! Laws of the core. Each function here does nothing: its contract is the law.
ghost use Rattle.dcv_core.specs.Laws.{CoreIsLocal, StepsAreOperations, LastStepIsCore};
ghost use Rattle.dcv_core.specs.Laws.{WordsOfAtom, WordsOfNot, WordsOfJoined, WordsOfChop, WordsOfStar, WordsOfExists};

/// What a core says of an interval depends on the letters of that interval alone.
pub fn core_is_local()
    ensures { CoreIsLocal }
{}

/// The words of a core are the operation of `dcv_language` on the words of its operands.
pub fn words_are_operations()
    ensures atom { WordsOfAtom }
    ensures not { WordsOfNot }
    ensures joined { WordsOfJoined }
    ensures chop { WordsOfChop }
    ensures star { WordsOfStar }
    ensures exists { WordsOfExists }
{}

/// So are the words of each step, and its operands are earlier steps. The last step is the core's own.
pub fn steps_are_operations()
    ensures each { StepsAreOperations }
    ensures last { LastStepIsCore }
{}
