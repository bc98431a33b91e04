//! Laws of the logic. Each function here does nothing: its contract is the law.
ghost use Rattle.dcv_logic.specs.Laws.{SomeBetweenIsThere, EachBetweenIsEvery, SomeTrackIsThere};
ghost use Rattle.dcv_logic.specs.Laws.{TrackHasEachInstant, TrackHasItsValues, CountFromCounts, CountBetweenCounts};
ghost use Rattle.dcv_logic.specs.Laws.{RunInWords, EveryInWords, ChopOfOne, ChopInWords, StarInWords, StarBoundIsFree};
ghost use Rattle.dcv_logic.specs.Laws.{SomewhereInWords, EverywhereInWords, ExistsInWords, ForAllInWords};

/// A search is true exactly where what it searches for is there.
pub fn searches_find()
    ensures some { SomeBetweenIsThere }
    ensures each { EachBetweenIsEvery }
    ensures track { SomeTrackIsThere }
{}

/// A track has the value at each instant of the behaviour.
pub fn tracks_have_values()
    ensures length { TrackHasEachInstant }
    ensures values { TrackHasItsValues }
{}

/// The counts of `scount` and `sdur` are of the instants that have the proposition.
pub fn counts_count()
    ensures from { CountFromCounts }
    ensures between { CountBetweenCounts }
{}

/// The forms whose meaning is a search over instants, each in the words of the logic.
pub fn forms_in_words()
    ensures run { RunInWords }
    ensures every { EveryInWords }
    ensures one { ChopOfOne }
    ensures chop { ChopInWords }
    ensures star { StarInWords }
    ensures bound { StarBoundIsFree }
    ensures somewhere { SomewhereInWords }
    ensures everywhere { EverywhereInWords }
{}

/// The quantifiers range over all lists of truths as long as the behaviour.
pub fn quantifiers_in_words()
    ensures exists { ExistsInWords }
    ensures for_all { ForAllInWords }
{}
