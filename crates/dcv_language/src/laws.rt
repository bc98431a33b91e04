//! Laws of verdicts, canonical tables, searches and operations on sets. Each function here does nothing: its contract is
//! the law.
ghost use Rattle.dcv_language.specs.Laws.{OneVerdict, VerdictOfSameBehaviours};
ghost use Rattle.dcv_language.specs.Laws.{OneCanonicalTable, AccessWordsAreLeast, AccessWordsLead, CanonicalForSameBehaviours};
ghost use Rattle.dcv_language.specs.Laws.{ComplementIsCanonical, FoldingIsCanonical};
ghost use Rattle.dcv_language.specs.Laws.{WordsApartAreNoMoreThanStates, CanonicalIsMinimal, CertifiedIsMinimal, OneWordNeedsNoSuffix, FirstSuffixIsEmpty};
ghost use Rattle.dcv_language.specs.Laws.{FrontOfLeastIsLeast, SearchFindsAll, FoundWordsAreLeast};
ghost use Rattle.dcv_language.specs.Laws.{SearchFindsAllBefore, FoundWordsAreLeastBefore, LaterWordsGoOnLater, LaterLettersGoOnLater};
ghost use Rattle.dcv_language.specs.Laws.{OutsideKeepsSameness, IntersectionKeepsSameness, UnionKeepsSameness, AgreementKeepsSameness};
ghost use Rattle.dcv_language.specs.Laws.{ChopKeepsSameness, StarKeepsSameness, ProjectionKeepsSameness};

use dcv_word::laws::{letters_are_numbers, word_order_is_kept, words_are_in_order};

/// A set of behaviours has one verdict at most.
pub fn one_verdict()
    ensures { OneVerdict }
{
    words_are_in_order();
}

/// The verdict of a set is that of each set with the same behaviours.
pub fn verdict_of_same_behaviours()
    ensures { VerdictOfSameBehaviours }
{}

/// A set has one canonical table at most, with one list of access words.
pub fn one_canonical_table()
    ensures { OneCanonicalTable }
{
    words_are_in_order();
    word_order_is_kept();
    letters_are_numbers();
}

/// Each access word leads to its state, and one that is not empty is the least behaviour that does, that of the start too.
pub fn access_words_are_least()
    ensures least { AccessWordsAreLeast }
    ensures lead { AccessWordsLead }
{}

/// A table that is canonical for a set is so for each set with the same behaviours.
pub fn canonical_for_same_behaviours()
    ensures { CanonicalForSameBehaviours }
{}

/// The complement of a canonical table is canonical for the complement, with the same access words.
pub fn complement_is_canonical()
    ensures { ComplementIsCanonical }
{}

/// The quotient of a raw automaton is canonical for what the raw automaton accepts: what a minimiser has to establish.
pub fn folding_is_canonical()
    ensures { FoldingIsCanonical }
{
    words_are_in_order();
    word_order_is_kept();
    letters_are_numbers();
}

/// Each table automaton for a set has at least as many states as there are words of which every two are told apart, so at
/// least as many as a canonical table has, and as a certificate has access words.
pub fn no_table_has_fewer_states()
    ensures words { WordsApartAreNoMoreThanStates }
    ensures canonical { CanonicalIsMinimal }
    ensures certificate { CertifiedIsMinimal }
{}

/// With one access word there is no suffix, and with more the first suffix is empty.
pub fn suffixes_begin_empty()
    ensures one { OneWordNeedsNoSuffix }
    ensures more { FirstSuffixIsEmpty }
{}

/// A breadth-first search, in the letters' order from each state in turn, finds every state that a behaviour leads to, each by
/// the least word; and one that stops at a bound finds so every state that a behaviour before the bound leads to. The words
/// that it finds one after another ascend.
pub fn breadth_first_is_least()
    ensures front { FrontOfLeastIsLeast }
    ensures all { SearchFindsAll }
    ensures least { FoundWordsAreLeast }
    ensures all_before { SearchFindsAllBefore }
    ensures least_before { FoundWordsAreLeastBefore }
    ensures later_words { LaterWordsGoOnLater }
    ensures later_letters { LaterLettersGoOnLater }
{
    words_are_in_order();
    word_order_is_kept();
}

/// On behaviours of one width, an operation's result has the same behaviours where its operands have.
pub fn operations_keep_sameness()
    ensures outside { OutsideKeepsSameness }
    ensures intersection { IntersectionKeepsSameness }
    ensures union { UnionKeepsSameness }
    ensures agreement { AgreementKeepsSameness }
    ensures chop { ChopKeepsSameness }
    ensures star { StarKeepsSameness }
    ensures projection { ProjectionKeepsSameness }
{}
