//! Laws of what is said of an automaton's text. Each function here does nothing: its contract is the law.
ghost use Rattle.dcv_certify.specs.Laws.{OneAnswer, MinimalShowsFewestStates, MinimalReachesEachState, PrintedIsCertified};

use dcv_language::laws::{access_words_are_least, no_table_has_fewer_states};

/// A file has one answer at most.
pub fn one_answer()
    ensures { OneAnswer }
{}

/// Where the words of a file show it, no table automaton for the same set has fewer states, and each state is reached.
pub fn minimal_shows_fewest_states()
    ensures fewest { MinimalShowsFewestStates }
    ensures reached { MinimalReachesEachState }
{
    no_table_has_fewer_states();
}

/// What says the canonical automaton of a set, with a certificate, is minimal. So it is with each text of an automaton that is printed.
pub fn printed_is_certified()
    ensures { PrintedIsCertified }
{
    access_words_are_least();
}
