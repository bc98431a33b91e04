//! Laws of the text that is printed of an automaton. Each function here does nothing: its contract is the law.
ghost use Rattle.dcv_print.specs.Laws.{PrintedIsSpellable, PrintedIsGood, PrintedTable, PrintedAccess, PrintedSuffixes, PrintedSteps};
ghost use Rattle.dcv_print.specs.Laws.{OneNode, OneUnit, NodeOfSameBehaviours, UnitOfSameBehaviours, PrintedSaysNode, PrintedSaysUnit};
ghost use Rattle.dcv_print.specs.Laws.{PrintedIsReadBack, PrintedIsAutomaton, OneAutomaton, AutomatonOfSameBehaviours, AutomatonHasFewestStates};
ghost use Rattle.dcv_print.specs.Laws.{NodeOfVersions, UnitOfVersions, TablesOfVersions, OneTables, TablesOfSameBehaviours, PrintedSaysTables};

use dcv_automaton_read::laws::good_texts_are_read;
use dcv_automaton_text::laws::words_show_fewest_states;
use dcv_dfa::laws::lines_are_of_tables;
use dcv_language::laws::{
    canonical_for_same_behaviours, no_table_has_fewer_states, one_canonical_table,
};

/// The text of an automaton is a text of the form, and keeps the table rules.
pub fn printed_texts_are_good()
    ensures form { PrintedIsSpellable }
    ensures rules { PrintedIsGood }
{}

/// The text of an automaton is read back as what was printed, unless memory runs out.
pub fn printed_texts_are_read_back()
    ensures { PrintedIsReadBack }
{
    printed_texts_are_good();
    good_texts_are_read();
}

/// The text of an automaton stands for its table, for its access words, for the suffixes and for what the steps took.
pub fn printed_texts_stand_for_automata()
    ensures table { PrintedTable }
    ensures access { PrintedAccess }
    ensures suffixes { PrintedSuffixes }
    ensures steps { PrintedSteps }
{
    lines_are_of_tables();
}

/// What is printed of an automaton says the canonical automaton of the words that it accepts.
pub fn printed_is_automaton()
    ensures { PrintedIsAutomaton }
{
    lines_are_of_tables();
}

/// What says the canonical automaton of a set is determined up to its last access line.
pub fn one_automaton()
    ensures { OneAutomaton }
{
    one_canonical_table();
}

/// What says the automaton of a set says that of each set with the same behaviours.
pub fn automaton_of_same_behaviours()
    ensures { AutomatonOfSameBehaviours }
{
    canonical_for_same_behaviours();
}

/// No table automaton for a set has fewer states than what says the automaton of the set.
pub fn automaton_has_fewest_states()
    ensures { AutomatonHasFewestStates }
{
    words_show_fewest_states();
}

/// One text of a subset at most says an observer of a set, and it says one of each set with the same behaviours.
pub fn one_observer()
    ensures node { OneNode }
    ensures unit { OneUnit }
    ensures tables { OneTables }
    ensures node_of_same { NodeOfSameBehaviours }
    ensures unit_of_same { UnitOfSameBehaviours }
    ensures tables_of_same { TablesOfSameBehaviours }
{
    one_automaton();
    automaton_of_same_behaviours();
}

/// What the steps took does not matter to an observer.
pub fn versions_have_the_same_observers()
    ensures node { NodeOfVersions }
    ensures unit { UnitOfVersions }
    ensures tables { TablesOfVersions }
{}

/// The flat texts of an automaton's observers are read as these. They and its tables accept the behaviours that the automaton accepts.
pub fn printed_observers_observe()
    ensures node { PrintedSaysNode }
    ensures unit { PrintedSaysUnit }
    ensures tables { PrintedSaysTables }
{
    printed_is_automaton();
    dcv_lustre::laws::observers_accept_the_same();
    dcv_lustre::laws::texts_spell_nodes();
    dcv_c::laws::observers_accept_the_same();
    dcv_c::laws::texts_spell_units();
    dcv_c_tables::laws::tables_accept_as_the_file();
}
