//! Laws on what is right, each the contract of a function that does nothing.
ghost use Rattle.dcv_cli.specs.Headline.{Headline, HeadlineIsComplete, TablesHeadline, TablesHeadlineIsComplete};
ghost use Rattle.dcv_cli.specs.Laws.{OneOutcome, SomeOutcome, EqualMeanings, PrintedIsCertified, ConvertedBackIsTheText, ImpliesBothWays, NeverStuckIsRealisable};

use dcv_automaton_text::laws::{one_file as one_automaton_text, versions_stand_for_the_same};
use dcv_build::laws::{machines_accept_steps, one_list_of_counts, one_step_is_over};
use dcv_c::laws::{texts_are_units_or_at_fault, texts_spell_units};
use dcv_certify::laws::{
    minimal_shows_fewest_states, one_answer, printed_is_certified as good_words_are_certified,
};
use dcv_command::laws::taken_words_ask;
use dcv_implies::laws::{none_is_inclusion, one_answer as one_comparison};
use dcv_joint::laws::{moved_means_restricted, names_are_joint};
use dcv_language::laws::{
    complement_is_canonical, one_canonical_table, one_verdict, verdict_of_same_behaviours,
};
use dcv_lustre::laws::{texts_are_nodes_or_at_fault, texts_spell_nodes};
use dcv_print::laws::{
    automaton_has_fewest_states, automaton_of_same_behaviours, one_automaton, one_observer,
    printed_is_automaton, printed_observers_observe,
};
use dcv_reader::laws::{names_are_short, one_fault, one_tree, some_reading};
use dcv_replay::laws::{letters_have_one_text_of_answers, traces_have_one_verdict};
use dcv_scope::laws::{core_means_text, measures_bound_core};
use dcv_stuck::laws::never_stuck_goes_on;
use dcv_sweep::laws::one_summary;
use dcv_synth::laws::{
    answers_are_one, controls_win, least_lines_are_one, one_side_is_right, some_player_wins,
    strategies_beat, units_answer, winners_of_same_behaviours,
};
use dcv_tables_read::laws::{
    read_units_keep_the_rules, texts_are_units_or_at_fault as texts_are_tables_or_at_fault,
};
use dcv_together::laws::{one_answer as one_answer_of_sets, some_answer};

/// The promise of the program, of whatever is right where the words ask for `all` of a text: its first fault is named, or the first step that
/// is over the limits; or an automaton, a Lustre observer and a C observer are printed that each, by its own written meaning, accept exactly the
/// behaviours that satisfy the formula, no automaton with fewer states does, as its printed words show, and the status is 0 exactly where
/// every behaviour satisfies it, with a shortest counterexample where one does not. All of it is printed of each formula file whose steps are
/// within the limits. So is, for `tables`, an observer in constant tables, each step of which ends, reads nothing beyond an array, and looks at
/// each variable once at most.
pub fn headline()
    ensures answered { Headline }
    ensures complete { HeadlineIsComplete }
    ensures tables { TablesHeadline }
    ensures tables_complete { TablesHeadlineIsComplete }
{
    one_tree();
    one_step_is_over();
    automaton_has_fewest_states();
}

/// One outcome at most is right for the words and the texts that are held. So each status, report and message that
/// the clauses of [`run`](crate::run) call right is the only one.
pub fn one_outcome()
    ensures { OneOutcome }
{
    one_tree();
    one_fault();
    one_verdict();
    one_step_is_over();
    one_list_of_counts();
    one_automaton();
    one_observer();
    one_automaton_text();
    one_answer();
    one_comparison();
    texts_spell_nodes();
    texts_are_nodes_or_at_fault();
    texts_spell_units();
    texts_are_units_or_at_fault();
    texts_are_tables_or_at_fault();
    traces_have_one_verdict();
    letters_have_one_text_of_answers();
    one_summary();
    one_answer_of_sets();
    one_canonical_table();
    answers_are_one();
    one_side_is_right();
    least_lines_are_one();
}

/// Some outcome is right for all words, where the files that they name are held. So no words, and no texts, leave [`run`](crate::run)
/// nothing to answer but that memory has run out.
pub fn some_outcome()
    ensures { SomeOutcome }
{
    some_reading();
    names_are_short();
    taken_words_ask();
    texts_are_nodes_or_at_fault();
    texts_are_units_or_at_fault();
    texts_are_tables_or_at_fault();
    texts_spell_units();
    read_units_keep_the_rules();
    traces_have_one_verdict();
    letters_have_one_text_of_answers();
    minimal_shows_fewest_states();
    machines_accept_steps();
    complement_is_canonical();
    core_means_text();
    measures_bound_core();
    none_is_inclusion();
    printed_is_automaton();
    printed_observers_observe();
    automaton_of_same_behaviours();
    one_observer();
    some_player_wins();
    controls_win();
    strategies_beat();
    winners_of_same_behaviours();
    units_answer();
    least_lines_are_one();
    never_stuck_goes_on();
    moved_means_restricted();
    names_are_joint();
    some_answer();
}

/// Formula files with the same variables and the same models have the same answer: the same verdict, the same observers, and the same
/// automaton up to its last access word. After that come its suffixes, and the costs of the steps.
pub fn equal_meanings()
    ensures { EqualMeanings }
{
    one_tree();
    one_verdict();
    verdict_of_same_behaviours();
    one_automaton();
    automaton_of_same_behaviours();
    one_observer();
}

/// Each text of an automaton that is printed is certified when it is read back, and so is that part of the text of `all`.
pub fn printed_is_certified()
    ensures { PrintedIsCertified }
{
    one_automaton_text();
    one_answer();
    good_words_are_certified();
}

/// The text of an automaton of version 1 that is converted to version 2, and what comes of that to version 1, is as it was.
pub fn converted_back_is_the_text()
    ensures { ConvertedBackIsTheText }
{
    one_automaton_text();
    versions_stand_for_the_same();
}

/// Formula files of which each implies the other have the same variables and the same models, so [`equal_meanings`] speaks of them.
pub fn implies_both_ways()
    ensures { ImpliesBothWays }
{
    one_tree();
    none_is_inclusion();
}

/// A requirement that never gets stuck has a controller without inputs. Where `stuck` answers so, `synth` with 0 inputs is `realisable`, unless it
/// refuses the file: for more variables than outputs may be, or for a step that is over the limits.
pub fn never_stuck_is_realisable()
    ensures { NeverStuckIsRealisable }
{
    one_tree();
}
