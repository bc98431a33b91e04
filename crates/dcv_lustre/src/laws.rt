//! Laws of nodes. Each function here does nothing: its contract is the law.
ghost use Rattle.dcv_lustre.specs.Laws.{TraceExists, TraceIsOne, TraceOfBeginning};
ghost use Rattle.dcv_lustre.specs.Laws.{ObserverOfFile, ObserverOfAutomaton};
ghost use Rattle.dcv_lustre.specs.Laws.{TextSpellsNode, TextIsReadBack, SpellsOne, SpelledWords};
ghost use Rattle.dcv_lustre.specs.Laws.{OneFault, SomeReading, NoFaultWhereRead};

use dcv_automaton_file::laws::files_stand_for_automata;
use dcv_automaton_text::laws::good_files_are_tables;
use dcv_dfa::laws::{tables_accept_the_same, tables_have_the_states};
use dcv_word::laws::letters_of_width_are_all;

/// A node that keeps the rules of names has one trace over each word, and over the beginning of a word the beginning of it.
pub fn one_trace()
    ensures some { TraceExists }
    ensures only { TraceIsOne }
    ensures beginning { TraceOfBeginning }
{}

/// The observer of a file that keeps the table rules is a node of the subset, and accepts what the file's table does. So does that of an
/// automaton.
pub fn observers_accept_the_same()
    ensures file { ObserverOfFile }
    ensures automaton { ObserverOfAutomaton }
{
    one_trace();
    letters_of_width_are_all();
    good_files_are_tables();
    files_stand_for_automata();
    tables_have_the_states();
    tables_accept_the_same();
}

/// The text of a node spells it, and no text spells two. So it is read back as the node. The words of what a text spells are those of the
/// grammar.
pub fn texts_spell_nodes()
    ensures text { TextSpellsNode }
    ensures back { TextIsReadBack }
    ensures one { SpellsOne }
    ensures words { SpelledWords }
{}

/// Each text has one fault, or is read as a node.
pub fn texts_are_nodes_or_at_fault()
    ensures some { SomeReading }
    ensures none { NoFaultWhereRead }
    ensures one { OneFault }
{}
