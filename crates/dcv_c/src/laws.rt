//! Laws of units. Each function here does nothing: its contract is the law.
ghost use Rattle.dcv_c.specs.Laws.{NoLeftOverIsRead};
ghost use Rattle.dcv_c.specs.Laws.{ObserverOfFile, ObserverOfAutomaton};
ghost use Rattle.dcv_c.specs.Laws.{TextSpellsUnit, TextIsReadBack, SpellsOne, SpelledWords};
ghost use Rattle.dcv_c.specs.Laws.{OneFault, SomeReading, NoFaultWhereRead};

use dcv_automaton_file::laws::files_stand_for_automata;
use dcv_automaton_text::laws::good_files_are_tables;
use dcv_dfa::laws::{tables_accept_the_same, tables_have_the_states};
use dcv_word::laws::letters_of_width_are_all;

/// What was left in the locals of a unit that keeps the rules of names matters to no step.
pub fn nothing_left_over_is_read()
    ensures { NoLeftOverIsRead }
{}

/// The observer of a file that keeps the table rules is a unit of the subset, and accepts what the file's table does. So does that of an
/// automaton.
pub fn observers_accept_the_same()
    ensures file { ObserverOfFile }
    ensures automaton { ObserverOfAutomaton }
{
    letters_of_width_are_all();
    good_files_are_tables();
    files_stand_for_automata();
    tables_have_the_states();
    tables_accept_the_same();
}

/// The text of a unit spells it, and no text spells two. So it is read back as the unit. The words of what a text spells are those of the
/// grammar.
pub fn texts_spell_units()
    ensures text { TextSpellsUnit }
    ensures back { TextIsReadBack }
    ensures one { SpellsOne }
    ensures words { SpelledWords }
{}

/// Each text has one fault, or is read as a unit.
pub fn texts_are_units_or_at_fault()
    ensures some { SomeReading }
    ensures none { NoFaultWhereRead }
    ensures one { OneFault }
{}
