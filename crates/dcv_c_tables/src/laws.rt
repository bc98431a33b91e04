//! Laws of units of tables. Each function here does nothing: its contract is the law.
ghost use Rattle.dcv_c_tables.specs.Laws.{RulesMakeStepsSafe, TablesOfFile};

use dcv_automaton_text::laws::good_files_are_tables;
use dcv_word::laws::letters_of_width_are_all;

/// Each step of a unit that keeps the rules arrives at a state, reads nothing beyond an array, and looks at each parameter once at most.
pub fn rules_make_steps_safe()
    ensures { RulesMakeStepsSafe }
{}

/// The tables of a file that keeps the table rules are a unit that keeps the rules, and accept what the file's table does.
pub fn tables_accept_as_the_file()
    ensures { TablesOfFile }
{
    letters_of_width_are_all();
    good_files_are_tables();
}
