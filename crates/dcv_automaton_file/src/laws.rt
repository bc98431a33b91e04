//! The law of the file of an automaton. The function does nothing: its contract is the law.
ghost use Rattle.dcv_automaton_file.specs.Laws.{FileHasTheTable};

use dcv_dfa::laws::lines_are_of_tables;

/// The file of an automaton stands for the automaton's table.
pub fn files_stand_for_automata()
    ensures { FileHasTheTable }
{
    lines_are_of_tables();
}
