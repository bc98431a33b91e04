//! Laws of raw and canonical automata, as tables. Each function here does nothing: its contract is the law.
ghost use Rattle.dcv_dfa.specs.Laws.{TableHasTheStates, TableHasTheFlags, TableHasTheSteps, StatesMakeATable};
ghost use Rattle.dcv_dfa.specs.Laws.{TableLeadsAsTheStates, TableAcceptsAsTheStates, TableOfComplement, OneListOfAccessWords};
ghost use Rattle.dcv_dfa.specs.Laws.{OneTableHasOneListOfLines, LinesLeadAsTheRows};
ghost use Rattle.dcv_dfa.specs.Laws.{SameRowsHaveOneListOfLines, LinesHaveTheNumbersOfTheRows};

use dcv_language::laws::one_canonical_table;

/// The table of a raw automaton has a state for each state, with its flag and its steps at letters of the width.
pub fn tables_have_the_states()
    ensures states { TableHasTheStates }
    ensures flags { TableHasTheFlags }
    ensures steps { TableHasTheSteps }
    ensures table { StatesMakeATable }
{}

/// The table of a raw automaton that starts in state 0 leads where the automaton leads, and accepts what it accepts.
pub fn tables_accept_the_same()
    ensures leads { TableLeadsAsTheStates }
    ensures accepts { TableAcceptsAsTheStates }
{}

/// The table of the complement is the complement of the table.
pub fn complements_are_of_tables()
    ensures { TableOfComplement }
{}

/// The access words of a canonical automaton are determined.
pub fn access_words_are_one()
    ensures { OneListOfAccessWords }
{
    one_canonical_table();
}

/// The node lines of an automaton are determined by its table, and lead where its rows lead.
pub fn lines_are_of_tables()
    ensures one { OneTableHasOneListOfLines }
    ensures lead { LinesLeadAsTheRows }
{}

/// The node lines of rows are determined by the rows' numbers, and have these numbers.
pub fn lines_are_of_rows()
    ensures one { SameRowsHaveOneListOfLines }
    ensures numbers { LinesHaveTheNumbersOfTheRows }
{}
