//! Laws of the text of an automaton. Each function here does nothing: its contract is the law.
ghost use Rattle.dcv_automaton_text.specs.Laws.{OneFile, GoodFilesInWords, GoodFilesAreTables, TableHasTheFilesStates, WordsShowFewestStates};
ghost use Rattle.dcv_automaton_text.specs.Laws.{VersionsStandForTheSame, TextsOfVersions, SecondAndBackIsTheText};

use dcv_language::laws::no_table_has_fewer_states;
use dcv_word::laws::{letters_of_width_are_all, lines_are_read_back};

/// A text of the form has one file.
pub fn one_file()
    ensures { OneFile }
{
    lines_are_read_back();
}

/// A file keeps the table rules, which judge its text word by word, exactly where this is so: the names of its variables differ, each is
/// a name of at most 24 bytes, and there are at most 16; it has 1 to 32,000 states, a line and an access word for each of them, and at
/// most 1,000,000 nodes; the lines of each kind have the numbers 0, 1, 2 and so on.
///
/// A node has one of the variables, and two children that differ: each is a state that there is, or an earlier node of a later variable.
/// No two nodes have the same variable and the same children. A row is a state or a node that there is. A letter has a value for each
/// variable. The access word of a state is empty for state 0 at most, or a letter, or that of another state and a letter more; that other
/// state is not 0, and an earlier one unless the word is that of state 0. Suffix 0 is empty, and each other one is a letter and then an
/// earlier suffix. A step part has as many lines as it says, at most 131,168; each step starts at one of the first 262,144 bytes, with
/// 1 to 32,000 states and at most 1,000,000 nodes.
pub fn good_files_in_words()
    ensures { GoodFilesInWords }
{}

/// A file that keeps the table rules stands for a table automaton, with as many states as it says.
pub fn good_files_are_tables()
    ensures table { GoodFilesAreTables }
    ensures states { TableHasTheFilesStates }
{
    letters_of_width_are_all();
}

/// Where the suffixes of a file tell its access words apart by a set, no table automaton for the set has fewer states.
pub fn words_show_fewest_states()
    ensures { WordsShowFewestStates }
{
    no_table_has_fewer_states();
}

/// Each version of a text stands for the same automaton and the same words, and what goes to version 2 and back is as it was.
pub fn versions_stand_for_the_same()
    ensures same { VersionsStandForTheSame }
    ensures texts { TextsOfVersions }
    ensures back { SecondAndBackIsTheText }
{}
