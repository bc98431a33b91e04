//! Laws on the words of the command line, each the contract of a function that does nothing.
ghost use Rattle.dcv_command.specs.Laws.{TakenWordsAreCommandLines, TakenWordsAsk, ListedWordsAreTaken};

/// Which words are taken: those in which `clap` finds no fault for the program of the table are those that pass its test for it, and those
/// that are a command's name and words in which it finds no fault for that command. They ask for what `clap`'s matches of these say.
pub fn taken_words_are_command_lines()
    ensures { TakenWordsAreCommandLines }
{}

/// Words in which `clap` finds no fault ask for something.
#[tactic(auto, using(crate::proofs::TakenWords::taken_words_ask))]
pub fn taken_words_ask()
    ensures { TakenWordsAsk }
{}

/// A command's name, its operands (names of files that are not empty and do not begin with a dash, and numbers), and then its options in
/// any order, each at most once and those that must be there among them, with numbers of their ranges in decimal, are always taken, and
/// ask for what they say.
pub fn listed_words_are_taken()
    ensures { ListedWordsAreTaken }
{}
