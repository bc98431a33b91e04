//! Laws of the definitions that the contracts cite.
ghost use Rattle.dcv_reader.specs.Laws.{SomeReading, NamesAreShort};
ghost use Rattle.dcv_reader.specs.Spelling.{SpellsOne, TokensSpellOne, SentencesSpell};

pub use dcv_sentence::laws::{one_class, one_cut, one_fault};

/// A text spells one file at most, and so does a list of tokens.
pub fn one_tree()
    ensures text { SpellsOne }
    ensures tokens { TokensSpellOne }
{}

/// The sentences of the grammar, by which faults of syntax are told, are the lists of tokens that spell a file.
pub fn sentences_spell()
    ensures { SentencesSpell }
{}

/// A text has a first fault, or else it spells a file.
pub fn some_reading()
    ensures { SomeReading }
{}

/// The declared variables of a text without faults are names, and none is too long.
pub fn names_are_short()
    ensures { NamesAreShort }
{}
