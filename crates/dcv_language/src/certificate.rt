// How the words are spelled that show that a table has the fewest states: each by others of its list, so that a list takes no more
// than a letter for each word.
use dcv_word::Letter;

/// How the access word of a state is spelled.
#[derive(Clone, Copy, Debug, PartialEq, Eq)]
pub enum Access {
    /// The empty word, of a start that no word leads to.
    Empty,
    /// One letter.
    Start(Letter),
    /// The access word of this state, and then the letter.
    After(u32, Letter),
}

/// How a suffix is spelled. It goes on from words, and tells two of them apart where exactly one of the longer words is accepted.
#[derive(Clone, Copy, Debug, PartialEq, Eq)]
pub enum Suffix {
    Empty,
    /// The letter, and then the suffix at this earlier place.
    Then(Letter, u32),
}
