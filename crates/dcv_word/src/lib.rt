//! Letters, words, and the order in which words are listed.
//!
//! A letter values the declared variables at one instant, and a word is a row of letters. Words are listed
//! by length, and those of one length letter by letter, false before true. A letter is spelled in a trace
//! as one line. `laws` has what is true of letters, of the two orders and of trace lines.
//!
//! ```text
//! let mut word = Word::new(alloc, 2);
//! word.push(Letter::new(2, 0b10))?; // the first of two variables is true
//! word.push(read_trace_line(b"01", 2)?)?;
//! word.text(alloc)? // b"10\n01\n"
//! ```
#![tactic(auto)]

pub mod laws;
mod letters;
mod lines;
mod words;

pub use letters::Letter;
pub use lines::{LetterFault, read_trace_line};
pub use words::{Word, shortlex};
