//! Automata written as texts, for tests and benches: what a test takes and what it expects stand there as lines that can be read; and diagrams of functions that
//! are given by their numbers.
//!
//! ```text
//! // the words whose last letter is true: of each state whether it accepts, and the states that come next, in the letters' order
//! let raw = raw_of_text(alloc, 1, "reject 0 1; accept 0 1", 0)?;
//! text_of(alloc, &raw)? // the same text
//! ```
//!
//! The calls test what they are given: they fail where a text is none of these, and ask for nothing before.
#![tactic(auto)]

mod diagrams;
mod names;
mod shown;
mod states;
mod words;

pub use diagrams::{RowFault, function, parity};
pub use names::one_name;
pub use shown::{states_over, text_of, text_over};
pub use states::{State, raw_of, raw_of_text, states_of, text_of_states};
pub use words::letters;
