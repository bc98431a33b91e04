//! The lines of an automaton's text, version 1 or 2, read as they stand there. The form alone is judged here, with the exact byte at
//! which a text stops to be the beginning of one; whether the lines stand for an automaton is for the table rules to say. By its [`laws`] each text has the form or one fault.
#![tactic(auto)]

mod bodies;
pub mod laws;
mod lines;
mod names;
mod reading;
mod sections;
mod steps;
mod stop;
mod version;
mod words;

pub use lines::{
    AccessLine, AccessWord, Lines, NodeLine, StateLine, StepLine, StepPart, SuffixLine, SuffixWord,
};
pub use reading::{LinesFault, lines_of};
pub use stop::{Stop, Stuck};
pub use words::{begins_with, literal, number};
