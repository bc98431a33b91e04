//! The command line of the program: what its words ask for, as `clap` reads them.
#![tactic(auto)]

pub mod laws;
mod program;
mod words;

pub use words::{Request, SetQuestion, Subset, Version, WordsFault, read_words};
