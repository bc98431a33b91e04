//! The reader of automaton texts, above the reader of their lines: the table rules are judged word by word, and the lines of a text
//! that keeps them become an [`AutoFile`].
#![tactic(auto)]

mod building;
mod faults;
mod file;
pub mod laws;
mod letters;
mod names;
mod nodes;
mod reading;
mod rules;
mod walk;
mod words;

pub use dcv_language::{Access, Suffix};
pub use faults::AutoFault;
pub use file::{AutoFile, Row};
pub use names::is_name;
pub use nodes::Node;
pub use reading::automaton_read;
