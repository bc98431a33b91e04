//! Units of the flat subset of C, read from their texts.
//!
//! ```text
//! let unit = read(alloc, bytes)?;  // the tree, whose names stand for places; or the one fault of the text
//! ```
//!
//! The syntax of the whole text is judged before any name: in one pass the rules of the grammar are translated into a unit with a token at each
//! place, up to the first token with which no sentence goes on. Then its names are judged in the order of the text.
#![tactic(auto)]

mod accessors;
mod assignments;
mod choices;
mod functions;
mod names;
mod observer;
mod parts;
mod placed;
mod reading;
mod rules;
mod scope;
mod statements;
mod tables;
mod translation;

pub use observer::of_auto;
pub use reading::read;
