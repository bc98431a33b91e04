//! Nodes of the flat subset of Lustre, read from their texts.
//!
//! ```text
//! let node = read(alloc, bytes)?;  // the tree, whose names stand for places; or the one fault of the text
//! ```
//!
//! The syntax of the whole text is judged before any name: in one pass the rules of the grammar are translated into a node with a token at each
//! place, up to the first token with which no sentence goes on. Then its names are judged in the order of the text.
#![tactic(auto)]

mod accessors;
mod choices;
mod constants;
mod equations;
mod names;
mod nodes;
mod observer;
mod parts;
mod placed;
mod reading;
mod rights;
mod rules;
mod scope;
mod tables;
mod translation;

pub use observer::of_auto;
pub use reading::read;
