//! Automata whose rows are diagrams: what the exploration of a machine gives, and the minimiser takes.
//!
//! A state is its number. Its row is a ref of the automaton's one arena, the function from letters to the numbers of the
//! states that come next, and a flag says whether it accepts.
//!
//! ```text
//! let raw = Raw::new(arena, rows, accepting, 0);
//! raw.states() // how many
//! raw.arena().eval(raw.row(raw.start()), &letter) // the state after one letter
//! ```
//!
//! An [`Auto`] is canonical for what it accepts: the least automaton, with its states in one order. [`Auto::node_lines`] numbers
//! the nodes of its rows, children before their nodes. What is true of raw and canonical automata as tables is in [`laws`].
//!
//! A [`Table`] is what machines read of their operands; both are tables.
#![tactic(auto)]

mod auto;
pub mod laws;
mod node_lines;
mod raw;
mod table;

pub use auto::Auto;
pub use node_lines::{NodeLine, NodeLines};
pub use raw::Raw;
pub use table::Table;
