//! Machines that read a word in two automata at once, and join what the two say of it: both accept, one or the other does, or
//! they agree. The complement of one automaton needs no machine.
//!
//! ```text
//! let both = And::new(&first, &second);
//! let raw = explore(alloc, &both, limits)?; // accepts the words that both automata accept
//! ```
#![tactic(auto)]

mod complements;
mod join;
mod product;

pub use complements::complement;
pub use join::{Alike, Both, Either, Join};
pub use product::{And, Iff, Or, Pair, Product};
