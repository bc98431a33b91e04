//! The canonical automaton of what a raw automaton accepts.
//!
//! ```text
//! let auto = minimise(alloc, raw)?;
//! auto.states() // the least number for what is accepted
//! ```
#![tactic(auto)]

mod fold;
mod minimiser;
mod own_nodes;
mod refine;

pub use minimiser::minimise;
