//! A summary over formulas that are drawn: how many are valid, how many are satisfiable, how many have a step over the limits, and how
//! many states the canonical automata of the others have together. It is determined by the seed, the count and the limits, so that two
//! runs, or two versions of the program, can be compared by it.
//!
//! ```text
//! let summary = sweep(alloc, 0, 1, Limits { states: 30_000, nodes: 1_000_000 })?;
//! summary.put(&mut target) // formulas 1, valid 0, satisfiable 1, over 0, states 3, a line for each
//! ```
//!
//! Which number of the generator picks what in a formula is defined in `specs/DrawnCores`; `laws` has the numbers and the formula with which
//! seed 0 begins.
#![tactic(auto)]

mod findings;
mod formulas;
mod generator;
pub mod laws;
mod summary;
mod sweeping;

pub use findings::{Finding, Judgement};
pub use formulas::drawn_core;
pub use generator::Draw;
pub use summary::Summary;
pub use sweeping::sweep;
