//! The canonical automaton of a core, or the first of its steps that is over the limits.
//!
//! ```text
//! let core = expand(alloc, &file)?;
//! let limits = Limits { states: 32_000, nodes: 1_000_000 };
//! let auto = build(alloc, &core, limits)?;
//! auto.states() // the least number for the words of the goal
//! build_counted(alloc, &core, limits)?.counts // what each step took
//! build_for_verdict(alloc, &core, limits)?.raw // not minimised, and not explored further than a verdict needs
//! ```
//!
//! What a step may need is defined in `specs/`: the machine that is explored for it is a function of its operator and of the canonical
//! tables of its operands, which are determined, and `laws` has that at most one step is over. In one build an operator is explored once
//! over the same tables of one shelf: what it gave is found again by the numbers that its operands have there.
#![tactic(auto)]

mod asked;
mod bounds;
mod builder;
mod building;
mod faults;
mod known;
pub mod laws;
mod operations;
mod settling;
mod tasks;

pub use builder::{Builder, Built, BuiltForVerdict, build, build_counted, build_for_verdict};
pub use faults::BuildFault;
