//! Observers that are run over traces. A node or a unit is made into selections over the numbers of a store, and each line of a trace is answered by
//! one pass over them; for a unit of tables a line is one walk through these.
//!
//! ```text
//! let mut replay = Replay::lustre(alloc, &node)?; // or Replay::c(alloc, &unit)
//! replay.run(&mut files, "trace", &mut out)?; // a line `1` or `0` for each line of the trace
//! ```
#![tactic(auto)]

mod answers;
mod fault;
pub mod laws;
mod lines;
mod of_node;
mod of_tables;
mod of_unit;
mod replay;
mod running;
mod selecting;

pub use fault::ReplayFault;
pub use replay::Replay;
