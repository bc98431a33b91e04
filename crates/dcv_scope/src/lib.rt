//! Names and macros of a formula file of Quantified Discrete-time Duration Calculus, and its core (`dcv_core`): the goal with
//! its macros replaced by their bodies and its names by slots.
//!
//! `expand` makes the core, or names the first fault of the file: of its names, of its goal's size, depth or slots, or of a
//! prior or next proposition that looks at a quantified variable. What a name may be, and which fault comes first, stands in
//! `specs/Names` and `specs/Faults`, the measures of a goal in `specs/Measures`, and the core of a file in `specs/CoreOf`.
//! `laws` has what is proved of these definitions: the core means what the text means, the measures bound its steps and slots,
//! and no prior or next proposition is left in it.
//!
//! ```text
//! let file = read_file(alloc, b"var p; define f(a) as [[a]]; infer f(p) ^ pt;")?;
//! let core = expand(alloc, &file)?; // three steps, the last of them the chop
//! core.op(2) // Op::Chop(0, 1)
//! ```
#![tactic(auto)]

mod expanding;
mod expansion;
mod faults;
pub mod laws;
mod measures;
mod naming;

pub use dcv_core::Core;
pub use expanding::expand;
pub use faults::{MOST_DEPTH, MOST_NODES, MOST_SLOTS, ScopeFault};
pub use naming::fault_of_names;
