//! What shows that an automaton has the fewest states: words that lead to its states, and suffixes that tell every two of them apart.
//!
//! ```text
//! let proof = separate(alloc, &auto)?;
//! proof.access()   // the access word of each state, by an earlier one and a letter
//! proof.suffixes() // suffixes that tell every two of them apart
//! ```
#![tactic(auto)]

mod access;
mod certificate;
mod indicators;
mod ones;
mod partition;
mod proof;
mod tally;
mod vertices;
mod walk;

pub use certificate::separate;
pub use dcv_language::{Access, Suffix};
pub use proof::Proof;
