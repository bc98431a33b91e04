//! Whether the words of an automaton's text show by themselves that its table has the fewest states.
//!
//! ```text
//! let file = automaton_read(alloc, text)?;
//! match certify(alloc, &file)? {
//!     Answer::Minimal => ..              // no table automaton for the same set has fewer states
//!     Answer::Access { state } => ..     // its access word leads elsewhere
//!     Answer::Pair { first, second } => .. // no listed suffix tells them apart
//! }
//! ```
#![tactic(auto)]

mod alike;
mod answer;
mod built;
mod certifier;
mod columns;
mod joined;
pub mod laws;
mod links;
mod own;
mod split;
mod steps;
mod walk;
mod words;

pub use answer::Answer;
pub use certifier::certify;
