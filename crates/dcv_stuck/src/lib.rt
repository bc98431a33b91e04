//! Whether a system that has kept to a requirement so far can always go on, and if not, the least behaviour after which it can't.
//!
//! ```text
//! match least_stuck(alloc, auto.raw())? {
//!     None => {}       // whatever has kept to the requirement so far can go on, and so for ever
//!     Some(word) => {} // the least word after which no letter keeps to it: the empty word where there is none to begin with
//! }
//! ```
#![tactic(auto)]

pub mod laws;
mod sink;
mod stuck_word;

pub use stuck_word::least_stuck;
