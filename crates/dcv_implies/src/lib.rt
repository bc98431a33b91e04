//! Which words one automaton accepts and another does not: where there are none, the first requirement implies the second.
//!
//! ```text
//! let new = build(alloc, &core_of_new, limits)?;
//! let old = build(alloc, &core_of_old, limits)?;
//! match least_outside(alloc, &new, old, limits)? {
//!     None => {}        // whatever meets the new requirement meets the old one
//!     Some(word) => {}  // the least word that meets the new one alone
//! }
//! ```
//!
//! What the comparison may need is defined in `specs/` by the sets of words alone, and `laws` has that it is determined by them.
#![tactic(auto)]

mod comparing;
mod faults;
pub mod laws;

pub use comparing::least_outside;
pub use faults::OutsideFault;
