//! Functions merged letter by letter, as diagrams: `Apply` of R. E. Bryant ("Graph-Based Algorithms for Boolean Function Manipulation",
//! 1986) for any number of operands at once. What operands were merged into is kept in a memo, and no table over the letters is ever made.
//!
//! ```text
//! // the function that is, at each letter, what `merge` makes of f's and g's numbers there
//! let mut memo = Memo::new(alloc, USUAL_CAPACITY)?;
//! let root = apply(alloc, &mut arena, &first, &second, &[(0, f), (1, g)], &mut merge, &mut memo, 0)?;
//! // the same with one more slot, which is thereby quantified: `merge` is given their numbers with it false, and then with it true
//! let root = apply_last(alloc, &mut arena, &first, &second, &[(0, f), (1, g)], &mut merge, &mut memo, 1)?;
//! ```
#![tactic(auto)]

mod cache;
mod faults;
mod keys;
mod memo;
mod merging;
mod operands;
mod table;
mod visits;

pub use faults::{ApplyFault, MergeFault};
pub use memo::{Memo, USUAL_CAPACITY};
pub use merging::{Merge, apply, apply_last};
