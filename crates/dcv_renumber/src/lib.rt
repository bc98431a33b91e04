//! New numbers in the place of old ones, in functions that are diagrams. Each node is gone through once, as in the simplest recursions over
//! diagrams (R. E. Bryant, "Graph-Based Algorithms for Boolean Function Manipulation", 1986, with the marks of the nodes that were met).
//!
//! ```text
//! let root = from.node(0, from.leaf(2), from.leaf(0))?; // 0 where slot 0 is true, and else 2
//! let new = remap(alloc, &mut arena, &from, root, &[7, 5, 4])?; // 7 there, and else 4
//! // the same of many functions, with one list of what nodes became
//! let mut remapping = Remapping::new(alloc, &from, &[7, 5, 4]);
//! let same = remapping.remap(&mut arena, root)?;
//! // and by another list, in the memory of the first
//! let mut next = Remapping::over(remapping.into_places(), &from, &[1, 1, 0]);
//! // and into an arena of their own, which is never full
//! let mut renumbering = Renumbering::new(alloc, Places::new(alloc), &from, &[7, 5, 4]);
//! let alone = renumbering.renumber(root)?;
//! ```
#![tactic(auto)]

mod own;
mod places;
mod renumbering;

pub use own::Renumbering;
pub use places::Places;
pub use renumbering::{Remapping, remap};
