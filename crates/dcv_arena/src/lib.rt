//! The arena of the nodes of reduced ordered decision diagrams (R. E. Bryant, "Graph-Based Algorithms for Boolean
//! Function Manipulation", 1986), with numbers at the leaves.
//!
//! A function from letters to numbers is a ref: a leaf, or the place of a node. Two refs of one arena are equal
//! exactly where their functions are, and the number of nodes is that of the functions' diagram. A ref does not say
//! of which arena it is: the caller keeps them together.
//!
//! ```text
//! let mut arena = Arena::new(alloc, 2, 1000);
//! let (no, yes) = (arena.leaf(0), arena.leaf(1));
//! let second = arena.node(1, no, yes)?; // the value of slot 1
//! let both = arena.node(0, no, second)?; // 1 where both slots are true
//! arena.eval(both, &Letter::new(2, 0b11)) // 1
//! arena.len() // 2
//! ```
#![tactic(auto)]

mod faults;
pub mod laws;
mod nodes;
mod stored;

pub use faults::ArenaFault;
pub use nodes::{Arena, Ref};
