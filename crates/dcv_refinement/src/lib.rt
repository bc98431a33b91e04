//! What the refinement of a partition works with: the members of blocks that have numbers, while members move from block to block, sets of
//! small numbers, what stands directly above each leaf and each node of rows that are diagrams, and the way up from some leaves.
//!
//! ```text
//! let mut members = Members::new(alloc);
//! members.put(alloc, 3, 7)?; // 7 is in block 3
//! members.put(alloc, 4, 7)?; // and now in block 4
//! members.mend(&blocks, 3);  // each has the block that the list `blocks` says, so 7 is in the list of block 4 alone
//! members.list(3)            // the members of block 3
//!
//! let mut set = SparseSet::new(alloc);
//! set.insert(7)?; // at place 0
//! set.clear();    // takes no time, and keeps the memory
//!
//! let count = number_of(set.len())?; // 0, as a 32-bit number
//!
//! let index = Index::new(alloc, arena, rows)?;
//! let mut found = Above::new(alloc);
//! index.above(&leaves, &mut found)?;
//! found.rows             // the rows from which some letter leads to one of these leaves, by their places
//! found.nodes.as_slice() // the nodes from which one does
//! ```
#![tactic(auto)]

mod climb;
mod index;
mod lists;
mod members;
mod number_lists;
mod numbers;
mod sparse_set;

pub use climb::Above;
pub use index::Index;
pub use members::Members;
pub use numbers::number_of;
pub use sparse_set::SparseSet;
