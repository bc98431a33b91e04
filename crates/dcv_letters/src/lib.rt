//! The numbers that functions have, each with the first letter that has it. A diagram is searched below its root (after R. E. Bryant,
//! "Graph-Based Algorithms for Boolean Function Manipulation", 1986: `Satisfy-one`, here for each number at once), through each node once.
//!
//! ```text
//! let second = arena.node(1, arena.leaf(7), arena.leaf(5))?; // 5 where slot 1 is true
//! let root = arena.node(0, arena.leaf(7), second)?;
//! let found = least_letters(alloc, &arena, root)?; // 7 with the letter 00, and then 5 with 11
//! let mut letters = LetterSearch::new(alloc, &arena);
//! letters.search(second)?; // finds 7 with 00, and 5 with 01
//! letters.search(root)?; // finds nothing more
//! ```
#![tactic(auto)]

mod first_letters;
mod numbers;
mod seen;
mod truths;

pub use first_letters::{LetterSearch, least_letters};
