//! Sets of an automaton's states, which machines keep that follow several runs of it at once.
//!
//! ```text
//! let set = StateSet::of(alloc, &[3, 1, 3])?; // 1 and 3
//! set.push_rows(&operand, 0, &mut operands)?; // a row for each
//! set.some_accepts(&operand)
//! push_all_rows(&operand, 0, &mut all)?; // a row for each state of the operand
//! let classes = few_classes(alloc, slots, arena, arena, &all, false)?; // none where they are many
//! let more = set.with(alloc, &[2])?; // 1, 2 and 3
//! ```
#![tactic(auto)]

mod bit_rows;
mod bits;
mod rows;
mod state_set;

pub use rows::{Numbers, few_classes, large_from, push_all_rows, some_accepts};
pub use state_set::StateSet;
