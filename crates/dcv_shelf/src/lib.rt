//! A shelf: canonical automata whose rows share one arena, as many functions share the nodes of one diagram (S. Minato, N. Ishiura and
//! S. Yajima, "Shared Binary Decision Diagram with Attributed Edges", 1990).
//!
//! Each automaton has a number. In one arena a function is one ref, so a table that is there already is found by its flags and rows, and
//! two automata have one number exactly where their tables and their widths are the same.
//!
//! ```text
//! let mut shelf = Shelf::new(alloc, 2);
//! let first = shelf.add(&auto)?;
//! let second = shelf.not(first)?;
//! explore(alloc, &And::new(&shelf.view(first), &shelf.view(second)), limits)?; // accepts nothing
//! shelf.copy_out(second)?; // an automaton with an arena of its own
//! ```
#![tactic(auto)]

mod inclusion;
mod leaving;
mod shelf;
mod stored;
mod view;

pub use shelf::Shelf;
pub use view::View;
