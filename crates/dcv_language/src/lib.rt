//! Sets of behaviours as tests of words, and what is said of such a set whatever describes it: its verdict, its canonical
//! table with the words that lead to each state, certificates that no table has fewer states, and operations on sets
//! with the working machines that accept them (after Myhill, Nerode, and Rabin and Scott).
//!
//! Of the behaviours over one variable in whose last letter it is true, `0` is the counterexample and `1` the example. The
//! canonical table has two states with the same row, `0 1`: state 0 rejects and has the access word `0`, state 1 accepts
//! and has the access word `1`. The empty suffix tells the two apart.
//!
//! The definitions stand in `specs/`; here are their laws, on sets and tables in [`laws`], on machines in [`machine_laws`], and how the
//! words of a certificate are spelled ([`Access`], [`Suffix`]). What it took to find the table of one step of a formula is a [`Count`]: builders make
//! counts and printers print them, and neither stands on the other. Which text is asked for is a [`Kind`].
#![tactic(auto)]

mod certificate;
mod child;
mod count;
mod kind;
pub mod laws;
mod limits;
pub mod machine_laws;

pub use certificate::{Access, Suffix};
pub use child::Child;
pub use count::Count;
pub use kind::Kind;
pub use limits::{MOST_NODES, MOST_STATES, MOST_VARIABLES};
