//! The text of an automaton, versions 1 and 2: its form, the rules by which a text of the form stands for an automaton, and what it
//! stands for. The definitions stand in `specs/`; here are their [`laws`].
//!
//! Of the behaviours over one variable in whose last letter it is true, the text is
//!
//! ```text
//! automaton 1
//! variables p
//! states 2
//! node n0 p ? t1 : t0
//! state 0 reject n0
//! state 1 accept n0
//! access 0 start 0
//! access 1 start 1
//! suffix 0 empty
//! end
//! ```
#![tactic(auto)]

pub mod laws;
