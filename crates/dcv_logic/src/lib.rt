//! What formulas of Quantified Discrete-time Duration Calculus mean, over the trees of `dcv_syntax`: the value of a
//! proposition at an instant, satisfaction of a formula on an interval, and the behaviours that model a file
//! (after Pandya, "Specifying and Deciding Quantified Discrete-time Duration Calculus Formulae using DCVALID", 2001).
//!
//! `specs/Lib` names the definitions, which speak of plain trees (`dcv_syntax`'s `Plain`). `laws` has each definition by
//! a search again in words, as laws.
#![tactic(auto)]

pub mod laws;
mod macros;

pub use macros::newest;
