//! Prior and next propositions as sets of words: those in which one test of a letter says, at each instant, what another was one
//! instant earlier or is one instant later; and machines that accept exactly these. The definitions stand in `specs/`; here are their [`laws`].
#![tactic(auto)]

pub mod laws;
