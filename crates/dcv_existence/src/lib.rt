//! What the definitions of diagrams, budgets and games ask for is there: diagrams of any functions, a canonical table and counts of each core whose steps
//! are within the limits, a first step over them of any other, and one side that wins each game. Nothing here is code: it is made in the logic, by the
//! proofs of the [`laws`] and of the lemmas that the crate above cites, so that what is said of a report is said of something.
#![tactic(auto)]

pub mod laws;
