//! The quotient of an automaton by what its states accept (J. Myhill 1957, A. Nerode 1958): each set of behaviours that a table automaton accepts
//! has a canonical table, and each set with a canonical table has a verdict and a certificate. Nothing here is code: what is there is made in the
//! logic, by the proofs of the [`laws`], so that what is said of canonical tables is said of something. For the crates above it is also shown, by lemmas, that a
//! canonical table has an automaton, whose rows are diagrams in one arena, and that it is within the limits of each machine for its words.
#![tactic(auto)]

pub mod laws;
