//! Tests of the calls on observers that no run of the program makes: the trees of an automaton's observers, and the texts of trees. The texts
//! were worked out by hand.
#![tactic(auto)]

#[cfg(test)]
mod made;
#[cfg(test)]
mod read_back;
