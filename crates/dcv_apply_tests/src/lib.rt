//! Tests of operations on diagrams through their public calls alone, where neither a clause nor a row of `dcv_rows` shows it: that a memo is asked, the first
//! letters of numbers, and the words of faults.
#![tactic(auto)]

#[cfg(test)]
mod letters;
#[cfg(test)]
mod merging;
