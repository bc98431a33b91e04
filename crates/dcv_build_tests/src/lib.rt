//! Tests of atoms, builds and printed texts through public calls alone, where neither a clause nor a row of `dcv_rows` shows it: that calls
//! succeed which the program does not make, and how often a builder explores. The expected values were worked out by hand.
#![tactic(auto)]

#[cfg(test)]
mod atoms;
#[cfg(test)]
mod builders;
#[cfg(test)]
mod copies;
#[cfg(test)]
mod goals;
#[cfg(test)]
mod memos;
#[cfg(test)]
mod printed;
#[cfg(test)]
mod verdicts;
