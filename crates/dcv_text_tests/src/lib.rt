//! Tests of the crates of texts through their public calls alone, where neither a clause nor a row of `dcv_rows` shows it: that calls succeed which the
//! program does not make, what real files and streams do, and the words of faults.
#![tactic(auto)]

#[cfg(test)]
mod grammar;
#[cfg(test)]
mod io;
#[cfg(test)]
mod word;
