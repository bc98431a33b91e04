//! Tests that cannot be rows of `dcv_rows`: several runs over the same files, which files are asked for, drawn formulas over limits that
//! the command line does not take, and the texts that nest deepest.
#![tactic(auto)]

#[cfg(test)]
mod files;
#[cfg(test)]
mod nesting;
#[cfg(test)]
mod sweeping;
