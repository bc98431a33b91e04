//! Where the parts of a formula file stand in its text: its names in order, and each step of its core before the end. These are [`laws`] over what a
//! text spells and what a file's core is; the program tells faults and steps by such places.
#![tactic(auto)]

pub mod laws;
