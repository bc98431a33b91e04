//! Grammars as data, sentences, viable lists, and one predictive reader proved for all of them.
//!
//! For nested lists, `item = "(" items ")" | name`, `items = item more` and `more = "," item more | nothing` are three
//! rules. Of `(a, (b)` the first fault is at place 6, the end, since more must come, and of `(a b)` it is at place 2.
#![tactic(auto)]

pub mod grammar;
pub mod laws;
pub mod reader;
mod rules;
pub mod trees;
