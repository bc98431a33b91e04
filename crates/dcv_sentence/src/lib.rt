//! The tokens of a text without faults, or the first of its faults.
//!
//! `specs/Language` is the grammar of formula files, as data, and `specs/Faults` says what is at fault in a text. A text
//! is cut into its tokens, and its faults of each kind are sought: those of one token alone, the misplaced token by the
//! predictive reader of `dcv_grammar`, and what is nested too deeply. Each takes one pass over the tokens.
//!
//! The first fault of `infer 10000 &;` is the number at offset 6, and that of `infer pt` is the missing `;` at offset 8.
#![tactic(auto)]

mod faults;
pub mod language;
pub mod laws;
mod scan;
mod sentence;

pub use faults::ReadFault;
pub use sentence::sentence_of;
