//! Syntax-directed translation: from the tokens of a text, as they come, to what its derivation tree stands for.
//!
//! Each rule of a grammar has an action, which makes what the rule stands for of what the symbols of its body stand for
//! (P. M. Lewis and R. E. Stearns, "Syntax-Directed Transduction", 1968; the synthesized attributes of D. E. Knuth, "Semantics
//! of Context-Free Languages", 1968). A [`Machine`] goes through a sentence once. It keeps the symbols that are still to come, the
//! bodies that are open and the parts that were made; it makes no tree, keeps no list of tokens, and does not recurse.
//!
//! In a list `xs = x xs | nothing` the last action is that of the first `x`, so a list is complete from its last element on.
#![tactic(auto)]

mod body;
mod machine;
mod translation;

pub use body::{Body, with_first};
pub use machine::Machine;
pub use translation::Translation;
