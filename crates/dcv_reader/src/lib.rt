//! From the bytes of a formula file to its tree.
//!
//! `dcv_tokens` cuts a text into tokens, and `dcv_sentence` has the grammar, as data, and says what is at fault in a
//! text that spells no file. `specs/Actions` says which tree each rule stands for, and `specs/Spelling` joins them to
//! the file that a text spells. A text is cut, its first fault is sought, and if it has none the machine of `dcv_translation`
//! goes through the tokens once more and makes the tree, by the action of each rule.
//!
//! `infer a && (b) ^ c;` spells a file whose goal is the conjunction of `a` and a chop of `b` and `c`: `&&` binds looser
//! than `^`. The operand `b` has the place of `b` alone, and that of `(b)`.
#![tactic(auto)]

mod accessors;
mod file_rules;
mod formula_rules;
mod formulas;
pub mod laws;
mod name;
mod parts;
mod prop_rules;
mod props;
mod reader;
mod translation;

pub use dcv_sentence::ReadFault;
pub use dcv_tokens::{Token, Tokens, tokens};
pub use reader::read_file;
