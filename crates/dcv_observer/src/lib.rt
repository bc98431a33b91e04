//! What the texts of observers share below their trees: flat programs in small languages, of which each is written with a
//! lexicon and read by a predictive grammar.
//!
//! Each byte of a text belongs to white space or to an item: a token, or the one byte with which no piece begins. A stray
//! byte, a word of more than 32 bytes, a number above 32,767 and one that begins with a 0 that its language does not allow
//! have a class that stands in no sentence, so the syntax of a text is at fault where its items are. `syntax_fault` goes through a text once and keeps no items.
#![tactic(auto)]

mod conditions;
mod fault;
mod items;
mod judge;
pub mod laws;
mod names;
mod numbers;
mod syntax;
mod translation;

pub use conditions::{Condition, Test};
pub use fault::ObsFault;
pub use items::{Item, Items, LARGEST_NUMBER, LONGEST_WORD, NAME, NUMBER, UNKNOWN};
pub use judge::broken;
pub use names::Declared;
pub use numbers::{is_number, number_at};
pub use syntax::syntax_fault;
pub use translation::translate;
