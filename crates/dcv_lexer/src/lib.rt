//! One lexer for the texts of any language that is written in words, numbers and symbols.
//!
//! A `Lexicon` says what a language is written with. `specs/Lexicon` says what a piece of a text is to it, and
//! `specs/Cuts` how a text is cut into white space, comments and tokens, each the longest where it stands. A text is cut as
//! it is read: a `Lexer` goes through it token by token, keeps none, and takes no memory.
//!
//! With the symbols `<=>`, `=>`, `<=` and `=`, the text `007x<=>= // y` has the tokens `007`, `x`, `<=>` and `=`.
#![tactic(auto)]

pub mod laws;
mod numbers;
mod pieces;
mod reading;
mod tables;

pub use numbers::value_up_to;
pub use reading::{Lexeme, Lexer};
pub use tables::Lexicon;
