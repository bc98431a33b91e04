//! The tokens of a formula file.
//!
//! `specs/Formulas` says what formula files are written with, `specs/Tokens` how they are cut into white space, comments
//! and tokens, `specs/Classes` what each token is to the grammar, and `specs/Limits` what is said of one token alone. A
//! text is cut as it is read: `Tokens` goes through it token by token and keeps none.
//!
//! `007x<=>= // y` is cut into the tokens `007`, `x`, `<=>` and `=`, by the longest match.
#![tactic(auto)]

pub mod classes;
pub mod laws;
mod lexer;
mod text;

pub use lexer::{Token, Tokens};
pub use text::tokens;
