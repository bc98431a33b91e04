//! Units of constant tables of C, read from their texts.
//!
//! ```text
//! let unit = read(alloc, bytes)?;  // the tables; or the one fault of the text
//! ```
//!
//! The form of the whole text is judged before any number or name.
#![tactic(auto)]

mod array_rules;
mod arrays;
mod counts;
mod entries;
mod form;
mod functions;
pub mod laws;
mod names;
mod reading;
mod rules;
mod unit;
mod words;

pub use reading::read;
pub use unit::{TableNode, TableState, TableUnit};
