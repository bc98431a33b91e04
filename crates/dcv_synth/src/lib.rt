//! Controllers that keep to a requirement for ever, and strategies of their environment that beat every controller (the reactive
//! synthesis of A. Church's problem, for safety games as of R. McNaughton, 1993).
#![tactic(auto)]

mod answers;
mod control;
mod controlling;
mod deciding;
mod forcing;
pub mod laws;
mod merging;
mod ranks;
mod statements;
mod strategy;
mod unit_names;
mod units;

pub use control::{Control, Rows};
pub use deciding::{Outcome, synth};
pub use strategy::{Move, Strategy};
