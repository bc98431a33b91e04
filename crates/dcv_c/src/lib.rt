//! A flat subset of C: units with a store of numbers, one function that sets it and one that makes a step. The observer of an automaton is such
//! a unit, whose step says whether the automaton accepts the word so far.
//!
//! ```text
//! put_observer(&mut target, &auto, &names, &auto.node_lines(alloc)?);  // the text of an automaton's observer
//! text(alloc, &unit)?                                                  // that of any unit
//! ```
//!
//! Of the behaviours over one variable that is true throughout, the text is
//!
//! ```text
//! static int st;
//!
//! void observer_reset(void)
//! {
//!   st = 0;
//! }
//!
//! int observer_step(int v_p)
//! {
//!   int nx;
//!   int n0;
//!
//!   nx = 0;
//!   n0 = v_p ? 0 : 1;
//!   if (st == 0) nx = n0;
//!   if (st == 1) nx = 1;
//!   st = nx;
//!   return nx == 0;
//! }
//! ```
//!
//! Here `st` is the state between two steps, `nx` the state after the step, and `n0` the state to which the automaton's node 0 leads.
//!
//! The grammar, the rules of names, the meaning and the layout are in `specs/`, and the laws about them in [`laws`].
#![tactic(auto)]

pub mod laws;
mod layout;
mod observer;
mod straight;
mod unit;
mod words;

pub use dcv_observer::{Condition, ObsFault, Test};
pub use layout::{put, text};
pub use observer::{parameter_texts, reset_to_start};
pub use straight::put_observer;
pub use unit::{Assignment, CUnit, Item, Reset, Returned, Right, Statement, Step};
