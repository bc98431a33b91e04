//! A flat subset of Lustre: nodes of truths and numbers, with an equation for each local and for the output `ok`. The observer of an
//! automaton is such a node, whose output says at each instant whether the automaton accepts the word so far.
//!
//! ```text
//! put_observer(&mut target, &auto, &names, &auto.node_lines(alloc)?);  // the text of an automaton's observer
//! text(alloc, &node)?                                                  // that of any node
//! ```
//!
//! Of the behaviours over one variable that is true throughout, the text is
//!
//! ```text
//! node observer(v_p: bool) returns (ok: bool);
//! var
//!   st: int;
//!   nx: int;
//!   n0: int;
//! let
//!   st = 0 -> pre nx;
//!   n0 = if v_p then 0 else 1;
//!   nx = if st = 0 then n0 else 1;
//!   ok = (nx = 0);
//! tel
//! ```
//!
//! Here `st` is the state before an instant, `nx` the state after it, and `n0` the state to which the automaton's node 0 leads.
//! `0 -> pre nx` is 0 at the first instant, and at each later one what `nx` was at the instant before.
//!
//! The grammar, the rules of names, the meaning and the layout are in `specs/`, and the laws about them in [`laws`].
#![tactic(auto)]

pub mod laws;
mod layout;
mod node;
mod straight;
mod words;

pub use dcv_observer::{Condition, ObsFault, Test};
pub use layout::text;
pub use node::{Arm, Equation, Item, Kind, Local, Node, Right, Value};
pub use straight::put_observer;
