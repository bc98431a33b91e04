//! The core of a formula of Quantified Discrete-time Duration Calculus: its operators over slots, in place of names, as a
//! list of steps, which is what automata are built from.
//!
//! Its trees stand in `specs/Core`, what they mean on an interval and their words in `specs/Holds`, the steps in
//! `specs/Steps` and what each step's words are in `specs/StepWords`. A core is made step by step: `push` gives each operator
//! its number, and operands are the numbers of earlier steps. `laws` has what is proved of these definitions: a core is local,
//! and the words of each step are an operation on the words of its operands.
//!
//! ```text
//! let mut core = Core::new(alloc, 1);
//! let p = core.push(Operator::Atom(Basic::Bracketed(Bracket::Every, Truth::Slot(0))), span, 1)?;
//! core.push(Operator::Not(p), span, 1)?;
//! core.op(1) // Op::Not(0)
//! ```
#![tactic(auto)]

pub mod laws;
mod steps;
mod truths;

pub use dcv_syntax::{Bracket, Connective, Count, Direction, Relation as Rel};
pub use steps::{Core, Op, Operator};
pub use truths::{Basic, Truth};
