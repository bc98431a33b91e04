//! What is printed of an automaton: the verdict of the words that it accepts, and its own text. The verdict says whether each
//! behaviour is accepted, whether some is, the least that is not, and the least that is.
//!
//! ```text
//! let verdict = verdict(alloc, &auto)?;
//! verdict.is_valid()    // there is no counterexample
//! verdict.text(alloc)?  // what `verdict_text(alloc, &auto)` gives
//! automaton_text(alloc, &auto, &names, &separate(alloc, &auto)?, &counts)?
//! ```
//!
//! Of the behaviours over one variable in whose last letter it is true, the verdict's text is
//!
//! ```text
//! not valid
//! satisfiable
//! counterexample 1
//! 0
//! example 1
//! 1
//! ```
//!
//! The automaton's text is shown in `dcv_automaton_text`, and read back by [`automaton_read`]. It is of version 2, and ends in what the
//! steps took of which the automaton was built. What is true of it is in [`laws`].
#![tactic(auto)]

mod automaton_lines;
pub mod laws;
mod report;
mod stuck_lines;
mod verdict_lines;
mod verdicts;

pub use automaton_lines::automaton_text;
pub use dcv_automaton_read::{AutoFault, AutoFile, automaton_read};
pub use dcv_language::Kind;
pub use report::{Report, all_text};
pub use stuck_lines::put_stuck;
pub use verdict_lines::{Verdict, put_letter, put_word};
pub use verdicts::{verdict, verdict_in, verdict_text};
