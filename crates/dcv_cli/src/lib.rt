//! The run of the program: from its words and the bytes of the files to the report, the message and the status.
//! [`run`] is what the program calls, and its contract is what the program promises.
//!
//! ```text
//! let mut words = Words::new(rt.alloc());
//! words.push("check")?;
//! words.push("door_closed.dc")?;
//! let status = run(rt.alloc(), &words, &mut files, &mut out, &mut err);
//! ```
//!
//! With `var door_closed; infer [[door_closed]];` held under that name, `status` is [`Status::NotValid`], and `out` has
//! `not valid`, `satisfiable`, a counterexample of the one instant `0` and an example of the one instant `1`. With `automaton` in place
//! of `check` it has the minimal automaton of the formula, with two states, in the text that `dcv_automaton_text` shows.
//! `certify` reads such a text back and judges its words by themselves, `convert` writes it in another version, `implies` compares two
//! formula files, `stuck` asks whether what has kept to a formula so far can always go on, and `synth` finds a controller that keeps to a
//! formula, or shows how its inputs beat every controller. `replay-lustre`, `replay-c` and `replay-tables` run an observer over a trace, and
//! `sweep` counts what holds of formulas that are drawn.
#![tactic(auto)]

mod budget_line;
mod certify;
mod command;
mod convert;
mod faults;
mod file_set;
mod formula_file;
mod implies;
pub mod laws;
mod process;
mod refusal;
mod refused;
mod replay;
mod reply;
mod report;
mod running;
mod status;
mod stuck;
mod sweep;
mod synth;
mod text;
mod words;

pub use process::program;
pub use running::run;
pub use status::Status;
pub use words::Words;
