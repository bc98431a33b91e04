//! What the program promises, as pages. Each function here is one call of a crate below, and its contract is a promise in a user's words; the
//! edits in `must-fail/` are programs that break it.
//!
//! `report`, `all`, `tables`, `implies`, `stuck`, `set`, `synth`, `certify` and `replay` say what a run says of the texts that the files hold: where the words and these
//! texts determine how it ends, its status, its report and its message are those of a right outcome. `any` says what holds however a run ends.
//! `parts` has what a library promises that is used by itself: the automaton of a formula, its minimal form, the certificate, controllers, and
//! observers that are run.
#![tactic(auto)]

pub mod all;
pub mod any;
pub mod certify;
pub mod implies;
pub mod parts;
pub mod replay;
pub mod report;
pub mod set;
pub mod stuck;
pub mod synth;
pub mod tables;
