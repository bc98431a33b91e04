//! Prior and next propositions of a goal, the shifts: each gets a slot, and a track in it that says what the shift is.
//!
//! A goal whose macros are replaced by their bodies has its shifts as nodes of propositions. `shifts_of` lists them, each once, and `core_of` puts a slot
//! in the place of each and closes the goal: for each shift, the last first, there is a track in its slot that the shift's row accepts. `bound_shift_of` finds
//! a shift that looks at a quantified variable, which no such track could follow. The definitions stand in `specs/Shifting`, and `laws` has what is proved
//! of them: there is one list of tracks, and the core holds on a word exactly where the goal does.
#![tactic(auto)]

mod bound;
mod gathering;
pub mod laws;
mod placing;

pub use bound::bound_shift_of;
pub use gathering::{GatherFault, MOST_SHIFTS, Shift, shifts_of};
pub use placing::core_of;
