//! The machines of the forms without a formula in them: constants, one instant, more than one, each instant, two instants, the
//! three measures, and a slot that says what a proposition was one instant before or will be one later.
//!
//! A proposition is kept as the diagram of the letters in which it holds, in an arena that has the nodes of its parts and no
//! others. The rows stand in `specs/AtomRows`, and which parts are counted in `specs/Parts`. `laws` has what is proved of these
//! definitions: each machine accepts the words of its form, and so those of its step in a core.
//!
//! ```text
//! // of `[[p && q]]` over p and q
//! let atom = Atom::new(alloc, &core, 0, limits)?;
//! atom.nodes() // 3: those of p, of q and of both
//! let raw = explore(alloc, &atom, limits)?; // accepts the words with p and q at each instant
//! ```
#![tactic(auto)]

mod atom;
mod faults;
mod functions;
pub mod laws;
mod proposition;
mod rounds;
mod rows;
mod states;

pub use atom::Atom;
pub use faults::AtomFault;
pub use states::AtomMacro;
