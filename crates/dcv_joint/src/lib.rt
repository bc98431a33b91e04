//! Formula files over one list of names. The joint list has the names of the first file, then of each further file those that are new, in their
//! order; the core of a file (`dcv_core`) is moved to it: a slot of an own name goes to the place of that name, and one of a shift or a quantifier
//! after the joint names.
//!
//! A behaviour over the joint names is on a file's own names what `specs/Names` defines (`restricted`). `laws` has what is proved of this: the moved
//! core of a file has the behaviours over the joint names that model the file on its own names.
//!
//! ```text
//! let mut joint = Joint::new(alloc);
//! joint.add(alloc, &first.variables)?;  // p q
//! joint.add(alloc, &second.variables)?; // q r: the list is p q r
//! let core = joint.core_of(alloc, &second.variables, &core)?; // its slot 0 is now 1, and its slot 1 is 2
//! ```
#![tactic(auto)]

mod joint;
pub mod laws;
mod moving;

pub use joint::{Joint, JointFault, MOST_NAMES};
