//! Laws of the definitions that the contracts cite.
ghost use Rattle.dcv_sentence.specs.Faults.{FaultIsUnique};

pub use dcv_tokens::laws::{one_class, one_cut};

/// A text has at most one first fault.
pub fn one_fault()
    ensures { FaultIsUnique }
{}
