// The three parts: which states are alike, which are reached by which words, and the automaton that is numbered by these.
ghost use Rattle.std.specs.Prelude.{IfOk};
ghost use Rattle.dcv_minimise.specs.Minimal.{IsMinimalOf};

use crate::fold::fold;
use crate::refine::refine;
use dcv_dfa::{Auto, Raw};
use dcv_reach::reach;
use std::alloc::{AllocError, Global};

/// The canonical automaton of what the raw one accepts. It has at most as many states, and its rows at most as many nodes.
pub fn minimise(alloc: Global, raw: Raw) -> Result<Auto, AllocError>
    ensures { IfOk result (IsMinimalOf raw) }
{
    let blocks = refine(alloc, &raw)?;
    let reached = reach(alloc, &raw)?;
    fold(alloc, raw, &reached, &blocks)
}
