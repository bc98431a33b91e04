// The marks of each block: the one function that they have, if there is one, and how many states have it.
ghost use Rattle.std.specs.Prelude.{◌≡◌, ◌≤◌, ◌+◌, ℕ, List, [], nat_eq, true, if◌then◌else◌, IfOk, IfSome};
ghost use Rattle.indexmap.specs.IndexMap.{get};
ghost use Rattle.indexmap.specs.IndexSet.{contains};
ghost use Rattle.dcv_certificate.specs.Tallies.{number_of, HasNoOther, IsTally, IsAdded, tallied, was_met};

use dcv_arena::Ref;
use indexmap::{IndexMap, IndexSet};
use std::alloc::{AllocError, Global};

#[derive(Drop)]
pub(crate) struct Tally {
    // the states that were counted
    states: IndexSet<u32>,
    // for each block its one function so far, and how many states have it
    blocks: IndexMap<u32, (Ref, usize)>,
}

impl Tally {
    pub(crate) fn new(alloc: Global) -> Tally
        ensures { (states : ℕ) (blocks : List ℕ) → IsTally states blocks (tallied result) (was_met result) [] }
    {
        Tally {
            states: IndexSet::new(alloc),
            blocks: IndexMap::new(alloc),
        }
    }

    // Adds a mark, unless its block has another function too.
    pub(crate) fn add(&mut self, state: u32, block: u32, mark: Ref) -> Result<bool, AllocError>
        ensures { IfOk result (λ alone. alone ≡ true → IsAdded (tallied self.old) (was_met self.old) state block mark (tallied self.new) (was_met self.new)) }
    {
        let fresh = self.states.insert(state)?;
        let before = self.blocks.get(&block).copied();
        let Some(number) = number_with(before, mark, fresh) else {
            return Ok(false);
        };
        self.blocks.insert(block, (mark, number))?;
        Ok(true)
    }

    // How many states of the block have its function.
    pub(crate) fn number(&self, block: u32) -> usize
        ensures { result ≡ number_of (tallied self.now block) }
    {
        match self.blocks.get(&block).copied() {
            Some((_, number)) => number,
            None => 0,
        }
    }
}

// The number with a state that may be one more, where there is no other function.
fn number_with(before: Option<(Ref, usize)>, mark: Ref, fresh: bool) -> Option<usize>
    ensures alone { IfSome result (λ number. HasNoOther before mark) }
    ensures number { IfSome result (λ number. number ≤ number_of before + (if fresh then 1 else 0)) }
{
    match before {
        None => Some(usize::from(fresh)),
        Some((first, number)) => {
            if first == mark {
                Some(number.saturating_add(usize::from(fresh)))
            } else {
                None
            }
        }
    }
}
