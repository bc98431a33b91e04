// The states that have 1 at a letter, and how many of them each block has.
ghost use Rattle.std.specs.Prelude.{◌≡◌, ◌<◌, ◌^◌, ◌==◌, ℕ, Bool, List, false, if◌then◌else◌, nat_eq, IfOk, OnOk, Contains};
ghost use Rattle.indexmap.specs.IndexMap.{get};
ghost use Rattle.indexmap.specs.IndexSet.{contains};
ghost use Rattle.dcv_certificate.specs.Ones.{is_one, ones_in, AreNoOnes, IsOneMore};

use indexmap::{IndexMap, IndexSet};
use std::alloc::{AllocError, Global};

#[derive(Drop)]
pub(crate) struct Ones {
    // the states that are there
    states: IndexSet<u32>,
    // for each block how many of them are its own
    counts: IndexMap<u32, usize>,
    // the blocks that have some, in the order in which they came
    pub(crate) blocks: Vec<u32>,
}

impl Ones {
    pub(crate) fn new(alloc: Global) -> Ones
        ensures { AreNoOnes result }
    {
        Ones {
            states: IndexSet::new(alloc),
            counts: IndexMap::new(alloc),
            blocks: Vec::new(alloc),
        }
    }

    // Adds a state of a block, unless it is there.
    pub(crate) fn add(&mut self, state: u32, block: u32) -> Result<(), AllocError>
        requires { ones_in self.old block < 2 ^ 63 }
        ensures { OnOk result (IsOneMore self.old state block self.new) }
    {
        if !self.states.insert(state)? {
            return Ok(());
        }
        let count = self.count(block) + 1;
        self.counts.insert(block, count)?;
        if count == 1 {
            self.blocks.push(block)?;
        }
        Ok(())
    }

    // Whether a state is there.
    pub(crate) fn has(&self, state: u32) -> bool
        ensures { result ≡ is_one self.now state }
    {
        self.states.contains(&state)
    }

    // How many states of a block are there.
    pub(crate) fn count(&self, block: u32) -> usize
        ensures { result ≡ ones_in self.now block }
    {
        self.counts.get(&block).copied().unwrap_or(0)
    }

    // All of them.
    pub(crate) fn states(&self, alloc: Global) -> Result<Vec<u32>, AllocError>
        ensures { IfOk result (λ states. states.items ≡ self.now.states.keys) }
    {
        let mut states = Vec::new(alloc);
        states.extend_from_slice(self.states.as_slice())?;
        Ok(states)
    }
}
