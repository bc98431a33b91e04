// How many of the looked-at states each block has. They choose which blocks are gone through in full, and so decide the time alone.
ghost use Rattle.std.specs.Prelude.{◌<◌, length};
ghost use Rattle.std.specs.List.{All};

use std::alloc::{AllocError, Global};

// How many each block has, by its number, and the blocks that have some. One is kept for all rounds.
#[derive(Drop)]
pub(crate) struct Counts {
    // how many each block has, by its number
    counts: Vec<u32>,
    // the blocks that have some
    blocks: Vec<u32>,
}

impl Counts {
    // No block has any.
    pub(crate) fn new(alloc: Global) -> Counts {
        Counts {
            counts: Vec::new(alloc),
            blocks: Vec::new(alloc),
        }
    }

    // Counts these states, and no others.
    pub(crate) fn count(&mut self, blocks: &[u32], looked: &[u32]) -> Result<(), AllocError>
        requires { All (λ state. state < length blocks.now) looked.now }
    {
        self.forget();
        for state in looked {
            self.add(blocks[*state as usize])?;
        }
        Ok(())
    }

    // No block has any again, in the time of those that had some.
    fn forget(&mut self) {
        for block in &self.blocks {
            if let Some(count) = self.counts.get_mut(*block as usize) {
                *count = 0;
            }
        }
        self.blocks.clear();
    }

    // Counts a state of this block.
    fn add(&mut self, block: u32) -> Result<(), AllocError> {
        if block as usize >= self.counts.len() {
            self.counts.resize(block as usize + 1, 0)?;
        }
        if let Some(count) = self.counts.get_mut(block as usize) {
            if *count == 0 {
                self.blocks.push(block)?;
            }
            *count = count.saturating_add(1);
        }
        Ok(())
    }

    // Whether more than half of a block with so many members is looked at.
    pub(crate) fn is_many(&self, block: u32, members: usize) -> bool {
        let count = self.counts.get(block as usize).copied().unwrap_or(0);
        count as usize > members / 2
    }
}
