// The members of blocks, in lists that are only mended when a block is gone through: a list may have some that have moved on. So a move
// takes the time of what moves, whatever the size of the block that it leaves.
ghost use Rattle.std.specs.Prelude.{◌≡◌, ℕ, [], filter, OnOk, OnErr};
ghost use Rattle.dcv_refinement.specs.Members.{list_of, is_in, IsPut, IsMended};

use crate::number_lists::{add_to, grow, list};
use std::alloc::{AllocError, Global};
use std::marker::Model;

/// A list for each block, of its members and maybe of some that have moved on.
#[derive(Drop)]
pub struct Members {
    // the members of each block, and some that have moved on
    lists: Vec<Vec<u32>>,
}

impl Model for Members {
    ghost use Rattle.std.specs.Prelude.{ℕ, List, map};

    ghost Value = { List (List ℕ) };

    ghost view = { λ members. map (λ list. list.items) members.lists.items };
}

impl Members {
    /// No block has members.
    pub fn new(alloc: Global) -> Members
        ensures { result ≡ [] }
    {
        Members {
            lists: Vec::new(alloc),
        }
    }

    /// The list of a block.
    pub fn list(&self, block: u32) -> &[u32]
        ensures { result.now ≡ list_of self.now block }
    {
        list(&self.lists, block)
    }

    /// Puts a member into the list of a block. Where it comes from another one, it is in that list too until that is mended.
    pub fn put(&mut self, alloc: Global, block: u32, member: u32) -> Result<(), AllocError>
        ensures put { OnOk result (IsPut (list_of self.old) block member (list_of self.new)) }
        ensures err { OnErr result ((at : ℕ) → list_of self.new at ≡ list_of self.old at) }
    {
        grow(alloc, &mut self.lists, block as usize + 1)?;
        add_to(&mut self.lists, block, member)
    }

    /// Takes out of the list of a block all that are in another one, where `blocks` has the block of each member.
    pub fn mend(&mut self, blocks: &[u32], block: u32)
        ensures { IsMended blocks.now block (list_of self.old) (list_of self.new) }
    {
        if block as usize >= self.lists.len() {
            return;
        }
        keep(&mut self.lists[block as usize], blocks, block);
    }
}

// Keeps the members of a block.
fn keep(list: &mut Vec<u32>, blocks: &[u32], block: u32)
    ensures { list.new.items ≡ filter (is_in blocks.now block) list.old.items }
{
    list.retain(|member| has_block(blocks, block, *member));
}

// Whether the member is in the block.
fn has_block(blocks: &[u32], block: u32, member: u32) -> bool
    ensures { result ≡ is_in blocks.now block member }
{
    match blocks.get(member as usize) {
        Some(own) => *own == block,
        None => false,
    }
}
