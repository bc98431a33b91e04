// The states in blocks, which are split by one suffix after another. The lists of members are those of `dcv_refinement`, which `dcv_minimise`
// has too. The rest of a partition is not shared: here a block falls in two by a test, and the blocks' sizes say which part is the smaller;
// there it falls into parts by the keys of its states, and a vote finds the part that stays.
ghost use Rattle.std.specs.Prelude.{◌≡◌, ◌+◌, ◌^◌, ◌<◌, ◌≤◌, ℕ, List, [], Bool, length, slice_set, IfOk, OnOk};
ghost use Rattle.std.specs.List.{All};
ghost use Rattle.dcv_arena.specs.Arena.{IsArena};
ghost use Rattle.dcv_dfa.specs.Raw.{next_in};
ghost use Rattle.dcv_certificate.specs.Vertices.{raw_of};
ghost use Rattle.dcv_certificate.specs.Separation.{AreVertices, IsSplit, has, part_at};
ghost use Rattle.dcv_certificate.specs.Partition.{raw_in, parts_in, Separates, HasFinished, GoesOn, IsMovedTo};
ghost use Rattle.dcv_certificate.specs.Marks.{marked, IsMarkFrom};
ghost use Rattle.dcv_certificate.specs.Tallies.{AreSizes, count_up};
ghost use Rattle.dcv_refinement.specs.Leads.{index_of};
ghost use Rattle.dcv_refinement.specs.Members.{list_of, HaveTheirOwn};

use crate::indicators::Part;
use crate::vertices::Vertices;
use dcv_arena::{Arena, Ref};
use dcv_language::Suffix;
use dcv_refinement::{Above, Index, Members, number_of};
use dcv_word::Letter;
use indexmap::IndexSet;
use std::alloc::{AllocError, Global};

// The suffixes so far; the block of each state; for each suffix the states that it took out of their blocks; a number above those of all
// blocks; and how many states each block has, and which.
#[derive(Drop)]
pub(crate) struct Partition<'a> {
    // where what is made is allocated
    pub(crate) alloc: Global,
    // the states and the nodes that lead to them
    pub(crate) vertices: &'a Vertices<'a>,
    // the suffixes so far
    pub(crate) suffixes: Vec<Suffix>,
    // the block of each state
    pub(crate) blocks: Vec<u32>,
    // for each suffix the states that it took out of their blocks
    pub(crate) parts: Vec<Vec<u32>>,
    // a number above those of all blocks
    pub(crate) count: usize,
    // how many states each block has
    pub(crate) sizes: Vec<usize>,
    // the states of each block
    pub(crate) members: Members,
}

impl<'a> Partition<'a> {
    // The empty suffix, and a block for each flag.
    pub(crate) fn new(
        alloc: Global,
        vertices: &'a Vertices<'a>,
    ) -> Result<Partition<'a>, AllocError>
        requires { AreVertices (raw_of vertices.now) }
        ensures vertices { IfOk result (λ new. raw_in new ≡ raw_of vertices.now) }
        ensures separates { IfOk result (λ new. Separates (raw_of vertices.now) new) }
    {
        let mut suffixes = Vec::new(alloc);
        suffixes.push(Suffix::Empty)?;
        let mut parts = Vec::new(alloc);
        parts.push(vertices.with_flag(alloc, vertices.rarer_flag())?)?;
        let blocks = vertices.flag_numbers(alloc)?;
        let sizes = sizes_of(alloc, &blocks, 2)?;
        let members = members_of(alloc, &blocks)?;
        Ok(Partition {
            alloc,
            vertices,
            suffixes,
            blocks,
            parts,
            count: 2,
            sizes,
            members,
        })
    }
}

impl Partition<'_> {
    // Lists each letter before the suffix at this place that tells states of one block apart, and splits these blocks. `found` is written anew.
    pub(crate) fn go_on_from(
        &mut self,
        index: &Index<'_>,
        found: &mut Above,
        place: usize,
    ) -> Result<(), AllocError>
        requires index { index.now ≡ index_of (raw_in self.old).arena (raw_in self.old).rows }
        requires vertices { AreVertices (raw_in self.old) }
        requires place { place < length self.old.suffixes.items }
        requires separates { Separates (raw_in self.old) self.old }
        requires finished { HasFinished (raw_in self.old) self.old place }
        ensures vertices { raw_in self.new ≡ raw_in self.old }
        ensures separates { OnOk result (Separates (raw_in self.old) self.new) }
        ensures finished { OnOk result (HasFinished (raw_in self.old) self.new (place + 1)) }
        ensures goes_on { OnOk result (GoesOn (raw_in self.old) self.old self.new) }
    {
        let from = number_of(place)?;
        let slots = self.vertices.arena.slots();
        let mut scratch = Arena::new(self.alloc, slots, u32::MAX);
        let marks = self.marks(&mut scratch, index, found, place)?;
        self.walk(&scratch, from, Letter::new(slots, 0), 0, &marks)
    }

    // At which letters each state goes to the part of the suffix at this place.
    fn marks(
        &self,
        scratch: &mut Arena,
        index: &Index<'_>,
        found: &mut Above,
        place: usize,
    ) -> Result<Vec<(u32, Ref)>, AllocError>
        requires index { index.now ≡ index_of (raw_in self.now).arena (raw_in self.now).rows }
        requires vertices { AreVertices (raw_in self.now) }
        requires arena { IsArena scratch.old }
        requires slots { scratch.old.slots ≡ (raw_in self.now).arena.slots }
        requires none { scratch.old.nodes ≡ [] }
        requires limit { 2 ^ 32 ≤ scratch.old.limit + 1 }
        requires place { place < length self.now.parts.items }
        requires states { All (λ state. state < length (raw_in self.now).rows) (part_at (parts_in self.now) place) }
        ensures slots { scratch.new.slots ≡ (raw_in self.now).arena.slots }
        ensures arena { IsArena scratch.new }
        ensures marks { IfOk result (λ marks. All (IsMarkFrom scratch.new (length (raw_in self.now).rows) 0) marks.items) }
        ensures marked { IfOk result (λ marks. (state : ℕ) (letter : List Bool) → state < length (raw_in self.now).rows
            → length letter ≡ (raw_in self.now).arena.slots → marked scratch.new marks.items letter state
            ≡ has (part_at (parts_in self.now) place) (next_in (raw_in self.now) state letter)) }
    {
        let leaves = &self.parts[place];
        index.above(leaves, found)?;
        let part = Part::new(self.alloc, self.vertices.arena, leaves, &found.nodes)?;
        part.marks(self.alloc, scratch, &self.vertices.rows, &found.rows)
    }

    // Gives new blocks to these states, one for all that come from one block.
    pub(crate) fn renumber(&mut self, part: &[u32]) -> Result<(), AllocError>
        requires members { All (λ state. state < length self.old.blocks.items) part.now }
        requires numbers { All (λ block. block < self.old.count) self.old.blocks.items }
        requires sizes { AreSizes self.old.blocks.items self.old.count self.old.sizes.items }
        requires listed { HaveTheirOwn self.old.blocks.items (list_of self.old.members) }
        ensures vertices { raw_in self.new ≡ raw_in self.old }
        ensures suffixes { self.new.suffixes ≡ self.old.suffixes }
        ensures parts { self.new.parts ≡ self.old.parts }
        ensures split { OnOk result (IsSplit (length self.old.blocks.items) self.old.blocks.items part.now self.new.blocks.items) }
        ensures numbers { OnOk result (All (λ block. block < self.new.count) self.new.blocks.items) }
        ensures sizes { OnOk result (AreSizes self.new.blocks.items self.new.count self.new.sizes.items) }
        ensures listed { OnOk result (HaveTheirOwn self.new.blocks.items (list_of self.new.members)) }
    {
        let mut left = IndexSet::new(self.alloc);
        for state in part {
            let block = self.new_block(&mut left, self.blocks[*state as usize])?;
            self.move_to(*state, block)?;
        }
        self.count = self.sizes.len();
        Ok(())
    }

    // Moves a state to another block, which may be a new one after the last.
    fn move_to(&mut self, state: u32, block: u32) -> Result<(), AllocError>
        requires state { state < length self.old.blocks.items }
        requires numbers { All (λ block. block < length self.old.sizes.items) self.old.blocks.items }
        requires block { block ≤ length self.old.sizes.items }
        requires sizes { AreSizes self.old.blocks.items (length self.old.sizes.items) self.old.sizes.items }
        requires members { HaveTheirOwn self.old.blocks.items (list_of self.old.members) }
        ensures vertices { raw_in self.new ≡ raw_in self.old }
        ensures suffixes { self.new.suffixes ≡ self.old.suffixes }
        ensures parts { self.new.parts ≡ self.old.parts }
        ensures count { self.new.count ≡ self.old.count }
        ensures blocks { OnOk result (self.new.blocks.items ≡ slice_set self.old.blocks.items state block) }
        ensures sizes { OnOk result (AreSizes self.new.blocks.items (count_up (length self.old.sizes.items) block) self.new.sizes.items) }
        ensures members { OnOk result (HaveTheirOwn self.new.blocks.items (list_of self.new.members)) }
    {
        let old = self.blocks[state as usize];
        if block as usize == self.sizes.len() {
            self.sizes.push(0)?;
        }
        self.sizes[old as usize] -= 1;
        self.sizes[block as usize] += 1;
        self.members.put(self.alloc, block, state)?;
        self.blocks[state as usize] = block;
        Ok(())
    }

    // The new number of a state that leaves this block, after the blocks that others have left; a state that has a new number keeps it.
    fn new_block(&self, left: &mut IndexSet<u32>, block: u32) -> Result<u32, AllocError>
        requires room { self.now.count + length left.old.keys < 2 ^ 63 }
        ensures moved { IfOk result (λ new. IsMovedTo self.now.count left.old.keys left.new.keys block new) }
    {
        if self.count <= block as usize {
            return Ok(block);
        }
        let (place, _) = left.insert_full(block)?;
        number_behind(self.count, place)
    }
}

// The number that is so far after the count.
fn number_behind(count: usize, place: usize) -> Result<u32, AllocError>
    requires { count + place < 2 ^ 64 }
    ensures { IfOk result (λ number. number ≡ count + place) }
{
    number_of(count + place)
}

// Each state, in the list of its block.
fn members_of(alloc: Global, blocks: &[u32]) -> Result<Members, AllocError>
    ensures { IfOk result (λ members. HaveTheirOwn blocks.now (list_of members)) }
{
    let mut members = Members::new(alloc);
    for (state, block) in blocks.iter().enumerate() {
        members.put(alloc, *block, number_of(state)?)?;
    }
    Ok(members)
}

// How many states each block has.
fn sizes_of(alloc: Global, blocks: &[u32], count: usize) -> Result<Vec<usize>, AllocError>
    requires { All (λ block. block < count) blocks.now }
    ensures { IfOk result (λ sizes. AreSizes blocks.now count sizes.items) }
{
    let mut sizes = vec![in alloc; 0usize; count]?;
    for block in blocks {
        sizes[*block as usize] += 1;
    }
    Ok(sizes)
}
