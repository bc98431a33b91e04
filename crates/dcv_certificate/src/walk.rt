// The walk over letters, slot by slot, false before true: at each letter the marks say which states the letter takes to the part of a
// suffix, so whether the letter and the suffix tell states of one block apart.
ghost use Rattle.std.specs.Prelude.{◌≡◌, ◌+◌, ◌<◌, ◌≤◌, ℕ, List, Bool, true, false, length, slice_index_or, IfOk, OnOk};
ghost use Rattle.std.specs.List.{All};
ghost use Rattle.dcv_arena.specs.Arena.{IsRef, level_of, value_of};
ghost use Rattle.dcv_certificate.specs.Separation.{AreVertices, word_at};
ghost use Rattle.dcv_certificate.specs.Partition.{raw_in, listed_in, Separates, GoesOn, IsButMended};
ghost use Rattle.dcv_certificate.specs.Tallies.{number_of, tallied, AreSizes, AreMarkedAlike};
ghost use Rattle.dcv_certificate.specs.Marks.{marked, IsMarkFrom, IsSideOf, AreTold, AreDone, IsSplitOff};
ghost use Rattle.dcv_refinement.specs.Members.{list_of, HaveTheirOwn, block_of};
ghost use Rattle.dcv_certificate.specs.Ones.{is_one, AreCounted, are_few_in, AreCandidates, AreRarer};

use crate::ones::Ones;
use crate::partition::Partition;
use crate::tally::Tally;
use dcv_arena::{Arena, Ref};
use dcv_language::Suffix;
use dcv_word::Letter;
use std::alloc::AllocError;

impl Partition<'_> {
    // Goes through the letters that begin as `front` does before the slot.
    pub(crate) fn walk(
        &mut self,
        scratch: &Arena,
        from: u32,
        front: Letter,
        slot: u8,
        marks: &[(u32, Ref)],
    ) -> Result<(), AllocError>
        requires vertices { AreVertices (raw_in self.old) }
        requires slots { scratch.now.slots ≡ (raw_in self.old).arena.slots }
        requires front { length front ≡ scratch.now.slots }
        requires slot { slot ≤ scratch.now.slots }
        requires marks { All (IsMarkFrom scratch.now (length (raw_in self.old).rows) slot) marks.now }
        requires from { from < length self.old.suffixes.items }
        requires separates { Separates (raw_in self.old) self.old }
        requires told { AreTold (raw_in self.old) self.old.blocks.items (word_at (listed_in self.old) from) scratch.now slot front marks.now }
        ensures vertices { raw_in self.new ≡ raw_in self.old }
        ensures separates { OnOk result (Separates (raw_in self.old) self.new) }
        ensures goes_on { OnOk result (GoesOn (raw_in self.old) self.old self.new) }
        ensures done { OnOk result (AreDone (raw_in self.old) self.new.blocks.items (word_at (listed_in self.old) from) slot front) }
    {
        if !self.is_mixed(marks)? {
            return Ok(());
        }
        if slot == scratch.slots() {
            return self.split(scratch, from, front, marks);
        }
        let lo = self.side(scratch, slot, false, marks)?;
        let hi = self.side(scratch, slot, true, marks)?;
        self.walk(scratch, from, front.with(slot, false), slot + 1, &lo)?;
        self.walk(scratch, from, front.with(slot, true), slot + 1, &hi)
    }

    // Whether some block has marks of two functions, or states with and without a mark. Else no letter tells its states apart, so
    // that the walk goes only where a block is split.
    fn is_mixed(&self, marks: &[(u32, Ref)]) -> Result<bool, AllocError>
        requires states { All (λ mark. mark.0 < length self.now.blocks.items) marks.now }
        requires numbers { All (λ block. block < self.now.count) self.now.blocks.items }
        requires sizes { AreSizes self.now.blocks.items self.now.count self.now.sizes.items }
        ensures { IfOk result (λ mixed. mixed ≡ false → AreMarkedAlike self.now.blocks.items marks.now) }
    {
        let mut tally = Tally::new(self.alloc);
        for (state, mark) in marks {
            if !tally.add(*state, self.blocks[*state as usize], *mark)? {
                return Ok(true);
            }
        }
        Ok(!self.are_full(&tally, marks))
    }

    // Whether all states of each block that has marks were counted.
    fn are_full(&self, tally: &Tally, marks: &[(u32, Ref)]) -> bool
        requires states { All (λ mark. mark.0 < length self.now.blocks.items) marks.now }
        requires numbers { All (λ block. block < self.now.count) self.now.blocks.items }
        requires sizes { length self.now.sizes.items ≡ self.now.count }
        ensures { result ≡ true → All (λ mark. slice_index_or self.now.sizes.items (block_of self.now.blocks.items mark.0) 0
            ≤ number_of (tallied tally.now (block_of self.now.blocks.items mark.0))) marks.now }
    {
        for (state, _) in marks {
            let block = self.blocks[*state as usize];
            if tally.number(block) < self.sizes[block as usize] {
                return false;
            }
        }
        true
    }

    // Lists the letter before the suffix at `from`, where that tells states of one block apart, and splits the blocks.
    fn split(
        &mut self,
        scratch: &Arena,
        from: u32,
        letter: Letter,
        marks: &[(u32, Ref)],
    ) -> Result<(), AllocError>
        requires vertices { AreVertices (raw_in self.old) }
        requires slots { scratch.now.slots ≡ (raw_in self.old).arena.slots }
        requires letter { length letter ≡ scratch.now.slots }
        requires marks { All (IsMarkFrom scratch.now (length (raw_in self.old).rows) scratch.now.slots) marks.now }
        requires from { from < length self.old.suffixes.items }
        requires separates { Separates (raw_in self.old) self.old }
        requires told { AreTold (raw_in self.old) self.old.blocks.items (word_at (listed_in self.old) from) scratch.now scratch.now.slots letter marks.now }
        ensures vertices { raw_in self.new ≡ raw_in self.old }
        ensures separates { OnOk result (Separates (raw_in self.old) self.new) }
        ensures goes_on { OnOk result (GoesOn (raw_in self.old) self.old self.new) }
        ensures done { OnOk result (AreDone (raw_in self.old) self.new.blocks.items (word_at (listed_in self.old) from) scratch.now.slots letter) }
    {
        let part = self.part(scratch, letter, marks)?;
        if part.is_empty() {
            return Ok(());
        }
        self.renumber(&part)?;
        self.parts.push(part)?;
        self.suffixes.push(Suffix::Then(letter, from))?;
        Ok(())
    }

    // The states that leave their blocks: of each block that has states with 1 and others, the smaller part.
    fn part(
        &mut self,
        scratch: &Arena,
        letter: Letter,
        marks: &[(u32, Ref)],
    ) -> Result<Vec<u32>, AllocError>
        requires letter { length letter ≡ scratch.now.slots }
        requires marks { All (IsMarkFrom scratch.now (length (raw_in self.old).rows) scratch.now.slots) marks.now }
        requires each { length self.old.blocks.items ≡ length (raw_in self.old).rows }
        requires numbers { All (λ block. block < self.old.count) self.old.blocks.items }
        requires sizes { AreSizes self.old.blocks.items self.old.count self.old.sizes.items }
        requires members { HaveTheirOwn self.old.blocks.items (list_of self.old.members) }
        ensures kept { IsButMended self.old self.new }
        ensures mended { OnOk result (HaveTheirOwn self.old.blocks.items (list_of self.new.members)) }
        ensures members { IfOk result (λ part. All (λ state. state < length self.old.blocks.items) part.items) }
        ensures part { IfOk result (λ part. IsSplitOff (raw_in self.old) self.old.blocks.items (marked scratch.now marks.now letter) part.items) }
    {
        let ones = self.ones(scratch, letter, marks)?;
        let candidates = self.candidates(&ones)?;
        self.rarer(&ones, &candidates)
    }

    // The states with 1 at this letter.
    fn ones(
        &self,
        scratch: &Arena,
        letter: Letter,
        marks: &[(u32, Ref)],
    ) -> Result<Ones, AllocError>
        requires letter { length letter ≡ scratch.now.slots }
        requires marks { All (IsMarkFrom scratch.now (length self.now.blocks.items) scratch.now.slots) marks.now }
        ensures states { IfOk result (λ ones. (state : ℕ) → is_one ones state ≡ marked scratch.now marks.now letter state) }
        ensures counted { IfOk result (AreCounted self.now.blocks.items) }
    {
        let mut ones = Ones::new(self.alloc);
        for (state, mark) in marks {
            if scratch.eval(*mark, &letter) == 1 {
                ones.add(*state, self.blocks[*state as usize])?;
            }
        }
        Ok(ones)
    }

    // The ones, and all states of the blocks in which they are not few.
    fn candidates(&mut self, ones: &Ones) -> Result<Vec<u32>, AllocError>
        requires counted { AreCounted self.old.blocks.items ones.now }
        requires numbers { All (λ block. block < self.old.count) self.old.blocks.items }
        requires sizes { length self.old.sizes.items ≡ self.old.count }
        requires members { HaveTheirOwn self.old.blocks.items (list_of self.old.members) }
        ensures kept { IsButMended self.old self.new }
        ensures mended { OnOk result (HaveTheirOwn self.old.blocks.items (list_of self.new.members)) }
        ensures states { IfOk result (λ states. All (λ state. state < length self.old.blocks.items) states.items) }
        ensures all { IfOk result (λ states. AreCandidates self.old.blocks.items self.old.sizes.items ones.now states.items) }
    {
        let mut states = ones.states(self.alloc)?;
        for block in &ones.blocks {
            if !self.are_few(ones, *block) {
                self.members.mend(&self.blocks, *block);
                states.extend_from_slice(self.members.list(*block))?;
            }
        }
        Ok(states)
    }

    // The candidates on the smaller side of their block.
    fn rarer(&self, ones: &Ones, candidates: &[u32]) -> Result<Vec<u32>, AllocError>
        requires states { All (λ state. state < length self.now.blocks.items) candidates.now }
        requires numbers { All (λ block. block < length self.now.sizes.items) self.now.blocks.items }
        ensures members { IfOk result (λ part. All (λ state. state < length self.now.blocks.items) part.items) }
        ensures part { IfOk result (λ part. AreRarer self.now.blocks.items self.now.sizes.items ones.now candidates.now part.items) }
    {
        let mut part = Vec::new(self.alloc);
        for state in candidates {
            if ones.has(*state) == self.are_few(ones, self.blocks[*state as usize]) {
                part.push(*state)?;
            }
        }
        Ok(part)
    }

    // Whether no more states of the block are ones than are not.
    fn are_few(&self, ones: &Ones, block: u32) -> bool
        requires { block < length self.now.sizes.items }
        ensures { result ≡ are_few_in self.now.sizes.items ones.now block }
    {
        ones.count(block) <= self.sizes[block as usize] / 2
    }

    // The marks with the value in the slot fixed, but for those that have no 1 there.
    fn side(
        &self,
        scratch: &Arena,
        slot: u8,
        value: bool,
        marks: &[(u32, Ref)],
    ) -> Result<Vec<(u32, Ref)>, AllocError>
        requires slot { slot < scratch.now.slots }
        requires marks { All (IsMarkFrom scratch.now (length (raw_in self.now).rows) slot) marks.now }
        ensures marks { IfOk result (λ side. All (IsMarkFrom scratch.now (length (raw_in self.now).rows) (slot + 1)) side.items) }
        ensures marked { IfOk result (λ side. IsSideOf scratch.now slot value marks.now side.items) }
    {
        let mut side = Vec::new(self.alloc);
        for (state, mark) in marks {
            let part = side_of(scratch, slot, value, *mark);
            if part != Ref::Leaf(0) {
                side.push((*state, part))?;
            }
        }
        Ok(side)
    }
}

// The function with the value in the slot fixed.
fn side_of(scratch: &Arena, slot: u8, value: bool, root: Ref) -> Ref
    requires root { IsRef scratch.now root }
    requires level { slot ≤ level_of scratch.now root }
    requires slot { slot < scratch.now.slots }
    ensures is_ref { IsRef scratch.now result }
    ensures level { slot + 1 ≤ level_of scratch.now result }
    ensures value { (letter : List Bool) → slice_index_or letter slot false ≡ value → value_of scratch.now result letter ≡ value_of scratch.now root letter }
{
    let (lo, hi) = scratch.split(root, slot);
    if value { hi } else { lo }
}
