// Functions are merged letter by letter: `Apply` of R. E. Bryant (1986) for any number of operands at once. A memo keeps
// what operands were merged into, so that two of them are gone through once while the memo has room, and so is any other list
// that has more than one slot to go (see `visits.rt`); what is not kept, or is forgotten, is merged again. There is one recursion, over
// whatever form the operands of a visit have: a build of its own for two operands moves 16 bytes from visit to visit, and takes no memory
// but for what it adds to the memo and the arena.
ghost use Rattle.std.specs.Prelude.{◌≡◌, ◌≢◌, ◌≤◌, ◌<◌, ◌+◌, ℕ, List, [], ◌∷◌, Bool, Err, Ok, length, IfOk};
ghost use Rattle.std.specs.List.{All};
ghost use Rattle.dcv_arena.specs.Arena.{IsRef, IsArena, level_of, KeepsRefs};
ghost use Rattle.dcv_apply.specs.Operands.{IsOperand, numbers_at, numbers_at_both};
ghost use Rattle.dcv_apply.specs.Sources.{HasArenas, IsIn, IsFrom, merged_by};
ghost use Rattle.dcv_apply.specs.Memo.{HoldsRound, Remembers};
ghost use Rattle.dcv_arena.specs.Pointwise.{MeansMerged};
ghost use Rattle.dcv_apply.specs.Merged.{GoesOn, AddsOnlyOfMerged, HasMoreMerged, IsApplied};
ghost use Rattle.dcv_apply.specs.declared.faults.MergeFault.TheVariants.{States as MergeStates};
ghost use Rattle.dcv_apply.specs.declared.faults.ApplyFault.TheVariants.{Full, States};

use crate::faults::{ApplyFault, MergeFault};
use crate::keys::{Key, Pair};
use crate::memo::Memo;
use crate::operands::{LastSlot, Numbers, Operand, Sources};
use crate::visits::{SlotsLeft, Visit};
use dcv_arena::{Arena, Ref};
use smallvec::SmallVec;
use std::alloc::{AllocError, Global};

/// What numbers are merged into, list by list. Where the numbers are states of automata, the list has those that
/// are reached at one letter, and is merged into the number of the state that comes next.
pub trait Merge {
    /// The lists that may be merged. Calls keep them.
    ghost may: { Self → List ℕ → Type 0 };

    /// The number that a list is merged into, as far as it is known: at most one, and calls only add to what is known.
    ghost gives: { Self → List ℕ → ℕ → Type 0 };

    /// That there are more different numbers to give than this limit.
    ghost full: { Self → ℕ → Type 0 };

    /// What a merge may become by calls: nothing else is done to it.
    ghost becomes: { Self → Self → Type 0 };

    /// The number that these are merged into.
    fn leaf(&mut self, leaves: &[u32]) -> Result<u32, MergeFault>
        requires { may self.old leaves.now }
        ensures gives { IfOk result (gives self.new leaves.now) }
        ensures known { (numbers : List ℕ) (number : ℕ) → gives self.old numbers number → gives self.new numbers number }
        ensures kept { (numbers : List ℕ) → may self.old numbers → may self.new numbers }
        ensures full { (limit : ℕ) → result ≡ Err (MergeStates limit) → full self.new limit }
        ensures becomes { becomes self.old self.new };

    ghost one_number: { (merge : Self) (numbers : List ℕ) (first second : ℕ) → gives merge numbers first → gives merge numbers second → first ≡ second };

    ghost stays: { (merge : Self) → becomes merge merge };

    ghost goes_on: { (first second third : Self) → becomes first second → becomes second third → becomes first third };
}

/// The function whose number at each letter is what the operands' numbers there are merged into, in order.
///
/// An operand is a place, 0 for `first` and else `second`, and a ref of that arena. A slot that the letters of
/// `arena` do not have counts as false. All operands are followed at once, from slot to slot, as R. E. Bryant's
/// `Apply` follows two (1986), and a slot on which none of them depends is passed over.
///
/// What operands were merged into is looked up in `memo`, in this round, and put there. So a round is given to one
/// operation alone: this one or `apply_last`, with these sources, one merge, and one arena for what comes of it.
pub fn apply<G: Merge>(
    alloc: Global,
    arena: &mut Arena,
    first: &Arena,
    second: &Arena,
    operands: &[(u32, Ref)],
    merge: &mut G,
    memo: &mut Memo,
    round: u32,
) -> Result<Ref, ApplyFault>
    requires operands { All (IsOperand first.now second.now) operands.now }
    requires may { (letter : List Bool) → length letter ≡ arena.old.slots → G.may merge.old (numbers_at first.now second.now operands.now letter) }
    requires holds { HoldsRound (G.gives merge.old) (numbers_at first.now second.now) arena.old round memo.old }

    // What merging answers, and what becomes of the arena and of the merge.
    ensures merged { IsApplied (G.gives merge.new) (G.full merge.new) (numbers_at first.now second.now operands.now) arena.old arena.new result }
    ensures goes_on { GoesOn G.may G.gives G.becomes merge.old merge.new }

    // The memo holds what this merge gives, in the round, and of other rounds only what it held.
    ensures remembered { Remembers (G.gives merge.new) (numbers_at first.now second.now) arena.new round memo.old memo.new }
{
    let operation = Operation {
        alloc,
        sources: Sources { first, second },
        last_slot: LastSlot::Kept,
        round,
    };
    operation.apply(arena, operands, merge, memo)
}

/// The same with the slot just after those of `arena` merged too: what is merged at a letter are all the operands'
/// numbers where that slot is false, and then all those where it is true.
pub fn apply_last<G: Merge>(
    alloc: Global,
    arena: &mut Arena,
    first: &Arena,
    second: &Arena,
    operands: &[(u32, Ref)],
    merge: &mut G,
    memo: &mut Memo,
    round: u32,
) -> Result<Ref, ApplyFault>
    requires operands { All (IsOperand first.now second.now) operands.now }
    requires may { (letter : List Bool) → length letter ≡ arena.old.slots → G.may merge.old (numbers_at_both first.now second.now operands.now letter) }
    requires holds { HoldsRound (G.gives merge.old) (numbers_at_both first.now second.now) arena.old round memo.old }

    // What merging answers, and what becomes of the arena and of the merge.
    ensures merged { IsApplied (G.gives merge.new) (G.full merge.new) (numbers_at_both first.now second.now operands.now) arena.old arena.new result }
    ensures goes_on { GoesOn G.may G.gives G.becomes merge.old merge.new }

    // The memo holds what this merge gives, in the round, and of other rounds only what it held.
    ensures remembered { Remembers (G.gives merge.new) (numbers_at_both first.now second.now) arena.new round memo.old memo.new }
{
    let operation = Operation {
        alloc,
        sources: Sources { first, second },
        last_slot: LastSlot::Merged,
        round,
    };
    operation.apply(arena, operands, merge, memo)
}

// What does not change while functions are merged.
#[derive(Drop)]
pub(crate) struct Operation<'a> {
    // where lists of operands are allocated
    pub(crate) alloc: Global,
    // the arenas of the operands
    pub(crate) sources: Sources<'a>,
    // the last slot at which results are remembered
    last_slot: LastSlot,
    // the number of this operation with its sources in the memo
    round: u32,
}

impl Operation<'_> {
    // The merge of these operands.
    fn apply<G: Merge>(
        &self,
        arena: &mut Arena,
        operands: &[Operand],
        merge: &mut G,
        memo: &mut Memo,
    ) -> Result<Ref, ApplyFault>
        requires operands { All (IsIn self.now.sources) operands.now }
        requires may { (letter : List Bool) → length letter ≡ arena.old.slots
            → G.may merge.old (merged_by self.now operands.now letter) }
        requires holds { HoldsRound (G.gives merge.old) (merged_by self.now) arena.old self.now.round memo.old }
        ensures merged { IsApplied (G.gives merge.new) (G.full merge.new) (merged_by self.now operands.now) arena.old arena.new result }
        ensures goes_on { GoesOn G.may G.gives G.becomes merge.old merge.new }
        ensures remembered { Remembers (G.gives merge.new) (merged_by self.now) arena.new self.now.round memo.old memo.new }
    {
        // for the prover: of an arena that was asked it is known what is true of every arena.
        let _ = (
            self.sources.first.slots(),
            self.sources.second.slots(),
            arena.slots(),
        );
        if let Some(pair) = Pair::of(self.round, operands) {
            return self.apply_from(arena, pair, 0, merge, memo);
        }
        let operands = SmallVec::from_slice(self.alloc, operands)?;
        let key = Key::new(self.round, operands);
        self.apply_from(arena, key, 0, merge, memo)
    }

    // The numbers that are merged at each letter of so many slots, where the operands depend on none of them.
    pub(crate) fn numbers(&self, operands: &[Operand], slots: u8) -> Result<Numbers, AllocError>
        requires bound { slots ≤ 32 }
        requires operands { All (IsFrom self.now.sources slots) operands.now }
        ensures { IfOk result (λ numbers. (letter : List Bool) → length letter ≡ slots
            → numbers.items ≡ merged_by self.now operands.now letter) }
    {
        self.sources
            .merged(self.alloc, self.last_slot, operands, slots)
    }

    // The number that two operands' numbers are merged into at each letter of so many slots, where they depend on none of them.
    #[inline(always)]
    pub(crate) fn leaf_of_two<G: Merge>(
        &self,
        one: Operand,
        other: Operand,
        slots: u8,
        merge: &mut G,
    ) -> Result<u32, MergeFault>
        requires bound { slots ≤ 32 }
        requires one { IsFrom self.now.sources slots one }
        requires other { IsFrom self.now.sources slots other }
        requires may { (letter : List Bool) → length letter ≡ slots → G.may merge.old (merged_by self.now (one ∷ other ∷ []) letter) }
        ensures gives { IfOk result (λ number. (letter : List Bool) → length letter ≡ slots
            → G.gives merge.new (merged_by self.now (one ∷ other ∷ []) letter) number) }
        ensures full { (limit : ℕ) → result ≡ Err (MergeStates limit) → G.full merge.new limit }
        ensures goes_on { GoesOn G.may G.gives G.becomes merge.old merge.new }
    {
        let sources = &self.sources;
        match self.last_slot {
            LastSlot::Kept => merge.leaf(&sources.two(one, other, slots)),
            LastSlot::Merged => merge.leaf(&sources.two_at_both(one, other, slots)),
        }
    }

    // The leaf of what the operands' numbers are merged into, where they depend on no slot.
    #[inline(never)]
    fn merge_numbers<G: Merge, V: Visit>(
        &self,
        arena: &Arena,
        visit: &V,
        merge: &mut G,
    ) -> Result<Ref, ApplyFault>
        requires operands { All (IsFrom self.now.sources arena.now.slots) (V.operands visit.now) }
        requires may { (letter : List Bool) → length letter ≡ arena.now.slots
            → G.may merge.old (merged_by self.now (V.operands visit.now) letter) }
        ensures is_ref { IfOk result (IsRef arena.now) }
        ensures level { IfOk result (λ root. arena.now.slots ≤ level_of arena.now root) }
        ensures value { IfOk result (MeansMerged (G.gives merge.new) (merged_by self.now (V.operands visit.now)) arena.now) }
        ensures room { (limit : ℕ) → result ≢ Err (Full limit) }
        ensures states { (limit : ℕ) → result ≡ Err (States limit) → G.full merge.new limit }
        ensures goes_on { GoesOn G.may G.gives G.becomes merge.old merge.new }
    {
        Ok(arena.leaf(visit.leaf(self, arena.slots(), merge)?))
    }

    // The merge of operands that depend on no slot before `from`. The code is put into `merge_sides`, so that a visit that ends at a leaf
    // or at what is remembered costs no call of that.
    #[cycle(apply_from)]
    #[inline(always)]
    fn apply_from<G: Merge, V: Visit>(
        &self,
        arena: &mut Arena,
        visit: V,
        from: u8,
        merge: &mut G,
        memo: &mut Memo,
    ) -> Result<Ref, ApplyFault>
        requires sources { HasArenas self.now.sources }
        requires from { from ≤ arena.old.slots }
        requires round { V.round visit ≡ self.now.round }
        requires operands { All (IsFrom self.now.sources from) (V.operands visit) }
        requires may { (letter : List Bool) → length letter ≡ arena.old.slots
            → G.may merge.old (merged_by self.now (V.operands visit) letter) }
        requires holds { HoldsRound (G.gives merge.old) (merged_by self.now) arena.old self.now.round memo.old }
        ensures is_ref { IfOk result (IsRef arena.new) }
        ensures level { IfOk result (λ root. from ≤ level_of arena.new root) }
        ensures value { IfOk result (MeansMerged (G.gives merge.new) (merged_by self.now (V.operands visit)) arena.new) }
        ensures stray { AddsOnlyOfMerged (G.gives merge.new) (merged_by self.now (V.operands visit)) from arena.old arena.new }
        ensures limit { (limit : ℕ) → result ≡ Err (Full limit) → limit ≡ arena.old.limit }
        ensures full { (limit : ℕ) → result ≡ Err (Full limit)
            → HasMoreMerged (G.gives merge.new) (merged_by self.now (V.operands visit)) from arena.old limit }
        ensures states { (limit : ℕ) → result ≡ Err (States limit) → G.full merge.new limit }
        ensures kept { KeepsRefs arena.old arena.new }
        ensures arena { IsArena arena.new }
        ensures goes_on { GoesOn G.may G.gives G.becomes merge.old merge.new }
        ensures remembered { Remembers (G.gives merge.new) (merged_by self.now) arena.new self.now.round memo.old memo.new }
    {
        let slots = arena.slots();
        let slot = visit.first_slot(&self.sources, slots);
        if slot == slots {
            return self.merge_numbers(arena, &visit, merge);
        }
        let left = SlotsLeft::at(slot, slots);
        match visit.remembered(memo, left) {
            Some(root) => Ok(root),
            None => {
                let root = self.merge_sides(arena, &visit, slot, merge, memo)?;
                visit.remember(memo, root, left);
                Ok(root)
            }
        }
    }

    // The same of operands that depend on no slot before this one, by what they are where it is false and where it is true. What comes of
    // it is for the caller to remember, who holds the operands anyway.
    #[cycle(apply_from)]
    #[inline(never)]
    fn merge_sides<G: Merge, V: Visit>(
        &self,
        arena: &mut Arena,
        visit: &V,
        slot: u8,
        merge: &mut G,
        memo: &mut Memo,
    ) -> Result<Ref, ApplyFault>
        requires sources { HasArenas self.now.sources }
        requires slot { slot < arena.old.slots }
        requires round { V.round visit.now ≡ self.now.round }
        requires operands { All (IsFrom self.now.sources slot) (V.operands visit.now) }
        requires may { (letter : List Bool) → length letter ≡ arena.old.slots
            → G.may merge.old (merged_by self.now (V.operands visit.now) letter) }
        requires arena { IsArena arena.old }
        requires holds { HoldsRound (G.gives merge.old) (merged_by self.now) arena.old self.now.round memo.old }
        ensures is_ref { IfOk result (IsRef arena.new) }
        ensures level { IfOk result (λ root. slot ≤ level_of arena.new root) }
        ensures value { IfOk result (MeansMerged (G.gives merge.new) (merged_by self.now (V.operands visit.now)) arena.new) }
        ensures stray { AddsOnlyOfMerged (G.gives merge.new) (merged_by self.now (V.operands visit.now)) slot arena.old arena.new }
        ensures limit { (limit : ℕ) → result ≡ Err (Full limit) → limit ≡ arena.old.limit }
        ensures full { (limit : ℕ) → result ≡ Err (Full limit)
            → HasMoreMerged (G.gives merge.new) (merged_by self.now (V.operands visit.now)) slot arena.old limit }
        ensures states { (limit : ℕ) → result ≡ Err (States limit) → G.full merge.new limit }
        ensures kept { KeepsRefs arena.old arena.new }
        ensures arena { IsArena arena.new }
        ensures goes_on { GoesOn G.may G.gives G.becomes merge.old merge.new }
        ensures remembered { Remembers (G.gives merge.new) (merged_by self.now) arena.new self.now.round memo.old memo.new }
    {
        let (when_false, when_true) = visit.sides(self, slot)?;
        let lo = self.apply_from(arena, when_false, slot + 1, merge, memo)?;
        let hi = self.apply_from(arena, when_true, slot + 1, merge, memo)?;
        let root = arena.node(slot, lo, hi)?;
        Ok(root)
    }
}
