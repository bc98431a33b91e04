// What is visited while functions are merged: operands that are followed together, in the form in which a memo has them. Two, as most
// visits have, are copied from visit to visit and take no memory of their own; any other number of them stand in a list.
ghost use Rattle.std.specs.Prelude.{◌≡◌, ◌≤◌, ◌<◌, ℕ, List, Bool, Err, length, false, true, IfOk, IfSome, Contains};
ghost use Rattle.std.specs.List.{All};
ghost use Rattle.dcv_arena.specs.declared.nodes.Ref.{Ref as AnyRef};
ghost use Rattle.dcv_apply.specs.Sources.{IsIn, IsFrom, IsSide, merged_by};
ghost use Rattle.dcv_apply.specs.Merged.{GoesOn};
ghost use Rattle.dcv_apply.specs.Remembered.{entry, KeepsEntries, Adds};
ghost use Rattle.dcv_apply.specs.declared.faults.MergeFault.TheVariants.{States};

use crate::faults::MergeFault;
use crate::keys::{Key, Pair};
use crate::memo::Memo;
use crate::merging::{Merge, Operation};
use crate::operands::Sources;
use dcv_arena::Ref;
use std::alloc::AllocError;

// How many slots are left from the first one on that the operands depend on.
#[derive(Clone, Copy)]
pub(crate) enum SlotsLeft {
    // The only slot that the letters have.
    Only,
    // The last of several slots.
    Last,
    More,
}

impl SlotsLeft {
    // Those from this slot on. They decide the time and the memory alone, so no clause says which they are.
    #[inline(always)]
    pub(crate) fn at(slot: u8, slots: u8) -> SlotsLeft
        requires { slot < slots }
    {
        if slots - slot > 1 {
            SlotsLeft::More
        } else if slot > 0 {
            SlotsLeft::Last
        } else {
            SlotsLeft::Only
        }
    }
}

// Operands in a round.
pub(crate) trait Visit: Drop {
    ghost round: { Self → ℕ };

    ghost operands: { Self → List (ℕ × AnyRef) };

    // The first slot that one of the operands depends on, or `slots` where none depends on one before that.
    fn first_slot(&self, sources: &Sources<'_>, slots: u8) -> u8
        requires { All (IsIn sources.now) (operands self.now) }
        ensures bound { result ≤ slots }
        ensures from { All (IsFrom sources.now result) (operands self.now) }
        ensures last { (slot : ℕ) → slot ≤ slots → All (IsFrom sources.now slot) (operands self.now) → slot ≤ result };

    // The operands with false in the slot, and with true.
    fn sides(&self, operation: &Operation<'_>, slot: u8) -> Result<(Self, Self), AllocError>
        requires round { round self.now ≡ operation.now.round }
        requires operands { All (IsFrom operation.now.sources slot) (operands self.now) }
        ensures when_false { IfOk result (λ sides. IsSide operation.now (operands self.now) slot false (round sides.0) (operands sides.0)) }
        ensures when_true { IfOk result (λ sides. IsSide operation.now (operands self.now) slot true (round sides.1) (operands sides.1)) };

    // The number that the operands' numbers are merged into at each letter of so many slots, where they depend on none of them.
    fn leaf<G: Merge>(
        &self,
        operation: &Operation<'_>,
        slots: u8,
        merge: &mut G,
    ) -> Result<u32, MergeFault>
        requires bound { slots ≤ 32 }
        requires operands { All (IsFrom operation.now.sources slots) (operands self.now) }
        requires may { (letter : List Bool) → length letter ≡ slots → G.may merge.old (merged_by operation.now (operands self.now) letter) }
        ensures gives { IfOk result (λ number. (letter : List Bool) → length letter ≡ slots
            → G.gives merge.new (merged_by operation.now (operands self.now) letter) number) }
        ensures full { (limit : ℕ) → result ≡ Err (States limit) → G.full merge.new limit }
        ensures goes_on { GoesOn G.may G.gives G.becomes merge.old merge.new };

    // The ref that is remembered.
    fn remembered(&self, memo: &mut Memo, left: SlotsLeft) -> Option<Ref>
        ensures found { IfSome result (λ root. Contains memo.old.entries (entry (round self.now) (operands self.now) root)) }
        ensures kept { KeepsEntries memo.old memo.new }
        ensures capacity { memo.new.capacity ≡ memo.old.capacity };

    // Remembers the ref, unless it is as good to merge the operands again, or memory runs out. Others may be forgotten for it, and then too.
    fn remember(self, memo: &mut Memo, root: Ref, left: SlotsLeft)
        ensures adds { Adds (entry (round self) (operands self) root) memo.old memo.new }
        ensures capacity { memo.new.capacity ≡ memo.old.capacity };
}

impl Visit for Pair {
    ghost use Rattle.dcv_apply.specs.Pairs.{pair_operands};

    ghost round = { λ pair. pair.round };

    ghost operands = { pair_operands };

    #[inline(always)]
    fn first_slot(&self, sources: &Sources<'_>, slots: u8) -> u8 {
        let first = sources.first_slot_of(self.one(), slots);
        sources.first_slot_of(self.other(), first)
    }

    #[inline(always)]
    fn sides(&self, operation: &Operation<'_>, slot: u8) -> Result<(Pair, Pair), AllocError> {
        let (one_lo, one_hi) = operation.sources.parts(self.one(), slot);
        let (other_lo, other_hi) = operation.sources.parts(self.other(), slot);
        let when_false = Pair::new(self.round(), one_lo, other_lo);
        let when_true = Pair::new(self.round(), one_hi, other_hi);
        Ok((when_false, when_true))
    }

    #[inline(always)]
    fn leaf<G: Merge>(
        &self,
        operation: &Operation<'_>,
        slots: u8,
        merge: &mut G,
    ) -> Result<u32, MergeFault> {
        operation.leaf_of_two(self.one(), self.other(), slots, merge)
    }

    #[inline(always)]
    fn remembered(&self, memo: &mut Memo, _left: SlotsLeft) -> Option<Ref> {
        memo.get_pair(self)
    }

    #[inline(always)]
    fn remember(self, memo: &mut Memo, root: Ref, _left: SlotsLeft) {
        memo.put_pair(self, root);
    }
}

impl Visit for Key {
    ghost round = { λ key. key.round };

    ghost operands = { λ key. key.operands.items };

    fn first_slot(&self, sources: &Sources<'_>, slots: u8) -> u8 {
        sources.first_slot(&self.operands, slots)
    }

    fn sides(&self, operation: &Operation<'_>, slot: u8) -> Result<(Key, Key), AllocError> {
        let (when_false, when_true) = operation
            .sources
            .sides(operation.alloc, &self.operands, slot)?;
        Ok((
            Key::new(self.round, when_false),
            Key::new(self.round, when_true),
        ))
    }

    fn leaf<G: Merge>(
        &self,
        operation: &Operation<'_>,
        slots: u8,
        merge: &mut G,
    ) -> Result<u32, MergeFault> {
        let numbers = operation.numbers(&self.operands, slots)?;
        merge.leaf(&numbers)
    }

    fn remembered(&self, memo: &mut Memo, left: SlotsLeft) -> Option<Ref> {
        if !is_kept(self, left) {
            return None;
        }
        memo.get(self)
    }

    fn remember(self, memo: &mut Memo, root: Ref, left: SlotsLeft) {
        if !is_kept(&self, left) {
            return;
        }
        memo.put(self, root);
    }
}

// Whether such operands are remembered. A list that has one slot to go is merged as soon as it is found again, and many such lists take more
// memory than all else. So only an operand alone is kept there, and short lists where letters have one slot, since all lists are such then.
fn is_kept(operands: &Key, left: SlotsLeft) -> bool {
    match left {
        SlotsLeft::Only => operands.is_in_place(),
        SlotsLeft::Last => operands.is_alone(),
        SlotsLeft::More => true,
    }
}
