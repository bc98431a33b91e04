// The operands of an operation: refs of two arenas, followed together from slot to slot, and their numbers where
// they depend on no slot more.
ghost use Rattle.std.specs.Prelude.{◌≡◌, ◌≤◌, ◌<◌, ◌+◌, [], ◌∷◌, ◌++◌, List, Bool, false, true, ℕ, length, slice_set, IfOk, OnOk};
ghost use Rattle.std.specs.List.{All};
ghost use Rattle.dcv_arena.specs.declared.nodes.Ref.TheVariants.{Place as AnyPlace};
ghost use Rattle.dcv_apply.specs.Operands.{arena_at, merged_at};
ghost use Rattle.dcv_apply.specs.Pairs.{operand_at, plain, code_of};
ghost use Rattle.dcv_apply.specs.Sources.{IsIn, IsFrom, HaveSideOf, number_in, numbers_in};

use dcv_arena::{Arena, Ref};
use dcv_word::Letter;
use smallvec::SmallVec;
use std::alloc::{AllocError, Global};

// A place, 0 for the first arena and else the second, and a ref there.
pub(crate) type Operand = (u32, Ref);

// The operands of one visit that has not two, and the numbers that are merged in one. Few take no memory of their own.
pub(crate) type Operands = SmallVec<Operand, IN_PLACE>;

pub(crate) type Numbers = SmallVec<u32, FEW>;

// So many operands lie in place: an atom has three.
pub(crate) const IN_PLACE: usize = 3;

// So many numbers lie in place.
const FEW: usize = 16;

// What an operand's number says: a leaf's own number, which is the same in both arenas, or a node of the first or of the second.
#[derive(Clone, Copy, Debug, PartialEq, Eq)]
pub(crate) enum Kind {
    Leaf,
    First,
    Second,
}

impl Kind {
    // The operand of this kind that has this number.
    #[inline(always)]
    pub(crate) fn operand(self, number: u32) -> Operand
        ensures { result ≡ operand_at self number }
    {
        match self {
            Kind::Leaf => (0, Ref::Leaf(number)),
            Kind::First => (0, Ref::Place(number)),
            Kind::Second => (1, Ref::Place(number)),
        }
    }

    // As a number, for a hash.
    #[inline(always)]
    pub(crate) fn code(self) -> u64
        ensures value { result ≡ code_of self }
        ensures bound { result < 4 }
    {
        match self {
            Kind::Leaf => 0,
            Kind::First => 1,
            Kind::Second => 2,
        }
    }
}

// The kind of an operand, and its number.
#[inline(always)]
pub(crate) fn told(operand: Operand) -> (Kind, u32)
    ensures { operand_at result.0 result.1 ≡ plain operand }
{
    let (place, root) = operand;
    match root {
        Ref::Leaf(number) => (Kind::Leaf, number),
        Ref::Place(number) => (kind_at(place), number),
    }
}

// The kind of a node of the arena at this place.
#[inline(always)]
fn kind_at(place: u32) -> Kind
    ensures { (number : ℕ) → operand_at result number ≡ plain (place, AnyPlace number) }
{
    if place == 0 {
        Kind::First
    } else {
        Kind::Second
    }
}

// Which numbers are merged at a letter: those of the operands there, or those where the slot after the letter
// is false and then those where it is true.
#[derive(Clone, Copy)]
pub(crate) enum LastSlot {
    Kept,
    Merged,
}

// The arenas whose functions are merged.
#[derive(Drop)]
pub(crate) struct Sources<'a> {
    // the arena of operands with the number 0
    pub(crate) first: &'a Arena,
    // the arena of operands with the number 1
    pub(crate) second: &'a Arena,
}

impl Sources<'_> {
    // The arena of a place.
    fn arena(&self, place: u32) -> &Arena
        ensures { result.now ≡ arena_at self.now.first.now self.now.second.now place }
    {
        if place == 0 { self.first } else { self.second }
    }

    // The first slot that an operand depends on, or `slots` where it depends on none before that.
    pub(crate) fn first_slot_of(&self, operand: Operand, slots: u8) -> u8
        requires { IsIn self.now operand }
        ensures bound { result ≤ slots }
        ensures from { IsFrom self.now result operand }
        ensures last { (slot : ℕ) → slot ≤ slots → IsFrom self.now slot operand → slot ≤ result }
    {
        let (place, root) = operand;
        match root {
            Ref::Leaf(_) => slots,
            Ref::Place(_) => self.arena(place).level(root).min(slots),
        }
    }

    // The first slot that one of the operands depends on, or `slots` where none depends on one before that.
    pub(crate) fn first_slot(&self, operands: &[Operand], slots: u8) -> u8
        requires { All (IsIn self.now) operands.now }
        ensures bound { result ≤ slots }
        ensures from { All (IsFrom self.now result) operands.now }
        ensures last { (slot : ℕ) → slot ≤ slots → All (IsFrom self.now slot) operands.now → slot ≤ result }
    {
        let mut first = slots;
        for operand in operands {
            first = first.min(self.first_slot_of(*operand, slots));
        }
        first
    }

    // The operand with false in the slot, and with true.
    #[inline(always)]
    pub(crate) fn parts(&self, operand: Operand, slot: u8) -> (Operand, Operand)
        requires { IsFrom self.now slot operand }
        ensures lo_from { IsFrom self.now (slot + 1) result.0 }
        ensures hi_from { IsFrom self.now (slot + 1) result.1 }
        ensures lo_number { (letter : List Bool) → slot < length letter
            → number_in self.now letter result.0 ≡ number_in self.now (slice_set letter slot false) operand }
        ensures hi_number { (letter : List Bool) → slot < length letter
            → number_in self.now letter result.1 ≡ number_in self.now (slice_set letter slot true) operand }
    {
        let (place, root) = operand;
        match root {
            Ref::Leaf(_) => (operand, operand),
            Ref::Place(_) => {
                let (lo, hi) = self.arena(place).split(root, slot);
                ((place, lo), (place, hi))
            }
        }
    }

    // The operands with false in the slot, and with true.
    pub(crate) fn sides(
        &self,
        alloc: Global,
        operands: &[Operand],
        slot: u8,
    ) -> Result<(Operands, Operands), AllocError>
        requires { All (IsFrom self.now slot) operands.now }
        ensures lo_from { IfOk result (λ sides. All (IsFrom self.now (slot + 1)) sides.0.items) }
        ensures hi_from { IfOk result (λ sides. All (IsFrom self.now (slot + 1)) sides.1.items) }
        ensures lo_numbers { IfOk result (λ sides. HaveSideOf self.now operands.now slot false sides.0.items) }
        ensures hi_numbers { IfOk result (λ sides. HaveSideOf self.now operands.now slot true sides.1.items) }
    {
        let mut when_false = SmallVec::with_capacity(alloc, operands.len())?;
        let mut when_true = SmallVec::with_capacity(alloc, operands.len())?;
        for operand in operands {
            let (lo, hi) = self.parts(*operand, slot);
            when_false.push(lo)?;
            when_true.push(hi)?;
        }
        Ok((when_false, when_true))
    }

    // The number of an operand that depends on none of the first slots, at a letter that has no others.
    fn number(&self, operand: Operand, slots: u8) -> u32
        requires { IsFrom self.now slots operand }
        ensures { (letter : List Bool) → length letter ≤ slots → result ≡ number_in self.now letter operand }
    {
        let (place, root) = operand;
        match root {
            Ref::Leaf(number) => number,
            Ref::Place(_) => {
                let arena = self.arena(place);
                arena.eval(root, &Letter::new(arena.slots(), 0))
            }
        }
    }

    // The numbers of two such operands.
    #[inline(always)]
    pub(crate) fn two(&self, one: Operand, other: Operand, slots: u8) -> [u32; 2]
        requires one { IsFrom self.now slots one }
        requires other { IsFrom self.now slots other }
        ensures { (letter : List Bool) → length letter ≤ slots → result ≡ numbers_in self.now (one ∷ other ∷ []) letter }
    {
        [self.number(one, slots), self.number(other, slots)]
    }

    // The numbers of two such operands where the slot after a letter of so many slots is false, and then those where it is true.
    pub(crate) fn two_at_both(&self, one: Operand, other: Operand, slots: u8) -> [u32; 4]
        requires bound { slots ≤ 32 }
        requires one { IsFrom self.now slots one }
        requires other { IsFrom self.now slots other }
        ensures { (letter : List Bool) → length letter ≡ slots → result
            ≡ numbers_in self.now (one ∷ other ∷ []) (letter ++ false ∷ []) ++ numbers_in self.now (one ∷ other ∷ []) (letter ++ true ∷ []) }
    {
        let (one_lo, one_hi) = self.parts(one, slots);
        let (other_lo, other_hi) = self.parts(other, slots);
        [
            self.number(one_lo, slots + 1),
            self.number(other_lo, slots + 1),
            self.number(one_hi, slots + 1),
            self.number(other_hi, slots + 1),
        ]
    }

    // Adds the numbers of such operands.
    fn push_numbers(
        &self,
        operands: &[Operand],
        slots: u8,
        numbers: &mut Numbers,
    ) -> Result<(), AllocError>
        requires { All (IsFrom self.now slots) operands.now }
        ensures { OnOk result ((letter : List Bool) → length letter ≤ slots
            → numbers.new.items ≡ numbers.old.items ++ numbers_in self.now operands.now letter) }
    {
        if operands.len() > FEW {
            numbers.reserve(operands.len())?;
        }
        for operand in operands {
            numbers.push(self.number(*operand, slots))?;
        }
        Ok(())
    }

    // Adds the numbers of such operands where the slot after a letter of so many slots is false, and then those where it is true.
    fn push_sides(
        &self,
        alloc: Global,
        operands: &[Operand],
        slots: u8,
        numbers: &mut Numbers,
    ) -> Result<(), AllocError>
        requires bound { slots ≤ 32 }
        requires operands { All (IsFrom self.now slots) operands.now }
        ensures { OnOk result ((letter : List Bool) → length letter ≡ slots → numbers.new.items ≡ numbers.old.items
            ++ (numbers_in self.now operands.now (letter ++ false ∷ []) ++ numbers_in self.now operands.now (letter ++ true ∷ []))) }
    {
        let (when_false, when_true) = self.sides(alloc, operands, slots)?;
        self.push_numbers(&when_false, slots + 1, numbers)?;
        self.push_numbers(&when_true, slots + 1, numbers)
    }

    // The numbers that are merged at each letter of so many slots, where the operands depend on none of them.
    pub(crate) fn merged(
        &self,
        alloc: Global,
        last_slot: LastSlot,
        operands: &[Operand],
        slots: u8,
    ) -> Result<Numbers, AllocError>
        requires bound { slots ≤ 32 }
        requires operands { All (IsFrom self.now slots) operands.now }
        ensures { IfOk result (λ numbers. (letter : List Bool) → length letter ≡ slots
            → numbers.items ≡ merged_at last_slot self.now.first.now self.now.second.now operands.now letter) }
    {
        let mut numbers = SmallVec::new(alloc);
        match last_slot {
            LastSlot::Kept => self.push_numbers(operands, slots, &mut numbers)?,
            LastSlot::Merged => self.push_sides(alloc, operands, slots, &mut numbers)?,
        }
        Ok(numbers)
    }
}
