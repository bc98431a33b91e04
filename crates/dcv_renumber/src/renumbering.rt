// Numbers are exchanged for others by a list, in the functions of one arena and into another. Each node is gone through once,
// as in the simplest recursions over diagrams (R. E. Bryant, 1986, with the marks of the nodes that were met), and what its
// place became is kept, so that the time is linear in the nodes, of many roots too.
ghost use Rattle.std.specs.Prelude.{◌≡◌, ◌≤◌, ◌<◌, ℕ, List, Bool, Err, length, IfOk};
ghost use Rattle.dcv_arena.specs.Arena.{ArenaValue, IsRef, IsArena, level_of, value_of, KeepsRefs, AddsOnlyNodesOf, AddsOnlyNodesOfFunction, count_with};
ghost use Rattle.dcv_arena.specs.declared.nodes.Ref.TheVariants.{Place as AnyPlace};
ghost use Rattle.dcv_renumber.specs.Renumbered.{renumbered, IsNewRef, AddsOnlyOfNew, HasMoreNew, HoldsPlaces, HoldsNew};
ghost use Rattle.dcv_arena.specs.declared.faults.ArenaFault.TheVariants.{Full};

use crate::places::Places;
use dcv_arena::{Arena, ArenaFault, Ref};
use std::alloc::Global;
use std::marker::Model;

/// The function that has, at each letter, the new number of the number that `root` has there. `map` has at each
/// place the new number of that place. A slot that the letters of `arena` do not have counts as false.
pub fn remap(
    alloc: Global,
    arena: &mut Arena,
    from: &Arena,
    root: Ref,
    map: &[u32],
) -> Result<Ref, ArenaFault>
    requires root { IsRef from.now root }
    requires map { (letter : List Bool) → length letter ≡ arena.old.slots → value_of from.now root letter < length map.now }

    // The result has the new numbers, and no node has come but its own, after a refusal too.
    ensures is_ref { IfOk result (IsRef arena.new) }
    ensures value { IfOk result (λ new. (letter : List Bool) → length letter ≡ arena.old.slots
        → value_of arena.new new letter ≡ renumbered map.now from.now root letter) }
    ensures adds { IfOk result (AddsOnlyNodesOf arena.old arena.new) }
    ensures stray { AddsOnlyNodesOfFunction arena.old arena.new (renumbered map.now from.now root) }

    // It has more nodes that are new than there is room.
    ensures full { (limit : ℕ) → result ≡ Err (Full limit) → (limit ≡ arena.old.limit) × (limit < count_with arena.old (renumbered map.now from.now root)) }

    // The refs that there were mean what they meant.
    ensures kept { KeepsRefs arena.old arena.new }
    ensures arena { IsArena arena.new }
{
    Remapping::new(alloc, from, map).remap(arena, root)
}

/// Renumbers many functions of one arena by one list, into another arena, and goes through each of their nodes once.
///
/// Give all calls of `remap` one arena for their results. Between two calls other operations may add nodes to it.
#[derive(Drop)]
pub struct Remapping<'a> {
    // whose functions, by which list
    numbers: Numbers<'a>,
    // what places became so far
    places: Places,
}

impl<'a> Model for Remapping<'a> {
    ghost use Rattle.dcv_renumber.specs.Renumbered.{RemappingValue};

    ghost Value = { RemappingValue };

    ghost view = { λ remapping. record { from = remapping.numbers.from.now; numbers = remapping.numbers.new.now; places = remapping.places } };
}

impl<'a> Remapping<'a> {
    /// `map` has at each place the new number of that place.
    pub fn new(alloc: Global, from: &'a Arena, map: &'a [u32]) -> Remapping<'a>
        ensures from { result.from ≡ from.now }
        ensures map { result.numbers ≡ map.now }
        ensures holds { (arena : ArenaValue) → HoldsNew result arena }
    {
        Remapping {
            numbers: Numbers { from, new: map },
            places: Places::new(alloc),
        }
    }

    /// The same with the list of an earlier round, also of another arena. Nothing that it says of places counts any more, but its memory
    /// is used again: a round over the same arena costs what it goes through, however many nodes the arena has.
    pub fn over(mut places: Places, from: &'a Arena, map: &'a [u32]) -> Remapping<'a>
        ensures from { result.from ≡ from.now }
        ensures map { result.numbers ≡ map.now }
        ensures holds { (arena : ArenaValue) → HoldsNew result arena }
    {
        places.next_round();
        Remapping {
            numbers: Numbers { from, new: map },
            places,
        }
    }

    /// The list of what places became, for the next round.
    pub fn into_places(self) -> Places
        ensures { result ≡ self.entry.places }
    {
        self.places
    }
}

impl Remapping<'_> {
    /// The function that has, at each letter, the new number of the number that `root` has there. A slot that the
    /// letters of `arena` do not have counts as false.
    pub fn remap(&mut self, arena: &mut Arena, root: Ref) -> Result<Ref, ArenaFault>
        requires root { IsRef self.old.from root }
        requires map { (letter : List Bool) → length letter ≡ arena.old.slots
            → value_of self.old.from root letter < length self.old.numbers }
        requires holds { HoldsNew self.old arena.old }

        // The result has the new numbers, and no node has come but its own, after a refusal too.
        ensures is_ref { IfOk result (IsRef arena.new) }
        ensures value { IfOk result (λ new. (letter : List Bool) → length letter ≡ arena.old.slots
            → value_of arena.new new letter ≡ renumbered self.old.numbers self.old.from root letter) }
        ensures adds { IfOk result (AddsOnlyNodesOf arena.old arena.new) }
        ensures stray { AddsOnlyNodesOfFunction arena.old arena.new (renumbered self.old.numbers self.old.from root) }

        // It has more nodes that are new than there is room.
        ensures full { (limit : ℕ) → result ≡ Err (Full limit) → (limit ≡ arena.old.limit)
            × (limit < count_with arena.old (renumbered self.old.numbers self.old.from root)) }

        // The refs that there were mean what they meant, and the numbers and what was kept of them stay.
        ensures kept { KeepsRefs arena.old arena.new }
        ensures arena { IsArena arena.new }
        ensures from { self.new.from ≡ self.old.from }
        ensures map { self.new.numbers ≡ self.old.numbers }
        ensures holds { HoldsNew self.new arena.new }
    {
        // for the prover: of an arena that was asked it is known what is true of every arena.
        let _ = arena.slots();
        self.places.reach(self.numbers.from, root)?;
        self.numbers.renumber(arena, root, &mut self.places)
    }
}

// Whose functions get which numbers.
#[derive(Drop)]
struct Numbers<'a> {
    // the arena of the functions
    from: &'a Arena,
    // the new number of each number
    new: &'a [u32],
}

impl Numbers<'_> {
    // The ref with the new numbers. The code is put into `visit`, so that a leaf and a node that was gone through cost no call.
    #[cycle(renumber)]
    #[inline(always)]
    fn renumber(&self, arena: &mut Arena, root: Ref, places: &mut Places) -> Result<Ref, ArenaFault>
        requires root { IsRef self.now.from.now root }
        requires map { (letter : List Bool) → length letter ≡ arena.old.slots → value_of self.now.from.now root letter < length self.now.new.now }
        requires arena { IsArena arena.old }
        requires holds { HoldsPlaces self.now.new.now self.now.from.now arena.old places.old }
        ensures new { IfOk result (IsNewRef self.now.new.now self.now.from.now arena.new root) }
        ensures stray { AddsOnlyOfNew self.now.new.now self.now.from.now root arena.old arena.new }
        ensures limit { (limit : ℕ) → result ≡ Err (Full limit) → limit ≡ arena.old.limit }
        ensures full { (limit : ℕ) → result ≡ Err (Full limit) → HasMoreNew self.now.new.now self.now.from.now root arena.old limit }
        ensures kept { KeepsRefs arena.old arena.new }
        ensures arena { IsArena arena.new }
        ensures holds { HoldsPlaces self.now.new.now self.now.from.now arena.new places.new }
    {
        match root {
            Ref::Leaf(number) => Ok(arena.leaf(self.new[number as usize])),
            Ref::Place(place) => match places.get(place) {
                Some(new) => Ok(new),
                None => self.visit(arena, place, places),
            },
        }
    }

    // The same of the node at a place, which is gone through.
    #[cycle(renumber)]
    #[inline(never)]
    fn visit(&self, arena: &mut Arena, place: u32, places: &mut Places) -> Result<Ref, ArenaFault>
        requires root { IsRef self.now.from.now (AnyPlace place) }
        requires map { (letter : List Bool) → length letter ≡ arena.old.slots → value_of self.now.from.now (AnyPlace place) letter < length self.now.new.now }
        requires arena { IsArena arena.old }
        requires holds { HoldsPlaces self.now.new.now self.now.from.now arena.old places.old }
        ensures new { IfOk result (IsNewRef self.now.new.now self.now.from.now arena.new (AnyPlace place)) }
        ensures stray { AddsOnlyOfNew self.now.new.now self.now.from.now (AnyPlace place) arena.old arena.new }
        ensures limit { (limit : ℕ) → result ≡ Err (Full limit) → limit ≡ arena.old.limit }
        ensures full { (limit : ℕ) → result ≡ Err (Full limit) → HasMoreNew self.now.new.now self.now.from.now (AnyPlace place) arena.old limit }
        ensures kept { KeepsRefs arena.old arena.new }
        ensures arena { IsArena arena.new }
        ensures holds { HoldsPlaces self.now.new.now self.now.from.now arena.new places.new }
    {
        let root = Ref::Place(place);
        let slot = self.from.level(root);
        let (lo, hi) = self.from.split(root, slot);
        let new_lo = self.renumber(arena, lo, places)?;
        if arena.slots() <= slot {
            // No letter has this slot, so it is false at all of them.
            places.put(place, new_lo);
            return Ok(new_lo);
        }
        let new_hi = self.renumber(arena, hi, places)?;
        let new = arena.node(slot, new_lo, new_hi)?;
        places.put(place, new);
        Ok(new)
    }
}
