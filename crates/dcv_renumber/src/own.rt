// Functions with new numbers in an arena of their own. A function with new numbers has no more nodes than it had, so an arena that may hold as
// many nodes as there are numbers for them is never full, and memory alone may be wanting.
ghost use Rattle.std.specs.Prelude.{◌≡◌, ◌<◌, List, Bool, [], length, IfOk};
ghost use Rattle.dcv_arena.specs.Arena.{IsRef, IsArena, value_of, KeepsRefs, AddsOnlyNodesOf};
ghost use Rattle.dcv_renumber.specs.Renumbered.{renumbered};

use crate::places::Places;
use crate::renumbering::Remapping;
use dcv_arena::{Arena, ArenaFault, Ref};
use std::alloc::{AllocError, Global};
use std::marker::Model;

/// Renumbers many functions of one arena by one list, into an arena of its own, which has room for all of them. Each node is gone through
/// once.
#[derive(Drop)]
pub struct Renumbering<'a> {
    // whose functions, by which list
    remapping: Remapping<'a>,
    // the nodes of the functions with new numbers
    own: Arena,
}

impl<'a> Model for Renumbering<'a> {
    ghost use Rattle.dcv_renumber.specs.Own.{RenumberingValue, IsRenumbering, seen_as};

    ghost Value = { RenumberingValue };

    ghost view = { λ renumbering. seen_as renumbering.remapping renumbering.own };

    ghost invariant = { λ renumbering. IsRenumbering (seen_as renumbering.remapping renumbering.own) };
}

impl<'a> Renumbering<'a> {
    /// `map` has at each place the new number of that place. The list of an earlier round, also of another arena, may be handed in for its
    /// memory alone: nothing that it says of places counts.
    pub fn new(alloc: Global, places: Places, from: &'a Arena, map: &'a [u32]) -> Renumbering<'a>
        ensures from { result.from ≡ from.now }
        ensures map { result.numbers ≡ map.now }
        ensures slots { result.own.slots ≡ from.now.slots }
        ensures empty { result.own.nodes ≡ [] }
        ensures arena { IsArena result.own }
    {
        let own = Arena::new(alloc, from.slots(), u32::MAX);
        Renumbering {
            remapping: Remapping::over(places, from, map),
            own,
        }
    }

    /// The arena of the functions with new numbers.
    pub fn into_arena(self) -> Arena
        ensures { result ≡ self.entry.own }
    {
        self.own
    }

    /// The list of what places became, for the next round.
    pub fn into_places(self) -> Places
        ensures { result ≡ self.entry.places }
    {
        self.remapping.into_places()
    }
}

impl Renumbering<'_> {
    /// The function that has, at each letter, the new number of the number that `root` has there.
    pub fn renumber(&mut self, root: Ref) -> Result<Ref, AllocError>
        requires root { IsRef self.old.from root }
        requires map { (letter : List Bool) → length letter ≡ self.old.own.slots
            → value_of self.old.from root letter < length self.old.numbers }

        // The result has the new numbers, and no node has come but its own.
        ensures is_ref { IfOk result (IsRef self.new.own) }
        ensures value { IfOk result (λ new. (letter : List Bool) → length letter ≡ self.old.own.slots
            → value_of self.new.own new letter ≡ renumbered self.old.numbers self.old.from root letter) }
        ensures adds { IfOk result (AddsOnlyNodesOf self.old.own self.new.own) }

        // The refs that there were mean what they meant, and so do the numbers.
        ensures kept { KeepsRefs self.old.own self.new.own }
        ensures arena { IsArena self.new.own }
        ensures from { self.new.from ≡ self.old.from }
        ensures map { self.new.numbers ≡ self.old.numbers }
    {
        match self.remapping.remap(&mut self.own, root) {
            Ok(new) => Ok(new),
            Err(fault) => match fault {
                ArenaFault::Memory => Err(AllocError),
                // there is room for the nodes of all functions with new numbers.
                ArenaFault::Full { .. } => unreachable!(),
            },
        }
    }
}
