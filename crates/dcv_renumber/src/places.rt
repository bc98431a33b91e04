// What the places of an arena became, as a list by place, so that a look-up reads one entry. An entry tells the round that wrote it, and
// counts in that round alone: a new round begins with no work over the list.
ghost use Rattle.std.specs.Prelude.{◌≡◌, ℕ, [], IfSome, Some, slice_set};
ghost use Rattle.dcv_renumber.specs.Became.{HasBecome};
ghost use Rattle.dcv_arena.specs.declared.nodes.Ref.{Ref as AnyRef};

use dcv_arena::{Arena, Ref};
use std::alloc::{AllocError, Global};
use std::marker::Model;

// What a place became in a round.
#[derive(Clone, Copy)]
pub(crate) struct Became {
    // the round that wrote it
    round: u32,
    // what the place became then
    new: Ref,
}

// The entry of a place that was never written. No round has its number.
const BLANK: Became = Became {
    round: 0,
    new: Ref::Leaf(0),
};

/// What the places of an arena became, in one round of renumbering after another. In each round nothing counts but what became in it, so
/// the list may be handed from round to round, and from arena to arena.
#[derive(Drop)]
pub struct Places {
    // an entry for each place
    became: Vec<Became>,
    // the number of this round
    round: u32,
}

impl Model for Places {
    ghost use Rattle.std.specs.Prelude.{◌≤◌, ℕ, List, Option, map};
    ghost use Rattle.std.specs.List.{All};
    ghost use Rattle.dcv_arena.specs.declared.nodes.Ref.{Ref as AnyRef};
    ghost use Rattle.dcv_renumber.specs.Rounds.{became_in, IsUpTo};

    ghost Value = { List (Option AnyRef) };

    ghost view = { λ places. map (became_in places.round) places.became.items };

    ghost invariant = { λ places. (1 ≤ places.round) × All (IsUpTo places.round) places.became.items };
}

impl Places {
    /// No place became anything. No memory is taken before the first does.
    pub fn new(alloc: Global) -> Places
        ensures { result ≡ [] }
    {
        Places {
            became: Vec::new(alloc),
            round: 1,
        }
    }

    // The next round, in which no place became anything yet. After the last number of rounds the list is begun anew.
    pub(crate) fn next_round(&mut self)
        ensures { (place : ℕ) (new : AnyRef) → ¬ HasBecome self.new place new }
    {
        if self.round < u32::MAX {
            self.round += 1;
            return;
        }
        self.became.clear();
        self.round = 1;
    }

    // Sees to it that there are entries for the root's node and for all below it, whose places are lower.
    pub(crate) fn reach(&mut self, from: &Arena, root: Ref) -> Result<(), AllocError>
        ensures { (place : ℕ) (new : AnyRef) → HasBecome self.new place new → HasBecome self.old place new }
    {
        match root {
            Ref::Place(place) if self.became.len() <= place as usize => self.lengthen(from.len()),
            _ => Ok(()),
        }
    }

    // Lengthens the list to this many entries, where it has fewer.
    #[inline(never)]
    fn lengthen(&mut self, nodes: u32) -> Result<(), AllocError>
        ensures { (place : ℕ) (new : AnyRef) → HasBecome self.new place new → HasBecome self.old place new }
    {
        if nodes as usize <= self.became.len() {
            return Ok(());
        }
        self.became.resize(nodes as usize, BLANK)
    }

    // What a place became.
    pub(crate) fn get(&self, place: u32) -> Option<Ref>
        ensures { IfSome result (HasBecome self.now place) }
    {
        match self.became.get(place as usize) {
            Some(became) if became.round == self.round => Some(became.new),
            _ => None,
        }
    }

    // Keeps what a place became, where the list reaches it.
    pub(crate) fn put(&mut self, place: u32, new: Ref)
        ensures { self.new ≡ slice_set self.old place (Some new) }
    {
        let Some(became) = self.became.get_mut(place as usize) else {
            return;
        };
        *became = Became {
            round: self.round,
            new,
        };
    }
}
