// An automaton where it stands on a shelf.
ghost use Rattle.std.specs.Prelude.{◌≡◌, length};
ghost use Rattle.dcv_arena.specs.Arena.{IsArena};
ghost use Rattle.dcv_language.specs.Table.{automaton_of};
ghost use Rattle.dcv_shelf.specs.Shelf.{nodes_of_table};
ghost use Rattle.dcv_shelf.specs.Stored.{IsStored, view_table, row_at};

use crate::stored::Stored;
use dcv_arena::{Arena, Ref};
use dcv_dfa::Table;
use std::marker::Model;

/// A canonical automaton of a shelf, which machines take as an operand. Its arena is the shelf's, which may have more slots; its rows
/// depend on its own slots alone.
#[derive(Drop)]
pub struct View<'a> {
    // the arena of the shelf
    arena: &'a Arena,
    // the automaton there
    stored: &'a Stored,
}

impl<'a> Model for View<'a> {
    ghost use Rattle.dcv_shelf.specs.Stored.{ViewValue, IsView};

    ghost Value = { ViewValue };

    ghost view = { λ view. record { arena = view.arena.now; stored = view.stored.now } };

    ghost invariant = { λ view. IsView (record { arena = view.arena.now; stored = view.stored.now }) };
}

impl<'a> View<'a> {
    pub(crate) fn new(arena: &'a Arena, stored: &'a Stored) -> View<'a>
        requires { IsStored arena.now stored.now }
        ensures arena { result.arena ≡ arena.now }
        ensures stored { result.stored ≡ stored.now }
    {
        // for the prover: of an arena that was asked it is known what is true of every arena.
        let _ = arena.slots();
        View { arena, stored }
    }
}

impl View<'_> {
    /// How many nodes the rows have together.
    pub fn nodes(&self) -> u32
        ensures { result ≡ nodes_of_table (view_table self.now) }
    {
        self.stored.nodes
    }
}

impl Table for View<'_> {
    ghost automaton = { λ view. automaton_of (view_table view).table };

    ghost slots = { λ view. view.stored.slots };

    ghost states = { λ view. length view.stored.states.items };

    ghost arena = { λ view. view.arena };

    ghost row_at = { λ view. row_at view.stored };

    fn slots(&self) -> u8 {
        self.stored.slots
    }

    fn states(&self) -> u32 {
        self.stored.states.len() as u32
    }

    fn start(&self) -> u32 {
        0
    }

    fn accepting(&self, state: u32) -> bool {
        self.stored.states[state as usize].accepting
    }

    fn row(&self, state: u32) -> Ref {
        self.stored.states[state as usize].row
    }

    fn arena(&self) -> &Arena {
        self.arena
    }
}
