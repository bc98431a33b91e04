// Canonical automata that share one arena, each by its number.
ghost use Rattle.std.specs.Prelude.{◌≡◌, ◌<◌, ◌≤◌, ◌+◌, [], length, map, Some, slice_get, IfOk, OnErr};
ghost use Rattle.std.specs.List.{All};
ghost use Rattle.dcv_dfa.specs.Auto.{IsAuto, count_of_nodes};
ghost use Rattle.dcv_dfa.specs.Raw.{IsRaw};
ghost use Rattle.dcv_shelf.specs.Shelf.{ShelfTable, table_of_auto, HaveOneNumberEach, KeepsNumbers, HasNumber, HasComplement};
ghost use Rattle.dcv_shelf.specs.Stored.{IsStored, stored_table, IsView, view_table};

use crate::leaving::{auto_of, raw_of};
use crate::stored::Stored;
use crate::view::View;
use dcv_arena::Arena;
use dcv_dfa::{Auto, Raw};
use dcv_language::laws::{complement_is_canonical, one_canonical_table};
use indexmap::IndexSet;
use std::alloc::{AllocError, Global};
use std::marker::Model;

// How many nodes the arena of a shelf may have.
const MOST_NODES: u32 = 1_073_741_824;

// At so many tables a new one is refused, as if memory had run out. No build comes near it.
const MOST_TABLES: usize = 1_000_000_000;

/// Canonical automata in one arena, each with a number. Two have one number exactly where their tables and their widths are the same.
///
/// A shelf that has as many nodes or tables as it may have answers a call that needs more as if memory had run out.
#[derive(Drop)]
pub struct Shelf {
    // where tables are allocated
    alloc: Global,
    // the nodes of all automata
    arena: Arena,
    // the automata by their numbers, each once
    tables: IndexSet<Stored>,
}

impl Model for Shelf {
    ghost use Rattle.dcv_shelf.specs.Shelf.{ShelfValue};
    ghost use Rattle.dcv_shelf.specs.Stored.{shelf_value, IsShelf};

    ghost Value = { ShelfValue };

    ghost view = { λ shelf. shelf_value shelf.arena shelf.tables.keys };

    ghost invariant = { λ shelf. IsShelf shelf.arena shelf.tables.keys };
}

impl Shelf {
    /// A shelf with no automata, for letters of at most so many variables. No memory is taken before the first automaton.
    pub fn new(alloc: Global, slots: u8) -> Shelf
        requires { slots ≤ 32 }
        ensures slots { result.slots ≡ slots }
        ensures empty { result.tables ≡ [] }
        ensures room { result.room ≡ 1_073_741_824 }
    {
        Shelf {
            alloc,
            arena: Arena::new(alloc, slots, MOST_NODES),
            tables: IndexSet::new(alloc),
        }
    }

    /// How many variables the letters may have.
    pub fn slots(&self) -> u8
        ensures { result ≡ self.now.slots }
    {
        self.arena.slots()
    }

    /// How many tables there are. Their numbers are those below.
    pub fn tables(&self) -> usize
        ensures { result ≡ length self.now.tables }
    {
        self.tables.len()
    }

    /// How many nodes may still come.
    pub fn room(&self) -> u32
        ensures { result ≡ self.now.room }
    {
        self.arena.limit() - self.arena.len()
    }

    /// The number of an automaton, which is added where its table is not there. The same states over more variables are another table.
    pub fn add(&mut self, auto: &Auto) -> Result<u32, AllocError>
        requires { auto.now.arena.slots ≤ self.old.slots }
        ensures added { IfOk result (HasNumber self.old.tables (table_of_auto auto.now) self.new.tables) }
        ensures refused { OnErr result (self.new.tables ≡ self.old.tables) }

        // Numbers that were given stay, and room is lost for no more nodes than the automaton has; both after a refusal too.
        ensures kept { KeepsNumbers self.old.tables self.new.tables }
        ensures room { self.old.room ≤ self.new.room + count_of_nodes auto.now }
        ensures no_more { self.new.room ≤ self.old.room }
        ensures slots { self.new.slots ≡ self.old.slots }
        ensures once { HaveOneNumberEach self.new.tables }
    {
        // for the prover: of an arena that was asked it is known what is true of every arena.
        let _ = self.arena.slots();
        let stored = Stored::of(self.alloc, &mut self.arena, auto)?;
        put(&self.arena, &mut self.tables, stored)
    }

    /// The number of the complement of an automaton, which is added where it is not there. It has the same rows, so no node comes.
    pub fn not(&mut self, number: u32) -> Result<u32, AllocError>
        requires { number < length self.old.tables }
        ensures added { (one : ShelfTable) → slice_get self.old.tables number ≡ Some one → IfOk result (HasComplement self.old.tables one self.new.tables) }
        ensures refused { OnErr result (self.new.tables ≡ self.old.tables) }
        ensures kept { KeepsNumbers self.old.tables self.new.tables }
        ensures room { self.new.room ≡ self.old.room }
        ensures slots { self.new.slots ≡ self.old.slots }
        ensures once { HaveOneNumberEach self.new.tables }
    {
        complement_is_canonical();
        let turned = self.tables.as_slice()[number as usize].turned(self.alloc)?;
        put(&self.arena, &mut self.tables, turned)
    }

    /// The automaton with this number.
    pub fn view(&self, number: u32) -> View<'_>
        requires { number < length self.now.tables }
        ensures table { slice_get self.now.tables number ≡ Some (view_table result) }

        // The table is canonical, and its rows are refs of the arena that depend on its own slots alone.
        ensures view { IsView result }
    {
        View::new(&self.arena, &self.tables.as_slice()[number as usize])
    }

    /// The automaton with this number, in an arena of its own: of its own width, and with the nodes of its rows and no others.
    pub fn copy_out(&self, number: u32) -> Result<Auto, AllocError>
        requires { number < length self.now.tables }
        ensures { IfOk result (λ auto. slice_get self.now.tables number ≡ Some (table_of_auto auto)) }
    {
        auto_of(
            self.alloc,
            &self.arena,
            &self.tables.as_slice()[number as usize],
        )
    }

    /// The same, for a caller that takes automata which need not be canonical.
    pub fn copy_raw(&self, number: u32) -> Result<Raw, AllocError>
        requires { number < length self.now.tables }
        ensures raw { IfOk result IsRaw }
        ensures auto { IfOk result IsAuto }
        ensures table { IfOk result (λ raw. slice_get self.now.tables number ≡ Some (table_of_auto raw)) }
    {
        raw_of(
            self.alloc,
            &self.arena,
            &self.tables.as_slice()[number as usize],
        )
    }
}

// The number of a table, which is added where it is not there.
fn put(arena: &Arena, tables: &mut IndexSet<Stored>, stored: Stored) -> Result<u32, AllocError>
    requires each { All (IsStored arena.now) tables.old.keys }
    requires once { HaveOneNumberEach (map (stored_table arena.now) tables.old.keys) }
    requires stored { IsStored arena.now stored }
    ensures number { IfOk result (HasNumber (map (stored_table arena.now) tables.old.keys) (stored_table arena.now stored) (map (stored_table arena.now) tables.new.keys)) }
    ensures refused { OnErr result (tables.new.keys ≡ tables.old.keys) }
    ensures kept { KeepsNumbers (map (stored_table arena.now) tables.old.keys) (map (stored_table arena.now) tables.new.keys) }
    ensures each { All (IsStored arena.now) tables.new.keys }
    ensures once { HaveOneNumberEach (map (stored_table arena.now) tables.new.keys) }
{
    if tables.len() >= MOST_TABLES {
        return Err(AllocError);
    }
    // for the prover: of an arena that was asked it is known what is true of every arena.
    let _ = arena.slots();
    one_canonical_table();
    let (place, _) = tables.insert_full(stored)?;
    Ok(place as u32)
}
