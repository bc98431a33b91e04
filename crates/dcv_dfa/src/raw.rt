// Raw automata: not yet minimal, their states in any order, any of them the start.
ghost use Rattle.std.specs.Prelude.{◌≡◌, ◌<◌, not, length, map, slice_get, slice_index_or, Some, false};
ghost use Rattle.dcv_arena.specs.Arena.{IsRef};
ghost use Rattle.dcv_dfa.specs.Raw.{IsRaw, raw_value, automaton_of, row_of};
ghost use Rattle.dcv_dfa.specs.Auto.{complement_of};

use crate::table::Table;
use dcv_arena::{Arena, Ref};
use std::marker::Model;

/// An automaton as an exploration leaves it. It has at least one state, and its start and all numbers of its rows are
/// states.
#[derive(Drop)]
pub struct Raw {
    // the nodes of the rows
    arena: Arena,
    // for each state, by a letter, the state that comes next
    rows: Vec<Ref>,
    // whether each state accepts
    accepting: Vec<bool>,
    // the state before the first letter
    start: u32,
}

impl Model for Raw {
    ghost use Rattle.dcv_dfa.specs.Raw.{RawValue, IsRaw, raw_value};

    ghost Value = { RawValue };

    ghost view = { λ raw. raw_value raw.arena raw.rows.items raw.accepting.items raw.start };

    ghost invariant = { λ raw. IsRaw (raw_value raw.arena raw.rows.items raw.accepting.items raw.start) };
}

impl Raw {
    /// The automaton with these rows and flags, one of each a state.
    pub fn new(arena: Arena, rows: Vec<Ref>, accepting: Vec<bool>, start: u32) -> Raw
        requires { IsRaw (raw_value arena rows.items accepting.items start) }
        ensures { result ≡ raw_value arena rows.items accepting.items start }
    {
        Raw {
            arena,
            rows,
            accepting,
            start,
        }
    }

    /// How many states there are.
    pub fn states(&self) -> u32
        ensures states { result ≡ length self.now.rows }
        ensures some { 0 < result }
        ensures raw { IsRaw self.now }
    {
        self.rows.len() as u32
    }

    /// How many variables the letters have.
    pub fn slots(&self) -> u8
        ensures slots { result ≡ self.now.arena.slots }
        ensures raw { IsRaw self.now }
    {
        self.arena.slots()
    }

    /// The state in which words begin.
    pub fn start(&self) -> u32
        ensures start { result ≡ self.now.start }
        ensures state { result < length self.now.rows }
    {
        self.start
    }

    /// Whether a state accepts.
    pub fn accepting(&self, state: u32) -> bool
        requires { state < length self.now.rows }
        ensures { result ≡ slice_index_or self.now.accepting state false }
    {
        self.accepting[state as usize]
    }

    /// The function from letters to the states that come next.
    pub fn row(&self, state: u32) -> Ref
        requires { state < length self.now.rows }
        ensures row { slice_get self.now.rows state ≡ Some result }
        ensures is_ref { IsRef self.now.arena result }
    {
        self.rows[state as usize]
    }

    /// The rows of all states, in order.
    pub fn rows(&self) -> &[Ref]
        ensures rows { result.now ≡ self.now.rows }
        ensures raw { IsRaw self.now }
    {
        &self.rows
    }

    /// The arena of the rows.
    pub fn arena(&self) -> &Arena
        ensures arena { result.now ≡ self.now.arena }
        ensures raw { IsRaw self.now }
    {
        &self.arena
    }

    /// The arena and the rows, for another automaton over the same.
    pub fn into_rows(self) -> (Arena, Vec<Ref>)
        ensures arena { result.0 ≡ self.arena }
        ensures rows { result.1.items ≡ self.rows }
        ensures raw { IsRaw self }
    {
        (self.arena, self.rows)
    }
}

impl Raw {
    // Each flag turned, but for that of state 0 where it stands alone.
    pub(crate) fn turned(self, alone: bool) -> Raw
        ensures turned { result ≡ complement_of alone self }
        ensures raw { IsRaw self }
    {
        let mut raw = self;
        turn(&mut raw.accepting[usize::from(alone)..]);
        raw
    }
}

// Turns each flag.
fn turn(flags: &mut [bool])
    ensures { flags.new ≡ map not flags.old }
{
    for flag in flags.iter_mut() {
        *flag = !*flag;
    }
}

impl Table for Raw {
    ghost automaton = { automaton_of };

    ghost slots = { λ raw. raw.arena.slots };

    ghost states = { λ raw. length raw.rows };

    ghost arena = { λ raw. raw.arena };

    ghost row_at = { row_of };

    fn slots(&self) -> u8 {
        self.arena().slots()
    }

    fn states(&self) -> u32 {
        Raw::states(self)
    }

    fn start(&self) -> u32 {
        Raw::start(self)
    }

    fn accepting(&self, state: u32) -> bool {
        Raw::accepting(self, state)
    }

    fn row(&self, state: u32) -> Ref {
        Raw::row(self, state)
    }

    fn arena(&self) -> &Arena {
        Raw::arena(self)
    }
}
