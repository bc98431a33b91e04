// Canonical automata: the least for what they accept, with their states in the order of the words that lead to them (A. Nerode,
// 1958, and J. Myhill, 1957).
ghost use Rattle.std.specs.Prelude.{◌≡◌, ◌<◌, ◌≤◌, Some, false, length, slice_get, slice_index_or};
ghost use Rattle.std.specs.List.{All};
ghost use Rattle.dcv_arena.specs.Arena.{IsRef};
ghost use Rattle.dcv_language.specs.Complement.{stands_alone};
ghost use Rattle.dcv_language.specs.Language.{HaveSameBehaviours, outside};
ghost use Rattle.dcv_dfa.specs.Raw.{IsRaw, automaton_of, row_of, next_in, raw_accepts};
ghost use Rattle.dcv_dfa.specs.Auto.{IsAuto, IsAutoWith, count_of_nodes, complement_of};

use crate::laws::access_words_are_one;
use crate::raw::Raw;
use crate::table::Table;
use dcv_arena::{Arena, Ref};
use dcv_language::laws::{canonical_for_same_behaviours, complement_is_canonical};
use dcv_word::Letter;
use std::marker::Model;

/// The one canonical automaton for what it accepts: state 0 is the start, each other state is entered by some word, no two
/// states accept the same from there on, and they are numbered in the order of the least words that lead to them. Its arena
/// has the nodes of its rows and no others.
///
/// A start that no word leads to stands alone, and rejects.
#[derive(Drop)]
pub struct Auto {
    // the least automaton, its states in the order of their least words
    raw: Raw,
    // whether no word leads back to the start
    alone: bool,
}

impl Model for Auto {
    ghost use Rattle.dcv_dfa.specs.Raw.{RawValue};
    ghost use Rattle.dcv_dfa.specs.Auto.{IsAutoWith};

    ghost Value = { RawValue };

    ghost view = { λ auto. auto.raw };

    ghost invariant = { λ auto. IsAutoWith auto.raw auto.alone };
}

impl Auto {
    /// The canonical automaton that this raw one is. `alone` says whether no word leads to the start.
    pub fn new(raw: Raw, alone: bool) -> Auto
        requires { IsAutoWith raw alone }
        ensures { result ≡ raw }
    {
        Auto { raw, alone }
    }

    /// How many states there are: the least number for what is accepted.
    pub fn states(&self) -> u32
        ensures states { result ≡ length self.now.rows }
        ensures some { 0 < result }
        ensures raw { IsRaw self.now }
        ensures auto { IsAuto self.now }
    {
        self.raw.states()
    }

    /// How many variables the letters have.
    pub fn slots(&self) -> u8
        ensures slots { result ≡ self.now.arena.slots }
        ensures bound { result ≤ 32 }
        ensures auto { IsAuto self.now }
    {
        self.raw.slots()
    }

    /// Whether no word leads to the start.
    pub fn starts_alone(&self) -> bool
        ensures { IsAutoWith self.now result }
    {
        self.alone
    }

    /// Whether a state accepts.
    pub fn accepting(&self, state: u32) -> bool
        requires { state < length self.now.rows }
        ensures { result ≡ slice_index_or self.now.accepting state false }
    {
        self.raw.accepting(state)
    }

    /// The function from letters to the states that come next.
    pub fn row(&self, state: u32) -> Ref
        requires { state < length self.now.rows }
        ensures row { slice_get self.now.rows state ≡ Some result }
        ensures is_ref { IsRef self.now.arena result }
    {
        self.raw.row(state)
    }

    /// The arena of the rows.
    pub fn arena(&self) -> &Arena
        ensures arena { result.now ≡ self.now.arena }
    {
        self.raw.arena()
    }

    /// The automaton without the promise that it is canonical.
    pub fn raw(&self) -> &Raw
        ensures raw { result.now ≡ self.now }
        ensures auto { IsAuto self.now }
    {
        &self.raw
    }

    /// How many nodes the rows have together.
    pub fn nodes(&self) -> u32
        ensures { result ≡ count_of_nodes self.now }
    {
        self.raw.arena().len()
    }

    /// The state to which a letter leads.
    pub fn step(&self, state: u32, letter: &Letter) -> u32
        requires state { state < length self.now.rows }
        requires width { length letter.now ≡ self.now.arena.slots }
        ensures step { result ≡ next_in self.now state letter.now }
        ensures state { result < length self.now.rows }
    {
        self.raw.arena().eval(self.raw.row(state), letter)
    }

    /// Whether a word is accepted.
    pub fn accepts(&self, letters: &[Letter]) -> bool
        requires some { 0 < length letters.now }
        requires widths { All (λ letter. length letter ≡ self.now.arena.slots) letters.now }
        ensures { result ≡ raw_accepts self.now letters.now }
    {
        let mut state = self.raw.start();
        for letter in letters {
            state = self.step(state, letter);
        }
        self.accepting(state)
    }

    /// The canonical automaton of the words that this one does not accept. It takes no memory: flags change where they stand.
    pub fn complement(self) -> Auto
        ensures complement { (one : IsAuto self) → result ≡ complement_of (stands_alone one.access) self }
        ensures accepts { HaveSameBehaviours self.arena.slots (raw_accepts result) (outside (raw_accepts self)) }
        ensures auto { IsAuto result }
    {
        complement_is_canonical();
        canonical_for_same_behaviours();
        access_words_are_one();
        let alone = self.alone;
        Auto {
            raw: self.raw.turned(alone),
            alone,
        }
    }
}

impl Table for Auto {
    ghost automaton = { automaton_of };

    ghost slots = { λ auto. auto.arena.slots };

    ghost states = { λ auto. length auto.rows };

    ghost arena = { λ auto. auto.arena };

    ghost row_at = { row_of };

    fn slots(&self) -> u8 {
        Auto::slots(self)
    }

    fn states(&self) -> u32 {
        Auto::states(self)
    }

    fn start(&self) -> u32 {
        self.raw.start()
    }

    fn accepting(&self, state: u32) -> bool {
        Auto::accepting(self, state)
    }

    fn row(&self, state: u32) -> Ref {
        Auto::row(self, state)
    }

    fn arena(&self) -> &Arena {
        Auto::arena(self)
    }
}
