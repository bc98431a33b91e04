// A set of states: an ascending list, most of them short enough to need no allocation, or bits where the list would take more.
ghost use Rattle.std.specs.Prelude.{◌≡◌, ◌<◌, ◌≤◌, ◌^◌, ◌++◌, [], ◌∷◌, true, length, AllPairs, IfOk, IfSome, OnOk};
ghost use Rattle.std.specs.List.{All, list_any};
ghost use Rattle.std.specs.List.Sorted.{IsStrictlyIncreasing};
ghost use Rattle.dcv_language.specs.StateSet.{set_of};
ghost use Rattle.dcv_sets.specs.Bits.{bits_of, width_of, is_dense, kept};
ghost use Rattle.dcv_sets.specs.Rows.{rows_of, numbers_of, IsRowOf};

use crate::bit_rows::{push_bit_numbers, push_bit_rows, some_bit_accepts};
use crate::bits::{bits_from, push_states};
use crate::rows::{Numbers, push_numbers, push_rows, some_accepts};
use dcv_dfa::Table;
use dcv_explore::Operands;
use smallvec::SmallVec;
use std::alloc::{AllocError, Global};
use std::hash::{Hash, Hasher};
use std::marker::Model;

// The states of a set, of which few lie in place, or the words of its bits.
pub type States = SmallVec<u32, 8>;

/// A set of states, in ascending order.
#[derive(Drop)]
pub struct StateSet {
    // whether the words are bits
    dense: bool,
    // the numbers of its states in order, or bits of which those of its states are 1
    words: States,
}

impl Model for StateSet {
    ghost use Rattle.std.specs.Prelude.{ℕ, List};

    ghost Value = { List ℕ };

    ghost use Rattle.dcv_sets.specs.Bits.{states_kept, IsKept};

    ghost view = { λ set. states_kept set.dense set.words.items };

    ghost invariant = { λ set. IsKept set.dense set.words.items };
}

// Whether each state is below the next, as most lists are that machines make.
fn is_ascending(states: &[u32]) -> bool
    ensures { result ≡ true → IsStrictlyIncreasing states.now }
{
    let Some((first, others)) = states.split_first() else {
        return true;
    };
    let mut last = *first;
    for state in others {
        if *state <= last {
            return false;
        }
        last = *state;
    }
    true
}

// Puts the states of a list in ascending order, each once.
fn ascend(states: &mut States)
    ensures { states.new.items ≡ set_of states.old.items }
{
    if is_ascending(states.as_slice()) {
        return;
    }
    states.sort_unstable();
    states.dedup();
}

// Adds a state at its place in an ascending list, where it is not there.
fn add(states: &mut States, state: u32) -> Result<(), AllocError>
    ensures { OnOk result (set_of states.new.items ≡ set_of (states.old.items ++ state ∷ [])) }
{
    match states.binary_search(&state) {
        Ok(_) => Ok(()),
        Err(place) => {
            states.insert(place, state)?;
            Ok(())
        }
    }
}

// Sets of fewer states are lists.
const FEW: usize = 64;

// How many words have the bits of an ascending list.
fn width(states: &[u32]) -> usize
    ensures is { result ≡ width_of states.now }
    ensures bound { result ≤ 2 ^ 27 }
{
    match states.last() {
        Some(last) => (*last / 32) as usize + 1,
        None => 1,
    }
}

// Whether a list is kept as bits.
#[inline(always)]
fn is_kept_as_bits(states: &[u32]) -> bool
    ensures { result ≡ is_dense states.now }
{
    states.len() >= FEW && width(states) <= states.len()
}

// Makes an ascending list bits.
#[inline(never)]
fn make_bits(alloc: Global, states: &mut States) -> Result<(), AllocError>
    requires ascends { AllPairs (λ x y. x < y) states.old.items }
    ensures words { OnOk result (states.new.items ≡ bits_of (width_of states.old.items) states.old.items) }
    ensures width { OnOk result (length states.new.items ≤ 2 ^ 27) }
{
    let words = bits_from(alloc, width(states.as_slice()), states.as_slice())?;
    *states = words;
    Ok(())
}

// Makes an ascending list the words in which it is kept, and reports whether they are bits.
#[inline(always)]
fn pack(alloc: Global, states: &mut States) -> Result<bool, AllocError>
    requires ascends { AllPairs (λ x y. x < y) states.old.items }
    ensures form { IfOk result (λ dense. dense ≡ is_dense states.old.items) }
    ensures words { OnOk result (states.new.items ≡ kept states.old.items) }
    ensures width { IfOk result (λ dense. dense ≡ true → length states.new.items ≤ 2 ^ 27) }
{
    if !is_kept_as_bits(states.as_slice()) {
        return Ok(false);
    }
    make_bits(alloc, states)?;
    Ok(true)
}

impl StateSet {
    /// The set of these states, which may come in any order and repeat.
    pub fn of(alloc: Global, states: &[u32]) -> Result<StateSet, AllocError>
        ensures { IfOk result (λ set. set ≡ set_of states.now) }
    {
        let mut listed = SmallVec::from_slice(alloc, states)?;
        ascend(&mut listed);
        let dense = pack(alloc, &mut listed)?;
        Ok(StateSet {
            dense,
            words: listed,
        })
    }

    // Its states in a list, which has room for so many more where the set is a list, too.
    fn listed(&self, alloc: Global, more: usize) -> Result<States, AllocError>
        ensures { IfOk result (λ states. states.items ≡ self.now) }
    {
        if self.dense {
            let mut states = SmallVec::new(alloc);
            push_states(&self.words, &mut states)?;
            return Ok(states);
        }
        let many = self.words.len().saturating_add(more);
        let mut states = SmallVec::with_capacity(alloc, many)?;
        states.extend_from_slice(&self.words)?;
        Ok(states)
    }

    /// The set of its states and these. It takes no more memory than lists of both have, but where all lie in place.
    pub fn with(&self, alloc: Global, more: &[u32]) -> Result<StateSet, AllocError>
        ensures { IfOk result (λ set. set ≡ set_of (self.now ++ more.now)) }
    {
        let mut states = self.listed(alloc, more.len())?;
        for state in more {
            add(&mut states, *state)?;
        }
        ascend(&mut states);
        let dense = pack(alloc, &mut states)?;
        Ok(StateSet {
            dense,
            words: states,
        })
    }

    // No more than it has states: a set of bits has no fewer than words, and is no small one.
    fn at_least(&self) -> usize {
        if self.dense {
            self.words.len().max(FEW)
        } else {
            self.words.len()
        }
    }

    /// The set without its last state, and that state, where it has so many states as are large.
    pub fn split_last(
        &self,
        alloc: Global,
        large: usize,
    ) -> Result<Option<(StateSet, u32)>, AllocError>
        ensures { IfOk result (λ parts. IfSome parts (λ parts. self.now ≡ parts.0 ++ parts.1 ∷ [])) }
    {
        // for the prover: a field is read, so from here on it is known what is true of every set.
        let _ = &self.dense;
        if self.at_least() < large {
            return Ok(None);
        }
        let mut states = self.listed(alloc, 0)?;
        let Some(last) = states.pop() else {
            return Ok(None);
        };
        let dense = pack(alloc, &mut states)?;
        let others = StateSet {
            dense,
            words: states,
        };
        Ok(Some((others, last)))
    }

    /// The same set once more.
    pub fn copy(&self, alloc: Global) -> Result<StateSet, AllocError>
        ensures { IfOk result (λ copy. copy ≡ self.now) }
    {
        let words = SmallVec::from_slice(alloc, &self.words)?;
        Ok(StateSet {
            dense: self.dense,
            words,
        })
    }

    /// Adds the row of each of its states, in ascending order, as an operand of the place.
    pub fn push_rows<T: Table>(
        &self,
        table: &T,
        place: u32,
        to: &mut Operands,
    ) -> Result<(), AllocError>
        requires place { place < 2 }
        requires states { All (λ state. state < T.states table.now) self.now }
        ensures added { OnOk result (to.new ≡ to.old ++ rows_of place (T.row_at table.now) self.now) }
        ensures rows { OnOk result (All (λ state. IsRowOf (T.automaton table.now) (T.slots table.now) (T.arena table.now) state (T.row_at table.now state)) self.now) }
    {
        if self.dense {
            return push_bit_rows(table, place, &self.words, to);
        }
        push_rows(table, place, &self.words, to)
    }

    /// Adds the number that each of its states has in the column, in ascending order of the states.
    pub fn push_numbers(&self, column: &[u32], to: &mut Numbers) -> Result<(), AllocError>
        requires { All (λ state. state < length column.now) self.now }
        ensures { OnOk result (to.new.items ≡ to.old.items ++ numbers_of column.now self.now) }
    {
        if self.dense {
            return push_bit_numbers(column, &self.words, to);
        }
        push_numbers(column, &self.words, to)
    }

    /// Whether one of its states accepts.
    pub fn some_accepts<T: Table>(&self, table: &T) -> bool
        requires { All (λ state. state < T.states table.now) self.now }
        ensures { result ≡ list_any (T.automaton table.now).accepting self.now }
    {
        if self.dense {
            return some_bit_accepts(table, &self.words);
        }
        some_accepts(table, &self.words)
    }
}

impl PartialEq for StateSet {
    ghost use Rattle.std.specs.Prelude.{nat_eq};
    ghost use Rattle.std.specs.Cmp.Lexicographic.{pointwise};
    ghost use Rattle.std.proofs.lemmas.Cmp.{nat_list_eq_equiv};
    ghost use Rattle.std.specs.Cmp.{partial_equiv_from_equiv};

    ghost eq = { pointwise nat_eq };

    ghost laws = { partial_equiv_from_equiv nat_list_eq_equiv };

    fn eq(&self, other: &StateSet) -> bool {
        self.dense == other.dense && self.words == other.words
    }
}

impl Eq for StateSet {
    ghost use Rattle.std.proofs.lemmas.Cmp.{nat_list_eq_equiv};

    ghost laws = { nat_list_eq_equiv };
}

impl Hash for StateSet {
    ghost use Rattle.std.proofs.Common.{rules};
    ghost use Rattle.std.specs.Hash as fed;
    ghost use Rattle.std.specs.Cmp.Rules.{hashing};
    ghost use Rattle.dcv_sets.specs.Bits.{kept};

    ghost hash_input = { λ set. fed.slice fed.u32 (kept set) };

    ghost respects_eq = { Prim.search (hashing, rules) };

    fn hash<H: Hasher>(&self, state: &mut H) {
        self.words.hash(state);
    }
}
