// A set of small numbers that is emptied without a walk. The numbers stand in a list, and a second list tells where each of them stands;
// what it tells of others does not count, since another number stands there (P. Briggs and L. Torczon, "An Efficient Representation for
// Sparse Sets", 1993). No number is hashed, and a set that is kept and emptied takes no memory again.
ghost use Rattle.std.specs.Prelude.{◌≡◌, ◌<◌, ℕ, [], eqb, length, false, slice_get, slice_index_or, Some, IfOk, OnOk, OnErr};
ghost use Rattle.std.specs.List.{IsDistinct};
ghost use Rattle.dcv_refinement.specs.SparseSet.{has, with_number, is_at, IsPlaceOf};

use crate::numbers::number_of;
use std::alloc::{AllocError, Global};
use std::marker::Model;

/// Numbers, in the order in which they came. It takes four bytes for each number up to the largest that it ever had.
#[derive(Drop)]
pub struct SparseSet {
    // the numbers in the set, in the order in which they came
    numbers: Vec<u32>,
    // for each number that came its place among these
    places: Vec<u32>,
}

impl Model for SparseSet {
    ghost use Rattle.std.specs.Prelude.{ℕ, List, eqb};
    ghost use Rattle.std.specs.List.{IsDistinct};
    ghost use Rattle.dcv_refinement.specs.SparseSet.{StandAt};

    ghost Value = { List ℕ };

    ghost view = { λ set. set.numbers.items };

    ghost invariant = { λ set. StandAt set.numbers.items set.places.items × IsDistinct eqb set.numbers.items };
}

impl SparseSet {
    /// No numbers.
    pub fn new(alloc: Global) -> SparseSet
        ensures { result ≡ [] }
    {
        SparseSet {
            numbers: Vec::new(alloc),
            places: Vec::new(alloc),
        }
    }

    /// The numbers, in the order in which they came.
    pub fn as_slice(&self) -> &[u32]
        ensures { result.now ≡ self.now }
    {
        self.numbers.as_slice()
    }

    /// How many numbers there are.
    pub fn len(&self) -> usize
        ensures { result ≡ length self.now }
    {
        self.numbers.len()
    }

    /// Takes all numbers out.
    pub fn clear(&mut self)
        ensures { self.new ≡ [] }
    {
        self.numbers.clear();
    }

    /// The place at which a number stands, counted from 0.
    pub fn place_of(&self, number: u32) -> Option<usize>
        ensures { IsPlaceOf self.now number result }
    {
        let place = noted(&self.places, number) as usize;
        if stands(&self.numbers, place, number) {
            Some(place)
        } else {
            None
        }
    }

    /// Whether a number is among them.
    pub fn contains(&self, number: u32) -> bool
        ensures { result ≡ has self.now number }
    {
        self.place_of(number).is_some()
    }

    /// Puts a number after the others where it is not among them, and answers its place.
    pub fn insert(&mut self, number: u32) -> Result<usize, AllocError>
        ensures place { IfOk result (λ place. slice_get self.new place ≡ Some number) }
        ensures numbers { OnOk result (self.new ≡ with_number self.old number) }
        ensures err { OnErr result (self.new ≡ self.old) }
        ensures once { IsDistinct eqb self.new }
    {
        // for the prover: of a set that was read it is known what is true of every set.
        let _ = &self.numbers;
        match self.place_of(number) {
            Some(place) => Ok(place),
            None => self.add(number),
        }
    }

    // Puts a number that is not among them after the others.
    fn add(&mut self, number: u32) -> Result<usize, AllocError>
        requires { has self.old number ≡ false }
        ensures place { IfOk result (λ place. slice_get self.new place ≡ Some number) }
        ensures numbers { OnOk result (self.new ≡ with_number self.old number) }
        ensures err { OnErr result (self.new ≡ self.old) }
        ensures once { IsDistinct eqb self.new }
    {
        let place = self.numbers.len();
        let stored = number_of(place)?;
        reach(&mut self.places, number)?;
        self.numbers.push(number)?;
        self.places[number as usize] = stored;
        Ok(place)
    }
}

// The place that is noted for a number.
fn noted(places: &[u32], number: u32) -> u32
    ensures { result ≡ slice_index_or places.now number 0 }
{
    places.get(number as usize).copied().unwrap_or(0)
}

// Whether a number stands at a place.
fn stands(numbers: &[u32], place: usize, number: u32) -> bool
    ensures { result ≡ is_at numbers.now place number }
{
    match numbers.get(place) {
        Some(one) => *one == number,
        None => false,
    }
}

// Lengthens the list of places so that it has one for this number, where it has none.
fn reach(places: &mut Vec<u32>, number: u32) -> Result<(), AllocError>
    ensures room { OnOk result (number < length places.new.items) }
    ensures same { (at : ℕ) → slice_index_or places.new.items at 0 ≡ slice_index_or places.old.items at 0 }
{
    if (number as usize) < places.len() {
        return Ok(());
    }
    places.resize(number as usize + 1, 0)
}
