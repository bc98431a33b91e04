// Lists of numbers, one for each leaf and each place of an arena. Their entries stand in one list for all, and each names the entry before it
// in its own list: so a number costs one entry, and a list that has none costs a word.
ghost use Rattle.std.specs.Prelude.{◌≡◌, ◌+◌, ℕ, [], ◌∷◌, ◌++◌, length, slice_index_or, slice_set, IfOk, OnOk};
ghost use Rattle.dcv_refinement.specs.Lists.{Adds, AreEmpty, AreLinked, entry, last_of};

use crate::numbers::number_of;
use dcv_arena::Ref;
use std::alloc::{AllocError, Global};

// A number in a list, and the entry before it, counted from 1, or 0 where it is the first.
#[derive(Clone, Copy)]
pub(crate) struct Entry {
    // what is listed
    pub(crate) number: u32,
    // the entry before it, counted from 1, or 0
    pub(crate) earlier: u32,
}

// For each leaf and each place the last entry of its list, counted from 1, or 0 where nothing is listed.
#[derive(Drop)]
pub(crate) struct Lists {
    // for each leaf the last entry of its list, counted from 1, or 0
    pub(crate) leaves: Vec<u32>,
    // the same for each place
    pub(crate) places: Vec<u32>,
    // the entries of all lists, in the order in which they came
    pub(crate) entries: Vec<Entry>,
}

impl Lists {
    // No numbers, for so many leaves and places.
    pub(crate) fn new(alloc: Global, leaves: usize, places: u32) -> Result<Lists, AllocError>
        ensures { IfOk result (λ lists. AreEmpty lists leaves places) }
    {
        Ok(Lists {
            leaves: vec![in alloc; 0; leaves]?,
            places: vec![in alloc; 0; places as usize]?,
            entries: Vec::new(alloc),
        })
    }

    // Adds a number for a leaf or a place, where it has a list.
    pub(crate) fn add(&mut self, at: Ref, number: u32) -> Result<(), AllocError>
        requires { AreLinked self.old }
        ensures { OnOk result (Adds self.old self.new at number) }
    {
        match at {
            Ref::Leaf(leaf) => link(&mut self.leaves, leaf, &mut self.entries, number),
            Ref::Place(place) => link(&mut self.places, place, &mut self.entries, number),
        }
    }

    // The last entry for a leaf or a place.
    pub(crate) fn last(&self, at: Ref) -> u32
        ensures { result ≡ last_of self.now at }
    {
        match at {
            Ref::Leaf(leaf) => last_in(&self.leaves, leaf),
            Ref::Place(place) => last_in(&self.places, place),
        }
    }
}

// Makes an entry of a number, and the last one at this place.
fn link(
    lasts: &mut Vec<u32>,
    at: u32,
    entries: &mut Vec<Entry>,
    number: u32,
) -> Result<(), AllocError>
    ensures entries { OnOk result (entries.new.items ≡ entries.old.items ++ entry number (slice_index_or lasts.old.items at 0) ∷ []) }
    ensures lasts { OnOk result (lasts.new.items ≡ slice_set lasts.old.items at (length entries.old.items + 1)) }
{
    let earlier = last_in(lasts, at);
    entries.push(Entry { number, earlier })?;
    let last = number_of(entries.len())?;
    put(lasts, at, last);
    Ok(())
}

// What is last at a place.
fn last_in(lasts: &[u32], at: u32) -> u32
    ensures { result ≡ slice_index_or lasts.now at 0 }
{
    lasts.get(at as usize).copied().unwrap_or(0)
}

// Makes an entry the last at a place, where there is one.
fn put(lasts: &mut Vec<u32>, at: u32, last: u32)
    ensures { lasts.new.items ≡ slice_set lasts.old.items at last }
{
    if at as usize >= lasts.len() {
        return;
    }
    lasts[at as usize] = last;
}
