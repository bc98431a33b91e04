// The way up from some leaves, node by node, each followed once.
ghost use Rattle.std.specs.Prelude.{◌≡◌, ◌⊎◌, ◌≤◌, ◌++◌, ℕ, [], eqb, length, slice_get, Some, OnOk, Contains};
ghost use Rattle.std.specs.List.{All, IsDistinct};
ghost use Rattle.dcv_arena.specs.declared.nodes.Ref.TheVariants.{Place as AnyPlace};
ghost use Rattle.dcv_refinement.specs.Lists.{AreEarlier, chain};
ghost use Rattle.dcv_refinement.specs.Leads.{index_of};
ghost use Rattle.dcv_refinement.specs.Index.{IsIndex, IsAbove, IsMet, IsFollowed, IsMarked, IsClosed, Grows};

use crate::lists::{Entry, Lists};
use crate::sparse_set::SparseSet;
use dcv_arena::{Arena, Ref};
use std::alloc::{AllocError, Global};

/// What stands above some leaves.
#[derive(Drop)]
pub struct Above {
    /// The places of the nodes, in the order in which they were met on the way up.
    pub nodes: SparseSet,
    /// The places of the rows.
    pub rows: Vec<u32>,
}

impl Above {
    /// Nothing was found yet.
    pub fn new(alloc: Global) -> Above
        ensures nodes { result.nodes ≡ [] }
        ensures rows { result.rows.items ≡ [] }
    {
        Above {
            nodes: SparseSet::new(alloc),
            rows: Vec::new(alloc),
        }
    }
}

// The rows, what stands directly above each leaf and node, and the leaves where the way begins.
#[derive(Drop)]
pub(crate) struct Climb<'a> {
    // the arena of the rows
    pub(crate) arena: &'a Arena,
    // the row of each state
    pub(crate) refs: &'a [Ref],
    // for each node its parents
    pub(crate) nodes: &'a Lists,
    // for each ref the states with this row
    pub(crate) rows: &'a Lists,
    // the numbers from whose leaves the way begins
    pub(crate) leaves: &'a [u32],
}

impl Climb<'_> {
    // All that stands above the leaves.
    pub(crate) fn climb(&self, found: &mut Above) -> Result<(), AllocError>
        requires { IsIndex self.now.arena.now self.now.refs.now self.now.nodes.now self.now.rows.now }
        ensures closed { OnOk result (IsClosed self.now.nodes.now self.now.rows.now self.now.leaves.now found.new.nodes found.new.rows.items) }
        ensures marked { OnOk result (IsMarked (index_of self.now.arena.now self.now.refs.now) self.now.leaves.now
            found.new.nodes found.new.rows.items) }
    {
        found.nodes.clear();
        found.rows.clear();
        for leaf in self.leaves {
            self.follow(Ref::Leaf(*leaf), found)?;
        }
        self.close(found)?;
        Ok(())
    }

    // Follows each marked place, those too that are marked on the way.
    fn close(&self, found: &mut Above) -> Result<(), AllocError>
        requires index { IsIndex self.now.arena.now self.now.refs.now self.now.nodes.now self.now.rows.now }
        requires marked { IsMarked (index_of self.now.arena.now self.now.refs.now) self.now.leaves.now found.old.nodes found.old.rows.items }
        ensures followed { OnOk result ((place : ℕ) → Contains found.new.nodes place
            → IsFollowed self.now.nodes.now self.now.rows.now (AnyPlace place) found.new.nodes found.new.rows.items) }
        ensures marked { OnOk result (IsMarked (index_of self.now.arena.now self.now.refs.now) self.now.leaves.now
            found.new.nodes found.new.rows.items) }
        ensures grows { OnOk result (Grows found.old.nodes found.old.rows.items found.new.nodes found.new.rows.items) }
    {
        let mut next = 0;
        'places: while next < found.nodes.len() {
            let place = found.nodes.as_slice()[next];
            self.follow(Ref::Place(place), found)?;
            next += 1;
        }
        Ok(())
    }

    // Marks the nodes directly above, and looks at the rows that it is.
    fn follow(&self, at: Ref, found: &mut Above) -> Result<(), AllocError>
        requires index { IsIndex self.now.arena.now self.now.refs.now self.now.nodes.now self.now.rows.now }
        requires met { IsMet (index_of self.now.arena.now self.now.refs.now) self.now.leaves.now at }
        requires marked { IsMarked (index_of self.now.arena.now self.now.refs.now) self.now.leaves.now found.old.nodes found.old.rows.items }
        ensures followed { OnOk result (IsFollowed self.now.nodes.now self.now.rows.now at found.new.nodes found.new.rows.items) }
        ensures marked { OnOk result (IsMarked (index_of self.now.arena.now self.now.refs.now) self.now.leaves.now
            found.new.nodes found.new.rows.items) }
        ensures grows { OnOk result (Grows found.old.nodes found.old.rows.items found.new.nodes found.new.rows.items) }
    {
        look(&mut found.rows, &self.rows.entries, self.rows.last(at))?;
        mark(&mut found.nodes, &self.nodes.entries, self.nodes.last(at))?;
        Ok(())
    }
}

// Looks at the rows of a list, from its last entry back.
fn look(looked: &mut Vec<u32>, entries: &[Entry], last: u32) -> Result<(), AllocError>
    requires earlier { AreEarlier entries.now }
    requires last { last ≤ length entries.now }
    ensures { OnOk result (looked.new.items ≡ looked.old.items ++ chain entries.now last) }
{
    let mut next = last;
    'entries: while next > 0 {
        let entry = entries[next as usize - 1];
        looked.push(entry.number)?;
        next = entry.earlier;
    }
    Ok(())
}

// Marks the places of a list, from its last entry back.
fn mark(marked: &mut SparseSet, entries: &[Entry], last: u32) -> Result<(), AllocError>
    requires earlier { AreEarlier entries.now }
    requires last { last ≤ length entries.now }
    requires once { IsDistinct eqb marked.old }
    ensures all { OnOk result (All (Contains marked.new) (chain entries.now last)) }
    ensures only { OnOk result ((place : ℕ) → Contains marked.new place → Contains marked.old place ⊎ Contains (chain entries.now last) place) }
    ensures stay { OnOk result ((at place : ℕ) → slice_get marked.old at ≡ Some place → slice_get marked.new at ≡ Some place) }
    ensures once { IsDistinct eqb marked.new }
{
    let mut next = last;
    'entries: while next > 0 {
        let entry = entries[next as usize - 1];
        marked.insert(entry.number)?;
        next = entry.earlier;
    }
    Ok(())
}
