// Which rows and nodes lead to some leaves: what stands directly above each leaf and each node, and the way up. It goes by node: pairs of
// a leaf and a row would be as many as their product where rows are wide.
ghost use Rattle.std.specs.Prelude.{◌≡◌, ◌<◌, ◌↔◌, ℕ, length, IfOk, OnOk, Contains};
ghost use Rattle.std.specs.List.{All};
ghost use Rattle.dcv_arena.specs.Arena.{IsArena};
ghost use Rattle.dcv_arena.specs.declared.nodes.Ref.TheVariants.{Place as AnyPlace};
ghost use Rattle.dcv_refinement.specs.Leads.{index_of, LeadsInto, IsRowInto};
ghost use Rattle.dcv_refinement.specs.Index.{AreNodesAbove, AreRowsAbove};

use crate::climb::{Above, Climb};
use crate::lists::Lists;
use crate::numbers::number_of;
use dcv_arena::{Arena, Ref};
use std::alloc::{AllocError, Global};
use std::marker::Model;

/// The nodes above each leaf and node of some rows, and the rows that it is, by their places.
#[derive(Drop)]
pub struct Index<'a> {
    // the arena of the rows
    arena: &'a Arena,
    // the row of each state
    refs: &'a [Ref],
    // for each node its parents
    nodes: Lists,
    // for each ref the states with this row
    rows: Lists,
}

impl<'a> Model for Index<'a> {
    ghost use Rattle.dcv_refinement.specs.Leads.{IndexedRows, index_of};

    ghost Value = { IndexedRows };

    ghost use Rattle.dcv_refinement.specs.Index.{IsIndex};

    ghost view = { λ index. index_of index.arena.now index.refs.now };

    ghost invariant = { λ index. IsIndex index.arena.now index.refs.now index.nodes index.rows };
}

impl<'a> Index<'a> {
    /// The index of these rows. A leaf has a list if its number is that of a row.
    pub fn new(alloc: Global, arena: &'a Arena, rows: &'a [Ref]) -> Result<Index<'a>, AllocError>
        ensures { IfOk result (λ index. index ≡ index_of arena.now rows.now) }
    {
        let nodes = nodes_above(alloc, arena, rows.len())?;
        let lists = rows_above(alloc, arena, rows)?;
        Ok(Index {
            arena,
            refs: rows,
            nodes,
            rows: lists,
        })
    }
}

impl Index<'_> {
    /// Finds what stands above these leaves: the nodes from which some letter leads to one of them, and the rows, no others. What was found
    /// before is forgotten, but its memory is used again.
    pub fn above(&self, leaves: &[u32], found: &mut Above) -> Result<(), AllocError>
        ensures nodes { OnOk result ((place : ℕ) → Contains found.new.nodes place ↔ LeadsInto self.now leaves.now (AnyPlace place)) }
        ensures rows { OnOk result ((row : ℕ) → Contains found.new.rows.items row ↔ IsRowInto self.now leaves.now row) }
        ensures below { OnOk result (All (λ row. row < length self.now.rows) found.new.rows.items) }
    {
        let climb = Climb {
            arena: self.arena,
            refs: self.refs,
            nodes: &self.nodes,
            rows: &self.rows,
            leaves,
        };
        climb.climb(found)
    }
}

// Each node, at what it goes to.
fn nodes_above(alloc: Global, arena: &Arena, leaves: usize) -> Result<Lists, AllocError>
    ensures { IfOk result (AreNodesAbove arena.now leaves) }
{
    // for the prover: of an arena that was asked it is known what is true of every arena.
    let _ = arena.slots();
    let mut nodes = Lists::new(alloc, leaves, arena.len())?;
    for place in 0..arena.len() {
        let node = Ref::Place(place);
        let (lo, hi) = arena.split(node, arena.level(node));
        nodes.add(lo, place)?;
        nodes.add(hi, place)?;
    }
    Ok(nodes)
}

// Each row, at what it is.
fn rows_above(alloc: Global, arena: &Arena, rows: &[Ref]) -> Result<Lists, AllocError>
    ensures { IfOk result (AreRowsAbove arena.now rows.now) }
{
    let mut lists = Lists::new(alloc, rows.len(), arena.len())?;
    for (place, row) in rows.iter().enumerate() {
        lists.add(*row, number_of(place)?)?;
    }
    Ok(lists)
}
