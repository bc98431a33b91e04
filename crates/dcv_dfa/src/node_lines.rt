// The nodes of rows, numbered for an automaton's text and for what is printed of it: children before their nodes, the child
// where the variable is false first. Each node is visited once, and its number is found by its place's hash, so the time is
// linear in the nodes and the states.
ghost use Rattle.std.specs.Prelude.{◌≡◌, ◌^◌, ◌<◌, ◌≤◌, ℕ, [], length, map, IfOk, OnOk};
ghost use Rattle.std.specs.List.{All};
ghost use Rattle.dcv_arena.specs.Arena.{IsArena, IsRef};
ghost use Rattle.dcv_dfa.specs.Auto.{count_of_nodes};
ghost use Rattle.dcv_dfa.specs.Raw.{LeadsBelow};
ghost use Rattle.dcv_dfa.specs.NodeLines.{visit, numbered, number_of, child_of, line_of, lines_of_rows, node_lines_of, AreReducedRows, AreReduced};

use crate::auto::Auto;
use dcv_arena::{Arena, Ref};
use dcv_language::Child;
use indexmap::IndexSet;
use std::alloc::{AllocError, Global};
use std::marker::Model;

/// A node of the rows: the slot of its variable, and what comes next where that is true and where it is false.
#[derive(Clone, Copy, Debug, PartialEq, Eq)]
pub struct NodeLine {
    /// The slot of its variable, counted from 0.
    pub slot: u8,
    /// Where the variable is true.
    pub hi: Child,
    /// Where it is false.
    pub lo: Child,
}

/// The nodes of an automaton's rows, in the order of their numbers, and the rows by these numbers.
#[derive(Drop)]
pub struct NodeLines {
    // the nodes by their numbers
    lines: Vec<NodeLine>,
    // the row of each state
    rows: Vec<Child>,
}

impl Model for NodeLines {
    ghost use Rattle.dcv_dfa.specs.NodeLines.{NodeLinesValue, lines_and_rows};

    ghost Value = { NodeLinesValue };

    ghost view = { λ all. lines_and_rows all.lines.items all.rows.items };
}

impl NodeLines {
    /// The nodes of some rows with their numbers. Only memory can be wanting.
    ///
    /// The rows are visited in order. To visit a node that has no number, its child where the variable is false is visited, then
    /// its child where it is true, and then the node gets the next number.
    pub fn of(alloc: Global, arena: &Arena, rows: &[Ref]) -> Result<NodeLines, AllocError>
        requires arena { IsArena arena.now }
        requires rows { All (IsRef arena.now) rows.now }
        ensures exact { IfOk result (λ all. all ≡ lines_of_rows arena.now rows.now) }
        ensures few { IfOk result (λ all. length all.lines ≤ length arena.now.nodes) }
        ensures reduced { IfOk result (λ all. (bound : ℕ) → All (LeadsBelow arena.now bound) rows.now
            → AreReducedRows arena.now.slots bound (length rows.now) all) }
    {
        let numbering = Numbering::of(alloc, arena, rows)?;
        let lines = numbering.lines(alloc)?;
        let rows = numbering.children(alloc, rows)?;
        Ok(NodeLines { lines, rows })
    }

    /// The nodes. A node's number is its place here.
    pub fn lines(&self) -> &[NodeLine]
        ensures { result.now ≡ self.now.lines }
    {
        &self.lines
    }

    /// For each state, what its row is.
    pub fn rows(&self) -> &[Child]
        ensures { result.now ≡ self.now.rows }
    {
        &self.rows
    }
}

impl Auto {
    /// The nodes of the rows with their numbers, as [`NodeLines::of`] gives them. Only memory can be wanting.
    pub fn node_lines(&self, alloc: Global) -> Result<NodeLines, AllocError>
        ensures exact { IfOk result (λ all. all ≡ node_lines_of self.now) }
        ensures count { IfOk result (λ all. length all.lines ≡ count_of_nodes self.now) }
        ensures reduced { IfOk result (AreReduced self.now.arena.slots (length self.now.rows)) }
    {
        let raw = self.raw();
        NodeLines::of(alloc, raw.arena(), raw.rows())
    }
}

// The places of nodes that have a number, in the order of these.
#[derive(Drop)]
struct Numbering<'a> {
    // the nodes that are numbered
    arena: &'a Arena,
    // the place of each node that has a number, in the order of the numbers
    places: IndexSet<u32>,
}

impl<'a> Numbering<'a> {
    // The nodes of these rows.
    fn of(alloc: Global, arena: &'a Arena, rows: &[Ref]) -> Result<Numbering<'a>, AllocError>
        requires arena { IsArena arena.now }
        requires rows { All (IsRef arena.now) rows.now }
        ensures arena { IfOk result (λ numbering. numbering.arena.now ≡ arena.now) }
        ensures places { IfOk result (λ numbering. numbering.places.keys ≡ numbered arena.now rows.now) }
    {
        let mut numbering = Numbering {
            arena,
            places: IndexSet::new(alloc),
        };
        for row in rows {
            numbering.visit(*row)?;
        }
        Ok(numbering)
    }
}

impl Numbering<'_> {
    // Gives numbers to the nodes of a ref that have none.
    fn visit(&mut self, root: Ref) -> Result<(), AllocError>
        requires arena { IsArena self.old.arena.now }
        requires root { IsRef self.old.arena.now root }
        ensures arena { self.new.arena.now ≡ self.old.arena.now }
        ensures places { OnOk result (self.new.places.keys ≡ visit self.old.arena.now self.old.places.keys root) }
    {
        let Ref::Place(place) = root else {
            return Ok(());
        };
        if self.places.contains(&place) {
            return Ok(());
        }
        let slot = self.arena.level(root);
        let (lo, hi) = self.arena.split(root, slot);
        self.visit(lo)?;
        self.visit(hi)?;
        self.places.insert(place)?;
        Ok(())
    }

    // The line of each node that has a number.
    fn lines(&self, alloc: Global) -> Result<Vec<NodeLine>, AllocError>
        requires within { All (λ place. place < length self.now.arena.now.nodes) self.now.places.keys }
        requires few { length self.now.places.keys < 2 ^ 32 }
        ensures { IfOk result (λ lines. lines.items ≡ map (line_of self.now.arena.now self.now.places.keys) self.now.places.keys) }
    {
        let mut lines = Vec::new(alloc);
        for place in self.places.as_slice() {
            lines.push(self.line(*place))?;
        }
        Ok(lines)
    }

    // What each of these refs is.
    fn children(&self, alloc: Global, roots: &[Ref]) -> Result<Vec<Child>, AllocError>
        requires { length self.now.places.keys < 2 ^ 32 }
        ensures { IfOk result (λ children. children.items ≡ map (child_of self.now.places.keys) roots.now) }
    {
        let mut children = Vec::new(alloc);
        for root in roots {
            children.push(self.child(*root))?;
        }
        Ok(children)
    }

    // The line of the node at this place.
    fn line(&self, place: u32) -> NodeLine
        requires place { place < length self.now.arena.now.nodes }
        requires few { length self.now.places.keys < 2 ^ 32 }
        ensures { result ≡ line_of self.now.arena.now self.now.places.keys place }
    {
        let root = Ref::Place(place);
        let slot = self.arena.level(root);
        let (lo, hi) = self.arena.split(root, slot);
        NodeLine {
            slot,
            hi: self.child(hi),
            lo: self.child(lo),
        }
    }

    // A leaf as its state, a node as its number.
    fn child(&self, root: Ref) -> Child
        requires { length self.now.places.keys < 2 ^ 32 }
        ensures { result ≡ child_of self.now.places.keys root }
    {
        match root {
            Ref::Leaf(state) => Child::State(state),
            Ref::Place(place) => Child::Node(self.number(place)),
        }
    }

    // The number of a place, and for one that has none the next number.
    fn number(&self, place: u32) -> u32
        requires { length self.now.places.keys < 2 ^ 32 }
        ensures { result ≡ number_of self.now.places.keys place }
    {
        let number = self.places.get_index_of(&place);
        number.unwrap_or(self.places.len()) as u32
    }
}
