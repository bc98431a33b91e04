// Whether an automaton's arena has only nodes of its rows, as an exploration leaves it. Nodes are marked from the rows on; a node stands after its
// children, so each has all its marks where the nodes are gone through from the last one.
ghost use Rattle.std.specs.Prelude.{◌≡◌, ◌<◌, ◌⊎◌, ℕ, List, true, false, length, slice_index_or, IfOk, Contains};
ghost use Rattle.std.specs.List.{All};
ghost use Rattle.dcv_arena.specs.Arena.{IsArena, IsBefore, IsRef, HasOnlyNodesOf};
ghost use Rattle.dcv_arena.specs.declared.nodes.Ref.{Ref as AnyRef};
ghost use Rattle.dcv_arena.specs.declared.nodes.Ref.TheVariants.{Place as AnyPlace};
ghost use Rattle.dcv_minimise.specs.OwnNodes.{IsOfRoots, AreMarked};

use dcv_arena::{Arena, Ref};
use dcv_dfa::Raw;
use std::alloc::{AllocError, Global};

// Whether each node of the arena is one of a row, which takes one pass over the nodes.
pub(crate) fn has_only_own_nodes(alloc: Global, raw: &Raw) -> Result<bool, AllocError>
    ensures { IfOk result (λ own. own ≡ true → HasOnlyNodesOf raw.now.arena raw.now.rows) }
{
    let arena = raw.arena();
    let mut marked = vec![in alloc; false; arena.len() as usize]?;
    mark_rows(&mut marked, raw.rows());
    Ok(reach_all(arena, &mut marked))
}

// Marks the nodes that are these rows.
fn mark_rows(marked: &mut [bool], rows: &[Ref])
    requires { All (IsBefore (length marked.old)) rows.now }
    ensures length { length marked.new ≡ length marked.old }
    ensures marks { (place : ℕ) → slice_index_or marked.new place false ≡ true
        → (slice_index_or marked.old place false ≡ true) ⊎ Contains rows.now (AnyPlace place) }
{
    for row in rows {
        mark(marked, *row);
    }
}

// Whether the marks, put to the children of each node that has one, come to all nodes.
fn reach_all(arena: &Arena, marked: &mut [bool]) -> bool
    requires arena { IsArena arena.now }
    requires marked { length marked.old ≡ length arena.now.nodes }
    ensures { (roots : List AnyRef) → AreMarked arena.now roots marked.old → result ≡ true → HasOnlyNodesOf arena.now roots }
{
    for place in (0..arena.len()).rev() {
        if !marked[place as usize] {
            return false;
        }
        mark_children(arena, marked, place);
    }
    true
}

// Marks the children of the node at this place.
fn mark_children(arena: &Arena, marked: &mut [bool], place: u32)
    requires place { IsRef arena.now (AnyPlace place) }
    requires marked { length marked.old ≡ length arena.now.nodes }
    ensures length { length marked.new ≡ length marked.old }
    ensures marks { (roots : List AnyRef) → IsOfRoots arena.now roots (AnyPlace place) → AreMarked arena.now roots marked.old → AreMarked arena.now roots marked.new }
{
    let node = Ref::Place(place);
    let (lo, hi) = arena.split(node, arena.level(node));
    mark(marked, lo);
    mark(marked, hi);
}

// Marks a node; a leaf has no mark.
fn mark(marked: &mut [bool], at: Ref)
    requires { IsBefore (length marked.old) at }
    ensures length { length marked.new ≡ length marked.old }
    ensures marks { (place : ℕ) → slice_index_or marked.new place false ≡ true → (slice_index_or marked.old place false ≡ true) ⊎ (at ≡ AnyPlace place) }
{
    if let Ref::Place(place) = at {
        marked[place as usize] = true;
    }
}
