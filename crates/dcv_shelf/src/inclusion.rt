// The nodes of one arena, put into another. Children stand before their nodes, so going through the places in order needs no recursion,
// and each place adds one node at most.
ghost use Rattle.std.specs.Prelude.{◌≡◌, ◌<◌, ◌≤◌, ◌+◌, length, IfOk};
ghost use Rattle.dcv_arena.specs.Arena.{IsArena, IsBefore, KeepsRefs};
ghost use Rattle.dcv_arena.specs.declared.nodes.Ref.TheVariants.{Place};
ghost use Rattle.dcv_shelf.specs.Copies.{IsCopy, HasCopies, copied_ref};

use dcv_arena::{Arena, ArenaFault, Ref};
use std::alloc::Global;

// For the node at each place of the other arena, in order, the ref that its function has here. Slots that the other arena does not have
// make no difference to its functions.
pub(crate) fn include(
    alloc: Global,
    arena: &mut Arena,
    from: &Arena,
) -> Result<Vec<Ref>, ArenaFault>
    requires slots { from.now.slots ≤ arena.old.slots }
    ensures count { IfOk result (λ copies. length copies.items ≡ length from.now.nodes) }
    ensures copies { IfOk result (λ copies. HasCopies from.now arena.new copies.items) }

    // No more nodes come than the other has, after a refusal too.
    ensures few { length arena.new.nodes ≤ length arena.old.nodes + length from.now.nodes }
    ensures kept { KeepsRefs arena.old arena.new }
    ensures arena { IsArena arena.new }
    ensures from { IsArena from.now }
{
    // for the prover: of an arena that was asked it is known what is true of every arena.
    let _ = (arena.slots(), from.slots());
    let mut copies = Vec::new(alloc);
    for place in 0..from.len() {
        let copy = include_node(arena, from, place, &copies)?;
        copies.push(copy)?;
    }
    Ok(copies)
}

// The node at a place, given the copies of those before it.
fn include_node(
    arena: &mut Arena,
    from: &Arena,
    place: u32,
    copies: &[Ref],
) -> Result<Ref, ArenaFault>
    requires place { place < length from.now.nodes }
    requires count { length copies.now ≡ place }
    requires copies { HasCopies from.now arena.old copies.now }
    ensures copy { IfOk result (IsCopy from.now arena.new (Place place)) }
    ensures few { length arena.new.nodes ≤ length arena.old.nodes + 1 }
    ensures kept { KeepsRefs arena.old arena.new }
    ensures arena { IsArena arena.new }
{
    // for the prover: of an arena that was asked it is known what is true of every arena.
    let _ = arena.slots();
    let root = Ref::Place(place);
    let slot = from.level(root);
    let (lo, hi) = from.split(root, slot);
    let new_lo = copied(copies, lo);
    let new_hi = copied(copies, hi);
    arena.node(slot, new_lo, new_hi)
}

// The ref here of a function of the other arena, given the copies of its nodes.
pub(crate) fn copied(copies: &[Ref], old: Ref) -> Ref
    requires { IsBefore (length copies.now) old }
    ensures { result ≡ copied_ref copies.now old }
{
    match old {
        Ref::Leaf(_) => old,
        Ref::Place(place) => copies[place as usize],
    }
}
