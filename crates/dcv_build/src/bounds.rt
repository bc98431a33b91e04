// Whether a product stays within the limits, whatever is explored, by the sizes of its operands.
//
// A node of the product's rows is what two parts of the operands' rows give side by side, of which one at least is a node of the same slot. So
// the pairs of such parts are counted slot by slot, from the rows themselves on.
ghost use Rattle.std.specs.Prelude.{◌≡◌, ◌≤◌, ◌<◌, ◌+◌, ◌*◌, ◌^◌, Bool, IsTrue, IfOk, filter, length};
ghost use Rattle.dcv_language.specs.OperationMachines.{pair_machine};
ghost use Rattle.dcv_language.specs.Table.{automaton_of};
ghost use Rattle.dcv_shelf.specs.Stored.{IsView, view_table};
ghost use Rattle.dcv_build.specs.Bounds.{CannotExceed, AreParts, ArePartsAt, AreSplit, HasNodesBefore, HasParts, is_node_at, is_later};

use dcv_arena::{Arena, Ref};
use dcv_dfa::Table;
use dcv_explore::Limits;
use dcv_shelf::View;
use indexmap::IndexSet;
use std::alloc::{AllocError, Global};

// How many parts of an operand's rows are alive at a slot.
#[derive(Clone, Copy)]
struct Width {
    // those that are nodes of this very slot
    nodes: u64,
    // leaves, and nodes of later slots
    later: u64,
}

// Whether the product of both, however their truths are joined, cannot exceed the limits. Where memory runs out it is not known.
pub(crate) fn cannot_exceed(
    alloc: Global,
    first: &View<'_>,
    second: &View<'_>,
    limits: Limits,
) -> bool
    requires slots { first.now.stored.slots ≡ second.now.stored.slots }
    requires first { IsView first.now }
    requires second { IsView second.now }
    ensures { IsTrue result → (join : Bool → Bool → Bool) → CannotExceed (pair_machine first.now.stored.slots join
        (automaton_of (view_table first.now).table) (automaton_of (view_table second.now).table)) limits }
{
    are_few(
        u64::from(first.states()),
        u64::from(second.states()),
        limits.states,
    ) && has_few_nodes(alloc, first, second, limits.nodes)
}

// Whether there are no more pairs than this.
fn are_few(one: u64, other: u64, limit: u32) -> bool
    ensures { IsTrue result → one * other ≤ limit }
{
    one.saturating_mul(other) <= u64::from(limit)
}

// Whether the product has no more nodes: by the number of all parts, which is there, and only then slot by slot.
fn has_few_nodes(alloc: Global, first: &View<'_>, second: &View<'_>, limit: u32) -> bool
    requires slots { first.now.stored.slots ≡ second.now.stored.slots }
    requires first { IsView first.now }
    requires second { IsView second.now }
    ensures { IsTrue result → HasNodesBefore first.now second.now first.now.stored.slots limit }
{
    are_few(parts_of(first), parts_of(second), limit)
        || has_few_pairs(alloc, first, second, limit).unwrap_or(false)
}

// What the rows are made of: their nodes, and a leaf for each state.
fn parts_of(operand: &View<'_>) -> u64
    ensures { HasParts operand.now result }
{
    u64::from(operand.states()) + u64::from(operand.nodes())
}

// Whether there are no more pairs of parts than this, of which one at least is a node of the slot of both.
fn has_few_pairs(
    alloc: Global,
    first: &View<'_>,
    second: &View<'_>,
    limit: u32,
) -> Result<bool, AllocError>
    requires slots { first.now.stored.slots ≡ second.now.stored.slots }
    requires first { IsView first.now }
    requires second { IsView second.now }
    ensures { IfOk result (λ few. IsTrue few → HasNodesBefore first.now second.now first.now.stored.slots limit) }
{
    let mut ones = rows_of(alloc, first)?;
    let mut others = rows_of(alloc, second)?;
    let mut most = 0;
    for slot in 0..first.slots() {
        let one = width_at(first.arena(), ones.as_slice(), slot);
        let other = width_at(second.arena(), others.as_slice(), slot);
        most = with_pairs(most, one, other);
        if most > u64::from(limit) {
            return Ok(false);
        }
        ones = split_all(alloc, first.arena(), ones.as_slice(), slot)?;
        others = split_all(alloc, second.arena(), others.as_slice(), slot)?;
    }
    Ok(true)
}

// The rows of an operand, each once.
fn rows_of(alloc: Global, operand: &View<'_>) -> Result<IndexSet<Ref>, AllocError>
    ensures { IfOk result (λ rows. ArePartsAt operand.now 0 rows.keys) }
{
    let mut rows = IndexSet::new(alloc);
    for state in 0..operand.states() {
        rows.insert(operand.row(state))?;
    }
    Ok(rows)
}

fn width_at(arena: &Arena, parts: &[Ref], slot: u8) -> Width
    requires { AreParts arena.now slot parts.now }
    ensures nodes { result.nodes ≡ length (filter (is_node_at arena.now slot) parts.now) }
    ensures later { result.later ≡ length (filter (is_later arena.now slot) parts.now) }
{
    let nodes = nodes_at(arena, parts, slot);
    Width {
        nodes,
        later: parts.len() as u64 - nodes,
    }
}

fn nodes_at(arena: &Arena, parts: &[Ref], slot: u8) -> u64
    requires { AreParts arena.now slot parts.now }
    ensures { result ≡ length (filter (is_node_at arena.now slot) parts.now) }
{
    let mut nodes = 0;
    for part in parts {
        nodes += u64::from(arena.level(*part) == slot);
    }
    nodes
}

// The pairs so far, and those of one more slot. So many as are no limit are not exact.
fn with_pairs(most: u64, one: Width, other: Width) -> u64
    ensures { result < 2 ^ 32 → most + one.nodes * other.nodes + one.nodes * other.later + one.later * other.nodes ≤ result }
{
    most.saturating_add(one.nodes.saturating_mul(other.nodes))
        .saturating_add(one.nodes.saturating_mul(other.later))
        .saturating_add(one.later.saturating_mul(other.nodes))
}

// Both sides of each part at the slot, each once.
fn split_all(
    alloc: Global,
    arena: &Arena,
    parts: &[Ref],
    slot: u8,
) -> Result<IndexSet<Ref>, AllocError>
    requires slot { slot < arena.now.slots }
    requires parts { AreParts arena.now slot parts.now }
    ensures { IfOk result (λ sides. AreSplit arena.now slot parts.now sides.keys) }
{
    let mut sides = IndexSet::new(alloc);
    for part in parts {
        let (lo, hi) = arena.split(*part, slot);
        sides.insert(lo)?;
        sides.insert(hi)?;
    }
    Ok(sides)
}
