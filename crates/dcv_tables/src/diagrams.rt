// The diagrams of functions that are given by their numbers, and of parities.
ghost use Rattle.std.specs.Prelude.{◌≡◌, ◌≤◌, ◌<◌, ◌+◌, ◌-◌, ◌↔◌, ◌&&◌, Bool, false, List, Err, IfOk, IsTrue, if◌then◌else◌, slice_index_or};
ghost use Rattle.std.specs.List.{range_with_len};
ghost use Rattle.dcv_arena.specs.Arena.{IsArena, IsRef, KeepsRefs, table_of, value_of};
ghost use Rattle.dcv_tables.specs.Below.{IsBelow};
ghost use Rattle.dcv_tables.specs.Parity.{counts as slot_counts, parity_number};
ghost use Rattle.dcv_tables.specs.Rows.{IsRow, HasRow};
ghost use Rattle.dcv_tables.specs.declared.diagrams.RowFault.TheVariants.{Numbers};

use dcv_arena::{Arena, ArenaFault, Ref};
use thiserror::Error;

/// Why there is no row with some numbers.
#[derive(Clone, Copy, Debug, PartialEq, Eq, Error)]
pub enum RowFault {
    /// They are not one for each letter, all below the bound.
    #[error("a row has a state for each letter")]
    Numbers,
    /// The arena took no node.
    #[error("{0}")]
    Arena(ArenaFault),
}

/// The function whose numbers these are, in the letters' order. They are below the bound.
pub fn function(arena: &mut Arena, numbers: &[u32], bound: u32) -> Result<Ref, RowFault>
    requires { IsArena arena.old }
    ensures row { IfOk result (λ root. table_of arena.new root ≡ numbers.now) }
    ensures numbers { (result ≡ Err Numbers) ↔ ¬ IsRow arena.old.slots bound numbers.now }
    ensures below { IfOk result (IsBelow arena.new bound 0) }
    ensures kept { KeepsRefs arena.old arena.new }
    ensures arena { IsArena arena.new }
{
    if !is_row(arena.slots(), numbers, bound) {
        return Err(RowFault::Numbers);
    }
    match part(arena, 0, numbers, bound) {
        Ok(root) => Ok(root),
        Err(fault) => Err(RowFault::Arena(fault)),
    }
}

// Whether there is a number for each letter of so many slots, and all are below the bound.
fn is_row(slots: u8, numbers: &[u32], bound: u32) -> bool
    requires { slots ≤ 32 }
    ensures { IsTrue result ↔ IsRow slots bound numbers.now }
{
    numbers.len() as u64 == 1u64 << slots && numbers.iter().all(|number| *number < bound)
}

// The function after the slots before this one whose numbers these are.
fn part(arena: &mut Arena, slot: u8, numbers: &[u32], bound: u32) -> Result<Ref, ArenaFault>
    requires slot { slot ≤ arena.old.slots }
    requires numbers { IsRow (arena.old.slots - slot) bound numbers.now }
    requires arena { IsArena arena.old }
    ensures row { IfOk result (HasRow arena.new slot numbers.now) }
    ensures below { IfOk result (IsBelow arena.new bound slot) }
    ensures kept { KeepsRefs arena.old arena.new }
    ensures arena { IsArena arena.new }
{
    if slot == arena.slots() {
        return Ok(arena.leaf(numbers[0]));
    }
    let (front, back) = numbers.split_at(numbers.len() / 2);
    let lo = part(arena, slot + 1, front, bound)?;
    let hi = part(arena, slot + 1, back, bound)?;
    let node = arena.node(slot, lo, hi)?;
    Ok(node)
}

/// The function that is the number `even` where an even number of the slots that count are true, and `odd` at the other letters. A slot
/// counts that is a multiple of `each`, and none where that is 0. Both numbers are below the bound.
pub fn parity(
    arena: &mut Arena,
    each: u8,
    even: u32,
    odd: u32,
    bound: u32,
) -> Result<Ref, ArenaFault>
    requires even { even < bound }
    requires odd { odd < bound }
    ensures value { IfOk result (λ root. (letter : List Bool) → value_of arena.new root letter
        ≡ parity_number each even odd (range_with_len 0 arena.old.slots) letter) }
    ensures below { IfOk result (IsBelow arena.new bound 0) }
    ensures is_ref { IfOk result (IsRef arena.new) }
    ensures bound { IfOk result (λ root. (letter : List Bool) → value_of arena.new root letter < bound) }
    ensures kept { KeepsRefs arena.old arena.new }
    ensures arena { IsArena arena.new }
{
    let (mut same, mut other) = (arena.leaf(even), arena.leaf(odd));
    for slot in (0..arena.slots()).rev() {
        let counted = counts(each, slot);
        (same, other) = parities(arena, slot, counted, bound, same, other)?;
    }
    Ok(same)
}

// Whether a slot counts.
fn counts(each: u8, slot: u8) -> bool
    ensures { result ≡ slot_counts each slot }
{
    each != 0 && slot % each == 0
}

// The two parities from a slot on, by those from the next slot on, where the slot counts or does not.
fn parities(
    arena: &mut Arena,
    slot: u8,
    counted: bool,
    bound: u32,
    even: Ref,
    odd: Ref,
) -> Result<(Ref, Ref), ArenaFault>
    requires slot { slot < arena.old.slots }
    requires even { IsBelow arena.old bound (slot + 1) even }
    requires odd { IsBelow arena.old bound (slot + 1) odd }
    ensures even_value { IfOk result (λ roots. (letter : List Bool) → value_of arena.new roots.0 letter
        ≡ (if counted && slice_index_or letter slot false then value_of arena.old odd letter else value_of arena.old even letter)) }
    ensures odd_value { IfOk result (λ roots. (letter : List Bool) → value_of arena.new roots.1 letter
        ≡ (if counted && slice_index_or letter slot false then value_of arena.old even letter else value_of arena.old odd letter)) }
    ensures even { IfOk result (λ roots. IsBelow arena.new bound slot roots.0) }
    ensures odd { IfOk result (λ roots. IsBelow arena.new bound slot roots.1) }
    ensures kept { KeepsRefs arena.old arena.new }
    ensures arena { IsArena arena.new }
{
    // for the prover: of an arena that was asked it is known what is true of every arena.
    let _ = arena.slots();
    if !counted {
        return Ok((even, odd));
    }
    let new_even = arena.node(slot, even, odd)?;
    let new_odd = arena.node(slot, odd, even)?;
    Ok((new_even, new_odd))
}
