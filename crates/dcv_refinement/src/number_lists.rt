// Lists of numbers, each at a place.
ghost use Rattle.std.specs.Prelude.{◌≡◌, ◌≤◌, ℕ, length, OnOk, OnErr};
ghost use Rattle.dcv_refinement.specs.NumberLists.{AddsAt, list_at};

use std::alloc::{AllocError, Global};

// Adds a number to the list at a place, where there is one.
pub(crate) fn add_to(lists: &mut [Vec<u32>], at: u32, number: u32) -> Result<(), AllocError>
    ensures added { OnOk result (AddsAt lists.old lists.new at number) }
    ensures err { OnErr result ((at : ℕ) → list_at lists.new at ≡ list_at lists.old at) }
{
    if at as usize >= lists.len() {
        return Ok(());
    }
    lists[at as usize].push(number)?;
    Ok(())
}

// The list at a place, and an empty one where there is none.
pub(crate) fn list(lists: &[Vec<u32>], at: u32) -> &[u32]
    ensures { result.now ≡ list_at lists.now at }
{
    match lists.get(at as usize) {
        Some(list) => list.as_slice(),
        None => &[],
    }
}

// Adds empty lists until there are so many. Where memory runs out some of them may be there, and no list has changed.
pub(crate) fn grow(alloc: Global, lists: &mut Vec<Vec<u32>>, count: usize) -> Result<(), AllocError>
    ensures size { OnOk result (count ≤ length lists.new.items) }
    ensures same { (at : ℕ) → list_at lists.new.items at ≡ list_at lists.old.items at }
{
    for _place in lists.len()..count {
        lists.push(Vec::new(alloc))?;
    }
    Ok(())
}
