//! Classes of entries, split by a column of bits. The number of an entry is the least entry of its class.
ghost use Rattle.std.specs.Prelude.{◌≤◌, ◌+◌, ◌<◌, ◌^◌, length, IfOk, OnOk, IsFalse};
ghost use Rattle.dcv_certify.specs.Split.{AreOwn, IsLeastWith, IsSplit, HasMoved};

use std::alloc::{AllocError, Global};

// Splits the classes that have entries with other bits, and tells whether there are any.
pub(crate) fn split_all(
    alloc: Global,
    numbers: &mut Vec<u32>,
    column: &[bool],
) -> Result<bool, AllocError>
    requires count { length numbers.old.items ≤ length column.now }
    requires own { AreOwn numbers.old.items }
    requires few { length numbers.old.items < 2 ^ 32 }
    ensures { OnOk result (IsSplit numbers.old.items column.now numbers.new.items) }
{
    if !splits(numbers, column) {
        return Ok(false);
    }
    *numbers = split(alloc, numbers, column)?;
    Ok(true)
}

// Whether some class has entries with other bits.
fn splits(old: &[u32], column: &[bool]) -> bool
    requires count { length old.now ≤ length column.now }
    requires own { AreOwn old.now }
    ensures { IsFalse result → IsSplit old.now column.now old.now }
{
    // all are looked at, since that takes less time than a test at each.
    let mut found = false;
    for (entry, class) in old.iter().enumerate() {
        found |= column[entry] != column[*class as usize];
    }
    found
}

// The numbers of the entries where those of one class with other bits are apart.
fn split(alloc: Global, old: &[u32], column: &[bool]) -> Result<Vec<u32>, AllocError>
    requires count { length old.now ≤ length column.now }
    requires own { AreOwn old.now }
    requires few { length old.now < 2 ^ 32 }
    ensures { IfOk result (λ new. IsSplit old.now column.now new.items) }
{
    let mut moved = vec![in alloc; None; old.len()]?;
    let mut new = Vec::new(alloc);
    for entry in 0..old.len() {
        let number = number(old, column, &mut moved, entry as u32);
        new.push(number)?;
    }
    Ok(new)
}

// The number of an entry: that of its class where it has the bit of that, and else the first that has left the class.
fn number(old: &[u32], column: &[bool], moved: &mut Vec<Option<u32>>, entry: u32) -> u32
    requires count { length old.now ≤ length column.now }
    requires own { AreOwn old.now }
    requires entry { entry < length old.now }
    requires moved { HasMoved old.now column.now entry moved.old.items }
    ensures least { IsLeastWith old.now column.now entry result }
    ensures moved { HasMoved old.now column.now (entry + 1) moved.new.items }
{
    let class = old[entry as usize];
    if column[entry as usize] == column[class as usize] {
        return class;
    }
    match moved[class as usize] {
        Some(first) => first,
        None => {
            moved[class as usize] = Some(entry);
            entry
        }
    }
}
