//! Slots of a store, and selections over them.
ghost use Rattle.std.specs.Prelude.{◌≡◌, ◌+◌, ◌<◌, ◌≤◌, ℕ, length, IfOk};
ghost use Rattle.dcv_replay.specs.Program.{first_name, number_in};
ghost use Rattle.dcv_replay.specs.Selecting.{copy, slot_of, test_select, most_names, IsFresh};

use crate::replay::Select;
use std::alloc::{AllocError, Global};

// How many slots come before those of names. Each holds the number of its own place.
const FIRST_NAME: u32 = 32_770;

// Places below this have slots with another slot after them.
pub(crate) const MOST_NAMES: usize = 4_294_934_525;

// The slot of the name at this place.
pub(crate) fn slot_of(place: u32) -> u32
    requires { place ≤ most_names }
    ensures { result ≡ slot_of place }
{
    FIRST_NAME + place
}

// The sum of three counts of names, if so many have slots.
pub(crate) fn count_within(first: usize, second: usize, third: usize) -> Result<u32, AllocError>
    ensures sum { IfOk result (λ count. count ≡ first + second + third) }
    ensures within { IfOk result (λ count. count ≤ most_names) }
{
    if first > MOST_NAMES || second > MOST_NAMES - first || third > MOST_NAMES - first - second {
        return Err(AllocError);
    }
    Ok((first + second + third) as u32)
}

// A store with the constants, and a 0 for each of so many names and for one slot more.
pub(crate) fn new_store(alloc: Global, count: u32) -> Result<Vec<u32>, AllocError>
    requires { count ≤ most_names }
    ensures { IfOk result (λ store. IsFresh count store.items) }
{
    let mut store = literals(alloc)?;
    store.resize(FIRST_NAME as usize + count as usize + 1, 0)?;
    Ok(store)
}

// The numbers of their own places.
fn literals(alloc: Global) -> Result<Vec<u32>, AllocError>
    ensures length { IfOk result (λ store. length store.items ≡ first_name) }
    ensures literals { IfOk result (λ store. (number : ℕ) → number < first_name → number_in store.items number ≡ number) }
{
    let mut store = Vec::new(alloc);
    for number in 0..FIRST_NAME {
        store.push(number)?;
    }
    Ok(store)
}

// A selection that takes a number as it is.
pub(crate) fn copy(target: u32, from: u32) -> Select
    ensures { result ≡ copy target from }
{
    Select {
        target,
        tested: 0,
        number: 0,
        when_equal: from,
        otherwise: from,
    }
}

// The target is 1 where the test passes, and else as it was.
pub(crate) fn test_select(target: u32, tested: u32, number: u32) -> Select
    ensures { result ≡ test_select target tested number }
{
    Select {
        target,
        tested,
        number,
        when_equal: 1,
        otherwise: target,
    }
}
