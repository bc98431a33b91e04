// Counts as 32-bit numbers.
ghost use Rattle.std.specs.Prelude.{◌≡◌, ◌≤◌, ◌^◌, IfOk, OnErr};

use std::alloc::AllocError;

/// A count, or a place, as a 32-bit number. One without such a number counts as running out of memory.
pub fn number_of(count: usize) -> Result<u32, AllocError>
    ensures number { IfOk result (λ number. number ≡ count) }
    ensures err { OnErr result (2 ^ 32 ≤ count) }
{
    match u32::try_from(count) {
        Ok(number) => Ok(number),
        Err(_) => Err(AllocError),
    }
}
