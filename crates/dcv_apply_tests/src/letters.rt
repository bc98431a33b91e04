// Tests of `dcv_letters`: the numbers of a parity, with their first letters.
ghost use Rattle.std.specs.Prelude.{◌≤◌};

use dcv_arena::{Arena, ArenaFault};
use dcv_letters::least_letters;
use dcv_tables::parity;
use dcv_word::Letter;
use std::alloc::Global;
use std::test::Fail;

// The numbers of the parity of so many slots.
fn letters_of_parity(alloc: Global, slots: u8) -> Result<Vec<(u32, Letter)>, ArenaFault>
    requires { slots ≤ 32 }
{
    let mut arena = Arena::new(alloc, slots, 100);
    let odd = parity(&mut arena, 1, 0, 1, 2)?;
    Ok(least_letters(alloc, &arena, odd)?)
}

// What was walked once is not gone through again, so 2 ^ 32 letters are no trouble.
#[test]
fn least_of_thirty_two_slots(rt: HostRuntime) -> Result<(), Fail> {
    let expected = [(0, Letter::new(32, 0)), (1, Letter::new(32, 1))];
    let found = letters_of_parity(rt.alloc(), 32)?;
    assert_eq!(rt; found.as_slice(), expected.as_slice());
    Ok(())
}
