// Tests of `dcv_apply`: how often a merge is asked, which shows that a memo is. Functions make the arenas and give back plain numbers, so that a test carries no
// facts on arenas from call to call.
ghost use Rattle.std.specs.Prelude.{◌≡◌, ◌≤◌, []};
ghost use Rattle.dcv_arena.specs.Arena.{IsRef};

use dcv_apply::{ApplyFault, Memo, Merge, MergeFault, apply};
use dcv_arena::{Arena, ArenaFault, Ref};
use dcv_tables::parity;
use std::alloc::Global;
use std::test::Fail;

// Numbers are merged into their sum, up to the last number of 32 bits. Calls are counted, and there are `limit` at most.
#[derive(Drop)]
struct Sum {
    calls: u32,
    limit: u32,
}

impl Merge for Sum {
    ghost use Rattle.std.specs.Prelude.{◌≡◌, ◌≤◌, ◌+◌, fold, min};
    ghost use Rattle.std.proofs.Common.{rules, arith, sym, ◌∙◌};

    ghost may = { λ merge numbers. Unit {0} };

    ghost gives = { λ merge numbers number. number ≡ fold (λ a b. min (a + b) 4294967295) 0 numbers };

    ghost full = { λ merge limit. (merge.calls ≡ merge.limit) × (limit ≡ merge.limit) };

    ghost becomes = { λ old new. (old.calls ≤ new.calls) × (new.limit ≡ old.limit) };

    fn leaf(&mut self, leaves: &[u32]) -> Result<u32, MergeFault> {
        if self.calls == self.limit {
            return Err(MergeFault::States { limit: self.limit });
        }
        self.calls = self.calls.saturating_add(1);
        Ok(leaves.iter().fold(0, |sum, leaf| sum.saturating_add(*leaf)))
    }

    ghost one_number = { λ merge numbers first second one other. one ∙ sym other };

    ghost stays = { Prim.search (rules, arith) };

    ghost goes_on = { Prim.search (rules, arith) };
}

// How many merges there were, how many entries the memo has then, and how many nodes there are.
type Taken = (u32, usize, u32);

// What it takes to merge a root alone, or with itself, with a memo without entries and at most so many merges.
fn taken(
    alloc: Global,
    first: &Arena,
    root: Ref,
    operands: usize,
    memo: &mut Memo,
    limit: u32,
) -> Result<Taken, ApplyFault>
    requires operands { operands ≤ 2 }
    requires root { IsRef first.now root }
    requires none { memo.old.entries ≡ [] }
{
    let mut arena = Arena::new(alloc, first.slots(), 100);
    let mut sum = Sum { calls: 0, limit };
    apply(
        alloc,
        &mut arena,
        first,
        first,
        &[(0, root), (0, root)][..operands],
        &mut sum,
        memo,
        0,
    )?;
    Ok((sum.calls, memo.len(), arena.len()))
}

// How often the parity of some slots is merged, alone or with itself, of how many slots it is, how many entries the memo may have, and
// how many merges there may be.
type Asked = (usize, u8, usize, u32);

// What that takes.
fn parity_merged(alloc: Global, asked: Asked) -> Result<Result<Taken, ApplyFault>, Fail> {
    let (operands, slots, capacity, limit) = asked;
    if operands > 2 || slots > 32 || capacity == 0 {
        return Err(Fail::new("at most two operands, 32 slots, and a memo with room"));
    }
    let mut first = Arena::new(alloc, slots, 100);
    let root = parity(&mut first, 1, 0, 1, 2)?;
    let mut memo = Memo::new(alloc, capacity)?;
    let taken = taken(alloc, &first, root, operands, &mut memo, limit);
    drop(memo);
    drop(first);
    Ok(taken)
}

const REMEMBERED: [(Asked, Result<Taken, ApplyFault>); 9] = [
    // Two nodes stand at the last slot, and each is gone through once while it is remembered.
    ((1, 16, 64, 4), Ok((4, 31, 31))),
    ((1, 16, 31, 4), Ok((4, 31, 31))),
    // A memo of one entry has always just remembered the other node, so every letter is merged.
    ((1, 16, 1, 65_536), Ok((65_536, 1, 31))),
    // Of a memo of two entries the first stays: one of the two nodes is gone through once, and the other below each of the 2^14 nodes
    // that are met at the slot before.
    ((1, 16, 2, 65_536), Ok((32_770, 2, 31))),
    ((1, 16, 64, 3), Err(ApplyFault::States { limit: 3 })),
    // A memo of 16 entries has room for 14 of two operands. The younger half is full after every seventh entry, and the older is
    // forgotten with the next: so there are 7 and 3 entries after 31. What is asked again was put by one of the last three.
    ((2, 16, 64, 4), Ok((4, 31, 31))),
    ((2, 16, 16, 4), Ok((4, 10, 31))),
    ((2, 16, 1, 65_536), Ok((65_536, 1, 31))),
    // What was merged once is not gone through again, so 2 ^ 32 letters are no trouble.
    ((1, 32, 100, 4), Ok((4, 63, 63))),
];

#[test]
fn what_was_merged_is_remembered(rt: HostRuntime) -> Result<(), Fail> {
    for (asked, expected) in REMEMBERED {
        assert_eq!(rt; parity_merged(rt.alloc(), asked)?, expected);
    }
    Ok(())
}

#[test]
fn faults_are_told_in_words(rt: HostRuntime) -> Result<(), Fail> {
    let alloc = rt.alloc();
    let states = ApplyFault::States { limit: 2 };
    assert_eq!(rt;
        states.to_string(alloc)?.as_str(),
        "there are more than 2 states"
    );
    let full = ArenaFault::Full { limit: 1 };
    assert_eq!(rt;
        full.to_string(alloc)?.as_str(),
        "the diagrams need more than 1 nodes"
    );
    Ok(())
}
