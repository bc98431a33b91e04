// What the joins of one proposition remember. They share a memo, and each has a round of its own, so that none finds what another left.
ghost use Rattle.std.specs.Prelude.{◌≡◌, List, Bool, length, IfOk, OnOk, OnErr};
ghost use Rattle.std.specs.List.{All};
ghost use Rattle.dcv_arena.specs.Arena.{IsRef, IsArena, value_of};
ghost use Rattle.dcv_apply.specs.Operands.{IsOperand, numbers_at};
ghost use Rattle.dcv_atoms.specs.Functions.{number_joined};

use crate::functions::Join;
use dcv_apply::{ApplyFault, Memo, USUAL_CAPACITY, apply};
use dcv_arena::{Arena, Ref};
use dcv_syntax::Connective;
use std::alloc::{AllocError, Global};
use std::marker::Model;

// A memo, and the round of the next join, of which it has no entry yet.
#[derive(Drop)]
pub(crate) struct Rounds {
    // what the joins so far were merged into
    memo: Memo,
    // the round of the next join
    next: u32,
}

impl Model for Rounds {
    ghost use Rattle.std.specs.Prelude.{ℕ};
    ghost use Rattle.dcv_atoms.specs.Rounds.{HasEarlier};

    ghost Value = { ℕ };

    ghost view = { λ rounds. rounds.next };

    ghost invariant = { λ rounds. HasEarlier rounds.next rounds.memo };
}

impl Rounds {
    // Nothing is remembered.
    pub(crate) fn new(alloc: Global) -> Result<Rounds, AllocError>
        ensures first { IfOk result (λ rounds. rounds ≡ 0) }
        ensures made { OnErr result ⊥ }
    {
        let memo = Memo::new(alloc, USUAL_CAPACITY)?;
        Ok(Rounds { memo, next: 0 })
    }

    // The function that has, at each letter, what the two operands' numbers there are joined to. After the round with the largest
    // number there is none, which counts as running out of memory.
    pub(crate) fn join(
        &mut self,
        alloc: Global,
        connective: Connective,
        arena: &mut Arena,
        first: &Arena,
        second: &Arena,
        operands: &[(u32, Ref)],
    ) -> Result<Ref, ApplyFault>
        requires operands { All (IsOperand first.now second.now) operands.now }
        requires two { length operands.now ≡ 2 }
        ensures is_ref { IfOk result (IsRef arena.new) }
        ensures value { IfOk result (λ root. (letter : List Bool) → length letter ≡ arena.old.slots
            → value_of arena.new root letter ≡ number_joined connective (numbers_at first.now second.now operands.now letter)) }
        ensures slots { OnOk result (arena.new.slots ≡ arena.old.slots) }
        ensures arena { OnOk result (IsArena arena.new) }
    {
        let round = self.next;
        let Some(next) = round.checked_add(1) else {
            return Err(ApplyFault::Memory);
        };
        self.next = next;
        let mut merge = Join { connective };
        apply(
            alloc,
            arena,
            first,
            second,
            operands,
            &mut merge,
            &mut self.memo,
            round,
        )
    }
}
