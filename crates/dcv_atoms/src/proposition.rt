// The diagram of a proposition, in an arena that gets the nodes of its parts and no others.
//
// The operands of a list are joined two by two, from the left, as R. E. Bryant's `Apply` joins two functions (1986): all at once they
// would take as many steps as they have truths together, which is exponential in the slots. The opposite has the same nodes with the two
// leaves exchanged.
ghost use Rattle.std.specs.Prelude.{◌≡◌, ℕ, Bool, List, [], ◌∷◌, Err, map, not, IfOk, OnOk};
ghost use Rattle.dcv_arena.specs.Arena.{IsRef, IsArena};
ghost use Rattle.dcv_core.specs.Core.{PlainTruth, TruthConstant, TruthSlot, TruthNot, TruthJoined};
ghost use Rattle.dcv_core.specs.Holds.{truth_holds};
ghost use Rattle.dcv_core.specs.TruthViews.{plain_truth, truths_of};
ghost use Rattle.dcv_atoms.specs.Parts.{parts};
ghost use Rattle.dcv_atoms.specs.Functions.{Means, HasTruths};
ghost use Rattle.dcv_atoms.specs.Built.{Builds, Exceeds};
ghost use Rattle.dcv_atoms.specs.declared.faults.AtomFault.TheVariants.{Nodes};

use crate::faults::AtomFault;
use crate::functions::{Function, of_none};
use crate::rounds::Rounds;
use dcv_arena::{Arena, Ref};
use dcv_core::Truth;
use dcv_syntax::Connective;
use std::alloc::Global;

// The letters in which the proposition holds.
pub(crate) fn diagram(alloc: Global, arena: &mut Arena, truth: &Truth) -> Result<Ref, AtomFault>
    requires arena { IsArena arena.old }
    ensures means { IfOk result (λ root. Means arena.new root arena.old.slots (truth_holds (plain_truth truth.now))) }
    ensures builds { OnOk result (Builds arena.old arena.new (parts (plain_truth truth.now))) }
    ensures exceeds { (limit : ℕ) → result ≡ Err (Nodes limit) → Exceeds arena.old (parts (plain_truth truth.now)) limit }
    ensures arena { IsArena arena.new }
{
    match truth {
        // with nothing to be joined, and so with nothing to be remembered
        Truth::Constant(truth) => Ok(constant(arena, *truth)),
        Truth::Slot(slot) => value(arena, *slot),
        _ => {
            let mut rounds = Rounds::new(alloc)?;
            part(alloc, arena, truth, &mut rounds)
        }
    }
}

// The letters in which a part of it holds.
#[cycle(diagrams)]
fn part(
    alloc: Global,
    arena: &mut Arena,
    truth: &Truth,
    rounds: &mut Rounds,
) -> Result<Ref, AtomFault>
    requires arena { IsArena arena.old }
    ensures means { IfOk result (λ root. Means arena.new root arena.old.slots (truth_holds (plain_truth truth.now))) }
    ensures builds { OnOk result (Builds arena.old arena.new (parts (plain_truth truth.now))) }
    ensures exceeds { (limit : ℕ) → result ≡ Err (Nodes limit) → Exceeds arena.old (parts (plain_truth truth.now)) limit }
    ensures arena { IsArena arena.new }
{
    match truth {
        Truth::Constant(truth) => Ok(constant(arena, *truth)),
        Truth::Slot(slot) => value(arena, *slot),
        Truth::Not(operand) => {
            let root = part(alloc, arena, operand, rounds)?;
            opposite(alloc, arena, root)
        }
        Truth::Joined(connective, operands) => list(alloc, arena, *connective, operands, rounds),
        // of no core
        Truth::Shift(_, _, _) => Ok(arena.leaf(0)),
    }
}

// The letters in which a truth that does not change holds: all, or none.
fn constant(arena: &Arena, truth: bool) -> Ref
    requires arena { IsArena arena.now }
    ensures means { Means arena.now result arena.now.slots (truth_holds (TruthConstant truth)) }
    ensures builds { Builds arena.now arena.now (TruthConstant truth ∷ []) }
{
    arena.leaf(u32::from(truth))
}

// The letters in which the slot is true. One that letters do not have is false in them.
pub(crate) fn value(arena: &mut Arena, slot: u8) -> Result<Ref, AtomFault>
    requires arena { IsArena arena.old }
    ensures means { IfOk result (λ root. Means arena.new root arena.old.slots (truth_holds (TruthSlot slot))) }
    ensures builds { OnOk result (Builds arena.old arena.new (TruthSlot slot ∷ [])) }
    ensures exceeds { (limit : ℕ) → result ≡ Err (Nodes limit) → Exceeds arena.old (TruthSlot slot ∷ []) limit }
    ensures arena { IsArena arena.new }
{
    let (no, yes) = (arena.leaf(0), arena.leaf(1));
    if slot >= arena.slots() {
        return Ok(no);
    }
    Ok(arena.node(slot, no, yes)?)
}

// The letters in which it does not hold. It stands apart, since `part` goes as deep as the proposition.
#[inline(never)]
fn opposite(alloc: Global, arena: &mut Arena, root: Ref) -> Result<Ref, AtomFault>
    requires arena { IsArena arena.old }
    requires root { IsRef arena.old root }
    requires truths { HasTruths arena.old root }
    ensures means { (P : List Bool → Bool) → Means arena.old root arena.old.slots P
        → IfOk result (λ root. Means arena.new root arena.old.slots (λ letter. not (P letter))) }
    ensures builds { (p : PlainTruth) → Means arena.old root arena.old.slots (truth_holds p)
        → OnOk result (Builds arena.old arena.new (TruthNot p ∷ [])) }
    ensures exceeds { (limit : ℕ) (p : PlainTruth) → result ≡ Err (Nodes limit) → Means arena.old root arena.old.slots (truth_holds p)
        → Exceeds arena.old (TruthNot p ∷ []) limit }
    ensures arena { IsArena arena.new }
{
    let opposite = Function::opposite(alloc, arena, root)?;
    opposite.put(alloc, arena)
}

// The letters in which the operands are joined to true.
#[cycle(diagrams)]
fn list(
    alloc: Global,
    arena: &mut Arena,
    connective: Connective,
    operands: &[Truth],
    rounds: &mut Rounds,
) -> Result<Ref, AtomFault>
    requires arena { IsArena arena.old }
    ensures means { IfOk result (λ root. Means arena.new root arena.old.slots
        (truth_holds (TruthJoined connective (truths_of (map plain_truth operands.now))))) }
    ensures builds { OnOk result (Builds arena.old arena.new (parts (TruthJoined connective (truths_of (map plain_truth operands.now))))) }
    ensures exceeds { (limit : ℕ) → result ≡ Err (Nodes limit)
        → Exceeds arena.old (parts (TruthJoined connective (truths_of (map plain_truth operands.now)))) limit }
    ensures arena { IsArena arena.new }
{
    let mut all = Function::constant(alloc, arena.slots(), of_none(connective));
    for operand in operands {
        let root = part(alloc, arena, operand, rounds)?;
        all = all.with(alloc, connective, arena, root, rounds)?;
    }
    all.put(alloc, arena)
}
