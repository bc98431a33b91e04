// The machine of a form.
ghost use Rattle.std.specs.Prelude.{if◌then◌else◌, ◌≡◌, ◌<◌, ◌≤◌, ◌==◌, ◌↔◌, ℕ, List, [], Bool, true, false, Err, length, IfOk, IfErr, OnOk, IsTrue, slice_index_or};
ghost use Rattle.dcv_arena.specs.Arena.{IsRef, IsArena};
ghost use Rattle.dcv_core.specs.Core.{PlainBasic};
ghost use Rattle.dcv_core.specs.TruthViews.{plain_basic};
ghost use Rattle.dcv_atoms.specs.declared.states.AtomMacro.{AtomMacro};
ghost use Rattle.dcv_atoms.specs.declared.faults.AtomFault.TheVariants.{Nodes, Memory};
ghost use Rattle.dcv_atoms.specs.AtomRows.{atom_machine, test_of, slot_test_of, after_letter};
ghost use Rattle.dcv_atoms.specs.Functions.{Means};
ghost use Rattle.dcv_atoms.specs.Leaves.{leaf_count, state_told};
ghost use Rattle.dcv_atoms.specs.Columns.{column_of, column_by};
ghost use Rattle.dcv_explore.specs.Classes.{AreClassesOf};
ghost use Rattle.dcv_atoms.specs.Numbers.{HasRoom};
ghost use Rattle.dcv_atoms.specs.Parts.{basic_parts, proposition_parts, slot_parts, atom_nodes};
ghost use Rattle.dcv_atoms.specs.Built.{Builds, Exceeds};
ghost use Rattle.dcv_atoms.specs.Steps.{IsAtom};
ghost use Rattle.dcv_atoms.specs.SameStates.{same_states};

use crate::faults::AtomFault;
use crate::proposition::{diagram, value};
use crate::rows;
use crate::states::AtomMacro;
use dcv_arena::{Arena, Ref};
use dcv_core::{Basic, Core, Op};
use dcv_explore::{ClassLimits, Functions, LetterClasses, Limits, Machine, Operands};
use std::alloc::{AllocError, Global};
use std::marker::Model;

/// A form of a core, with the diagrams of its proposition and its slot, and the classes of letters that these distinguish.
#[derive(Drop)]
pub struct Atom<'a> {
    // the form, as the core has it
    basic: &'a Basic,
    // the nodes of both functions
    arena: Arena,
    // the letters in which the proposition holds; of a form without one, none
    root: Ref,
    // the letters in which the slot of a shift is true; of a form that is none, none
    slot: Ref,
    // the letters by whether its proposition holds in them, and its slot is true
    classes: LetterClasses,
}

impl<'a> Model for Atom<'a> {
    ghost use Rattle.std.specs.Coded.{codes};
    ghost use Rattle.dcv_core.specs.TruthCode.{truth_code};
    ghost use Rattle.dcv_core.specs.TruthViews.{plain_basic};
    ghost use Rattle.dcv_atoms.specs.AtomValue.{AtomValue, IsAtomValue, atom_value};

    ghost Value = { AtomValue };

    ghost coded = { Prim.hlevel (codes, truth_code) };

    ghost view = { λ atom. atom_value (plain_basic atom.basic.now) atom.arena atom.root atom.slot atom.classes };

    ghost invariant = { λ atom. IsAtomValue (atom_value (plain_basic atom.basic.now) atom.arena atom.root atom.slot atom.classes) };
}

impl<'a> Atom<'a> {
    /// The machine of a step that is an atom.
    ///
    /// Letters of more than 32 slots are none, and no state has a number for a count of 2 ^ 32: such a step, which no text has,
    /// counts as running out of memory.
    pub fn new(
        alloc: Global,
        core: &'a Core,
        step: u32,
        limits: Limits,
    ) -> Result<Atom<'a>, AtomFault>
        requires atom { (basic : PlainBasic) × (slots : ℕ) × IsAtom core.now step basic slots }

        // The machine is the row of the step's form, over the step's slots.
        ensures form { (basic : PlainBasic) (slots : ℕ) → IsAtom core.now step basic slots → IfOk result (λ atom. atom.form ≡ basic) }
        ensures slots { (basic : PlainBasic) (slots : ℕ) → IsAtom core.now step basic slots → IfOk result (λ atom. atom.arena.slots ≡ slots) }
        ensures row { (basic : PlainBasic) (slots : ℕ) → IsAtom core.now step basic slots
            → IfOk result (λ atom. ⟦<Atom<'a> as Machine>⟧.machine atom ≡ atom_machine slots basic) }

        // The limit is exceeded exactly where its proposition's parts have more nodes.
        ensures within { (basic : PlainBasic) (slots : ℕ) → IsAtom core.now step basic slots → OnOk result (atom_nodes slots basic ≤ limits.nodes) }
        ensures limit { (limit : ℕ) → result ≡ Err (Nodes limit) → limit ≡ limits.nodes }
        ensures exceeds { (limit : ℕ) (basic : PlainBasic) (slots : ℕ) → result ≡ Err (Nodes limit) → IsAtom core.now step basic slots
            → limit < atom_nodes slots basic }
    {
        let Op::Atom(basic) = core.op(step) else {
            unreachable!();
        };
        Atom::of(alloc, basic, core.slots(step), limits.nodes)
    }

    // The machine of a form over so many slots, where its proposition may have so many nodes.
    fn of(alloc: Global, basic: &'a Basic, slots: u8, limit: u32) -> Result<Atom<'a>, AtomFault>
        ensures form { IfOk result (λ atom. atom.form ≡ plain_basic basic.now) }
        ensures slots { IfOk result (λ atom. atom.arena.slots ≡ slots) }
        ensures within { OnOk result (atom_nodes slots (plain_basic basic.now) ≤ limit) }
        ensures exceeds { (other : ℕ) → result ≡ Err (Nodes other) → (other ≡ limit) × (other < atom_nodes slots (plain_basic basic.now)) }
    {
        if slots > 32 || !has_room(basic) {
            return Err(AtomFault::Memory);
        }
        let mut arena = Arena::new(alloc, slots, limit);
        let (root, slot) = diagrams(alloc, &mut arena, basic)?;
        let classes = distinguished(alloc, &arena, root, slot)?;
        Ok(Atom {
            basic,
            arena,
            root,
            slot,
            classes,
        })
    }

    /// How many nodes the diagrams of all parts of the proposition have, each counted once.
    pub fn nodes(&self) -> u32
        ensures { result ≡ atom_nodes self.now.arena.slots self.now.form }
    {
        self.arena.len()
    }
}

// Whether there is a number for one more than that with which the form compares.
fn has_room(basic: &Basic) -> bool
    ensures { IsTrue result ↔ HasRoom (plain_basic basic.now) }
{
    match basic {
        Basic::Slen(_, number) | Basic::Counted(_, _, _, number) => *number < u32::MAX,
        _ => true,
    }
}

// The letters in which the form's proposition holds, and those in which its slot is true.
fn diagrams(alloc: Global, arena: &mut Arena, basic: &Basic) -> Result<(Ref, Ref), AtomFault>
    requires arena { IsArena arena.old }
    ensures means { IfOk result (λ roots. Means arena.new roots.0 arena.old.slots (test_of (plain_basic basic.now))) }
    ensures slot_means { IfOk result (λ roots. Means arena.new roots.1 arena.old.slots (slot_test_of (plain_basic basic.now))) }
    ensures builds { OnOk result (Builds arena.old arena.new (basic_parts (plain_basic basic.now))) }
    ensures exceeds { (limit : ℕ) → result ≡ Err (Nodes limit) → Exceeds arena.old (basic_parts (plain_basic basic.now)) limit }
    ensures arena { IsArena arena.new }
{
    let root = proposition(alloc, arena, basic)?;
    let slot = shifted(arena, basic)?;
    Ok((root, slot))
}

// The letters in which the form's proposition holds; none, where it has no proposition.
#[tactic(auto, using(crate::proofs::Building::builds_nothing))]
fn proposition(alloc: Global, arena: &mut Arena, basic: &Basic) -> Result<Ref, AtomFault>
    requires arena { IsArena arena.old }
    ensures means { IfOk result (λ root. Means arena.new root arena.old.slots (test_of (plain_basic basic.now))) }
    ensures builds { OnOk result (Builds arena.old arena.new (proposition_parts (plain_basic basic.now))) }
    ensures exceeds { (limit : ℕ) → result ≡ Err (Nodes limit) → Exceeds arena.old (proposition_parts (plain_basic basic.now)) limit }
    ensures arena { IsArena arena.new }
{
    match basic {
        Basic::Bracketed(_, truth) | Basic::Counted(_, truth, _, _) | Basic::Track(_, truth, _) => {
            diagram(alloc, arena, truth)
        }
        Basic::Constant(_) | Basic::Slen(_, _) => Ok(arena.leaf(0)),
    }
}

// The letters in which the slot of a shift is true; none, where the form is no shift.
#[tactic(auto, using(crate::proofs::Building::builds_nothing))]
fn shifted(arena: &mut Arena, basic: &Basic) -> Result<Ref, AtomFault>
    requires arena { IsArena arena.old }
    ensures means { IfOk result (λ root. Means arena.new root arena.old.slots (slot_test_of (plain_basic basic.now))) }
    ensures builds { OnOk result (Builds arena.old arena.new (slot_parts (plain_basic basic.now))) }
    ensures exceeds { (limit : ℕ) → result ≡ Err (Nodes limit) → Exceeds arena.old (slot_parts (plain_basic basic.now)) limit }
    ensures arena { IsArena arena.new }
{
    match basic {
        Basic::Track(_, _, slot) => value(arena, *slot),
        _ => Ok(arena.leaf(0)),
    }
}

// Whether the form is a shift.
fn is_shift(basic: &Basic) -> bool
    ensures { leaf_count (plain_basic basic.now) ≡ (if result then 4 else 3) }
{
    matches!(basic, Basic::Track(_, _, _))
}

// The classes of letters that two functions of truths distinguish: four at most. Where their diagram had 2 ^ 32 nodes, that would count as
// running out of memory.
fn distinguished(
    alloc: Global,
    arena: &Arena,
    root: Ref,
    slot: Ref,
) -> Result<LetterClasses, AtomFault>
    requires slots { arena.now.slots ≤ 32 }
    requires root { IsRef arena.now root }
    requires slot { IsRef arena.now slot }
    ensures classes { (P T : List Bool → Bool) → Means arena.now root arena.now.slots P → Means arena.now slot arena.now.slots T
        → IfOk result (λ classes. AreClassesOf classes arena.now.slots (column_by P T)) }
    ensures fault { IfErr result (λ fault. fault ≡ Memory) }
{
    let functions = Functions {
        first: arena,
        second: arena,
        list: &[(0, root), (0, slot)],
        both_last: false,
    };
    let limits = ClassLimits {
        classes: u32::MAX,
        nodes: u32::MAX,
    };
    match LetterClasses::of(alloc, arena.slots(), functions, limits)? {
        Some(classes) => Ok(classes),
        None => Err(AtomFault::Memory),
    }
}

impl Machine for Atom<'_> {
    type Macro = AtomMacro;

    ghost both_last = { false };

    ghost State = { AtomMacro };

    ghost state = { λ state. state };

    ghost machine = { λ atom. atom_machine atom.arena.slots atom.form };

    ghost operand = { λ atom place. atom.arena };

    ghost may = { λ atom leaves. length leaves ≡ leaf_count atom.form };

    ghost merged = { λ atom leaves. after_letter atom.form
        (state_told (slice_index_or leaves 0 0) (slice_index_or leaves 1 0)) (slice_index_or leaves 2 0 == 1) (slice_index_or leaves 3 0 == 1) };

    ghost extended = { λ atom state leaves. state };

    ghost by_classes = { λ atom. true };

    ghost column_at = { λ atom. column_of atom.form };

    fn both_last(&self) -> bool {
        false
    }

    fn slots(&self) -> u8 {
        self.arena.slots()
    }

    fn start(&self, _alloc: Global) -> Result<AtomMacro, AllocError> {
        Ok(AtomMacro::Start)
    }

    fn arena(&self, _place: u32) -> &Arena {
        &self.arena
    }

    fn classes(&self) -> Option<&LetterClasses> {
        Some(&self.classes)
    }

    #[tactic(auto, using(crate::proofs::NextStates::comes_next))]
    fn next_in(
        &self,
        _alloc: Global,
        from: &AtomMacro,
        column: &[u32],
    ) -> Result<Option<AtomMacro>, AllocError> {
        let (holds, shifted) = (column[0] == 1, column[1] == 1);
        Ok(Some(rows::after(self.basic, *from, holds, shifted)))
    }

    // The state is told by two leaves, and the letter by the proposition and the slot of a shift.
    fn operands(&self, from: &AtomMacro, to: &mut Operands) -> Result<(), AllocError> {
        to.push(0, Ref::Leaf(from.number()))?;
        to.push(0, Ref::Leaf(from.count()))?;
        to.push(0, self.root)?;
        if is_shift(self.basic) {
            to.push(0, self.slot)?;
        }
        Ok(())
    }

    fn merge(&self, _alloc: Global, leaves: &[u32]) -> Result<AtomMacro, AllocError> {
        let from = AtomMacro::told(leaves[0], leaves[1]);
        let shifted = leaves.get(3) == Some(&1);
        Ok(rows::after(self.basic, from, leaves[2] == 1, shifted))
    }

    fn copy(&self, _alloc: Global, of: &AtomMacro) -> Result<AtomMacro, AllocError> {
        Ok(*of)
    }

    fn extend(
        &self,
        _alloc: Global,
        of: &AtomMacro,
        _numbers: &[u32],
    ) -> Result<AtomMacro, AllocError> {
        Ok(*of)
    }

    fn accepts(&self, of: &AtomMacro) -> bool {
        rows::accepts(self.basic, *of)
    }

    ghost sameness = { same_states };
}
