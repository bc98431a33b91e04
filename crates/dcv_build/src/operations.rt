// What is explored for each operator, and how far, of the automata of its operands where they stand on the shelf.
ghost use Rattle.std.specs.Prelude.{◌≡◌, ◌<◌, ◌-◌, ℕ};
ghost use Rattle.dcv_language.specs.OperationMachines.{pair_machine, chop_machine, star_machine, exists_machine};
ghost use Rattle.dcv_language.specs.Table.{automaton_of};
ghost use Rattle.dcv_logic.specs.Connectives.{joins};
ghost use Rattle.dcv_core.specs.Core.{PlainBasic};
ghost use Rattle.dcv_atoms.specs.AtomRows.{atom_machine};
ghost use Rattle.dcv_atoms.specs.Parts.{atom_nodes};
ghost use Rattle.dcv_atoms.specs.Steps.{IsAtom};
ghost use Rattle.dcv_shelf.specs.Stored.{view_table};
ghost use Rattle.dcv_build.specs.Settled.{Settles, SettlesUpTo};

use crate::faults::BuildFault;
use crate::settling::{Explored, Extent, settle};
use dcv_atoms::{Atom, AtomFault};
use dcv_chop::{Chop, Star};
use dcv_core::Core;
use dcv_explore::Limits;
use dcv_product::{And, Iff, Or};
use dcv_project::Exists;
use dcv_shelf::View;
use dcv_syntax::Connective;
use std::alloc::Global;

// A form without a formula in it, with the nodes of its proposition's parts.
pub(crate) fn atom(
    alloc: Global,
    core: &Core,
    step: u32,
    limits: Limits,
) -> Result<Explored, BuildFault>
    requires { (basic : PlainBasic) × (slots : ℕ) × IsAtom core.now step basic slots }
    ensures { (basic : PlainBasic) (slots : ℕ) → IsAtom core.now step basic slots
        → Settles (atom_machine slots basic) (atom_nodes slots basic) limits step result }
{
    match Atom::new(alloc, core, step, limits) {
        Ok(atom) => settle(alloc, &atom, atom.nodes(), limits, step, Extent::Whole),
        Err(AtomFault::Nodes { .. }) => Err(BuildFault::Nodes {
            step,
            limit: limits.nodes,
        }),
        Err(AtomFault::Memory) => Err(BuildFault::Memory),
    }
}

// The words that both accept, or one or the other, or both or neither.
pub(crate) fn joined(
    alloc: Global,
    connective: Connective,
    first: View<'_>,
    second: View<'_>,
    limits: Limits,
    step: u32,
    extent: Extent,
) -> Result<Explored, BuildFault>
    requires { first.stored.slots ≡ second.stored.slots }
    ensures { SettlesUpTo extent (pair_machine first.entry.stored.slots (joins connective) (automaton_of (view_table first.entry).table) (automaton_of (view_table second.entry).table)) 0 limits step result }
{
    match connective {
        Connective::And => settle(alloc, &And::new(&first, &second), 0, limits, step, extent),
        Connective::Or => settle(alloc, &Or::new(&first, &second), 0, limits, step, extent),
        Connective::Iff => settle(alloc, &Iff::new(&first, &second), 0, limits, step, extent),
    }
}

// The words of the first, and from their last letter on words of the second.
pub(crate) fn chop(
    alloc: Global,
    first: View<'_>,
    second: View<'_>,
    limits: Limits,
    step: u32,
    extent: Extent,
) -> Result<Explored, BuildFault>
    requires { first.stored.slots ≡ second.stored.slots }
    ensures { SettlesUpTo extent (chop_machine first.entry.stored.slots (automaton_of (view_table first.entry).table) (automaton_of (view_table second.entry).table)) 0 limits step result }
{
    let chop = Chop::new(alloc, &first, &second)?;
    settle(alloc, &chop, 0, limits, step, extent)
}

// Words of the operand one after the other.
pub(crate) fn star(
    alloc: Global,
    operand: View<'_>,
    limits: Limits,
    step: u32,
    extent: Extent,
) -> Result<Explored, BuildFault>
    ensures { SettlesUpTo extent (star_machine operand.entry.stored.slots (automaton_of (view_table operand.entry).table)) 0 limits step result }
{
    let star = Star::new(alloc, &operand)?;
    settle(alloc, &star, 0, limits, step, extent)
}

// The words that some track in the last slot brings into those of the operand.
pub(crate) fn some_track(
    alloc: Global,
    operand: View<'_>,
    limits: Limits,
    step: u32,
    extent: Extent,
) -> Result<Explored, BuildFault>
    requires { 0 < operand.stored.slots }
    ensures { SettlesUpTo extent (exists_machine (operand.entry.stored.slots - 1) (automaton_of (view_table operand.entry).table)) 0 limits step result }
{
    let exists = Exists::new(alloc, &operand)?;
    settle(alloc, &exists, 0, limits, step, extent)
}
