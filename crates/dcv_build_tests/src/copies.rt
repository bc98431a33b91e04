// Copies of the states in which machines begin. The program makes none.
ghost use Rattle.std.specs.Prelude.{◌<◌};

use crate::atoms::atom_of;
use crate::goals::{auto_of, core_of};
use dcv_chop::{Chop, Star};
use dcv_dfa::Auto;
use dcv_explore::Machine;
use dcv_product::{And, Iff, Or};
use dcv_project::Exists;
use std::alloc::{AllocError, Global};
use std::test::Fail;

// Whether a copy of the machine's first state is that state.
fn copies_its_start<M: Machine>(alloc: Global, machine: &M) -> Result<bool, AllocError> {
    let start = machine.start(alloc)?;
    let copy = machine.copy(alloc, &start)?;
    Ok(copy == start)
}

// The same of each product of an automaton with itself.
fn products_copy(alloc: Global, auto: &Auto) -> Result<[bool; 3], AllocError> {
    let both = copies_its_start(alloc, &And::new(auto, auto))?;
    let either = copies_its_start(alloc, &Or::new(auto, auto))?;
    let alike = copies_its_start(alloc, &Iff::new(auto, auto))?;
    Ok([both, either, alike])
}

// The same of the quantifier, a chop and a star.
fn others_copy(alloc: Global, auto: &Auto) -> Result<[bool; 3], AllocError>
    requires { 0 < auto.now.arena.slots }
{
    let track = copies_its_start(alloc, &Exists::new(alloc, auto)?)?;
    let cut = copies_its_start(alloc, &Chop::new(alloc, auto, auto)?)?;
    let parts = copies_its_start(alloc, &Star::new(alloc, auto)?)?;
    Ok([track, cut, parts])
}

// All six, of an automaton of some slots.
fn operations_copy(alloc: Global, auto: &Auto) -> Result<([bool; 3], [bool; 3]), Fail> {
    if auto.slots() == 0 {
        return Err(Fail::new("there is no slot to quantify"));
    }
    let products = products_copy(alloc, auto)?;
    let others = others_copy(alloc, auto)?;
    Ok((products, others))
}

#[test]
fn starts_of_operations_are_copied(rt: HostRuntime) -> Result<(), Fail> {
    let auto = auto_of(rt.alloc(), "var p; infer true^<p>;")?;
    let copied = operations_copy(rt.alloc(), &auto);
    drop(auto);
    assert_eq!(rt; copied?, ([true; 3], [true; 3]));
    Ok(())
}

#[test]
fn start_of_an_atom_is_copied(rt: HostRuntime) -> Result<(), Fail> {
    let core = core_of(rt.alloc(), "var p; infer <p>;")?;
    let atom = atom_of(rt.alloc(), &core, 1)??;
    let copied = copies_its_start(rt.alloc(), &atom);
    drop(atom);
    drop(core);
    assert!(rt; copied?);
    Ok(())
}
