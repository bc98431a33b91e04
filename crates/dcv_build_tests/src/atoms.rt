// The machines of atoms: the nodes of their propositions' parts, their states, and the nodes of their rows, counted by hand. Each count is as much as is
// needed.
use crate::goals::{LIMITS, core_of};
use dcv_atoms::{Atom, AtomFault};
use dcv_core::{Core, Op};
use dcv_dfa::Raw;
use dcv_explore::{ExploreFault, Limits, explore};
use std::alloc::Global;
use std::test::Fail;

// How many nodes the parts of the proposition have, how many states the machine has, and how many nodes their rows.
#[derive(Clone, Copy, Debug, PartialEq, Eq)]
struct Counts {
    parts: u32,
    states: u32,
    rows: u32,
}

// The machine of a core's first step, where that is an atom.
pub(crate) fn atom_of<'a>(
    alloc: Global,
    core: &'a Core,
    nodes: u32,
) -> Result<Result<Atom<'a>, AtomFault>, Fail> {
    if core.steps() == 0 {
        return Err("there is no step".into());
    }
    let Op::Atom(_) = core.op(0) else {
        return Err("the first step is no atom".into());
    };
    let limits = Limits { states: 0, nodes };
    Ok(Atom::new(alloc, core, 0, limits))
}

// Its automaton.
fn explored(alloc: Global, atom: &Atom, states: u32, nodes: u32) -> Result<Raw, ExploreFault> {
    explore(alloc, atom, Limits { states, nodes })
}

// What is counted of the first step of a text, within the limits that are told.
fn counted(alloc: Global, text: &str, limits: Counts) -> Result<Counts, Fail> {
    let core = core_of(alloc, text)?;
    let atom = atom_of(alloc, &core, limits.parts)??;
    let raw = explored(alloc, &atom, limits.states, limits.rows)?;
    Ok(Counts {
        parts: atom.nodes(),
        states: raw.states(),
        rows: raw.arena().len(),
    })
}

// The fault of the machine where the parts may have so many nodes.
fn fault_of_atom(alloc: Global, text: &str, nodes: u32) -> Result<Option<AtomFault>, Fail> {
    let core = core_of(alloc, text)?;
    Ok(atom_of(alloc, &core, nodes)?.err())
}

// The fault of the exploration where there may be so many states.
fn fault_of_states(alloc: Global, text: &str, states: u32) -> Result<Option<ExploreFault>, Fail> {
    let core = core_of(alloc, text)?;
    let atom = atom_of(alloc, &core, LIMITS.nodes)??;
    Ok(explored(alloc, &atom, states, LIMITS.nodes).err())
}

// Texts whose first step is an atom, with its counts: the nodes of the parts, the states, and the nodes of the rows.
const ATOMS: [(&str, u32, u32, u32); 3] = [
    ("infer slen = 9;", 0, 12, 0),
    ("var p; infer sdur p >= 2;", 1, 9, 4),
    // p, q, and both
    ("var p, q; infer [[p && q]];", 3, 3, 2),
];

#[test]
fn counts_of_atoms(rt: HostRuntime) -> Result<(), Fail> {
    for (text, parts, states, rows) in ATOMS {
        let expected = Counts {
            parts,
            states,
            rows,
        };
        assert_eq!(rt; counted(rt.alloc(), text, expected)?, expected, "{text}");
    }
    Ok(())
}

#[test]
fn atoms_over_a_limit(rt: HostRuntime) -> Result<(), Fail> {
    let alloc = rt.alloc();
    let fault = fault_of_states(alloc, "infer slen = 9;", 10)?;
    assert_eq!(rt; fault, Some(ExploreFault::States { limit: 10 }));
    let fault = fault_of_atom(alloc, "var p, q; infer [[p && q]];", 2)?;
    assert_eq!(rt; fault, Some(AtomFault::Nodes { limit: 2 }));
    Ok(())
}
