// An atom explored as far as its verdict goes: the last states have no rows of their own, and the shortest words are those of the whole.
use crate::atoms::atom_of;
use crate::goals::core_of;
use dcv_dfa::Raw;
use dcv_explore::{Limits, explore_to_verdict};
use dcv_print::verdict_in;
use dcv_tables::text_of;
use std::alloc::Global;
use std::test::Fail;

// Of that atom, whose machine has 9 states and rows of 4 nodes, where there may be 7 and 3.
fn explored(alloc: Global) -> Result<Raw, Fail> {
    let core = core_of(alloc, "var p; infer sdur p >= 2;")?;
    let atom = atom_of(alloc, &core, 1)??;
    let limits = Limits {
        states: 7,
        nodes: 3,
    };
    Ok(explore_to_verdict(alloc, &atom, limits)?)
}

// The text of an automaton, and that of its verdict.
fn texts(alloc: Global, raw: &Raw) -> Result<(String, Vec<u8>), Fail> {
    Ok((text_of(alloc, raw)?, verdict_in(alloc, raw)?.text(alloc)?))
}

// One letter refuses, and three accept at the earliest, `p` at the first two. So the states of three letters, (2, 0) and (2, 1), are met and no more.
const TABLE: &str =
    "reject 1 2; reject 1 2; reject 3 4; reject 3 4; reject 5 6; accept 0 0; accept 0 0";

const VERDICT: &[u8] = b"not valid\nsatisfiable\ncounterexample 1\n0\nexample 3\n1\n1\n0\n";

#[test]
fn an_atom_as_far_as_its_verdict_goes(rt: HostRuntime) -> Result<(), Fail> {
    let raw = explored(rt.alloc())?;
    let texts = texts(rt.alloc(), &raw);
    drop(raw);
    let (table, verdict) = texts?;
    assert_eq!(rt; (table.as_str(), verdict.as_slice()), (TABLE, VERDICT));
    Ok(())
}
