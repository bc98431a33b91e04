// The observers of an automaton: `p` is true throughout.
ghost use Rattle.std.specs.Prelude.{◌≡◌, ◌≤◌, length, IfOk};
ghost use Rattle.dcv_dfa.specs.Auto.{count_of_nodes};

use crate::read_back::{NODE, UNIT};
use dcv_dfa::Auto;
use dcv_minimise::minimise;
use dcv_tables::{one_name, raw_of_text};
use std::alloc::Global;
use std::test::Fail;

fn automaton(alloc: Global) -> Result<Auto, Fail>
    ensures slots { IfOk result (λ auto. auto.arena.slots ≡ 1) }
    ensures states { IfOk result (λ auto. length auto.rows ≤ 2) }
    ensures nodes { IfOk result (λ auto. count_of_nodes auto ≤ 2) }
{
    let auto = minimise(alloc, raw_of_text(alloc, 1, "accept 1 0; reject 1 1", 0)?)?;
    if auto.slots() != 1 || auto.states() > 2 || auto.nodes() > 2 {
        return Err(Fail::new("another automaton"));
    }
    Ok(auto)
}

// The text of its observer in Lustre.
fn text_of_node(alloc: Global) -> Result<Vec<u8>, Fail> {
    let names = one_name(alloc, b'p')?;
    let node = dcv_lustre_read::of_auto(alloc, &automaton(alloc)?, &names)?;
    Ok(dcv_lustre::text(alloc, &node)?)
}

// The text of its observer in C.
fn text_of_unit(alloc: Global) -> Result<Vec<u8>, Fail> {
    let names = one_name(alloc, b'p')?;
    let unit = dcv_c_read::of_auto(alloc, &automaton(alloc)?, &names)?;
    Ok(dcv_c::text(alloc, &unit)?)
}

#[test]
fn the_node_of_an_automaton(rt: HostRuntime) -> Result<(), Fail> {
    assert_eq!(rt; text_of_node(rt.alloc())?.as_slice(), NODE);
    Ok(())
}

#[test]
fn the_unit_of_an_automaton(rt: HostRuntime) -> Result<(), Fail> {
    assert_eq!(rt; text_of_unit(rt.alloc())?.as_slice(), UNIT);
    Ok(())
}
