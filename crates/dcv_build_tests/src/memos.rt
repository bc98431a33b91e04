// A product explored with memos of two capacities: what the smaller has forgotten is merged again, and comes to the same automaton.
ghost use Rattle.std.specs.Prelude.{◌≤◌};

use crate::goals::auto_of;
use dcv_apply::Memo;
use dcv_dfa::Auto;
use dcv_explore::{Limits, explore_with};
use dcv_product::And;
use dcv_tables::text_of;
use std::alloc::Global;
use std::test::Fail;

// The text, how many nodes the rows have, and how many entries a memo has then.
type Explored = (String, u32, usize);

// The text of the product of an automaton of 4 states and 2 nodes with itself, how many nodes its rows have, and how many entries a memo of this
// capacity has then.
fn explored(alloc: Global, auto: &Auto, capacity: usize) -> Result<Explored, Fail>
    requires { 1 ≤ capacity }
{
    let both = And::new(auto, auto);
    let mut memo = Memo::new(alloc, capacity)?;
    let limits = Limits {
        states: 4,
        nodes: 2,
    };
    let raw = explore_with(alloc, &both, limits, &mut memo)?;
    Ok((text_of(alloc, &raw)?, raw.arena().len(), memo.len()))
}

// The same with memos of one entry and of many.
fn explored_twice(alloc: Global, auto: &Auto) -> Result<(Explored, Explored), Fail> {
    let one = explored(alloc, auto, 1)?;
    let other = explored(alloc, auto, 65_536)?;
    Ok((one, other))
}

// The states are what was counted with the last truth, if it is below 2: 0 and false, 1 either way, and 1 with the last true; and what is 2 or more.
const TABLE: &str = "reject 0 1; reject 1 2; reject 3 3; accept 3 3";

#[test]
fn one_entry_and_many(rt: HostRuntime) -> Result<(), Fail> {
    let auto = auto_of(rt.alloc(), "var p; infer sdur p >= 2;")?;
    let both = explored_twice(rt.alloc(), &auto);
    drop(auto);
    let ((one, one_nodes, entry), (other, other_nodes, entries)) = both?;
    assert_eq!(rt; (one.as_str(), other.as_str()), (TABLE, TABLE));
    assert_eq!(rt; (one_nodes, other_nodes), (2, 2));
    assert!(rt; entry >= 1 && entries >= 1);
    Ok(())
}
