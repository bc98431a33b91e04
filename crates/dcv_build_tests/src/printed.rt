// The texts that are printed of automata, by the calls that give them whole.
ghost use Rattle.std.specs.Prelude.{IfOk};
ghost use Rattle.dcv_print.specs.Counts.{ArePrintableCounts};

use crate::goals::auto_of;
use dcv_certificate::separate;
use dcv_dfa::Auto;
use dcv_language::Count;
use dcv_print::{all_text, automaton_text, verdict, verdict_text};
use dcv_tables::one_name;
use std::alloc::{AllocError, Global};
use std::test::Fail;

// The verdict of an automaton, and the text of that.
fn verdicts(alloc: Global, auto: &Auto) -> Result<[Vec<u8>; 2], AllocError> {
    let text = verdict_text(alloc, auto)?;
    let other = verdict(alloc, auto)?.text(alloc)?;
    Ok([text, other])
}

#[test]
fn one_verdict(rt: HostRuntime) -> Result<(), Fail> {
    let auto = auto_of(rt.alloc(), "var p; infer [[p]];")?;
    let texts = verdicts(rt.alloc(), &auto);
    drop(auto);
    let expected = b"not valid\nsatisfiable\ncounterexample 1\n0\nexample 1\n1\n";
    for text in &texts? {
        assert_eq!(rt; text.as_slice(), expected.as_slice());
    }
    Ok(())
}

// What two steps took, the second of them as much as a text can say.
fn two_counts(alloc: Global) -> Result<Vec<Count>, Fail>
    ensures { IfOk result (λ counts. ArePrintableCounts counts.items) }
{
    let mut counts = Vec::new(alloc);
    counts.push(Count {
        at: 13,
        states: 2,
        nodes: 1,
    })?;
    counts.push(Count {
        at: 262_143,
        states: 32_000,
        nodes: 1_000_000,
    })?;
    Ok(counts)
}

// The text of an automaton over `p`, with what two steps took.
fn printed(alloc: Global, auto: &Auto) -> Result<Vec<u8>, Fail> {
    if auto.slots() != 1 {
        return Err(Fail::new("another number of slots"));
    }
    let names = one_name(alloc, b'p')?;
    let proof = separate(alloc, auto)?;
    let counts = two_counts(alloc)?;
    Ok(automaton_text(alloc, auto, &names, &proof, &counts)?)
}

#[test]
fn start_that_stands_alone(rt: HostRuntime) -> Result<(), Fail> {
    let auto = auto_of(rt.alloc(), "var p; infer <p>;")?;
    let text = printed(rt.alloc(), &auto);
    drop(auto);
    let expected = b"automaton 2\nvariables p\nstates 3\n\
        node n0 p ? t2 : t1\n\
        state 0 reject n0\nstate 1 reject t1\nstate 2 accept t1\n\
        access 0 empty\naccess 1 start 0\naccess 2 start 1\n\
        suffix 0 empty\nsuffix 1 1 0\n\
        steps 2\nstep 0 at 13 states 2 nodes 1\nstep 1 at 262143 states 32000 nodes 1000000\nend\n";
    assert_eq!(rt; text?.as_slice(), expected.as_slice());
    Ok(())
}

// The four texts of an automaton over `p`.
fn four_texts(alloc: Global, auto: &Auto) -> Result<Vec<u8>, Fail> {
    if auto.slots() != 1 || auto.states() > 32_000 || auto.nodes() > 1_000_000 {
        return Err(Fail::new("another automaton"));
    }
    let names = one_name(alloc, b'p')?;
    let proof = separate(alloc, auto)?;
    let counts = two_counts(alloc)?;
    Ok(all_text(alloc, auto, &names, &proof, &counts)?)
}

// Verdict, automaton and both observers.
#[test]
fn four_texts_in_one(rt: HostRuntime) -> Result<(), Fail> {
    let auto = auto_of(rt.alloc(), "var p; infer [[p]];")?;
    let text = four_texts(rt.alloc(), &auto);
    drop(auto);
    let expected = b"--- verdict\nnot valid\nsatisfiable\ncounterexample 1\n0\nexample 1\n1\n\
        --- automaton\nautomaton 2\nvariables p\nstates 2\nnode n0 p ? t0 : t1\nstate 0 accept n0\nstate 1 reject t1\n\
        access 0 start 1\naccess 1 start 0\nsuffix 0 empty\n\
        steps 2\nstep 0 at 13 states 2 nodes 1\nstep 1 at 262143 states 32000 nodes 1000000\nend\n\
        --- lustre\nnode observer(v_p: bool) returns (ok: bool);\nvar\n  st: int;\n  nx: int;\n  n0: int;\nlet\n\
        \x20 st = 0 -> pre nx;\n  n0 = if v_p then 0 else 1;\n  nx = if st = 0 then n0 else 1;\n  ok = (nx = 0);\ntel\n\
        --- c\nstatic int st;\n\nvoid observer_reset(void)\n{\n  st = 0;\n}\n\nint observer_step(int v_p)\n{\n\
        \x20 int nx;\n  int n0;\n\n  nx = 0;\n  n0 = v_p ? 0 : 1;\n  if (st == 0) nx = n0;\n  if (st == 1) nx = 1;\n\
        \x20 st = nx;\n  return nx == 0;\n}\n";
    assert_eq!(rt; text?.as_slice(), expected.as_slice());
    Ok(())
}
