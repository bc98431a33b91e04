// Observers and a controller by their texts, read and written again.
use std::alloc::Global;
use std::test::Fail;

// The node of behaviours over `p` that is true throughout.
pub(crate) const NODE: &[u8] =
    b"node observer(v_p: bool) returns (ok: bool);\nvar\n  st: int;\n  nx: int;\n  n0: int;\nlet\n  \
    st = 0 -> pre nx;\n  n0 = if v_p then 0 else 1;\n  nx = if st = 0 then n0 else 1;\n  ok = (nx = 0);\ntel\n";

// That of all behaviours over no variables.
const TICKS: &[u8] =
    b"node observer(tick: bool) returns (ok: bool);\nvar\n  st: int;\n  nx: int;\nlet\n  \
    st = 0 -> pre nx;\n  nx = 0;\n  ok = (nx = 0);\ntel\n";

// The unit of behaviours over `p` that is true throughout.
pub(crate) const UNIT: &[u8] =
    b"static int st;\n\nvoid observer_reset(void)\n{\n  st = 0;\n}\n\nint observer_step(int v_p)\n{\n  \
    int nx;\n  int n0;\n\n  nx = 0;\n  n0 = v_p ? 0 : 1;\n  if (st == 0) nx = n0;\n  if (st == 1) nx = 1;\n  st = nx;\n  \
    return nx == 0;\n}\n";

// That of no behaviours over no variables.
const NEVER: &[u8] =
    b"static int st;\n\nvoid observer_reset(void)\n{\n  st = 0;\n}\n\nint observer_step(void)\n{\n  \
    int nx;\n\n  nx = 0;\n  if (st == 0) nx = 0;\n  st = nx;\n  return 0;\n}\n";

// A controller whose output is its input: it returns a number by its name alone.
const CONTROLLER: &[u8] =
    b"static int st;\n\nvoid controller_reset(void)\n{\n  st = 0;\n}\n\nint controller_step(int v_a)\n{\n  \
    int nx;\n  int y;\n  int o0;\n\n  nx = 0;\n  y = 0;\n  o0 = v_a ? 1 : 0;\n  if (st == 0) nx = 0;\n  \
    if (st == 0) y = o0;\n  st = nx;\n  return y;\n}\n";

// The text of the node that is read from this text. For the prover: the bound is what a text of `read` has to meet.
fn node_again(alloc: Global, text: &[u8]) -> Result<Vec<u8>, Fail> {
    if text.len() >= 1_000_000 {
        return Err(Fail::new("a long text"));
    }
    match dcv_lustre_read::read(alloc, text) {
        Ok(node) => Ok(dcv_lustre::text(alloc, &node)?),
        Err(_) => Err(Fail::new("the text is no node")),
    }
}

// The text of the unit that is read from this text.
fn unit_again(alloc: Global, text: &[u8]) -> Result<Vec<u8>, Fail> {
    if text.len() >= 1_000_000 {
        return Err(Fail::new("a long text"));
    }
    match dcv_c_read::read(alloc, text) {
        Ok(unit) => Ok(dcv_c::text(alloc, &unit)?),
        Err(_) => Err(Fail::new("the text is no unit")),
    }
}

#[test]
fn nodes_read_back(rt: HostRuntime) -> Result<(), Fail> {
    for text in [NODE, TICKS] {
        assert_eq!(rt; node_again(rt.alloc(), text)?.as_slice(), text);
    }
    Ok(())
}

#[test]
fn units_read_back(rt: HostRuntime) -> Result<(), Fail> {
    for text in [UNIT, NEVER, CONTROLLER] {
        assert_eq!(rt; unit_again(rt.alloc(), text)?.as_slice(), text);
    }
    Ok(())
}
