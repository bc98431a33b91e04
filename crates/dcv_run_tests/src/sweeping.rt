// Drawn formulas of which some step is over the limits: fewer states than the command line takes for any formula.
use dcv_explore::Limits;
use dcv_io::Text;
use dcv_sweep::sweep;
use std::alloc::Global;
use std::test::Fail;

// The table of `<!y>`, the first formula, has three states, and each machine has its start.
const SMALL: [(u32, u32, &str); 2] = [
    (
        1,
        2,
        "formulas 1\nvalid 0\nsatisfiable 0\nover 1\nstates 0\n",
    ),
    (
        10,
        0,
        "formulas 10\nvalid 0\nsatisfiable 0\nover 10\nstates 0\n",
    ),
];

// The lines of the summary of so many formulas of seed 0.
fn lines(alloc: Global, count: u32, states: u32) -> Result<Vec<u8>, Fail> {
    let limits = Limits {
        states,
        nodes: 1_000_000,
    };
    let summary = sweep(alloc, 0, count, limits)?;
    let mut text = Text::new(alloc);
    summary.put(&mut text);
    Ok(text.finish()?)
}

#[test]
fn formulas_over_the_limits(rt: HostRuntime) -> Result<(), Fail> {
    for (count, states, expected) in SMALL {
        let lines = lines(rt.alloc(), count, states)?;
        assert_eq!(rt; lines.as_slice(), expected.as_bytes(), "{states}");
    }
    Ok(())
}
