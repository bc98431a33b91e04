// Formulas that are drawn, judged and counted, one after another.
ghost use Rattle.std.specs.Prelude.{◌<◌, ◌^◌, IfOk, OnOk};
ghost use Rattle.dcv_sweep.specs.Counting.{HasRoom, IsOneMore};
ghost use Rattle.dcv_sweep.specs.Findings.{IsSummary};

use crate::findings::find;
use crate::formulas::drawn_core;
use crate::generator::Draw;
use crate::summary::Summary;
use dcv_explore::Limits;
use std::alloc::{AllocError, Global};

/// The counts over so many formulas, drawn one after another from this seed, each of which is built within these limits.
pub fn sweep(alloc: Global, seed: u32, count: u32, limits: Limits) -> Result<Summary, AllocError>
    requires { seed < 2 ^ 31 }
    ensures { IfOk result (IsSummary limits seed count) }
{
    let mut draw = Draw::new(seed);
    let mut summary = Summary::default();
    for _ in 0..count {
        one_more(alloc, limits, &mut draw, &mut summary)?;
    }
    Ok(summary)
}

// Draws one formula more and counts it.
fn one_more(
    alloc: Global,
    limits: Limits,
    draw: &mut Draw,
    summary: &mut Summary,
) -> Result<(), AllocError>
    requires { HasRoom summary.old }
    ensures { OnOk result (IsOneMore limits draw.old summary.old draw.new summary.new) }
{
    let core = drawn_core(alloc, draw)?;
    let finding = find(alloc, &core, limits)?;
    summary.count(finding);
    Ok(())
}
