// The command that counts what holds of formulas that are drawn.
ghost use Rattle.std.specs.Prelude.{◌≡◌};
ghost use Rattle.dcv_command.specs.Request.{Sweep, CanBeDrawn};
ghost use Rattle.dcv_cli.specs.Outside.{Outside, stream, with_output};
ghost use Rattle.dcv_cli.specs.Performed.{PerformsRequest};

use crate::refused::Ended;
use crate::reply::{Reply, reply_with};
use crate::status::Status;
use dcv_explore::Limits;
use dcv_io::{Sink, Target};
use dcv_language::MOST_NODES;
use dcv_sweep::{Summary, sweep};
use std::alloc::Global;

// Each formula is built within these.
const LIMITS: Limits = Limits {
    states: 30_000,
    nodes: MOST_NODES,
};

/// Writes the counts over so many formulas that are drawn from the seed. The files stay as they are.
pub(crate) fn sweep_formulas<O: Sink>(alloc: Global, seed: u32, count: u32, out: &mut O) -> Ended
    requires { CanBeDrawn seed count }
    ensures { (files : Outside) → PerformsRequest (Sweep seed count) result
        (with_output files (stream O.Sink out.old)) (with_output files (stream O.Sink out.new)) }
{
    let summary = sweep(alloc, seed, count, LIMITS)?;
    reply_with(&summary, Status::Done, out)
}

impl Reply for Summary {
    ghost use Rattle.dcv_sweep.specs.SummaryText.{summary_text};

    ghost text = { summary_text };

    fn put<T: Target>(&self, target: &mut T) {
        Summary::put(self, target);
    }
}
