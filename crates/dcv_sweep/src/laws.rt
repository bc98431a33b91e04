//! Laws of summaries, and worked rows of the drawing. Each function here does nothing: its contract is the law.
ghost use Rattle.dcv_sweep.specs.Laws.{NumbersOfSeed0, FormulaOfSeed0, OneSummary};

use dcv_build::laws::one_step_is_over;
use dcv_language::laws::{one_canonical_table, one_verdict};

/// The high bits of the first four states of seed 0 are 0, 21468, 9988 and 22117.
pub fn numbers_of_seed_0()
    ensures { NumbersOfSeed0 }
{}

/// The first formula of seed 0 is `<!y>`: an atom, a point, slot 1, negated.
pub fn formula_of_seed_0()
    ensures { FormulaOfSeed0 }
{}

/// There is one summary for a seed, a count and limits.
pub fn one_summary()
    ensures { OneSummary }
{
    one_step_is_over();
    one_verdict();
    one_canonical_table();
}
