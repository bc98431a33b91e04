// The command that asks whether what has kept to the requirement of a formula file so far can always go on.
ghost use Rattle.std.specs.Prelude.{ℕ, List, IfOk, IfErr};
ghost use Rattle.dcv_syntax.specs.Plain.{PlainFile};
ghost use Rattle.dcv_build.specs.Given.{IsCore};
ghost use Rattle.dcv_print.specs.Verdict.{letters_of};
ghost use Rattle.dcv_cli.specs.Budget.{steps_of_file, IsBudgeted, NamesFirstOver};
ghost use Rattle.dcv_cli.specs.ReadFile.{IsRead};
ghost use Rattle.dcv_cli.specs.Stuck.{stuck_outcome, IsStuckReport};
ghost use Rattle.dcv_cli.specs.declared.refused.Which.TheVariants.{Only};

use crate::command::FormulaCommand;
use crate::formula_file::FormulaFile;
use crate::refusal::Refusal;
use crate::refused::Ended;
use crate::reply::{Reply, reply_with};
use crate::status::Status;
use dcv_explore::Limits;
use dcv_io::{Sink, Target};
use dcv_print::put_stuck;
use dcv_stuck::laws::{least_stuck_is_of_sets, never_stuck_goes_on};
use dcv_stuck::least_stuck;
use dcv_word::Word;
use std::alloc::Global;

/// The least word that keeps to a requirement and cannot go on, if there is one.
#[derive(Drop)]
pub(crate) struct LeastStuck {
    // the least stuck word, if there is one
    least: Option<Word>,
}

/// Says whether what has kept to the requirement so far can always go on.
#[derive(Clone, Copy)]
pub(crate) struct StuckFinder {
    /// How large a step may be.
    pub limits: Limits,
}

impl FormulaCommand for StuckFinder {
    ghost fits = { λ _. Unit {0} };

    ghost right = { λ finder. IsBudgeted finder.limits Only IsStuckReport };

    fn answer<O: Sink>(&self, alloc: Global, formula: &FormulaFile, out: &mut O) -> Ended {
        let found = stuck_in(alloc, formula, self.limits)?;
        reply_with(&found, Status::of_least(&found.least), out)
    }
}

// The least stuck word of the behaviours that model the file.
fn stuck_in(alloc: Global, formula: &FormulaFile, limits: Limits) -> Result<LeastStuck, Refusal>
    requires { IsCore formula.now.core }
    ensures found { (text : List ℕ) (file : PlainFile) → IsRead text file formula.now
        → IfOk result (λ found. IsBudgeted limits Only IsStuckReport file (stuck_outcome (letters_of found.least))) }
    ensures over { (text : List ℕ) (file : PlainFile) → IsRead text file formula.now → IfErr result (NamesFirstOver (steps_of_file file) limits) }
{
    least_stuck_is_of_sets();
    never_stuck_goes_on();
    let built = formula.build(alloc, limits)?;
    let least = least_stuck(alloc, built.auto.raw());
    drop(built);
    let least = least?;
    Ok(LeastStuck { least })
}

impl Reply for LeastStuck {
    ghost use Rattle.dcv_print.specs.Stuck.{stuck_text};
    ghost use Rattle.dcv_print.specs.Verdict.{letters_of};

    ghost text = { λ found. stuck_text (letters_of found.least) };

    fn put<T: Target>(&self, target: &mut T) {
        put_stuck(target, &self.least);
    }
}
