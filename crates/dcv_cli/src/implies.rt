// The command that compares the requirements of two formula files.
ghost use Rattle.std.specs.Prelude.{◌≡◌, ℕ, List, IfOk, IfErr, IsTrue};
ghost use Rattle.std.specs.Bool.{OnTrue};
ghost use Rattle.dcv_syntax.specs.Plain.{PlainFile};
ghost use Rattle.dcv_command.specs.Request.{Implies};
ghost use Rattle.dcv_implies.specs.Comparison.{letters_of};
ghost use Rattle.dcv_cli.specs.Comparison.{compared, IsCompared};
ghost use Rattle.dcv_cli.specs.Outcome.{IsExplained};
ghost use Rattle.dcv_cli.specs.Outside.{outside};
ghost use Rattle.dcv_cli.specs.Performed.{PerformsRequest};
ghost use Rattle.dcv_cli.specs.ReadFile.{IsRead, WasRead};
ghost use Rattle.dcv_cli.specs.Refusal.{status_of, is_of_text};
ghost use Rattle.dcv_cli.specs.Status.{has_cause};
ghost use Rattle.dcv_cli.specs.declared.refused.Which.TheVariants.{Only};

use crate::budget_line::Excess;
use crate::command::{FormulaCommand, over_formula};
use crate::faults::FormulaFault;
use crate::formula_file::FormulaFile;
use crate::refusal::Refusal;
use crate::refused::{Ended, Refused, Which};
use crate::reply::{Reply, reply_with};
use crate::status::Status;
use dcv_explore::Limits;
use dcv_implies::laws::{answers_are_of_sets, none_is_inclusion};
use dcv_implies::least_outside;
use dcv_io::{Files, Sink, Target};
use dcv_print::put_word;
use dcv_word::Word;
use std::alloc::Global;

/// The least behaviour that models the first of two files and not the second, if there is one.
#[derive(Drop)]
pub(crate) struct Compared {
    // the least behaviour outside, if there is one
    least: Option<Word>,
}

/// Says whether the requirement of a file implies that of another.
#[derive(Clone, Copy)]
pub(crate) struct Comparer<'a> {
    // the first of the two
    one: &'a FormulaFile,
    // how large a step may be
    limits: Limits,
}

/// Writes whether the requirement in the file of the first name implies that in the file of the second.
pub(crate) fn compare_files<F: Files, O: Sink>(
    alloc: Global,
    first: &str,
    second: &str,
    limits: Limits,
    files: &mut F,
    out: &mut O,
) -> Ended
    ensures { PerformsRequest (Implies first.entry.now second.entry.now limits) result
        (outside F.Files O.Sink files.old out.old) (outside F.Files O.Sink files.new out.new) }
{
    match FormulaFile::take(alloc, files, first) {
        Ok(one) => {
            let comparer = Comparer { one: &one, limits };
            over_formula(alloc, &comparer, second, Which::Second, files, out)
        }
        Err(refusal) => Err(refusal.in_file(Which::First)),
    }
}

impl FormulaCommand for Comparer<'_> {
    ghost fits = { λ comparer. WasRead comparer.one.now };

    ghost right = { λ comparer file outcome. (text : List ℕ) (first : PlainFile) → IsRead text first comparer.one.now
        → IsCompared comparer.limits first file outcome };

    fn answer<O: Sink>(&self, alloc: Global, formula: &FormulaFile, out: &mut O) -> Ended {
        let compared = compare(alloc, self.one, formula, self.limits)?;
        reply_with(&compared, Status::of_least(&compared.least), out)
    }
}

// Compares the requirements of two files.
fn compare(
    alloc: Global,
    one: &FormulaFile,
    other: &FormulaFile,
    limits: Limits,
) -> Result<Compared, Refused>
    requires one { WasRead one.now }
    requires other { WasRead other.now }
    ensures compared { (text other_text : List ℕ) (first second : PlainFile) → IsRead text first one.now → IsRead other_text second other.now
        → IfOk result (λ found. IsCompared limits first second (compared (letters_of found.least))) }
    ensures refused { (text other_text : List ℕ) (first second : PlainFile) → IsRead text first one.now → IsRead other_text second other.now
        → IfErr result (λ refused. IsExplained (IsCompared limits first second) refused.which refused.refusal) }
    ensures own { IfErr result (λ refused. IsTrue (is_of_text refused.refusal)) }
    ensures of_none { IfErr result (λ refused. OnTrue (has_cause (status_of refused.refusal)) (refused.which ≡ Only)) }
{
    answers_are_of_sets();
    none_is_inclusion();
    if !one.has_names_of(other) {
        return Err(Refusal::Formula(FormulaFault::Declarations).of(Which::Only));
    }
    let first = match one.build(alloc, limits) {
        Ok(built) => built.auto,
        Err(refusal) => return Err(refusal.in_file(Which::First)),
    };
    let second = match other.build(alloc, limits) {
        Ok(built) => built.auto,
        Err(refusal) => return Err(refusal.in_file(Which::Second)),
    };
    // for the prover: what is true of every canonical automaton.
    let _states = (first.states(), second.states());
    match least_outside(alloc, &first, second, limits) {
        Ok(least) => Ok(Compared { least }),
        Err(fault) => Err(Refusal::from(fault).of(Which::Only)),
    }
}

impl Reply for Compared {
    ghost use Rattle.dcv_implies.specs.Comparison.{letters_of};
    ghost use Rattle.dcv_cli.specs.Comparison.{comparison_text};

    ghost text = { λ compared. comparison_text (letters_of compared.least) };

    fn put<T: Target>(&self, target: &mut T) {
        if self.least.is_none() {
            target.put(b"implies\n");
            return;
        }
        target.put(b"does not imply\n");
        put_word(target, b"counterexample", &self.least);
    }
}
