// The commands that report on one formula file.
ghost use Rattle.std.specs.Prelude.{◌≡◌, ℕ, List, IfOk};
ghost use Rattle.dcv_language.specs.Language.{Language};
ghost use Rattle.dcv_build.specs.Budget.{IsAutomatonOf};
ghost use Rattle.dcv_print.specs.Printed.{texts_of};
ghost use Rattle.dcv_syntax.specs.Plain.{PlainFile};
ghost use Rattle.dcv_language.specs.declared.kind.Kind.TheVariants.{Check};
ghost use Rattle.dcv_build.specs.Given.{IsCore};
ghost use Rattle.dcv_command.specs.Request.{AreInRange};
ghost use Rattle.dcv_cli.specs.Budget.{IsBudgeted};
ghost use Rattle.dcv_cli.specs.Outside.{stream};
ghost use Rattle.dcv_cli.specs.Performed.{Answers, Replies};
ghost use Rattle.dcv_cli.specs.ReadFile.{IsRead, WasRead, CanBePrinted, Reports};
ghost use Rattle.dcv_cli.specs.Report.{IsReport};
ghost use Rattle.dcv_cli.specs.Status.{status_of_verdict};
ghost use Rattle.dcv_cli.specs.declared.refused.Which.TheVariants.{Only};

use crate::command::FormulaCommand;
use crate::formula_file::FormulaFile;
use crate::refusal::Refusal;
use crate::refused::{Ended, Which};
use crate::status::Status;
use dcv_build::Built;
use dcv_dfa::laws::tables_accept_the_same;
use dcv_explore::Limits;
use dcv_io::Sink;
use dcv_language::laws::verdict_of_same_behaviours;
use dcv_print::laws::{
    automaton_of_same_behaviours, one_observer, printed_is_automaton, printed_observers_observe,
};
use dcv_print::{Kind, Report};
use dcv_syntax::Name;
use std::alloc::{AllocError, Global};

// What is asked for of an automaton with these names of variables.
fn report_on<'a>(
    alloc: Global,
    kind: Kind,
    names: &'a [Name],
    built: &'a Built,
) -> Result<Report<'a>, AllocError>
    requires { CanBePrinted names.now built.now }
    ensures { (k : ℕ) (L : Language) → IsAutomatonOf k L built.now.auto
        → IfOk result (Reports kind k L (texts_of names.now) built.now.counts.items) }
{
    tables_accept_the_same();
    verdict_of_same_behaviours();
    printed_is_automaton();
    automaton_of_same_behaviours();
    one_observer();
    printed_observers_observe();
    // for the prover: what is true of every canonical automaton.
    let _ = built.auto.states();
    Report::make(alloc, &built.auto, names, kind, &built.counts)
}

/// Writes a report of this kind.
#[derive(Clone, Copy)]
pub(crate) struct Reporter {
    /// What is reported.
    pub kind: Kind,
    /// How large a step may be.
    pub limits: Limits,
}

impl FormulaCommand for Reporter {
    ghost fits = { λ reporter. AreInRange reporter.limits };

    ghost right = { λ reporter. IsBudgeted reporter.limits Only (IsReport reporter.kind reporter.limits) };

    fn answer<O: Sink>(&self, alloc: Global, formula: &FormulaFile, out: &mut O) -> Ended {
        match self.kind {
            Kind::Check => check(alloc, formula, self.limits, out),
            _ => print(alloc, self.kind, formula, self.limits, out),
        }
    }
}

// Writes the verdict. No step is minimised for it that is not an operand of another.
fn check<O: Sink>(alloc: Global, formula: &FormulaFile, limits: Limits, out: &mut O) -> Ended
    requires { IsCore formula.now.core }
    ensures { (text : List ℕ) (file : PlainFile) → IsRead text file formula.now
        → Answers (IsBudgeted limits Only (IsReport Check limits) file) result (stream O.Sink out.old) (stream O.Sink out.new) }
{
    let report = Report::of_verdict(formula.decide(alloc, limits)?);
    send_report(&report, out)
}

// Writes what is asked for of the canonical automaton.
fn print<O: Sink>(
    alloc: Global,
    kind: Kind,
    formula: &FormulaFile,
    limits: Limits,
    out: &mut O,
) -> Ended
    requires formula { WasRead formula.now }
    requires limits { AreInRange limits }
    ensures { (text : List ℕ) (file : PlainFile) → IsRead text file formula.now
        → Answers (IsBudgeted limits Only (IsReport kind limits) file) result (stream O.Sink out.old) (stream O.Sink out.new) }
{
    let built = formula.build(alloc, limits)?;
    let report = report_on(alloc, kind, formula.names(), &built)?;
    send_report(&report, out)
}

// Writes the report, and returns the status of its verdict.
fn send_report<O: Sink>(report: &Report<'_>, out: &mut O) -> Ended
    ensures { Replies (status_of_verdict report.now.verdict) report.now.text result (stream O.Sink out.old) (stream O.Sink out.new) }
{
    match report.send(out) {
        Ok(()) => Ok(Status::of(report.verdict())),
        Err(_) => Err(Refusal::Write.of(Which::Only)),
    }
}
