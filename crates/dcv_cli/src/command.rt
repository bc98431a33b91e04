// The roads of commands over one file: a formula file, or the text of an automaton.
ghost use Rattle.std.specs.Prelude.{ℕ, ◌+◌, List, [], ◌∷◌, ◌≤◌, length, IfOk, IfErr, IsTrue};
ghost use Rattle.dcv_syntax.specs.Plain.{PlainFile};
ghost use Rattle.dcv_cli.specs.FormulaFile.{OnText};
ghost use Rattle.dcv_cli.specs.Outcome.{Outcome};
ghost use Rattle.dcv_cli.specs.Performed.{Answers, LeavesOne, Performs};
ghost use Rattle.dcv_cli.specs.Held.{ForHeld, OnHeld};
ghost use Rattle.dcv_cli.specs.Outside.{outside, stream};
ghost use Rattle.dcv_cli.specs.ReadFile.{IsRead, WasRead};
ghost use Rattle.dcv_automaton_text.specs.File.{AutomatonFile};
ghost use Rattle.dcv_cli.specs.AutomatonFile.{IsAutomatonText, IsRefusedAutomaton, OnAutomaton};
ghost use Rattle.std.specs.Bool.{OnTrue};
ghost use Rattle.dcv_cli.specs.Refusal.{most_bytes, most_automaton_bytes, is_of_text, status_of};
ghost use Rattle.dcv_cli.specs.Status.{is_determined};

use crate::faults::{AutomatonFault, MOST_AUTOMATON_BYTES};
use crate::formula_file::FormulaFile;
use crate::refusal::Refusal;
use crate::refused::{Ended, Which};
use crate::text::take;
use dcv_automaton_read::{AutoFile, automaton_read};
use dcv_io::{Files, Sink};
use std::alloc::Global;

/// A command over one formula file.
pub(crate) trait FormulaCommand {
    /// What it needs of its arguments.
    ghost fits: { Self → Type 0 };

    /// Which outcomes are right for a file.
    ghost right: { Self → PlainFile → Outcome → Type 0 };

    /// Answers for the file.
    fn answer<O: Sink>(&self, alloc: Global, formula: &FormulaFile, out: &mut O) -> Ended
        requires fits { fits self.now }
        requires formula { WasRead formula.now }
        ensures { (text : List ℕ) (file : PlainFile) → IsRead text file formula.now
            → Answers (right self.now file) result (stream O.Sink out.old) (stream O.Sink out.new) };
}

/// Answers for the file of this name, which is the one, or this of two, that the request reads.
pub(crate) fn over_formula<C: FormulaCommand, F: Files, O: Sink>(
    alloc: Global,
    command: &C,
    name: &str,
    which: Which,
    files: &mut F,
    out: &mut O,
) -> Ended
    requires { C.fits command.now }
    ensures { Performs (λ outcome. ForHeld (F.told files.old) (λ held. OnHeld (held 0) name.entry.now (λ text. OnText text which (C.right command.entry.now)) outcome))
        (LeavesOne most_bytes name.entry.now) (name.entry.now ∷ []) (most_bytes + 2) result
        (outside F.Files O.Sink files.old out.old) (outside F.Files O.Sink files.new out.new) }
{
    match FormulaFile::take(alloc, files, name) {
        Ok(formula) => command.answer(alloc, &formula, out),
        Err(refusal) => Err(refusal.in_file(which)),
    }
}

/// A command over the text of one automaton.
pub(crate) trait AutomatonCommand {
    /// Which outcomes are right for what the text stands for.
    ghost right: { Self → AutomatonFile → Outcome → Type 0 };

    /// Answers for the text.
    fn answer<O: Sink>(&self, alloc: Global, text: &[u8], file: &AutoFile, out: &mut O) -> Ended
        requires { IsAutomatonText text.now file.now }
        ensures { Answers (right self.now file.now) result (stream O.Sink out.old) (stream O.Sink out.new) };
}

/// Answers for the text in the file of this name.
pub(crate) fn over_automaton<C: AutomatonCommand, F: Files, O: Sink>(
    alloc: Global,
    command: &C,
    name: &str,
    files: &mut F,
    out: &mut O,
) -> Ended
    ensures { Performs (λ outcome. ForHeld (F.told files.old) (λ held. OnHeld (held 0) name.entry.now (λ text. OnAutomaton text (C.right command.entry.now)) outcome))
        (LeavesOne most_automaton_bytes name.entry.now) (name.entry.now ∷ []) (most_automaton_bytes + 2) result
        (outside F.Files O.Sink files.old out.old) (outside F.Files O.Sink files.new out.new) }
{
    let too_long = Refusal::Automaton(AutomatonFault::Length);
    let text = take(alloc, files, name, MOST_AUTOMATON_BYTES, too_long)?;
    let bytes: &[u8] = &text;
    let file = automaton_in(alloc, bytes)?;
    command.answer(alloc, bytes, &file, out)
}

// The automaton that the text spells.
fn automaton_in(alloc: Global, text: &[u8]) -> Result<AutoFile, Refusal>
    requires { length text.now ≤ most_automaton_bytes }
    ensures spelled { IfOk result (IsAutomatonText text.now) }
    ensures refused { IfErr result (λ refusal. OnTrue (is_determined (status_of refusal)) (IsRefusedAutomaton text.now refusal)) }
    ensures own { IfErr result (λ refusal. IsTrue (is_of_text refusal)) }
{
    Ok(automaton_read(alloc, text)?)
}
