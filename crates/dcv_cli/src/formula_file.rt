// A formula file that was read: its core and the names of its variables, and what is built of these.
ghost use Rattle.std.specs.Prelude.{◌≡◌, ◌<◌, ◌≤◌, ℕ, List, None, Some, length, slice_get, IfOk, IfErr, OnOk, IsTrue};
ghost use Rattle.std.specs.Bool.{OnTrue};
ghost use Rattle.std.specs.Option.{option_map};
ghost use Rattle.dcv_syntax.specs.Plain.{PlainFile};
ghost use Rattle.dcv_core.specs.Core.{CoreTree};
ghost use Rattle.dcv_core.specs.Steps.{steps_of};
ghost use Rattle.dcv_language.specs.Language.{Language};
ghost use Rattle.dcv_language.specs.Verdict.{IsVerdict};
ghost use Rattle.dcv_build.specs.Given.{IsCore, IsCoreOf};
ghost use Rattle.dcv_dfa.specs.Auto.{IsAuto};
ghost use Rattle.dcv_dfa.specs.Raw.{IsRaw};
ghost use Rattle.dcv_command.specs.Request.{AreInRange};
ghost use Rattle.dcv_explore.specs.declared.explorer.Limits.{Limits as AnyLimits};
ghost use Rattle.dcv_print.specs.Printed.{texts_of};
ghost use Rattle.dcv_print.specs.Verdict.{seen_verdict};
ghost use Rattle.dcv_build.specs.Budget.{IsFaultOver, HasVerdictOfSet};
ghost use Rattle.dcv_cli.specs.Budget.{steps_of_file, NamesFirstOver, IsAtSomeStep};
ghost use Rattle.dcv_cli.specs.Comparison.{have_same_texts};
ghost use Rattle.dcv_cli.specs.FormulaFile.{IsRefused};
ghost use Rattle.dcv_cli.specs.FileSet.{own_names};
ghost use Rattle.dcv_cli.specs.Held.{OfHeldText};
ghost use Rattle.dcv_cli.specs.Joined.{IsAutoOver, IsCoreOver, IsRefusedName, IsRefusedOver, IsSlotsRefusal, refusal_of_joint};
ghost use Rattle.dcv_cli.specs.Outside.{of_files};
ghost use Rattle.dcv_cli.specs.Performed.{Takes};
ghost use Rattle.dcv_joint.specs.Faults.{most_names, too_many_at};
ghost use Rattle.dcv_joint.specs.Names.{HasAll, with_new};
ghost use Rattle.dcv_cli.specs.ReadFile.{IsRead, IsBuilt, IsDecided, CanBePrinted, WasRead};
ghost use Rattle.dcv_cli.specs.Refusal.{most_bytes, is_of_text, status_of};
ghost use Rattle.dcv_cli.specs.Status.{is_determined};

use crate::budget_line::{Excess, Over};
use crate::faults::{FormulaFault, MOST_BYTES};
use crate::refusal::Refusal;
use crate::text::take;
use dcv_build::laws::verdict_of_same_verdict;
use dcv_build::{BuildFault, Built, BuiltForVerdict, build, build_counted, build_for_verdict};
use dcv_core::Core;
use dcv_dfa::Auto;
use dcv_explore::Limits;
use dcv_io::Files;
use dcv_joint::laws::moved_means_restricted;
use dcv_joint::{Joint, JointFault};
use dcv_language::laws::canonical_for_same_behaviours;
use dcv_print::{Verdict, verdict_in};
use dcv_reader::laws::names_are_short;
use dcv_reader::read_file;
use dcv_scope::laws::{core_means_text, measures_bound_core};
use dcv_scope::{ScopeFault, expand};
use dcv_syntax::{File, Name};
use std::alloc::{AllocError, Global};

/// What is kept of a formula file.
#[derive(Drop)]
pub struct FormulaFile {
    // the goal without macros and names
    core: Core,
    // the declared variables, in order
    names: Vec<Name>,
    // where the goal begins
    goal: u32,
}

impl FormulaFile {
    /// What is kept of the file of this name.
    pub(crate) fn take<F: Files>(
        alloc: Global,
        files: &mut F,
        name: &str,
    ) -> Result<FormulaFile, Refusal>
        ensures read { IfOk result (λ formula. OfHeldText (F.told files.old) name.now (λ text. (file : PlainFile) × IsRead text file formula)) }
        ensures refused { IfErr result (λ refusal. OnTrue (is_determined (status_of refusal))
            (OfHeldText (F.told files.old) name.now (λ text. IsRefused text refusal))) }
        ensures taken { Takes most_bytes name.now result (of_files F.Files files.old) (of_files F.Files files.new) }
    {
        let too_long = Refusal::Formula(FormulaFault::Length);
        let text = take(alloc, files, name, MOST_BYTES, too_long)?;
        FormulaFile::of_text(alloc, &text)
    }

    // What is kept of the file that the text spells.
    fn of_text(alloc: Global, text: &[u8]) -> Result<FormulaFile, Refusal>
        requires { length text.now ≤ most_bytes }
        ensures read { IfOk result (λ formula. (file : PlainFile) × IsRead text.now file formula) }
        ensures refused { IfErr result (λ refusal. OnTrue (is_determined (status_of refusal)) (IsRefused text.now refusal)) }
        ensures own { IfErr result (λ refusal. IsTrue (is_of_text refusal)) }
    {
        let file = read_file(alloc, text)?;
        let core = expand(alloc, &file);
        let goal = file.goal.span.start;
        let names = names_of(file);
        let core = core?;
        Ok(FormulaFile { core, names, goal })
    }

    /// The declared variables, in order.
    pub(crate) fn names(&self) -> &[Name]
        ensures { result.now ≡ self.now.names.items }
    {
        &self.names
    }

    /// Whether the other file declares the same names in the same order.
    pub(crate) fn has_names_of(&self, other: &FormulaFile) -> bool
        ensures { result ≡ have_same_texts (texts_of self.now.names.items) (texts_of other.now.names.items) }
    {
        have_same_names(&self.names, &other.names)
    }

    /// The canonical automaton of the behaviours that model the file, and what each step of its goal took.
    pub(crate) fn build(&self, alloc: Global, limits: Limits) -> Result<Built, Refusal>
        requires { IsCore self.now.core }
        ensures built { (text : List ℕ) (file : PlainFile) → IsRead text file self.now → IfOk result (IsBuilt file limits) }
        ensures printable { (text : List ℕ) (file : PlainFile) → IsRead text file self.now → AreInRange limits
            → IfOk result (CanBePrinted self.now.names.items) }
        ensures over { (text : List ℕ) (file : PlainFile) → IsRead text file self.now → IfErr result (NamesFirstOver (steps_of_file file) limits) }
    {
        core_means_text();
        canonical_for_same_behaviours();
        names_are_short();
        measures_bound_core();
        match build_counted(alloc, &self.core, limits) {
            Ok(built) => Ok(built),
            Err(fault) => Err(refusal_of(&self.core, fault)),
        }
    }

    /// Adds those of its names that are new to the joint names of a set.
    pub(crate) fn join(&self, alloc: Global, joint: &mut Joint) -> Result<(), Refusal>
        ensures joined { OnOk result (joint.new ≡ with_new joint.old (texts_of self.now.names.items)) }
        ensures fit { OnOk result (too_many_at most_names joint.old self.now.names.items ≡ None) }
        ensures extra { IfErr result (IsRefusedName joint.old self.now.names.items) }
    {
        match joint.add(alloc, &self.names) {
            Ok(()) => Ok(()),
            Err(fault) => Err(self.refusal_of_joint(fault)),
        }
    }

    /// The automaton, over the joint names of a set, of the behaviours that model the file by what they are on its own names.
    pub(crate) fn build_over(
        &self,
        alloc: Global,
        joint: &Joint,
        limits: Limits,
    ) -> Result<Auto, Refusal>
        requires { WasRead self.now }
        ensures built { (text : List ℕ) (file : PlainFile) → IsRead text file self.now → HasAll joint.now (own_names file)
            → IfOk result (IsAutoOver limits joint.now file) }
        ensures over { (text : List ℕ) (file : PlainFile) → IsRead text file self.now → IfErr result (IsRefusedOver limits joint.now file) }
    {
        moved_means_restricted();
        canonical_for_same_behaviours();
        let core = self.core_over(alloc, joint)?;
        match build(alloc, &core, limits) {
            Ok(auto) => Ok(looked_at(auto)),
            Err(fault) => Err(refusal_of(&core, fault)),
        }
    }

    // The core over the joint names.
    fn core_over(&self, alloc: Global, joint: &Joint) -> Result<Core, Refusal>
        requires { WasRead self.now }
        ensures core { (text : List ℕ) (file : PlainFile) → IsRead text file self.now → IfOk result (IsCoreOver joint.now file) }
        ensures slots { (text : List ℕ) (file : PlainFile) → IsRead text file self.now → IfErr result (IsSlotsRefusal joint.now file) }
    {
        moved_means_restricted();
        match joint.core_of(alloc, &self.names, &self.core) {
            Ok(core) => Ok(core),
            Err(fault) => Err(self.refusal_of_joint(fault)),
        }
    }

    // The refusal that a fault of joint names leads to.
    fn refusal_of_joint(&self, fault: JointFault) -> Refusal
        ensures { result ≡ refusal_of_joint fault self.now.goal }
    {
        match fault {
            JointFault::TooMany { at } => Refusal::Formula(FormulaFault::Names { at }),
            JointFault::Slots => {
                Refusal::Formula(FormulaFault::Scope(ScopeFault::Slots { at: self.goal }))
            }
            JointFault::Memory => Refusal::Memory,
        }
    }

    /// The verdict of the behaviours that model the file, of an automaton that has it: no more is explored for the last operator, and nothing minimised.
    pub(crate) fn decide(&self, alloc: Global, limits: Limits) -> Result<Verdict, Refusal>
        requires { IsCore self.now.core }
        ensures decided { (text : List ℕ) (file : PlainFile) → IsRead text file self.now
            → IfOk result (λ verdict. IsDecided file limits (seen_verdict verdict)) }
        ensures over { (text : List ℕ) (file : PlainFile) → IsRead text file self.now → IfErr result (NamesFirstOver (steps_of_file file) limits) }
    {
        core_means_text();
        let built = match build_for_verdict(alloc, &self.core, limits) {
            Ok(built) => built,
            Err(fault) => return Err(refusal_of(&self.core, fault)),
        };
        Ok(verdict_of(alloc, &built)?)
    }
}

// The automaton, of which it is then known what is true of every one.
fn looked_at(auto: Auto) -> Auto
    ensures same { result ≡ auto }
    ensures auto { IsAuto result }
    ensures raw { IsRaw result }
{
    let _ = auto.states();
    auto
}

// The declared variables, which are all that is kept of the file: a tree that is dropped at the end of `of_text` would give each of its
// exits an arm for each form of a formula.
fn names_of(file: File) -> Vec<Name>
    ensures { result ≡ file.variables }
{
    let names = file.variables;
    names
}

// Whether both have the same names in the same order.
fn have_same_names(names: &[Name], others: &[Name]) -> bool
    ensures { result ≡ have_same_texts (texts_of names.now) (texts_of others.now) }
{
    let Some((name, names)) = names.split_first() else {
        return others.is_empty();
    };
    let Some((other, others)) = others.split_first() else {
        return false;
    };
    if name.text.as_bytes() != other.text.as_bytes() {
        return false;
    }
    have_same_names(names, others)
}

// The verdict of the words for which the automaton was built.
fn verdict_of(alloc: Global, built: &BuiltForVerdict) -> Result<Verdict, AllocError>
    ensures { (k : ℕ) (L : Language) → HasVerdictOfSet k L built.now.raw built.now.complemented → IfOk result (λ verdict. IsVerdict k L (seen_verdict verdict)) }
{
    verdict_of_same_verdict();
    let verdict = verdict_in(alloc, &built.raw)?;
    if built.complemented {
        return Ok(Verdict {
            counterexample: verdict.example,
            example: verdict.counterexample,
        });
    }
    Ok(verdict)
}

// The refusal that names the step of a fault.
fn refusal_of(core: &Core, fault: BuildFault) -> Refusal
    requires { IsAtSomeStep core.now fault }
    ensures { (tree : CoreTree) (limits : AnyLimits) → IsCoreOf tree core.now → IsFaultOver (steps_of core.now.declared tree) limits fault
        → NamesFirstOver (steps_of core.now.declared tree) limits result }
{
    match fault {
        BuildFault::States { step, limit } => {
            Refusal::Budget(over(core, Excess::States, limit, step))
        }
        BuildFault::Nodes { step, limit } => {
            Refusal::Budget(over(core, Excess::Nodes, limit, step))
        }
        BuildFault::Memory => Refusal::Memory,
    }
}

// A step of the core that has more than the limit, with the place where its part of the text begins.
fn over(core: &Core, excess: Excess, limit: u32, step: u32) -> Over
    requires { step < length core.now.steps }
    ensures excess { result.excess ≡ excess }
    ensures limit { result.limit ≡ limit }
    ensures step { result.step ≡ step }
    ensures place { option_map (λ s. s.span.start) (slice_get core.now.steps step) ≡ Some result.at }
{
    Over {
        excess,
        limit,
        at: core.span(step).start,
        step,
    }
}
