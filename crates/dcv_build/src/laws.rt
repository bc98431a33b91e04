//! Laws of the budget, of the machines that are explored, and of verdicts. Each function here does nothing: its contract is the law.
ghost use Rattle.dcv_build.specs.Laws.{MachineAcceptsStep, OneListOfCounts, OneStepIsOver, VerdictOfSameVerdict, WithinExcludesOver};

use dcv_atoms::laws::machines_accept_steps as atoms_accept_steps;
use dcv_core::laws::steps_are_operations;
use dcv_language::laws::one_canonical_table;

/// At most one step of a core is the first that is over the limits, and where all steps are within the limits none is.
pub fn one_step_is_over()
    ensures one { OneStepIsOver }
    ensures within { WithinExcludesOver }
{
    one_canonical_table();
    steps_are_operations();
}

/// A core has one list of counts: what its steps take is determined.
pub fn one_list_of_counts()
    ensures { OneListOfCounts }
{
    one_canonical_table();
    steps_are_operations();
}

/// The machine that is explored for a step accepts exactly the step's words: that of a form in the logic, and of `!`, `&&`, `||`,
/// `<=>`, `^`, `*` and `ex` over the canonical automata of the operands.
pub fn machines_accept_steps()
    ensures { MachineAcceptsStep }
{
    steps_are_operations();
    atoms_accept_steps();
}

/// The verdict of a set is that of each other set with the same verdict: its words have at most the length up to which the sets agree.
pub fn verdict_of_same_verdict()
    ensures { VerdictOfSameVerdict }
{}
