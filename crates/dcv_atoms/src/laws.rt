//! Laws of atoms. Each function here does nothing: its contract is the law.
ghost use Rattle.dcv_atoms.specs.AtomRows.{kept_constant, constant_found, kept_point, point_found, kept_run, run_found, kept_every, every_found};
ghost use Rattle.dcv_atoms.specs.AtomRows.{kept_unit, unit_found, kept_count, count_found, kept_duration, duration_found};
ghost use Rattle.dcv_atoms.specs.AtomRows.{kept_back, back_found, kept_fore, fore_found};
ghost use Rattle.dcv_atoms.specs.Laws.{MachineAcceptsForm, MachineAcceptsAtom, MachineAcceptsStep, StepIsAtom, FindsAgain};

use dcv_core::laws::{steps_are_operations, words_are_operations};
use dcv_language::machine_laws::{brackets_accept, comparisons_settle, measures_accept};
use dcv_shifts::laws::shifts_accept;

/// The machine of a form accepts the form's words.
pub fn machines_accept_forms()
    ensures { MachineAcceptsForm }
{
    brackets_accept();
    measures_accept();
    shifts_accept();
    comparisons_settle();
}

/// So it accepts the words of the atom in a core, and of a step that is an atom the behaviours over the step's slots.
pub fn machines_accept_steps()
    ensures atom { MachineAcceptsAtom }
    ensures step { MachineAcceptsStep }
{
    machines_accept_forms();
    words_are_operations();
    steps_are_operations();
}

/// A step of a core is an atom of what a caller sees of the core.
pub fn steps_are_atoms()
    ensures { StepIsAtom }
{}

/// The states of all forms are kept in one type, and none is lost by it: what a state is kept as finds it again.
pub fn states_are_found_again()
    ensures constant { FindsAgain kept_constant constant_found }
    ensures point { FindsAgain kept_point point_found }
    ensures run { FindsAgain kept_run run_found }
    ensures every { FindsAgain kept_every every_found }
    ensures unit { FindsAgain kept_unit unit_found }
    ensures count { FindsAgain kept_count count_found }
    ensures duration { FindsAgain kept_duration duration_found }
    ensures back { FindsAgain kept_back back_found }
    ensures fore { FindsAgain kept_fore fore_found }
{}
