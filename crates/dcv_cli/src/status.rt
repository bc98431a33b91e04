// How a run ends.
ghost use Rattle.std.specs.Prelude.{◌≡◌};
ghost use Rattle.dcv_print.specs.Verdict.{letters_of, seen_verdict};
ghost use Rattle.dcv_cli.specs.Status.{code_of, status_of_least, status_of_verdict};

use dcv_print::Verdict;
use dcv_word::Word;

/// How a run ended.
#[derive(Clone, Copy, Debug, PartialEq, Eq)]
pub enum Status {
    /// Each behaviour satisfies the formula, the first of two requirements implies the second, or what has kept to one can always go on.
    Valid,
    /// What was asked for is done, and it says no verdict of a formula: an automaton's words show that it is minimal, or there is a controller,
    /// a trace was read to its end, the drawn formulas are counted, or a text is converted.
    Done,
    /// Some behaviour does not satisfy the formula, satisfies the first requirement and not the second, or has kept to one and cannot go
    /// on; the words of an automaton do not show that it is minimal; or there is no controller.
    NotValid,
    /// The words ask for nothing that the program does.
    Usage,
    /// A file holds no formula: its text has a fault. Or two files declare other variables, or the variables cannot be divided into the inputs
    /// that are asked for and outputs.
    Formula,
    /// A step of a formula, or the product of the automata of two, is over the limits.
    Budget,
    /// The file could not be opened or read.
    Input,
    /// The report could not be written.
    Output,
    /// Memory ran out.
    Memory,
    /// The trace is not good: there is a fault after the lines that were answered.
    Trace,
    /// The file holds no observer: its text has a fault.
    Observer,
    /// The file holds no automaton: its text has a fault.
    Automaton,
}

impl Status {
    // Of a run that answers with this verdict: valid where there is no counterexample.
    pub(crate) fn of(verdict: &Verdict) -> Status
        ensures { result ≡ status_of_verdict (seen_verdict verdict.now) }
    {
        if verdict.is_valid() {
            Status::Valid
        } else {
            Status::NotValid
        }
    }

    // Of a run that asks for a least word, which is not to be: valid where there is none.
    pub(crate) fn of_least(least: &Option<Word>) -> Status
        ensures { result ≡ status_of_least (letters_of least.now) }
    {
        if least.is_none() {
            Status::Valid
        } else {
            Status::NotValid
        }
    }

    /// The program's exit status.
    pub fn code(self) -> u8
        ensures { result ≡ code_of self }
    {
        match self {
            Status::Valid | Status::Done => 0,
            Status::NotValid => 1,
            Status::Usage => 2,
            Status::Formula => 3,
            Status::Budget => 4,
            Status::Input => 5,
            Status::Output => 6,
            Status::Memory => 7,
            Status::Trace => 8,
            Status::Observer => 9,
            Status::Automaton => 10,
        }
    }
}
