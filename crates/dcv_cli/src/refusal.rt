// Why a run gives no report.
ghost use Rattle.std.specs.Prelude.{◌≡◌};
ghost use Rattle.dcv_io.specs.Putting.{Puts};
ghost use Rattle.dcv_cli.specs.declared.refusal.Refusal.TheVariants.{Memory, Product};
ghost use Rattle.dcv_cli.specs.Refusal.{marked, status_of, words_of};
ghost use Rattle.dcv_cli.specs.Refusal.{refusal_of_automaton, refusal_of_observer, refusal_of_outside, refusal_of_reading, refusal_of_scope};

use crate::budget_line::{Excess, Over, put_product, put_tuples};
use crate::faults::{AutomatonFault, FormulaFault, ObserverFault, TraceFault, put_fault};
use crate::refused::{Refused, Which};
use crate::status::Status;
use dcv_automaton_read::AutoFault;
use dcv_implies::OutsideFault;
use dcv_io::Target;
use dcv_observer::ObsFault;
use dcv_reader::ReadFault;
use dcv_scope::ScopeFault;
use std::alloc::AllocError;

/// Why a run gives no report.
#[derive(Clone, Copy)]
pub enum Refusal {
    /// The file could not be opened.
    Open,
    /// The file could not be read to its end.
    Read,
    /// The file's text is no formula file.
    Formula(FormulaFault),
    /// The file's text is no automaton's.
    Automaton(AutomatonFault),
    /// The file's text is no observer's.
    Observer(ObserverFault),
    /// The trace is not good. The answers to the lines before the fault are written.
    Trace(TraceFault),
    /// A step of the file's formula is over the limits.
    Budget(Over),
    /// The product of two automata has more of this than the limit.
    Product { excess: Excess, limit: u32 },
    /// More tuples of states of the automata of a set come before an answer than the limit.
    Tuples { limit: u32 },
    /// The report could not be written.
    Write,
    /// Memory ran out.
    Memory,
}

impl Refusal {
    /// As it is said of this file of a request.
    pub fn of(self, which: Which) -> Refused
        ensures { result ≡ record { refusal = self; which = which } }
    {
        Refused {
            refusal: self,
            which,
        }
    }

    /// As it is said of this file of a request, where it is a fault of the file's.
    pub fn in_file(self, which: Which) -> Refused
        ensures { result ≡ marked which self }
    {
        match self {
            Refusal::Open | Refusal::Read | Refusal::Write | Refusal::Memory => {
                self.of(Which::Only)
            }
            _ => self.of(which),
        }
    }

    /// The status of a run that is refused so.
    pub fn status(self) -> Status
        ensures { result ≡ status_of self }
    {
        match self {
            Refusal::Open | Refusal::Read => Status::Input,
            Refusal::Formula(_) => Status::Formula,
            Refusal::Automaton(_) => Status::Automaton,
            Refusal::Observer(_) => Status::Observer,
            Refusal::Trace(_) => Status::Trace,
            Refusal::Budget(_) | Refusal::Product { .. } | Refusal::Tuples { .. } => {
                Status::Budget
            },
            Refusal::Write => Status::Output,
            Refusal::Memory => Status::Memory,
        }
    }

    /// Puts the words that say so.
    pub fn put<T: Target>(self, target: &mut T)
        ensures { Puts (T.standing target.old) (T.standing target.new) (words_of self) }
    {
        match self {
            Refusal::Open => put_fault(target, b"open"),
            Refusal::Read => put_fault(target, b"read"),
            Refusal::Formula(fault) => fault.words().put(target),
            Refusal::Automaton(fault) => fault.words().put(target),
            Refusal::Observer(fault) => fault.words().put(target),
            Refusal::Trace(fault) => fault.words().put(target),
            Refusal::Budget(over) => over.put(target),
            Refusal::Product { excess, limit } => put_product(target, excess, limit),
            Refusal::Tuples { limit } => put_tuples(target, limit),
            Refusal::Write => put_fault(target, b"write"),
            Refusal::Memory => put_fault(target, b"memory"),
        }
    }
}

// The product of two automata has more of this than the limit.
fn product(excess: Excess, limit: u32) -> Refusal
    ensures { result ≡ Product excess limit }
{
    Refusal::Product { excess, limit }
}

impl From<ReadFault> for Refusal {
    ghost from_gives = { λ fault refusal. refusal ≡ refusal_of_reading fault };

    fn from(fault: ReadFault) -> Self {
        match fault {
            ReadFault::Memory => Refusal::Memory,
            _ => Refusal::Formula(FormulaFault::Reading(fault)),
        }
    }
}

impl From<ScopeFault> for Refusal {
    ghost from_gives = { λ fault refusal. refusal ≡ refusal_of_scope fault };

    fn from(fault: ScopeFault) -> Self {
        match fault {
            ScopeFault::Memory => Refusal::Memory,
            _ => Refusal::Formula(FormulaFault::Scope(fault)),
        }
    }
}

impl From<AutoFault> for Refusal {
    ghost from_gives = { λ fault refusal. refusal ≡ refusal_of_automaton fault };

    fn from(fault: AutoFault) -> Self {
        match fault {
            AutoFault::Syntax { at } => Refusal::Automaton(AutomatonFault::Syntax { at }),
            AutoFault::Table { at } => Refusal::Automaton(AutomatonFault::Table { at }),
            AutoFault::Memory => Refusal::Memory,
        }
    }
}

impl From<ObsFault> for Refusal {
    ghost from_gives = { λ fault refusal. refusal ≡ refusal_of_observer fault };

    fn from(fault: ObsFault) -> Self {
        match fault {
            ObsFault::Syntax { at } => Refusal::Observer(ObserverFault::Syntax { at }),
            ObsFault::Names { at } => Refusal::Observer(ObserverFault::Names { at }),
            ObsFault::Memory => Refusal::Memory,
        }
    }
}

impl From<OutsideFault> for Refusal {
    ghost from_gives = { λ fault refusal. refusal ≡ refusal_of_outside fault };

    fn from(fault: OutsideFault) -> Self {
        match fault {
            OutsideFault::States { limit } => product(Excess::States, limit),
            OutsideFault::Nodes { limit } => product(Excess::Nodes, limit),
            OutsideFault::Memory => Refusal::Memory,
        }
    }
}

impl From<AllocError> for Refusal {
    ghost from_gives = { λ _ refusal. refusal ≡ Memory };

    fn from(_: AllocError) -> Self {
        Refusal::Memory
    }
}
