// What is wrong with a text that a command reads, and what is said then.
ghost use Rattle.std.specs.Prelude.{◌≡◌, ◌++◌};
ghost use Rattle.std.specs.Fmt.{decimal};
ghost use Rattle.dcv_io.specs.Putting.{Puts};
ghost use Rattle.dcv_cli.specs.Refusal.{fault_words, formula_words, reading_words, scope_words, automaton_words, observer_words, trace_words};
ghost use Rattle.dcv_cli.specs.FaultWords.{words_in};

use dcv_io::{Target, put_pieces};
use dcv_reader::ReadFault;
use dcv_scope::ScopeFault;
use itoa::Buffer;

/// The most bytes that a formula file has.
pub const MOST_BYTES: u32 = 262_144;

/// The most bytes that the text of an automaton has.
pub const MOST_AUTOMATON_BYTES: u32 = 134_217_728;

/// The most bytes that the text of an observer has.
pub const MOST_OBSERVER_BYTES: u32 = 134_217_728;

/// What a line says of a fault.
#[derive(Clone, Copy)]
pub struct FaultWords {
    // what is wrong
    word: &'static [u8],
    // the offset or the line that shows it
    number: Option<u32>,
}

// The words of a fault that no place shows.
fn alone(word: &'static [u8]) -> FaultWords
    ensures { words_in result ≡ fault_words word.now }
{
    FaultWords { word, number: None }
}

// The words of a fault that this place shows.
fn placed(word: &'static [u8], at: u32) -> FaultWords
    ensures { words_in result ≡ fault_words word.now ++ decimal at }
{
    FaultWords {
        word,
        number: Some(at),
    }
}

impl FaultWords {
    /// Puts them.
    pub fn put<T: Target>(self, target: &mut T)
        ensures { Puts (T.standing target.old) (T.standing target.new) (words_in self) }
    {
        match self.number {
            None => put_fault(target, self.word),
            Some(number) => {
                let mut digits = Buffer::new();
                put_pieces(
                    target,
                    &[b"fault ", self.word, digits.format(number).as_bytes()],
                );
            }
        }
    }
}

/// Why a text is no formula file.
#[derive(Clone, Copy)]
pub enum FormulaFault {
    /// It is longer than a formula file may be.
    Length,
    /// It is no sentence.
    Reading(ReadFault),
    /// It is one, and has no core.
    Scope(ScopeFault),
    /// Its variables are not those of the file with which it is compared.
    Declarations,
    /// It declares fewer variables than are to be inputs, or too many others.
    Outputs,
    /// The name at this offset is one more than the files of a set may have together.
    Names { at: u32 },
}

impl FormulaFault {
    /// The words that say so.
    pub fn words(self) -> FaultWords
        ensures { words_in result ≡ formula_words self }
    {
        match self {
            FormulaFault::Length => placed(b"length at ", MOST_BYTES),
            FormulaFault::Reading(fault) => words_of_reading(fault),
            FormulaFault::Scope(fault) => words_of_scope(fault),
            FormulaFault::Declarations => alone(b"declarations"),
            FormulaFault::Outputs => alone(b"outputs"),
            FormulaFault::Names { at } => placed(b"names at ", at),
        }
    }
}

/// Why a text is no automaton's.
#[derive(Clone, Copy)]
pub enum AutomatonFault {
    /// It is longer than such a text may be.
    Length,
    /// Up to this offset it begins one, and no further.
    Syntax { at: u32 },
    /// The word at this offset breaks one of the rules by which the lines stand for a table.
    Table { at: u32 },
}

impl AutomatonFault {
    /// The words that say so.
    pub fn words(self) -> FaultWords
        ensures { words_in result ≡ automaton_words self }
    {
        match self {
            AutomatonFault::Length => alone(b"automaton length"),
            AutomatonFault::Syntax { at } => placed(b"automaton syntax at ", at),
            AutomatonFault::Table { at } => placed(b"automaton table at ", at),
        }
    }
}

/// Why a text is no observer's.
#[derive(Clone, Copy)]
pub enum ObserverFault {
    /// It is longer than such a text may be.
    Length,
    /// Up to the token or byte at this offset it begins a text of the subset, and no further.
    Syntax { at: u32 },
    /// The word at this offset breaks a rule of names.
    Names { at: u32 },
}

impl ObserverFault {
    /// The words that say so.
    pub fn words(self) -> FaultWords
        ensures { words_in result ≡ observer_words self }
    {
        match self {
            ObserverFault::Length => alone(b"observer length"),
            ObserverFault::Syntax { at } => placed(b"observer syntax at ", at),
            ObserverFault::Names { at } => placed(b"observer names at ", at),
        }
    }
}

/// What is wrong with a trace, after its good lines.
#[derive(Clone, Copy)]
pub enum TraceFault {
    /// The line with this number, counted from 1, is no line of the observer's inputs.
    Line { line: u32 },
    /// It has no line.
    Empty,
    /// It has more lines than a trace may have.
    Length,
}

impl TraceFault {
    /// The words that say so.
    pub fn words(self) -> FaultWords
        ensures { words_in result ≡ trace_words self }
    {
        match self {
            TraceFault::Line { line } => placed(b"line ", line),
            TraceFault::Empty => alone(b"trace empty"),
            TraceFault::Length => alone(b"trace length"),
        }
    }
}

// The words of a fault of a text that is no sentence.
fn words_of_reading(fault: ReadFault) -> FaultWords
    ensures { words_in result ≡ reading_words fault }
{
    match fault {
        ReadFault::Byte { at } => placed(b"byte at ", at),
        ReadFault::Syntax { at } => placed(b"syntax at ", at),
        ReadFault::Number { at } => placed(b"number at ", at),
        ReadFault::Name { at } => placed(b"name at ", at),
        ReadFault::Nest { at } => placed(b"nest at ", at),
        ReadFault::Memory => alone(b"memory"),
    }
}

// The words of a fault of names or of the goal.
fn words_of_scope(fault: ScopeFault) -> FaultWords
    ensures { words_in result ≡ scope_words fault }
{
    match fault {
        ScopeFault::TooMany { at } => placed(b"many at ", at),
        ScopeFault::Duplicate { at } => placed(b"duplicate at ", at),
        ScopeFault::Taken { at } => placed(b"taken at ", at),
        ScopeFault::Unknown { at } => placed(b"unknown at ", at),
        ScopeFault::Kind { at } => placed(b"kind at ", at),
        ScopeFault::Arity { at } => placed(b"arity at ", at),
        ScopeFault::Size { at } => placed(b"size at ", at),
        ScopeFault::Depth { at } => placed(b"depth at ", at),
        ScopeFault::Slots { at } => placed(b"slots at ", at),
        ScopeFault::BoundShift { at } => placed(b"shift at ", at),
        ScopeFault::Memory => alone(b"memory"),
    }
}

/// Puts the words of a fault that no place shows.
pub(crate) fn put_fault<T: Target>(target: &mut T, word: &[u8])
    ensures { Puts (T.standing target.old) (T.standing target.new) (fault_words word.now) }
{
    put_pieces(target, &[b"fault ", word]);
}
