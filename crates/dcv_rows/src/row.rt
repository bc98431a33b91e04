// A row, line by line.
ghost use Rattle.std.specs.Prelude.{IsSome, OnOk};

use crate::pattern::Pattern;
use std::alloc::{AllocError, Global};
use std::mem::replace;

/// A row: the arguments, the files, and the expected outcome of the run.
#[derive(Drop)]
pub(crate) struct Row {
    alloc: Global,
    pub(crate) title: String,
    /// The program's name and the words.
    pub(crate) arguments: Option<Vec<String>>,
    /// The same of a run before it, whose report is the second file.
    pub(crate) before: Option<Vec<String>>,
    /// Whether the run is over files of the system.
    pub(crate) is_real: bool,
    pub(crate) first: Option<Pattern>,
    pub(crate) second: Option<Pattern>,
    pub(crate) numbers: Numbers,
    pub(crate) out: Option<Pattern>,
    pub(crate) err: Option<Pattern>,
    pub(crate) refused: Option<String>,
    section: Option<Section>,
}

/// The expected status, the most bytes that a read and a write move, and which call of the files, write of the report and write of the
/// message fails.
#[derive(Clone, Copy, Default)]
pub(crate) struct Numbers {
    pub(crate) status: Option<u64>,
    pub(crate) reads: Option<u64>,
    pub(crate) writes: Option<u64>,
    pub(crate) failing_call: Option<u64>,
    pub(crate) failing_write: Option<u64>,
    pub(crate) failing_message: Option<u64>,
}

// What the next piece is added to.
#[derive(Clone, Copy)]
enum Section {
    First,
    Second,
    Out,
    Err,
}

/// Whether the line is empty or a comment.
pub(crate) fn is_comment(line: &str) -> bool {
    line.is_empty() || line == "#" || line.starts_with("# ")
}

impl Row {
    /// A row with a title and nothing else.
    pub(crate) fn new(alloc: Global, title: &str) -> Result<Row, AllocError> {
        Ok(Row {
            alloc,
            title: String::from_str(alloc, title)?,
            arguments: None,
            before: None,
            is_real: false,
            first: None,
            second: None,
            numbers: Numbers::default(),
            out: None,
            err: None,
            refused: None,
            section: None,
        })
    }

    /// Adds a line. The first line that is not of this form is kept as such.
    pub(crate) fn add_line(&mut self, line: &str) -> Result<(), AllocError> {
        let added = if let Some(words) = line.strip_prefix('$') {
            let arguments = self.arguments_of(words)?;
            self.arguments.replace(arguments).is_none()
        } else if let Some(words) = line.strip_prefix("g from ") {
            let arguments = self.arguments_of(words)?;
            self.before.replace(arguments).is_none()
        } else if line == "real" {
            !replace(&mut self.is_real, true)
        } else if let Some((name, digits)) = line.rsplit_once(' ')
            && let Some(number) = self.numbers.of_name(name)
        {
            set(number, digits)
        } else if let Some(section) = section_of(line) {
            self.begin(section)
        } else {
            is_comment(line) || self.add_piece(line)?
        };
        if added { Ok(()) } else { self.refuse(line) }
    }

    /// Keeps the line as one that is not of this form, if it is the first.
    pub(crate) fn refuse(&mut self, line: &str) -> Result<(), AllocError>
        ensures refused { OnOk result (IsSome self.new.refused) }
    {
        if self.refused.is_none() {
            self.refused = Some(String::from_str(self.alloc, line)?);
        }
        Ok(())
    }

    // The program's name and these words.
    fn arguments_of(&self, words: &str) -> Result<Vec<String>, AllocError> {
        let mut arguments = Vec::new(self.alloc);
        arguments.push(String::from_str(self.alloc, "dcvalid")?)?;
        for word in words.split_whitespace() {
            arguments.push(String::from_str(self.alloc, word)?)?;
        }
        Ok(arguments)
    }

    // Begins a text. It may begin once.
    fn begin(&mut self, section: Section) -> bool {
        let pattern = Pattern::new(self.alloc);
        let text = self.text_of(section);
        let added = text.is_none();
        *text = Some(pattern);
        self.section = Some(section);
        added
    }

    // Adds a piece to the current text. The bytes of a file have no gap.
    fn add_piece(&mut self, piece: &str) -> Result<bool, AllocError> {
        let Some(section) = self.section else {
            return Ok(false);
        };
        let is_expected = matches!(section, Section::Out | Section::Err);
        match self.text_of(section) {
            Some(text) if is_expected || piece != ".." => text.add_line(piece),
            _ => Ok(false),
        }
    }

    fn text_of(&mut self, section: Section) -> &mut Option<Pattern> {
        match section {
            Section::First => &mut self.first,
            Section::Second => &mut self.second,
            Section::Out => &mut self.out,
            Section::Err => &mut self.err,
        }
    }
}

impl Numbers {
    fn of_name(&mut self, name: &str) -> Option<&mut Option<u64>> {
        match name {
            "status" => Some(&mut self.status),
            "reads" => Some(&mut self.reads),
            "writes" => Some(&mut self.writes),
            "failing call" => Some(&mut self.failing_call),
            "failing write" => Some(&mut self.failing_write),
            "failing message" => Some(&mut self.failing_message),
            _ => None,
        }
    }
}

// Sets a number, if it is not set yet and these are digits.
fn set(number: &mut Option<u64>, digits: &str) -> bool {
    let added = number.is_none();
    *number = digits.parse().ok();
    added && number.is_some()
}

// The text that begins after this line, if one does.
fn section_of(line: &str) -> Option<Section> {
    match line {
        "f:" => Some(Section::First),
        "g:" => Some(Section::Second),
        "out:" => Some(Section::Out),
        "err:" => Some(Section::Err),
        _ => None,
    }
}
