//! The lines of a trace, byte for byte. What has come of a line is kept in an array, since a line that is longer than the longest is
//! none, however it goes on.
ghost use Rattle.std.specs.Prelude.{◌≡◌, ◌≢◌, ◌+◌, ◌<◌, ◌≤◌, [], ◌∷◌, ◌++◌, length, MatchResult, MatchOption};
ghost use Rattle.dcv_word.specs.TraceLine.{line_feed};
ghost use Rattle.dcv_replay.specs.TraceText.{most_lines};
ghost use Rattle.dcv_replay.specs.Coming.{IsLines, LinesValue, HasCome, IsAtFault, IsLast, IsWithoutReturn, letters_of, budget};
ghost use Rattle.dcv_replay.specs.declared.fault.Stop.TheVariants.{Line};

use crate::fault::Stop;
use dcv_word::{Letter, read_trace_line};
use std::marker::Model;

const MOST_LINES: u32 = 1_000_000;

// The digits of 32 variables, a carriage return and a byte more.
const LONGEST: usize = 34;

/// What has come of a trace.
#[derive(Drop)]
pub(crate) struct Lines {
    // how many variables each line is to have
    width: u8,
    // the line so far
    bytes: [u8; LONGEST],
    // how many bytes of it there are
    filled: usize,
    // how many lines came before it
    count: u32,
}

impl Model for Lines {
    ghost use Rattle.std.specs.Prelude.{take, ◌≤◌};
    ghost use Rattle.dcv_replay.specs.Coming.{IsLines, LinesValue};

    ghost Value = { LinesValue };

    ghost view = { λ l. record { width = l.width; line = take l.filled l.bytes; count = l.count } };

    ghost invariant = { λ l. (l.filled ≤ 34) × IsLines record { width = l.width; line = take l.filled l.bytes; count = l.count } };
}

impl Lines {
    // None so far.
    pub(crate) fn new(width: u8) -> Lines
        requires { width ≤ 32 }
        ensures lines { result ≡ record { width = width; line = []; count = 0 } }
        ensures are { IsLines result }
    {
        Lines {
            width,
            bytes: [0; LONGEST],
            filled: 0,
            count: 0,
        }
    }

    // Takes the next byte, and returns the letter whose line it ends, if it ends one. A fault changes nothing.
    pub(crate) fn take(&mut self, byte: u8) -> Result<Option<Letter>, Stop>
        ensures lines { IsLines self.new }
        ensures width { self.new.width ≡ self.old.width }
        ensures ok { MatchResult result
            (λ found. HasCome self.old.width (self.old.line ++ byte ∷ []) (letters_of found) self.new.line
            × (self.new.count ≡ self.old.count + length (letters_of found))
            × (budget self.new + 1 ≤ budget self.old))
            (λ fault. (self.new ≡ self.old) × IsAtFault self.old (byte ∷ []) fault) }
    {
        if self.count == MOST_LINES {
            return Err(Stop::TooLong);
        }
        if byte == b'\n' {
            return self.end_line();
        }
        if self.filled == LONGEST {
            return Err(self.bad_line());
        }
        self.bytes[self.filled] = byte;
        self.filled += 1;
        Ok(None)
    }

    // The last line, where it lacks its end: none where nothing is left. There is no trace without a byte.
    pub(crate) fn last(&self) -> Result<Option<Letter>, Stop>
        ensures { IsLast self.now result }
    {
        if self.filled == 0 {
            return if self.count == 0 {
                Err(Stop::Empty)
            } else {
                Ok(None)
            };
        }
        match read_trace_line(&self.bytes[..self.filled], self.width) {
            Ok(letter) => Ok(Some(letter)),
            Err(_) => Err(self.bad_line()),
        }
    }

    // Ends the line.
    fn end_line(&mut self) -> Result<Option<Letter>, Stop>
        requires { self.old.count < most_lines }
        ensures lines { IsLines self.new }
        ensures width { self.new.width ≡ self.old.width }
        ensures ok { MatchResult result
            (λ found. HasCome self.old.width (self.old.line ++ line_feed ∷ []) (letters_of found) self.new.line
            × (self.new.count ≡ self.old.count + length (letters_of found))
            × (budget self.new + 1 ≤ budget self.old))
            (λ fault. (self.new ≡ self.old) × IsAtFault self.old (line_feed ∷ []) fault) }
    {
        let line = without_return(&self.bytes[..self.filled]);
        match read_trace_line(line, self.width) {
            Ok(letter) => {
                self.filled = 0;
                self.count += 1;
                Ok(Some(letter))
            }
            Err(_) => Err(self.bad_line()),
        }
    }

    // The fault that the line is none.
    fn bad_line(&self) -> Stop
        ensures { result ≡ Line (self.now.count + 1) }
    {
        Stop::Line {
            line: self.count + 1,
        }
    }
}

// The line without the carriage return at its end, if there is one.
fn without_return(line: &[u8]) -> &[u8]
    ensures { IsWithoutReturn line.now result.now }
{
    match line.last() {
        Some(b'\r') => &line[..line.len() - 1],
        _ => line,
    }
}
