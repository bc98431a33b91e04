// A letter's line in a trace is read back, or the fault is told that keeps it from being one.
ghost use Rattle.std.specs.Prelude.{◌≡◌, ◌^◌, ◌<◌, ◌≤◌, ◌↔◌, ◌==◌, Bool, List, length, map, Result, IsTrue, IfSome, IfNone};
ghost use Rattle.std.specs.List.{All};
ghost use Rattle.std.specs.Str.{byte};
ghost use Rattle.dcv_word.specs.Letter.{bits_of};
ghost use Rattle.dcv_word.specs.TraceLine.{trace_line, IsDigit, IsFirstNonDigit, IsReading};
ghost use Rattle.dcv_word.specs.declared.lines.LetterFault.{LetterFault};

use crate::letters::Letter;
use thiserror::Error;

/// Why a line of a trace spells no letter.
#[derive(Clone, Copy, Debug, PartialEq, Eq, Error)]
pub enum LetterFault {
    /// The line has not one value for each declared variable, or with none declared, not one byte.
    #[error("the line has another number of values than there are variables")]
    Width,
    /// This byte of the line, counted from 0, is neither `0` nor `1`, or with none declared, not `-`.
    #[error("byte {at} of the line is no value")]
    Character { at: u32 },
}

/// Reads a line of a trace, given without its end: a digit `0` or `1` for each of the `width` declared
/// variables, in order, or a `-` where none is declared.
pub fn read_trace_line(line: &[u8], width: u8) -> Result<Letter, LetterFault>
    requires width { width ≤ 32 }
    requires short { length line.now < 2 ^ 32 }

    // The answer is what reading the line at this width answers, and nothing else is.
    ensures reading { IsReading width line.now result }
    ensures only { (answer : Result (List Bool) LetterFault) → IsReading width line.now answer → result ≡ answer }

    // A letter comes exactly where the line is the letter's.
    ensures letter { (letter : List Bool) → (result ≡ Ok letter)
        ↔ ((length letter ≡ width) × (line.now ≡ trace_line letter)) }
{
    if width == 0 {
        read_dash(line)
    } else {
        read_digits(line, width)
    }
}

// Reads a line where no variable is declared.
fn read_dash(line: &[u8]) -> Result<Letter, LetterFault>
    ensures { IsReading 0 line.now result }
{
    if line.len() != 1 {
        return Err(LetterFault::Width);
    }
    if line[0] != b'-' {
        return Err(LetterFault::Character { at: 0 });
    }
    Ok(Letter::new(0, 0))
}

// Reads a line where some variable is declared.
fn read_digits(line: &[u8], width: u8) -> Result<Letter, LetterFault>
    requires some { 0 < width }
    requires width { width ≤ 32 }
    requires short { length line.now < 2 ^ 32 }
    ensures { IsReading width line.now result }
{
    if let Some(at) = first_non_digit(line) {
        return Err(LetterFault::Character { at: at as u32 });
    }
    if line.len() != usize::from(width) {
        return Err(LetterFault::Width);
    }
    Ok(Letter::new(width, number_of(line)))
}

// The place of the first byte that is no digit.
fn first_non_digit(line: &[u8]) -> Option<usize>
    ensures found { IfSome result (IsFirstNonDigit line.now) }
    ensures bound { IfSome result (λ at. at < length line.now) }
    ensures none { IfNone result (All IsDigit line.now) }
{
    line.iter().position(|c| !is_digit(*c))
}

fn is_digit(c: u8) -> bool
    ensures { IsTrue result ↔ IsDigit c }
{
    c == b'0' || c == b'1'
}

// The number that binary digits spell, the highest first.
fn number_of(digits: &[u8]) -> u32
    requires digits { All IsDigit digits.now }
    requires short { length digits.now ≤ 32 }
    ensures value { result ≡ bits_of (map (λ c. c == byte "1") digits.now) }
    ensures bound { result < 2 ^ length digits.now }
{
    let mut number = 0;
    for digit in digits {
        number = 2 * number + u32::from(digit - b'0');
    }
    number
}
