// The lines of arrays.
ghost use Rattle.std.specs.Prelude.{◌≡◌, ◌++◌, length, IfOk};
ghost use Rattle.dcv_automaton_lines.specs.Stops.{IsStuckAt, IsStuckStop};
ghost use Rattle.dcv_tables_read.specs.declared.entries.Entry.TheVariants.{Answer};
ghost use Rattle.dcv_tables_read.specs.Parts.{IsEntry, ended, EntrySet, line_text, LineSet, AreEntries, lines_text, LinesOf};

use dcv_automaton_lines::{Stop, Stuck, begins_with, literal, number};
use std::alloc::Global;

/// What an array has on each of its lines.
#[derive(Clone, Copy)]
pub enum Entry {
    /// A number of seven digits at most.
    Number,
    /// 0 or 1.
    Answer,
}

// 0 or 1 before a comma, and the text after that.
fn answer<'a>(text: &'a [u8]) -> Result<(u32, &'a [u8]), Stuck<'a>>
    ensures small { IfOk result (λ read. IsEntry Answer read.0) }
    ensures spelled { IfOk result (λ read. text.now ≡ ended 44 read.0 ++ read.1.now) }
    ensures fault { IsStuckAt (EntrySet Answer) text.now result }
{
    if begins_with(text, b'1') {
        let rest = literal(text, b"1,")?;
        return Ok((1, rest));
    }
    let rest = literal(text, b"0,")?;
    Ok((0, rest))
}

// A number before a comma, and the text after that.
fn entry_number<'a>(text: &'a [u8], entry: Entry) -> Result<(u32, &'a [u8]), Stuck<'a>>
    ensures small { IfOk result (λ read. IsEntry entry read.0) }
    ensures spelled { IfOk result (λ read. text.now ≡ ended 44 read.0 ++ read.1.now) }
    ensures fault { IsStuckAt (EntrySet entry) text.now result }
{
    match entry {
        Entry::Number => number(text, b','),
        Entry::Answer => answer(text),
    }
}

// The number of a line, and the text after the line.
fn line<'a>(text: &'a [u8], kind: Entry) -> Result<(u32, &'a [u8]), Stuck<'a>>
    ensures small { IfOk result (λ read. IsEntry kind read.0) }
    ensures spelled { IfOk result (λ read. text.now ≡ line_text read.0 ++ read.1.now) }
    ensures fault { IsStuckAt (LineSet kind) text.now result }
{
    let digits = literal(text, b"  ")?;
    let (number, end) = entry_number(digits, kind)?;
    let rest = literal(end, b"\n")?;
    Ok((number, rest))
}

/// The numbers of so many lines, and the text after the lines.
pub fn lines<'a>(
    alloc: Global,
    text: &'a [u8],
    entry: Entry,
    count: u32,
) -> Result<(Vec<u32>, &'a [u8]), Stop<'a>>
    ensures small { IfOk result (λ read. AreEntries entry count read.0.items) }
    ensures spelled { IfOk result (λ read. text.now ≡ lines_text read.0.items ++ read.1.now) }
    ensures fault { IsStuckStop (LinesOf entry count) text.now result }
{
    let mut numbers: Vec<u32> = Vec::new(alloc);
    let mut rest = text;
    while numbers.len() < count as usize {
        let (number, behind) = line(rest, entry)?;
        numbers.push(number)?;
        rest = behind;
    }
    Ok((numbers, rest))
}
