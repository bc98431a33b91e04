// The reader of the form.
ghost use Rattle.std.specs.Prelude.{◌≡◌, ℕ, ◌+◌, ◌^◌, ◌<◌, ◌≤◌, List, ◌++◌, length, IfOk};
ghost use Rattle.dcv_automaton_text.specs.Form.{HasForm};
ghost use Rattle.dcv_automaton_text.specs.Spelled.{spelled_front};
ghost use Rattle.dcv_automaton_lines.specs.Parts.{title as title_of, Title, Whole};
ghost use Rattle.dcv_automaton_lines.specs.Seen.{file_of, IsFaultIn};
ghost use Rattle.dcv_automaton_lines.specs.Stops.{IsStuckAt, IsStopAt};

use crate::lines::Lines;
use crate::names::names;
use crate::sections::sections;
use crate::steps::step_part;
use crate::stop::{Stop, Stuck};
use crate::version::Version;
use crate::words::{literal, number};
use std::alloc::Global;

/// Why a text has no lines of the form.
#[derive(Clone, Copy, Debug, PartialEq, Eq)]
pub enum LinesFault {
    /// Up to this byte, counted from 0, the text begins one of the form, and no further. It is the text's length where the text merely
    /// stops too early.
    Syntax { at: u32 },
    /// Memory ran out.
    Memory,
}

// The version that the head of a text says, and the text from the names on.
fn title<'a>(text: &'a [u8]) -> Result<(Version, &'a [u8]), Stuck<'a>>
    ensures ok { IfOk result (λ read. text.now ≡ title_of read.0 ++ read.1.now) }
    ensures fault { IsStuckAt Title text.now result }
{
    let stuck = match literal(text, Version::First.title()) {
        Ok(named) => return Ok((Version::First, named)),
        Err(stuck) => stuck,
    };
    match literal(text, Version::Second.title()) {
        Ok(named) => Ok((Version::Second, named)),
        Err(other) if other.left.len() < stuck.left.len() => Err(other),
        Err(_) => Err(stuck),
    }
}

// What stands in a text before a word and what follows it there.
fn before<'a>(text: &'a [u8], word: &[u8], behind: &[u8]) -> &'a [u8]
    requires { length word.now + length behind.now ≤ length text.now }
    ensures { (front : List ℕ) → text.now ≡ front ++ (word.now ++ behind.now) → result.now ≡ front }
{
    &text[..text.len() - (word.len() + behind.len())]
}

// The lines of a text that has the form, or what is left of the text where it has not.
fn whole<'a>(alloc: Global, text: &'a [u8]) -> Result<Lines<'a>, Stop<'a>>
    ensures ok { IfOk result (λ lines. HasForm text.now (file_of lines)) }
    ensures front { IfOk result (λ lines. lines.front.now ≡ spelled_front (file_of lines)) }
    ensures fault { IsStopAt Whole text.now result }
{
    let (version, named) = title(text)?;
    let (listed, stated) = names(alloc, named)?;
    let counted = literal(stated, b"states ")?;
    let (states, rest) = number(counted, b'\n')?;
    let (mut lines, behind) = sections(alloc, version, listed, states, rest)?;
    lines.front = before(text, version.closing(), behind);
    lines.steps = step_part(alloc, version, behind)?;
    Ok(lines)
}

/// The lines of a text that has the form.
pub fn lines_of<'a>(alloc: Global, text: &'a [u8]) -> Result<Lines<'a>, LinesFault>
    requires { length text.now < 2 ^ 32 }
    ensures ok { IfOk result (λ lines. HasForm text.now (file_of lines)) }
    ensures front { IfOk result (λ lines. lines.front.now ≡ spelled_front (file_of lines)) }
    ensures fault { IsFaultIn text.now result }
{
    match whole(alloc, text) {
        Ok(lines) => Ok(lines),
        Err(Stop::Syntax(stuck)) => {
            let at = text.len() - stuck.left.len();
            Err(LinesFault::Syntax { at: at as u32 })
        }
        Err(Stop::Memory) => Err(LinesFault::Memory),
    }
}
