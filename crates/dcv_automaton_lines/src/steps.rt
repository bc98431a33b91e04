// What stands after the sections: nothing in version 1, and the steps in version 2.
ghost use Rattle.std.specs.Prelude.{◌≡◌, ◌++◌, [], drop, map, IfOk, IfSome};
ghost use Rattle.std.specs.List.{All, flat_map};
ghost use Rattle.std.specs.Option.{option_map};
ghost use Rattle.dcv_automaton_text.specs.Form.{IsStepLine, IsStepPart};
ghost use Rattle.dcv_automaton_text.specs.Spelled.{step_words, step_part as step_part_lines, end_lines, spelled_line};
ghost use Rattle.dcv_automaton_lines.specs.Pieces.{Nothing};
ghost use Rattle.dcv_automaton_lines.specs.Parts.{StepBody, StepTail, Closed, closing_then, version_at, words_then};
ghost use Rattle.dcv_automaton_lines.specs.Seen.{step_line_of, step_part_of};
ghost use Rattle.dcv_automaton_lines.specs.Stops.{IsStuckAt, IsStopAt};

use crate::lines::{StepLine, StepPart};
use crate::stop::{Stop, Stuck};
use crate::version::Version;
use crate::words::{begins_with, literal, number};
use std::alloc::Global;

// What a line says after the word `step`, and the text after the line.
fn step_line<'a>(text: &'a [u8]) -> Result<(StepLine, &'a [u8]), Stuck<'a>>
    ensures form { IfOk result (λ read. IsStepLine (step_line_of read.0)) }
    ensures spelled { IfOk result (λ read. text.now ≡ words_then (drop 1 (step_words (step_line_of read.0))) read.1.now) }
    ensures fault { IsStuckAt StepBody text.now result }
{
    let (place, started) = number(text, b' ')?;
    let starting = literal(started, b"at ")?;
    let (at, sized) = number(starting, b' ')?;
    let sizing = literal(sized, b"states ")?;
    let (states, shared) = number(sizing, b' ')?;
    let sharing = literal(shared, b"nodes ")?;
    let (nodes, rest) = number(sharing, b'\n')?;
    let line = StepLine {
        number: place,
        at,
        states,
        nodes,
    };
    Ok((line, rest))
}

// Nothing stands after the last line.
fn nothing<'a>(text: &'a [u8]) -> Result<(), Stop<'a>>
    ensures ok { IfOk result (λ _. text.now ≡ []) }
    ensures fault { IsStopAt Nothing text.now result }
{
    if !text.is_empty() {
        return Err(Stop::Syntax(Stuck { left: text }));
    }
    Ok(())
}

// The lines of the steps up to the end of the text.
fn step_lines<'a>(alloc: Global, text: &'a [u8]) -> Result<Vec<StepLine>, Stop<'a>>
    ensures form { IfOk result (λ lines. All IsStepLine (map step_line_of lines.items)) }
    ensures spelled { IfOk result (λ lines. text.now ≡ flat_map spelled_line (map step_words (map step_line_of lines.items) ++ end_lines)) }
    ensures fault { IsStopAt StepTail text.now result }
{
    let mut lines = Vec::new(alloc);
    let mut rest = text;
    while begins_with(rest, b's') {
        let body = literal(rest, b"step ")?;
        let (line, behind) = step_line(body)?;
        lines.push(line)?;
        rest = behind;
    }
    let behind = literal(rest, b"end\n")?;
    nothing(behind)?;
    Ok(lines)
}

/// What stands after the word that closes the sections: the step part of version 2, and the end.
pub fn step_part<'a>(
    alloc: Global,
    version: Version,
    text: &'a [u8],
) -> Result<Option<StepPart>, Stop<'a>>
    ensures version { IfOk result (λ steps. version_at (option_map step_part_of steps) ≡ version) }
    ensures form { IfOk result (λ steps. IfSome (option_map step_part_of steps) IsStepPart) }
    ensures spelled { IfOk result (λ steps.
        closing_then version text.now ≡ flat_map spelled_line (step_part_lines (option_map step_part_of steps) ++ end_lines)) }
    ensures fault { IsStopAt (Closed version) text.now result }
{
    match version {
        Version::First => {
            nothing(text)?;
            Ok(None)
        }
        Version::Second => {
            let (count, counted) = number(text, b'\n')?;
            let lines = step_lines(alloc, counted)?;
            Ok(Some(StepPart { count, lines }))
        }
    }
}
