// The functions.
ghost use Rattle.std.specs.Prelude.{◌≡◌, ◌++◌, map, IfOk};
ghost use Rattle.std.specs.List.{enumerate_from};
ghost use Rattle.dcv_automaton_lines.specs.Pieces.{Exactly};
ghost use Rattle.dcv_automaton_lines.specs.Stops.{IsStuckAt, IsStuckStop};
ghost use Rattle.dcv_observer.specs.Layouts.{Each, Word};
ghost use Rattle.dcv_c_tables.specs.Layout.{text_in, letter_line, if_some};
ghost use Rattle.dcv_c_tables.specs.Observer.{parameter_name};
ghost use Rattle.dcv_tables_read.specs.Parts.{AreNames, StopsNames, after_name, names_text, NamesOf, parameters_text, ParametersSet, body_text, step_text, StepSet};
ghost use Rattle.dcv_tables_read.specs.Values.{words_in};

use crate::words::{name, pieces};
use dcv_automaton_lines::{Stop, Stuck, literal};
use itoa::Buffer;
use std::alloc::Global;

// So many names, and the text after the last one's end.
fn names<'a>(
    alloc: Global,
    text: &'a [u8],
    count: u32,
) -> Result<(Vec<&'a [u8]>, &'a [u8]), Stop<'a>>
    ensures words { IfOk result (λ read. AreNames count (words_in read.0.items)) }
    ensures spelled { IfOk result (λ read. text.now ≡ names_text (words_in read.0.items) ++ read.1.now) }
    ensures fault { IsStuckStop (NamesOf count) text.now result }
{
    let mut names: Vec<&'a [u8]> = Vec::new(alloc);
    let mut rest = text;
    while names.len() < count as usize {
        let more = count as usize - names.len() - 1;
        let (next, behind) = name(rest, after_name(more))?;
        names.push(next)?;
        rest = behind;
    }
    Ok((names, rest))
}

// What stands after a name with so many behind it.
fn after_name(more: usize) -> &'static [u8]
    ensures stops { StopsNames result.now }
    ensures is { result.now ≡ after_name more }
{
    if more == 0 { b")\n{\n" } else { b", int v_" }
}

// The parameters of a step, and the text after the brace that opens it.
fn parameters<'a>(
    alloc: Global,
    text: &'a [u8],
    count: u32,
) -> Result<(Vec<&'a [u8]>, &'a [u8]), Stop<'a>>
    ensures words { IfOk result (λ read. AreNames count (words_in read.0.items)) }
    ensures spelled { IfOk result (λ read. text.now ≡ parameters_text (words_in read.0.items) ++ read.1.now) }
    ensures fault { IsStuckStop (ParametersSet count) text.now result }
{
    if count == 0 {
        let rest = literal(text, b"void)\n{\n")?;
        return Ok((Vec::new(alloc), rest));
    }
    let first = literal(text, b"int v_")?;
    let (listed, rest) = names(alloc, first, count)?;
    Ok((listed, rest))
}

// The text after the line of a letter.
fn letter<'a>(text: &'a [u8], number: usize, name: &[u8]) -> Result<&'a [u8], Stuck<'a>>
    ensures ok { IfOk result (λ rest. text.now ≡ text_in (letter_line (number, parameter_name name.now)) ++ rest.now) }
    ensures fault { IsStuckAt (Exactly (text_in (letter_line (number, parameter_name name.now)))) text.now result }
{
    let mut digits = Buffer::new();
    pieces(
        text,
        &[
            b"  letter[",
            digits.format(number).as_bytes(),
            b"] = v_",
            name,
            b";\n",
        ],
    )
}

// The text after the letter's lines.
fn letters<'a>(text: &'a [u8], names: &[&[u8]]) -> Result<&'a [u8], Stuck<'a>>
    ensures ok { IfOk result (λ rest. text.now ≡ text_in (Each letter_line (enumerate_from 0 (map parameter_name (words_in names.now)))) ++ rest.now) }
    ensures fault { IsStuckAt (Exactly (text_in (Each letter_line (enumerate_from 0 (map parameter_name (words_in names.now)))))) text.now result }
{
    let mut rest = text;
    for (number, name) in names.iter().enumerate() {
        rest = letter(rest, number, name)?;
    }
    Ok(rest)
}

// The text where there is a node, and nothing else.
fn if_some<'a>(some: bool, text: &'a [u8]) -> &'a [u8]
    ensures { result.now ≡ text_in (if_some some (Word text.now)) }
{
    if some { text } else { b"" }
}

// The text after the letter's lines, which are there if there is a node.
fn letters_if<'a>(text: &'a [u8], some: bool, names: &[&[u8]]) -> Result<&'a [u8], Stuck<'a>>
    ensures ok { IfOk result (λ rest. text.now ≡ text_in (if_some some (Each letter_line (enumerate_from 0 (map parameter_name (words_in names.now))))) ++ rest.now) }
    ensures fault { IsStuckAt (Exactly (text_in (if_some some (Each letter_line (enumerate_from 0 (map parameter_name (words_in names.now))))))) text.now result }
{
    if some { letters(text, names) } else { Ok(text) }
}

// The text after the body of a step.
fn body<'a>(
    text: &'a [u8],
    integer: &[u8],
    some: bool,
    names: &[&[u8]],
) -> Result<&'a [u8], Stuck<'a>>
    ensures ok { IfOk result (λ rest. text.now ≡ body_text integer.now some (words_in names.now) ++ rest.now) }
    ensures fault { IsStuckAt (Exactly (body_text integer.now some (words_in names.now))) text.now result }
{
    let letter = if_some(some, b"  int letter[variables];\n");
    let named = pieces(text, &[letter, b"  ", integer, b" at;\n\n"])?;
    let walk = letters_if(named, some, names)?;
    let walked = if_some(
        some,
        b"  while (at >= states) at = letter[variable[at - states]] ? high[at - states] : low[at - states];\n",
    );
    let rest = pieces(
        walk,
        &[
            b"  at = row[st];\n",
            walked,
            b"  st = at;\n  return accept[st];\n}\n",
        ],
    )?;
    Ok(rest)
}

/// The names of the parameters, and the text after the functions.
pub fn step<'a>(
    alloc: Global,
    text: &'a [u8],
    integer: &[u8],
    some: bool,
    count: u32,
) -> Result<(Vec<&'a [u8]>, &'a [u8]), Stop<'a>>
    ensures words { IfOk result (λ read. AreNames count (words_in read.0.items)) }
    ensures spelled { IfOk result (λ read. text.now ≡ step_text integer.now some (words_in read.0.items) ++ read.1.now) }
    ensures fault { IsStuckStop (StepSet integer.now some count) text.now result }
{
    let reset = b" st;\n\nvoid observer_reset(void)\n{\n  st = 0;\n}\n\nint observer_step(";
    let begun = pieces(text, &[b"static ", integer, reset])?;
    let (names, inside) = parameters(alloc, begun, count)?;
    let rest = body(inside, integer, some, &names)?;
    Ok((names, rest))
}
