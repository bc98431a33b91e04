// Lines without their first word are read from the front of a text, word by word.
ghost use Rattle.std.specs.Prelude.{◌≡◌, IfOk, drop};
ghost use Rattle.dcv_automaton_text.specs.Form.{IsNodeLine, IsStateLine, IsAccess, IsAccessLine, IsSuffix, IsSuffixLine};
ghost use Rattle.dcv_automaton_text.specs.Spelled.{node_words, state_words, how_access, access_words, how_suffix, suffix_words};
ghost use Rattle.dcv_automaton_lines.specs.Parts.{NodeBody, StateBody, AccessHow, AccessBody, SuffixHow, SuffixBody, words_then};
ghost use Rattle.dcv_automaton_lines.specs.Seen.{node_line_of, state_line_of, access_of, access_line_of, suffix_of, suffix_line_of};
ghost use Rattle.dcv_automaton_lines.specs.Stops.{IsStuckAt};

use crate::lines::{AccessLine, AccessWord, NodeLine, StateLine, SuffixLine, SuffixWord};
use crate::stop::Stuck;
use crate::words::{answer, begins_with, letter, literal, name, node_number, number, target};

/// What a line says after the word `node`, and the text after the line.
pub fn node_line<'a>(text: &'a [u8]) -> Result<(NodeLine<'a>, &'a [u8]), Stuck<'a>>
    ensures form { IfOk result (λ read. IsNodeLine (node_line_of read.0)) }
    ensures spelled { IfOk result (λ read. text.now ≡ words_then (drop 1 (node_words (node_line_of read.0))) read.1.now) }
    ensures fault { IsStuckAt NodeBody text.now result }
{
    let (number, named) = node_number(text, b' ')?;
    let (name, marked) = name(named, b' ')?;
    let high = literal(marked, b"? ")?;
    let (hi, parted) = target(high, b' ')?;
    let low = literal(parted, b": ")?;
    let (lo, rest) = target(low, b'\n')?;
    let line = NodeLine {
        number,
        name,
        hi,
        lo,
    };
    Ok((line, rest))
}

/// What a line says after the word `state`, and the text after the line.
pub fn state_line<'a>(text: &'a [u8]) -> Result<(StateLine, &'a [u8]), Stuck<'a>>
    ensures form { IfOk result (λ read. IsStateLine (state_line_of read.0)) }
    ensures spelled { IfOk result (λ read. text.now ≡ words_then (drop 1 (state_words (state_line_of read.0))) read.1.now) }
    ensures fault { IsStuckAt StateBody text.now result }
{
    let (number, answered) = number(text, b' ')?;
    let (accepting, targeted) = answer(answered)?;
    let (row, rest) = target(targeted, b'\n')?;
    let line = StateLine {
        number,
        accepting,
        row,
    };
    Ok((line, rest))
}

// How an access word is spelled, and the text after the line.
fn access_word<'a>(text: &'a [u8]) -> Result<(AccessWord<'a>, &'a [u8]), Stuck<'a>>
    ensures form { IfOk result (λ read. IsAccess (access_of read.0)) }
    ensures spelled { IfOk result (λ read. text.now ≡ words_then (how_access (access_of read.0)) read.1.now) }
    ensures fault { IsStuckAt AccessHow text.now result }
{
    if begins_with(text, b'e') {
        let rest = literal(text, b"empty\n")?;
        return Ok((AccessWord::Empty, rest));
    }
    if begins_with(text, b's') {
        let spelled = literal(text, b"start ")?;
        let (only, rest) = letter(spelled, b'\n')?;
        return Ok((AccessWord::Start(only), rest));
    }
    let (state, spelled) = number(text, b' ')?;
    let (last, rest) = letter(spelled, b'\n')?;
    Ok((AccessWord::After(state, last), rest))
}

/// What a line says after the word `access`, and the text after the line.
pub fn access_line<'a>(text: &'a [u8]) -> Result<(AccessLine<'a>, &'a [u8]), Stuck<'a>>
    ensures form { IfOk result (λ read. IsAccessLine (access_line_of read.0)) }
    ensures spelled { IfOk result (λ read. text.now ≡ words_then (drop 1 (access_words (access_line_of read.0))) read.1.now) }
    ensures fault { IsStuckAt AccessBody text.now result }
{
    let (number, spelled) = number(text, b' ')?;
    let (access, rest) = access_word(spelled)?;
    let line = AccessLine { number, access };
    Ok((line, rest))
}

// How a suffix is spelled, and the text after the line.
fn suffix_word<'a>(text: &'a [u8]) -> Result<(SuffixWord<'a>, &'a [u8]), Stuck<'a>>
    ensures form { IfOk result (λ read. IsSuffix (suffix_of read.0)) }
    ensures spelled { IfOk result (λ read. text.now ≡ words_then (how_suffix (suffix_of read.0)) read.1.now) }
    ensures fault { IsStuckAt SuffixHow text.now result }
{
    if begins_with(text, b'e') {
        let rest = literal(text, b"empty\n")?;
        return Ok((SuffixWord::Empty, rest));
    }
    let (first, spelled) = letter(text, b' ')?;
    let (suffix, rest) = number(spelled, b'\n')?;
    Ok((SuffixWord::Then(first, suffix), rest))
}

/// What a line says after the word `suffix`, and the text after the line.
pub fn suffix_line<'a>(text: &'a [u8]) -> Result<(SuffixLine<'a>, &'a [u8]), Stuck<'a>>
    ensures form { IfOk result (λ read. IsSuffixLine (suffix_line_of read.0)) }
    ensures spelled { IfOk result (λ read. text.now ≡ words_then (drop 1 (suffix_words (suffix_line_of read.0))) read.1.now) }
    ensures fault { IsStuckAt SuffixBody text.now result }
{
    let (number, spelled) = number(text, b' ')?;
    let (suffix, rest) = suffix_word(spelled)?;
    let line = SuffixLine { number, suffix };
    Ok((line, rest))
}
