// Words are read from the front of a text, each together with the byte after it.
ghost use Rattle.std.specs.Prelude.{◌≡◌, ◌≢◌, ◌⊎◌, ◌↔◌, IsTrue, ◌+◌, ◌<◌, ◌≤◌, ◌++◌, ◌∷◌, true, false, length, take, IfOk, slice_index, map};
ghost use Rattle.std.specs.Fmt.{decimal};
ghost use Rattle.std.specs.List.{list_all};
ghost use Rattle.dcv_word.specs.TraceLine.{trace_line};
ghost use Rattle.dcv_automaton_text.specs.Form.{is_visible, IsNumber, IsNameWord, IsTarget};
ghost use Rattle.dcv_automaton_text.specs.Spelled.{node_word, target_word, answer_word};
ghost use Rattle.dcv_automaton_lines.specs.Pieces.{Exactly, Nothing, Followed};
ghost use Rattle.dcv_automaton_lines.specs.Parts.{NumberWord, NodeWord, TargetWord, AnswerWord, NameWord, LetterWord};
ghost use Rattle.dcv_automaton_lines.specs.Seen.{letter_of};
ghost use Rattle.dcv_automaton_lines.specs.Stops.{IsEnd, IsNumberEnd, is_binary, IsStuckAt};

use crate::stop::Stuck;
use dcv_language::Child;

// The largest number that a further digit may follow.
const LARGEST_BEFORE_A_DIGIT: u32 = 999_999;

/// Whether this byte stands at the front.
pub fn begins_with(text: &[u8], byte: u8) -> bool
    ensures { IsTrue result ↔ ((0 < length text.now) × (slice_index text.now 0 ≡ byte)) }
{
    !text.is_empty() && text[0] == byte
}

/// The text after a word at its front.
pub fn literal<'a>(text: &'a [u8], word: &[u8]) -> Result<&'a [u8], Stuck<'a>>
    ensures ok { IfOk result (λ rest. text.now ≡ word.now ++ rest.now) }
    ensures fault { IsStuckAt (Exactly word.now) text.now result }
{
    for (place, byte) in word.iter().enumerate() {
        if place == text.len() || text[place] != *byte {
            return Err(Stuck {
                left: &text[place..],
            });
        }
    }
    Ok(&text[word.len()..])
}

// Whether a digit may follow so many digits of this number: no zero stands in front, and there are seven at most.
fn takes_a_digit(place: usize, number: u32) -> bool
    ensures { IsTrue result ↔ ((place ≡ 0) ⊎ ((0 < number) × (number ≤ 999999))) }
{
    place == 0 || (0 < number && number <= LARGEST_BEFORE_A_DIGIT)
}

/// A number, and the text after its end.
pub fn number<'a>(text: &'a [u8], end: u8) -> Result<(u32, &'a [u8]), Stuck<'a>>
    requires { IsNumberEnd end }
    ensures small { IfOk result (λ read. IsNumber read.0) }
    ensures spelled { IfOk result (λ read. text.now ≡ decimal read.0 ++ end ∷ read.1.now) }
    ensures fault { IsStuckAt (Followed NumberWord end Nothing) text.now result }
{
    let mut number = 0;
    for (place, byte) in text.iter().enumerate() {
        if place > 0 && *byte == end {
            return Ok((number, &text[place + 1..]));
        }
        if !byte.is_ascii_digit() || !takes_a_digit(place, number) {
            return Err(Stuck {
                left: &text[place..],
            });
        }
        number = 10 * number + u32::from(*byte - b'0');
    }
    Err(Stuck {
        left: &text[text.len()..],
    })
}

/// The number of a node in its name, and the text after its end.
pub fn node_number<'a>(text: &'a [u8], end: u8) -> Result<(u32, &'a [u8]), Stuck<'a>>
    requires { IsNumberEnd end }
    ensures small { IfOk result (λ read. IsNumber read.0) }
    ensures spelled { IfOk result (λ read. text.now ≡ node_word read.0 ++ end ∷ read.1.now) }
    ensures fault { IsStuckAt (Followed NodeWord end Nothing) text.now result }
{
    if !begins_with(text, b'n') {
        return Err(Stuck { left: text });
    }
    number(&text[1..], end)
}

/// What comes next in a row, and the text after its end.
pub fn target<'a>(text: &'a [u8], end: u8) -> Result<(Child, &'a [u8]), Stuck<'a>>
    requires { IsNumberEnd end }
    ensures small { IfOk result (λ read. IsTarget read.0) }
    ensures spelled { IfOk result (λ read. text.now ≡ target_word read.0 ++ end ∷ read.1.now) }
    ensures fault { IsStuckAt (Followed TargetWord end Nothing) text.now result }
{
    if begins_with(text, b't') {
        let (state, rest) = number(&text[1..], end)?;
        return Ok((Child::State(state), rest));
    }
    if begins_with(text, b'n') {
        let (node, rest) = number(&text[1..], end)?;
        return Ok((Child::Node(node), rest));
    }
    Err(Stuck { left: text })
}

/// Whether `accept` stands there or `reject`, and the text after the space.
pub fn answer<'a>(text: &'a [u8]) -> Result<(bool, &'a [u8]), Stuck<'a>>
    ensures spelled { IfOk result (λ read. text.now ≡ answer_word read.0 ++ 32 ∷ read.1.now) }
    ensures fault { IsStuckAt (Followed AnswerWord 32 Nothing) text.now result }
{
    if begins_with(text, b'a') {
        let rest = literal(text, b"accept ")?;
        return Ok((true, rest));
    }
    let rest = literal(text, b"reject ")?;
    Ok((false, rest))
}

/// How many visible bytes stand at the front.
pub fn visible_length(text: &[u8]) -> usize
    ensures within { result ≤ length text.now }
    ensures all { list_all is_visible (take result text.now) ≡ true }
    ensures ends { result < length text.now → is_visible (slice_index text.now result) ≡ false }
{
    for (place, byte) in text.iter().enumerate() {
        if *byte < 33 || 126 < *byte {
            return place;
        }
    }
    text.len()
}

/// A name, and the text after its end.
pub fn name<'a>(text: &'a [u8], end: u8) -> Result<(&'a [u8], &'a [u8]), Stuck<'a>>
    requires { IsEnd end }
    ensures form { IfOk result (λ read. IsNameWord read.0.now) }
    ensures spelled { IfOk result (λ read. text.now ≡ read.0.now ++ end ∷ read.1.now) }
    ensures fault { IsStuckAt (Followed NameWord end Nothing) text.now result }
{
    let size = visible_length(text);
    if size == 0 || size == text.len() || text[size] != end {
        return Err(Stuck {
            left: &text[size..],
        });
    }
    Ok((&text[..size], &text[size + 1..]))
}

// How many digits `0` and `1` stand at the front.
fn binary_length(text: &[u8]) -> usize
    ensures within { result ≤ length text.now }
    ensures all { list_all is_binary (take result text.now) ≡ true }
    ensures ends { result < length text.now → is_binary (slice_index text.now result) ≡ false }
{
    for (place, byte) in text.iter().enumerate() {
        if *byte != b'0' && *byte != b'1' {
            return place;
        }
    }
    text.len()
}

// A dash, and the text after its end.
fn dash<'a>(text: &'a [u8], end: u8) -> Result<(&'a [u8], &'a [u8]), Stuck<'a>>
    requires end { IsEnd end }
    requires some { 0 < length text.now }
    requires is { slice_index text.now 0 ≡ 45 }
    ensures form { IfOk result (λ read. read.0.now ≡ trace_line (letter_of read.0.now)) }
    ensures spelled { IfOk result (λ read. text.now ≡ read.0.now ++ end ∷ read.1.now) }
    ensures fault { IsStuckAt (Followed LetterWord end Nothing) text.now result }
{
    if text.len() == 1 || text[1] != end {
        return Err(Stuck { left: &text[1..] });
    }
    Ok((&text[..1], &text[2..]))
}

// Digits `0` and `1`, and the text after their end.
fn digits<'a>(text: &'a [u8], end: u8) -> Result<(&'a [u8], &'a [u8]), Stuck<'a>>
    requires end { IsEnd end }
    requires other { 0 < length text.now → slice_index text.now 0 ≢ 45 }
    ensures form { IfOk result (λ read. read.0.now ≡ trace_line (letter_of read.0.now)) }
    ensures spelled { IfOk result (λ read. text.now ≡ read.0.now ++ end ∷ read.1.now) }
    ensures fault { IsStuckAt (Followed LetterWord end Nothing) text.now result }
{
    let size = binary_length(text);
    if size == 0 || size == text.len() || text[size] != end {
        return Err(Stuck {
            left: &text[size..],
        });
    }
    Ok((&text[..size], &text[size + 1..]))
}

/// A letter as it is spelled, and the text after its end.
pub fn letter<'a>(text: &'a [u8], end: u8) -> Result<(&'a [u8], &'a [u8]), Stuck<'a>>
    requires { IsEnd end }
    ensures form { IfOk result (λ read. read.0.now ≡ trace_line (letter_of read.0.now)) }
    ensures spelled { IfOk result (λ read. text.now ≡ read.0.now ++ end ∷ read.1.now) }
    ensures fault { IsStuckAt (Followed LetterWord end Nothing) text.now result }
{
    if begins_with(text, b'-') {
        return dash(text, end);
    }
    digits(text, end)
}
