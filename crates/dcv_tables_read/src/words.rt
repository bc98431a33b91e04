// Words are read from the front of a text.
ghost use Rattle.std.specs.Prelude.{◌≡◌, ◌<◌, ◌≤◌, ◌++◌, true, false, length, take, slice_index, IfOk};
ghost use Rattle.std.specs.List.{flat_map, list_all};
ghost use Rattle.dcv_tokens.specs.Tokens.{is_word_byte};
ghost use Rattle.dcv_automaton_lines.specs.Pieces.{Exactly};
ghost use Rattle.dcv_automaton_lines.specs.Stops.{IsStuckAt};
ghost use Rattle.dcv_tables_read.specs.Form.{IsNameWord};
ghost use Rattle.dcv_tables_read.specs.Parts.{NameSet, StopsNames};

use dcv_automaton_lines::{Stuck, literal};

/// The text after these pieces at its front.
pub fn pieces<'a>(text: &'a [u8], pieces: &[&[u8]]) -> Result<&'a [u8], Stuck<'a>>
    ensures ok { IfOk result (λ rest. text.now ≡ flat_map (λ piece. piece.now) pieces.now ++ rest.now) }
    ensures fault { IsStuckAt (Exactly (flat_map (λ piece. piece.now) pieces.now)) text.now result }
{
    let mut rest = text;
    for piece in pieces {
        rest = literal(rest, piece)?;
    }
    Ok(rest)
}

fn is_word_byte(byte: u8) -> bool
    ensures { result ≡ is_word_byte byte }
{
    byte.is_ascii_alphabetic() || byte.is_ascii_digit() || byte == b'_'
}

// How many letters, digits and `_` stand at the front.
fn word_length(text: &[u8]) -> usize
    ensures within { result ≤ length text.now }
    ensures all { list_all is_word_byte (take result text.now) ≡ true }
    ensures ends { result < length text.now → is_word_byte (slice_index text.now result) ≡ false }
{
    for (place, byte) in text.iter().enumerate() {
        if !is_word_byte(*byte) {
            return place;
        }
    }
    text.len()
}

/// A name, and the text after what ends it.
pub fn name<'a>(text: &'a [u8], behind: &[u8]) -> Result<(&'a [u8], &'a [u8]), Stuck<'a>>
    requires { StopsNames behind.now }
    ensures word { IfOk result (λ read. IsNameWord read.0.now) }
    ensures spelled { IfOk result (λ read. text.now ≡ (read.0.now ++ behind.now) ++ read.1.now) }
    ensures fault { IsStuckAt (NameSet behind.now) text.now result }
{
    let size = word_length(text);
    if size == 0 {
        return Err(Stuck { left: text });
    }
    let rest = literal(&text[size..], behind)?;
    Ok((&text[..size], rest))
}
