// The names of the line of variables are read one after another.
ghost use Rattle.std.specs.Prelude.{◌≡◌, ◌≢◌, ◌↔◌, ◌<◌, ◌++◌, ◌∷◌, List, [], length, map, codes, IfOk, IsTrue, if◌then◌else◌};
ghost use Rattle.std.specs.List.{All};
ghost use Rattle.dcv_automaton_text.specs.Form.{IsNameWord};
ghost use Rattle.dcv_automaton_text.specs.Spelled.{name_words};
ghost use Rattle.dcv_automaton_lines.specs.Parts.{Words, words_then};
ghost use Rattle.dcv_automaton_lines.specs.Stops.{IsEnd, IsStuckAt, IsStuckStop};

use crate::stop::{Stop, Stuck};
use crate::words::visible_length;
use std::alloc::Global;

/// A name of the line, and whether it is the last there.
#[derive(Clone, Copy)]
struct Listed<'a> {
    // the word
    word: &'a [u8],
    // whether no word follows it
    is_last: bool,
}

fn is_end(byte: u8) -> bool
    ensures { IsTrue result ↔ IsEnd byte }
{
    byte == b' ' || byte == b'\n'
}

// The name that begins there, and the text after its end.
fn next_name<'a>(text: &'a [u8]) -> Result<(Listed<'a>, &'a [u8]), Stuck<'a>>
    ensures form { IfOk result (λ read. IsNameWord read.0.word.now) }
    ensures spelled { IfOk result (λ read. text.now ≡ read.0.word.now ++ (if read.0.is_last then 10 else 32) ∷ read.1.now) }
    ensures fault { IsStuckAt Words text.now result }
{
    let size = visible_length(text);
    if size == 0 || size == text.len() || !is_end(text[size]) {
        return Err(Stuck {
            left: &text[size..],
        });
    }
    let is_last = text[size] == b'\n';
    let listed = Listed {
        word: &text[..size],
        is_last,
    };
    Ok((listed, &text[size + 1..]))
}

fn is_dash(word: &[u8]) -> bool
    ensures { IsTrue result ↔ (word.now ≡ codes "-") }
{
    word.len() == 1 && word[0] == b'-'
}

// The names that words stand for: a dash alone says that there are none.
fn named<'a>(alloc: Global, words: Vec<&'a [u8]>) -> Vec<&'a [u8]>
    requires { 0 < length words.items }
    ensures same { name_words (map (λ name. name.now) result.items) ≡ map (λ word. word.now) words.entry.items }
    ensures not_a_dash { map (λ name. name.now) result.items ≢ codes "-" ∷ [] }
    ensures form { All IsNameWord (map (λ word. word.now) words.entry.items) → All IsNameWord (map (λ name. name.now) result.items) }
{
    if words.len() == 1 && is_dash(words[0]) {
        return Vec::new(alloc);
    }
    words
}

/// The names of the line of variables, and the text after the line.
pub fn names<'a>(alloc: Global, text: &'a [u8]) -> Result<(Vec<&'a [u8]>, &'a [u8]), Stop<'a>>
    ensures form { IfOk result (λ read. All IsNameWord (map (λ name. name.now) read.0.items)) }
    ensures not_a_dash { IfOk result (λ read. map (λ name. name.now) read.0.items ≢ codes "-" ∷ []) }
    ensures spelled { IfOk result (λ read. text.now ≡ words_then (name_words (map (λ name. name.now) read.0.items)) read.1.now) }
    ensures fault { IsStuckStop Words text.now result }
{
    let mut words: Vec<&'a [u8]> = Vec::new(alloc);
    let mut rest = text;
    let mut is_open = true;
    while is_open {
        let (next, behind) = next_name(rest)?;
        words.push(next.word)?;
        is_open = !next.is_last;
        rest = behind;
    }
    Ok((named(alloc, words), rest))
}
