// The longest piece with which a text begins: white space, a comment or a token.
ghost use Rattle.std.specs.Prelude.{◌≡◌, map, option_map, take, nat_eq, Some, IfNone, IfSome, IsTrue};
ghost use Rattle.std.specs.List.{prefix_len, starts_with};
ghost use Rattle.std.specs.Char.{is_ascii_digit};
ghost use Rattle.dcv_lexer.specs.Lexicon.{lexicon_of, is_white, is_in_line, is_word_byte, word_class, number_class, is_orderly};
ghost use Rattle.dcv_lexer.specs.Cuts.{BeginsWithNoPiece};
ghost use Rattle.dcv_lexer.specs.Fronts.{first_fit, front_of, IsFront};

use crate::tables::Lexicon;

/// A piece with which a text begins.
#[derive(Clone, Copy)]
pub struct Front {
    /// How many bytes it has.
    pub length: usize,
    /// The class of a token, and none of white space and comments.
    pub class: Option<u8>,
}

fn is_white(byte: u8) -> bool
    ensures { result ≡ is_white byte }
{
    matches!(byte, b' ' | b'\t' | b'\n' | b'\r')
}

fn is_word_byte(byte: u8) -> bool
    ensures { result ≡ is_word_byte byte }
{
    byte.is_ascii_alphabetic() || byte.is_ascii_digit() || byte == b'_'
}

// How many bytes stand before the end of the line.
fn line_length(text: &[u8]) -> usize
    ensures { result ≡ prefix_len is_in_line text.now }
{
    text.iter().take_while(|byte| **byte != b'\n').count()
}

// How many letters, digits and `_` stand at the front.
fn word_length(text: &[u8]) -> usize
    ensures { result ≡ prefix_len is_word_byte text.now }
{
    text.iter().take_while(|byte| is_word_byte(**byte)).count()
}

// How many digits stand at the front.
fn number_length(text: &[u8]) -> usize
    ensures { result ≡ prefix_len is_ascii_digit text.now }
{
    text.iter().take_while(|byte| byte.is_ascii_digit()).count()
}

// Whether the text begins with these bytes. Most do not have its first byte.
fn begins_with(text: &[u8], beginning: &[u8]) -> bool
    ensures { result ≡ starts_with nat_eq text.now beginning.now }
{
    match (text, beginning) {
        ([first, ..], [other, ..]) if first != other => false,
        _ => text.starts_with(beginning),
    }
}

// The first of the symbols with which the text begins, which is the longest, since longer ones come first.
fn symbol(symbols: &[(&[u8], u8)], text: &[u8]) -> Option<Front>
    ensures { result ≡ option_map front_of (first_fit text.now (map (λ entry. (entry.0.now, entry.1)) symbols.now)) }
{
    for (symbol, class) in symbols {
        if begins_with(text, symbol) {
            return Some(Front {
                length: symbol.len(),
                class: Some(*class),
            });
        }
    }
    None
}

// The letters, digits and `_` at the front.
fn word(lexicon: &Lexicon, text: &[u8]) -> Front
    ensures length { result.length ≡ prefix_len is_word_byte text.now }
    ensures class { result.class ≡ Some (word_class (lexicon_of lexicon.now) (take result.length text.now)) }
{
    let length = word_length(text);
    Front {
        length,
        class: Some(lexicon.word_class(&text[..length])),
    }
}

// The digits at the front.
fn number(lexicon: &Lexicon, text: &[u8]) -> Front
    ensures length { result.length ≡ prefix_len is_ascii_digit text.now }
    ensures class { result.class ≡ Some (number_class (lexicon_of lexicon.now) (take result.length text.now)) }
{
    let length = number_length(text);
    Front {
        length,
        class: Some(lexicon.number_class(&text[..length])),
    }
}

/// The longest piece with which the text begins.
pub fn first_piece(lexicon: &Lexicon, text: &[u8]) -> Option<Front>
    requires { IsTrue (is_orderly (lexicon_of lexicon.now)) }
    ensures none { IfNone result (BeginsWithNoPiece (lexicon_of lexicon.now) text.now) }
    ensures some { IfSome result (IsFront (lexicon_of lexicon.now) text.now) }
{
    match text {
        [] => None,
        [first, ..] if is_white(*first) => Some(Front {
            length: 1,
            class: None,
        }),
        [first, ..] if first.is_ascii_alphabetic() => Some(word(lexicon, text)),
        [first, ..] if first.is_ascii_digit() => Some(number(lexicon, text)),
        _ if lexicon.comments && text.starts_with(b"//") => Some(Front {
            length: line_length(text),
            class: None,
        }),
        _ => symbol(lexicon.symbols, text),
    }
}
