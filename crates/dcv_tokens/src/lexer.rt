// The tokens of a formula file, one after another.
ghost use Rattle.std.specs.Prelude.{◌≡◌, ◌+◌, ◌^◌, ◌<◌, ◌≤◌, length, min, IsTrue};
ghost use Rattle.dcv_tokens.specs.Tokens.{is_number, is_token};
ghost use Rattle.dcv_tokens.specs.Classes.{class_of};
ghost use Rattle.dcv_tokens.specs.Decimal.{value_of};
ghost use Rattle.dcv_lexer.specs.Lexicon.{lexicon_of};
ghost use Rattle.dcv_tokens.specs.Formulas.{formulas};

use crate::classes::*;
use dcv_grammar::grammar::Classified;
use dcv_lexer::{Lexeme, Lexer, value_up_to};
use dcv_syntax::Span;

/// A token where it stands.
#[derive(Clone, Copy)]
pub struct Token<'a> {
    /// Its bytes.
    pub bytes: &'a [u8],
    /// The offset of its first byte.
    pub start: u32,
    /// What it is to the grammar.
    pub class: u8,
    ghost is_a_token: { IsTrue (is_token bytes.now) },
    ghost of_class: { class ≡ class_of bytes.now },
    ghost in_range: { start + length bytes.now < 2 ^ 32 },
}

// How many bytes a word may have.
const LONGEST_WORD: usize = 24;

// The largest number that may stand in a text.
const LARGEST_NUMBER: u32 = 9_999;

// What counts towards the depth of a definition or the goal.
const NESTING: [u8; 10] = [
    OPEN_PARENTHESIS,
    EXCLAMATION,
    DIAMOND,
    BOX,
    WORD_EX,
    WORD_ALL,
    ARROW,
    STAR,
    MINUS,
    PLUS,
];

// What a definition or the goal begins with.
const BEGINNINGS: [u8; 3] = [WORD_DEFINE, WORD_PROP, WORD_INFER];

impl Token<'_> {
    ghost use Rattle.dcv_tokens.specs.Tokens.{span_of, span_over};
    ghost use Rattle.dcv_tokens.specs.Limits.{largest_number, is_long, is_large, nests, begins_part};
    ghost use Rattle.dcv_tokens.specs.Reading.{seen};

    /// What a number stands for, and 10,000 where that is larger still.
    pub fn value(&self) -> u32
        requires { IsTrue (is_number self.now.bytes.now) }
        ensures { result ≡ min (value_of self.now.bytes.now) (largest_number + 1) }
    {
        value_up_to(self.bytes, LARGEST_NUMBER)
    }

    /// Whether it is a word with more bytes than a name may have.
    pub fn is_long(&self) -> bool
        ensures { result ≡ is_long (seen self.now) }
    {
        self.bytes[0].is_ascii_alphabetic() && self.bytes.len() > LONGEST_WORD
    }

    /// Whether it is a number above the largest that may stand in a text.
    pub fn is_large(&self) -> bool
        ensures { result ≡ is_large (seen self.now) }
    {
        self.bytes[0].is_ascii_digit() && self.value() > LARGEST_NUMBER
    }

    /// Whether it is `(`, `!`, `<>`, `[]`, `ex`, `all`, `=>`, `*`, `-` or `+`.
    pub fn nests(&self) -> bool
        ensures { result ≡ nests (seen self.now) }
    {
        NESTING.contains(&self.class)
    }

    /// Whether a definition or the goal begins with it: `define`, `prop` or `infer`.
    pub fn begins_part(&self) -> bool
        ensures { result ≡ begins_part (seen self.now) }
    {
        BEGINNINGS.contains(&self.class)
    }

    /// From its first byte to its last.
    pub fn span(&self) -> Span
        ensures { result ≡ span_of (seen self.now) }
    {
        Span {
            start: self.start,
            end: self.start + self.bytes.len() as u32,
        }
    }

    /// From the first byte of this token to the last of another.
    pub fn span_to(&self, last: &Token) -> Span
        ensures { result ≡ span_over (seen self.now) (seen last.now) }
    {
        self.span().to(last.span())
    }
}

impl Classified for Token<'_> {
    ghost class_of = { λ token. class_of token.bytes.now };

    fn class(&self) -> u8 {
        self.class
    }
}

/// The tokens of a formula file from some offset on. They end where no piece begins: at the end, or at a byte fault.
#[derive(Drop)]
pub struct Tokens<'a> {
    // what cuts the text
    lexer: Lexer<'a>,
    ghost of_formulas: { lexicon_of lexer.lexicon.now ≡ formulas },
}

impl<'a> Tokens<'a> {
    /// The tokens of a whole text.
    pub fn new(text: &'a [u8]) -> Self
        requires { length text.now < 2 ^ 32 }
        ensures from { result.lexer.start ≡ 0 }
        ensures all { result.lexer.rest.now ≡ text.now }
    {
        Tokens {
            lexer: Lexer::new(formulas(), text),
        }
    }

    /// What is left of the text.
    pub fn rest(&self) -> &'a [u8]
        ensures { result.now ≡ self.now.lexer.rest.now }
    {
        self.lexer.rest()
    }
}

impl<'a> Iterator for Tokens<'a> {
    ghost use Rattle.std.specs.Iterator.{at_most};
    ghost use Rattle.dcv_tokens.specs.Reading.{GivesToken};

    type Item = Token<'a>;

    ghost next_gives = { GivesToken };

    ghost remaining = { λ tokens. at_most (length tokens.lexer.rest.now) };

    fn next(&mut self) -> Option<Token<'a>> {
        let Some(
            Lexeme {
                bytes,
                start,
                class,
            },
        ) = self.lexer.next()
        else {
            return None;
        };
        Some(Token {
            bytes,
            start,
            class,
        })
    }
}
