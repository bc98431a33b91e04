// The tokens of a text, one after another: a lexer by the longest match.
ghost use Rattle.std.specs.Prelude.{◌≡◌, ◌+◌, ◌^◌, ◌<◌, length, IsTrue};
ghost use Rattle.dcv_lexer.specs.Lexicon.{lexicon_of, is_orderly};

use crate::pieces::first_piece;
use crate::tables::Lexicon;

/// A token where it stands.
#[derive(Clone, Copy)]
pub struct Lexeme<'a> {
    /// Its bytes.
    pub bytes: &'a [u8],
    /// The offset of its first byte.
    pub start: u32,
    /// What it is to a grammar.
    pub class: u8,
}

/// The tokens of a text from some offset on. They end where no piece begins: at the end of the text, or before.
#[derive(Drop)]
pub struct Lexer<'a> {
    // what the language is written with
    lexicon: &'a Lexicon<'a>,
    // the text that is left
    rest: &'a [u8],
    // where it begins in the whole text
    start: u32,
    ghost orderly: { IsTrue (is_orderly (lexicon_of lexicon.now)) },
    ghost in_range: { start + length rest.now < 2 ^ 32 },
}

impl<'a> Lexer<'a> {
    /// The tokens of a whole text.
    pub fn new(lexicon: &'a Lexicon<'a>, text: &'a [u8]) -> Self
        requires orderly { IsTrue (is_orderly (lexicon_of lexicon.now)) }
        requires in_range { length text.now < 2 ^ 32 }
        ensures lexicon { result.lexicon.now ≡ lexicon.now }
        ensures from { result.start ≡ 0 }
        ensures all { result.rest.now ≡ text.now }
    {
        Lexer {
            lexicon,
            rest: text,
            start: 0,
        }
    }

    /// What the text is written with.
    pub fn lexicon(&self) -> &'a Lexicon<'a>
        ensures { result.now ≡ self.now.lexicon.now }
    {
        self.lexicon
    }

    /// What is left of the text.
    pub fn rest(&self) -> &'a [u8]
        ensures { result.now ≡ self.now.rest.now }
    {
        self.rest
    }

    /// The offset of what is left.
    pub fn start(&self) -> u32
        ensures { result ≡ self.now.start }
    {
        self.start
    }
}

impl<'a> Iterator for Lexer<'a> {
    ghost use Rattle.std.specs.Iterator.{at_most};
    ghost use Rattle.dcv_lexer.specs.Reading.{GivesToken};

    type Item = Lexeme<'a>;

    ghost next_gives = { GivesToken };

    ghost remaining = { λ lexer. at_most (length lexer.rest.now) };

    fn next(&mut self) -> Option<Lexeme<'a>> {
        while let Some(front) = first_piece(self.lexicon, self.rest) {
            let (bytes, rest) = self.rest.split_at(front.length);
            let start = self.start;
            *self = Lexer {
                lexicon: self.lexicon,
                rest,
                start: start + front.length as u32,
            };
            if let Some(class) = front.class {
                return Some(Lexeme {
                    bytes,
                    start,
                    class,
                });
            }
        }
        None
    }
}
