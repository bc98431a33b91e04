// The items of a text, one after another, each with its class.
ghost use Rattle.std.specs.Prelude.{◌≡◌, ◌^◌, ◌<◌, length, IsTrue, IfSome};
ghost use Rattle.dcv_lexer.specs.Lexicon.{lexicon_of, is_token, is_orderly};
ghost use Rattle.dcv_lexer.specs.Lexicon as lexer;
ghost use Rattle.dcv_lexer.specs.Cuts.{BeginsWithNoPiece};
ghost use Rattle.dcv_lexer.specs.Reading.{lexicon_in};
ghost use Rattle.dcv_observer.specs.Classes.{keeps_limits, class_of};

use dcv_lexer::{Lexeme, Lexer, Lexicon, value_up_to};

/// The class of a word that is not reserved.
pub const NAME: u8 = 0;

/// The class of a number.
pub const NUMBER: u8 = 1;

/// The class of a stray byte, of a word that is too long and of a number that is too large or begins with a 0 that may not
/// stand there. It stands in no sentence.
pub const UNKNOWN: u8 = 2;

/// How many bytes a word may have.
pub const LONGEST_WORD: usize = 32;

/// The largest number that may stand in a text.
pub const LARGEST_NUMBER: u32 = 32_767;

/// A word, a number, a symbol, or a byte with which no piece begins.
#[derive(Clone, Copy)]
pub struct Item<'a> {
    /// Its bytes.
    pub bytes: &'a [u8],
    /// The offset of its first byte.
    pub start: u32,
    /// What it is to a grammar.
    pub class: u8,
}

/// The items of a text from some offset on. After a stray byte there are none.
#[derive(Drop)]
pub struct Items<'a> {
    // what cuts the text
    lexer: Lexer<'a>,
}

// Whether a token is no word that is too long, and no number that is too large.
fn keeps_limits(lexicon: &Lexicon, bytes: &[u8]) -> bool
    requires orderly { IsTrue (is_orderly (lexicon_of lexicon.now)) }
    requires token { IsTrue (is_token (lexicon_of lexicon.now) bytes.now) }
    ensures { result ≡ keeps_limits bytes.now }
{
    let first = bytes[0];
    if first.is_ascii_alphabetic() {
        bytes.len() <= LONGEST_WORD
    } else if first.is_ascii_digit() {
        value_up_to(bytes, LARGEST_NUMBER) <= LARGEST_NUMBER
    } else {
        true
    }
}

// The class of a token for which the lexicon has this one.
fn class_within(lexicon: &Lexicon, bytes: &[u8], class: u8) -> u8
    requires orderly { IsTrue (is_orderly (lexicon_of lexicon.now)) }
    requires token { IsTrue (is_token (lexicon_of lexicon.now) bytes.now) }
    requires class { class ≡ lexer.class_of (lexicon_of lexicon.now) bytes.now }
    ensures { result ≡ class_of (lexicon_of lexicon.now) bytes.now }
{
    if keeps_limits(lexicon, bytes) {
        class
    } else {
        lexicon.unknown
    }
}

impl<'a> Items<'a> {
    ghost use Rattle.dcv_observer.specs.Items.{HasItems};
    ghost use Rattle.dcv_observer.specs.Left.{left, GivesItem};

    /// The items of a whole text.
    pub fn new(lexicon: &'a Lexicon<'a>, text: &'a [u8]) -> Self
        requires orderly { IsTrue (is_orderly (lexicon_of lexicon.now)) }
        requires in_range { length text.now < 2 ^ 32 }
        ensures lexicon { lexicon_in result.lexer ≡ lexicon_of lexicon.now }
        ensures all { HasItems (lexicon_of lexicon.now) text.now (left result) }
    {
        Items {
            lexer: Lexer::new(lexicon, text),
        }
    }

    // The first byte that is left, where no piece begins.
    fn stray(&mut self) -> Option<Item<'a>>
        requires { BeginsWithNoPiece (lexicon_in self.old.lexer) self.old.lexer.rest.now }
        ensures gives { GivesItem self.old result self.new }
        ensures shorter { IfSome result (λ _. length self.new.lexer.rest.now < length self.old.lexer.rest.now) }
    {
        let rest = self.lexer.rest();
        if rest.is_empty() {
            return None;
        }
        let start = self.lexer.start();
        let lexicon = self.lexer.lexicon();
        self.lexer = Lexer::new(lexicon, &rest[..0]);
        Some(Item {
            bytes: &rest[..1],
            start,
            class: lexicon.unknown,
        })
    }
}

impl<'a> Iterator for Items<'a> {
    ghost use Rattle.std.specs.Iterator.{at_most};
    ghost use Rattle.dcv_observer.specs.Left.{GivesItem};

    type Item = Item<'a>;

    ghost next_gives = { GivesItem };

    ghost remaining = { λ items. at_most (length items.lexer.rest.now) };

    fn next(&mut self) -> Option<Item<'a>> {
        let lexicon = self.lexer.lexicon();
        let Some(
            Lexeme {
                bytes,
                start,
                class,
            },
        ) = self.lexer.next()
        else {
            return self.stray();
        };
        let class = class_within(lexicon, bytes, class);
        Some(Item {
            bytes,
            start,
            class,
        })
    }
}
