// A word: letters in a row, their text in a trace, and which of two words is listed first.
ghost use Rattle.std.specs.Prelude.{◌≡◌, ◌≤◌, [], ◌∷◌, ◌++◌, length, IfOk, OnOk, OnErr};
ghost use Rattle.std.specs.List.{All};
ghost use Rattle.dcv_word.specs.Word.{shortlex_order};
ghost use Rattle.dcv_word.specs.TraceLine.{trace_line, trace_text};

use crate::letters::Letter;
use std::alloc::{AllocError, Global};
use std::cmp::Ordering;
use std::marker::Model;

/// A row of letters, each of the word's width.
#[derive(Drop)]
pub struct Word {
    // how many variables letters have
    width: u8,
    // the letters, in order
    letters: Vec<Letter>,
}

impl Model for Word {
    ghost use Rattle.dcv_word.specs.Word.{WordValue, IsWord};

    ghost Value = { WordValue };

    ghost view = { λ w. record { width = w.width; letters = w.letters.items } };

    ghost invariant = { λ w. IsWord w.width w.letters.items };
}

impl Word {
    /// The word with no letters, over this many variables.
    pub fn new(alloc: Global, width: u8) -> Word
        requires { width ≤ 32 }
        ensures width { result.width ≡ width }
        ensures letters { result.letters ≡ [] }
    {
        Word {
            width,
            letters: Vec::new(alloc),
        }
    }

    /// Adds a letter at the end.
    pub fn push(&mut self, letter: Letter) -> Result<(), AllocError>
        requires { length letter ≡ self.old.width }
        ensures width { self.new.width ≡ self.old.width }
        ensures ok { OnOk result (self.new.letters ≡ self.old.letters ++ letter ∷ []) }
        ensures err { OnErr result (self.new ≡ self.old) }
    {
        self.letters.push(letter)?;
        Ok(())
    }

    /// How many variables each letter values, 32 at most.
    pub fn width(&self) -> u8
        ensures width { result ≡ self.now.width }
        ensures bound { result ≤ 32 }
    {
        self.width
    }

    /// The letters, in order.
    pub fn letters(&self) -> &[Letter]
        ensures letters { result.now ≡ self.now.letters }
        ensures widths { All (λ letter. length letter ≡ self.now.width) self.now.letters }
    {
        self.letters.as_slice()
    }

    /// The word's lines in a trace, each ended by a line feed.
    pub fn text(&self, alloc: Global) -> Result<Vec<u8>, AllocError>
        ensures { IfOk result (λ text. text.items ≡ trace_text self.now.letters) }
    {
        let mut text = Vec::new(alloc);
        for letter in self.letters() {
            push_trace_line(&mut text, *letter)?;
            text.push(b'\n')?;
        }
        Ok(text)
    }
}

// Adds the letter's line, without its end.
fn push_trace_line(text: &mut Vec<u8>, letter: Letter) -> Result<(), AllocError>
    ensures { OnOk result (text.new.items ≡ text.old.items ++ trace_line letter) }
{
    if letter.width() == 0 {
        text.push(b'-')?;
        return Ok(());
    }
    for slot in 0..letter.width() {
        text.push(letter.digit(slot))?;
    }
    Ok(())
}

/// Which of two words is listed first: the shorter, and of two as long the one with the lesser letter
/// where they first differ.
pub fn shortlex(a: &Word, b: &Word) -> Ordering
    requires { a.now.width ≡ b.now.width }
    ensures { result ≡ shortlex_order a.now.letters b.now.letters }
{
    let (a, b) = (a.letters(), b.letters());
    a.len().cmp(&b.len()).then_with(|| a.cmp(b))
}
