// The verdict of a set of behaviours, and the lines that say it.
ghost use Rattle.std.specs.Prelude.{◌≡◌, ◌<◌, ◌++◌, ◌∷◌, [], false, is_none, length, slice_index_or, codes, decimal, IfOk};
ghost use Rattle.dcv_language.specs.VerdictText.{validity_line, satisfiability_line, line, shown, verdict_text};
ghost use Rattle.dcv_word.specs.TraceLine.{digit_of, trace_line, trace_text};
ghost use Rattle.dcv_io.specs.Putting.{Puts};
ghost use Rattle.dcv_print.specs.Verdict.{letters_of, seen_verdict};

use dcv_io::{Target, Text, put_pieces};
use dcv_word::{Letter, Word};
use itoa::Buffer;
use std::alloc::{AllocError, Global};

/// The shortlex-least behaviour that is not in a set of behaviours, and the least that is, where there are such.
#[derive(Drop)]
pub struct Verdict {
    /// The least behaviour that is not in the set.
    pub counterexample: Option<Word>,
    /// The least that is.
    pub example: Option<Word>,
}

impl Verdict {
    /// Whether there is no counterexample.
    pub fn is_valid(&self) -> bool
        ensures { result ≡ is_none (seen_verdict self.now).counterexample }
    {
        self.counterexample.is_none()
    }

    /// The lines that say it.
    pub fn text(&self, alloc: Global) -> Result<Vec<u8>, AllocError>
        ensures { IfOk result (λ text. text.items ≡ verdict_text (seen_verdict self.now)) }
    {
        let mut text = Text::new(alloc);
        self.put(&mut text);
        text.finish()
    }

    // Puts the lines that say it.
    pub(crate) fn put<T: Target>(&self, target: &mut T)
        ensures { Puts (T.standing target.old) (T.standing target.new) (verdict_text (seen_verdict self.now)) }
    {
        put_pieces(target, &[self.validity(), self.satisfiability()]);
        put_word(target, b"counterexample", &self.counterexample);
        put_word(target, b"example", &self.example);
    }

    fn validity(&self) -> &'static [u8]
        ensures { result.now ≡ validity_line (seen_verdict self.now) }
    {
        match &self.counterexample {
            None => b"valid\n",
            Some(_) => b"not valid\n",
        }
    }

    fn satisfiability(&self) -> &'static [u8]
        ensures { result.now ≡ satisfiability_line (seen_verdict self.now) }
    {
        match &self.example {
            Some(_) => b"satisfiable\n",
            None => b"not satisfiable\n",
        }
    }
}

/// Puts the heading with the number of letters and the word's trace lines, or nothing where there is no word.
pub fn put_word<T: Target>(target: &mut T, heading: &[u8], word: &Option<Word>)
    ensures { Puts (T.standing target.old) (T.standing target.new) (shown heading.now (letters_of word.now)) }
{
    let Some(word) = word else {
        return;
    };
    let letters = word.letters();
    put_heading(target, heading, letters.len());
    put_letters(target, letters);
}

// The heading with a number.
pub(crate) fn put_heading<T: Target>(target: &mut T, heading: &[u8], number: usize)
    ensures { Puts (T.standing target.old) (T.standing target.new) (line (heading.now ++ codes " " ++ decimal number)) }
{
    let mut digits = Buffer::new();
    put_pieces(
        target,
        &[heading, b" ", digits.format(number).as_bytes(), b"\n"],
    );
}

// A line for each letter.
fn put_letters<T: Target>(target: &mut T, letters: &[Letter])
    ensures { Puts (T.standing target.old) (T.standing target.new) (trace_text letters.now) }
{
    for letter in letters {
        put_letter(target, *letter);
        target.put(b"\n");
    }
}

// A number in decimal.
pub(crate) fn put_number<T: Target>(target: &mut T, number: usize)
    ensures { Puts (T.standing target.old) (T.standing target.new) (decimal number) }
{
    let mut digits = Buffer::new();
    target.put(digits.format(number).as_bytes());
}

/// Puts a letter as a trace has it, without the line feed: a digit for the value of each variable in order, or a dash where there is none.
pub fn put_letter<T: Target>(target: &mut T, letter: Letter)
    ensures { Puts (T.standing target.old) (T.standing target.new) (trace_line letter) }
{
    if letter.width() == 0 {
        target.put(b"-");
        return;
    }
    for slot in 0..letter.width() {
        target.put(digit(letter, slot));
    }
}

// The value of the variable in this slot.
fn digit(letter: Letter, slot: u8) -> &'static [u8]
    requires { slot < length letter }
    ensures { result.now ≡ digit_of (slice_index_or letter slot false) ∷ [] }
{
    if letter.get(slot) { b"1" } else { b"0" }
}
