// A letter: the truths of up to 32 variables, kept as the binary digits of one number, the first variable's the
// highest. Letters of two widths are compared as numbers once both stand at the high end of 32 bits.
ghost use Rattle.std.specs.Prelude.{◌≡◌, ◌-◌, ◌*◌, ◌^◌, ◌<◌, ◌≤◌, ◌↔◌, Bool, false, List, length, IsTrue, slice_get, slice_set, slice_index_or};
ghost use Rattle.dcv_word.specs.Letter.{letter_of, bits_of};
ghost use Rattle.dcv_word.specs.TraceLine.{digit_of};

use std::cmp::Ordering;
use std::fmt;
use std::marker::Model;

/// The values of the declared variables at one instant. Variable number `slot` has the bit of that number,
/// counted from the highest of the letter's `width` bits.
#[derive(Clone, Copy, Debug)]
pub struct Letter {
    // how many variables it has
    width: u8,
    // their truths, the first variable's in the highest place
    bits: u32,
}

impl Model for Letter {
    ghost use Rattle.std.specs.Prelude.{◌^◌, ◌<◌, ◌≤◌, Bool, List, length};
    ghost use Rattle.dcv_word.specs.Letter.{letter_of, bits_of};
    ghost use Rattle.dcv_word.specs.LetterFacts.{length-letter_of, bits_of-letter_of};

    ghost Value = { List Bool };

    ghost view = { λ l. letter_of l.width l.bits };

    ghost invariant = { λ l. (l.width ≤ 32) × (l.bits < 2 ^ l.width) };

    ghost inverse = { λ values. record { width = length values; bits = bits_of values } };

    ghost inverse_ok = { λ l h i. record { width = length-letter_of l.width l.bits i; bits = bits_of-letter_of l.width l.bits h.1 i } };
}

impl Letter {
    /// The letter of `width` variables whose values are the binary digits of `bits`, the highest in slot 0.
    pub fn new(width: u8, bits: u32) -> Letter
        requires width { width ≤ 32 }
        requires bits { bits < 2 ^ width }
        ensures letter { result ≡ letter_of width bits }
        ensures width { length result ≡ width }
        ensures bits { bits_of result ≡ bits }
    {
        Letter { width, bits }
    }

    /// How many variables there are, 32 at most.
    pub fn width(&self) -> u8
        ensures width { result ≡ length self.now }
        ensures bound { result ≤ 32 }
    {
        self.width
    }

    /// The number whose binary digits the values are, the value in slot 0 the highest.
    pub fn bits(&self) -> u32
        ensures bits { result ≡ bits_of self.now }
        ensures bound { result < 2 ^ length self.now }
    {
        self.bits
    }

    /// The value of the variable in this slot.
    pub fn get(&self, slot: u8) -> bool
        requires { slot < length self.now }
        ensures found { slice_get self.now slot ≡ Some result }
        ensures value { result ≡ slice_index_or self.now slot false }
    {
        (self.bits >> (self.width - 1 - slot)) & 1 == 1
    }

    /// The letter with this value in this slot, and the other values as they are.
    pub fn with(self, slot: u8, value: bool) -> Letter
        requires { slot < length self }
        ensures { result ≡ slice_set self slot value }
    {
        Letter::new(self.width, self.bits_with(slot, value))
    }

    // The number of that letter.
    fn bits_with(&self, slot: u8, value: bool) -> u32
        requires { slot < length self.now }
        ensures { result ≡ bits_of (slice_set self.now slot value) }
    {
        let place = 1u32 << (self.width - 1 - slot);
        if self.get(slot) == value {
            self.bits
        } else if value {
            self.bits + place
        } else {
            self.bits - place
        }
    }

    // The value of the variable in this slot, as it is spelled in a trace.
    pub(crate) fn digit(&self, slot: u8) -> u8
        requires { slot < length self.now }
        ensures { result ≡ digit_of (slice_index_or self.now slot false) }
    {
        if self.get(slot) { b'1' } else { b'0' }
    }

    // The bits moved up to the high end of 32, where letters of any widths can be compared.
    fn aligned_bits(&self) -> u64
        ensures { result ≡ bits_of self.now * 2 ^ (32 - length self.now) }
    {
        u64::from(self.bits) << (32 - self.width)
    }
}

impl PartialEq for Letter {
    ghost use Rattle.std.specs.Prelude.{◌≡◌, ◌↔◌, IsTrue};
    ghost use Rattle.std.specs.Bool.{beq};
    ghost use Rattle.std.specs.Cmp.{partial_equiv_from_equiv, bool_eq_equiv};
    ghost use Rattle.std.specs.Cmp.Lexicographic.{pointwise, lists_equiv};

    ghost eq = { pointwise beq };

    ghost laws = { partial_equiv_from_equiv (lists_equiv bool_eq_equiv) };

    fn eq(&self, other: &Letter) -> bool
        ensures eq { result ≡ pointwise beq self.now other.now }
        ensures same { IsTrue result ↔ (self.now ≡ other.now) }
    {
        self.width == other.width && self.bits == other.bits
    }
}

impl Eq for Letter {
    ghost use Rattle.std.specs.Cmp.{bool_eq_equiv};
    ghost use Rattle.std.specs.Cmp.Lexicographic.{lists_equiv};

    ghost laws = { lists_equiv bool_eq_equiv };
}

impl PartialOrd for Letter {
    ghost use Rattle.std.specs.Ordering.{as_partial_cmp};
    ghost use Rattle.dcv_word.specs.Letter.{letter_order};
    ghost use Rattle.dcv_word.specs.LetterFacts.{letters_partial_order};

    ghost partial_cmp = { as_partial_cmp letter_order };

    ghost laws = { letters_partial_order };

    fn partial_cmp(&self, other: &Letter) -> Option<Ordering> {
        Some(self.cmp(other))
    }
}

/// Slot by slot, false before true.
impl Ord for Letter {
    ghost use Rattle.std.specs.Prelude.{refl};
    ghost use Rattle.dcv_word.specs.Letter.{letter_order};
    ghost use Rattle.dcv_word.specs.LetterFacts.{letters_total, letters_tied};

    ghost cmp = { letter_order };

    ghost total = { letters_total };

    ghost matches_partial_cmp = { λ _ _. refl };

    ghost matches_eq = { letters_tied };

    fn cmp(&self, other: &Letter) -> Ordering {
        self.aligned_bits()
            .cmp(&other.aligned_bits())
            .then(self.width.cmp(&other.width))
    }
}

/// The letter's line in a trace, without its end.
impl fmt::Display for Letter {
    ghost use Rattle.std.specs.Prelude.{Some};
    ghost use Rattle.dcv_word.specs.TraceLine.{trace_line};

    ghost output = { λ letter. Some (trace_line letter) };

    fn fmt<W: fmt::Write>(&self, f: &mut fmt::Formatter<W>) -> fmt::Result {
        if self.width == 0 {
            return f.write_str("-");
        }
        for slot in 0..self.width {
            f.write_char(char::from(self.digit(slot)))?;
        }
        Ok(())
    }
}
