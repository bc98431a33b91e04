// Letters from the lines of a text.
ghost use Rattle.std.specs.Prelude.{◌≡◌, ◌≤◌, length, map, nat_eq};
ghost use Rattle.std.specs.Str.{byte};
ghost use Rattle.dcv_automaton_lines.specs.Seen.{letter_of};

use dcv_word::Letter;

// The letter with these digits.
fn spelled(digits: &[u8]) -> Letter
    requires { length digits.now ≤ 32 }
    ensures { result ≡ map (nat_eq (byte "1")) digits.now }
{
    let mut letter = Letter::new(digits.len() as u8, 0);
    for (slot, digit) in digits.iter().enumerate() {
        letter = letter.with(slot as u8, *digit == b'1');
    }
    letter
}

// The letter that is spelled so, a dash where there are no variables.
pub(crate) fn letter_of(digits: &[u8]) -> Letter
    requires { length (letter_of digits.now) ≤ 32 }
    ensures { result ≡ letter_of digits.now }
{
    if digits == b"-".as_slice() {
        return Letter::new(0, 0);
    }
    spelled(digits)
}
