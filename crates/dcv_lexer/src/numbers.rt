// What a number in decimal stands for.
ghost use Rattle.std.specs.Prelude.{◌≡◌, ◌+◌, ◌^◌, ◌<◌, min, IsTrue};
ghost use Rattle.dcv_lexer.specs.Lexicon.{is_number};
ghost use Rattle.dcv_lexer.specs.Decimal.{value_of};

/// The value of the decimal digits, or `largest + 1` where it is above `largest`. The first digits may be 0.
pub fn value_up_to(digits: &[u8], largest: u32) -> u32
    requires number { IsTrue (is_number digits.now) }
    requires in_range { largest < 2 ^ 16 }
    ensures { result ≡ min (value_of digits.now) (largest + 1) }
{
    let mut value = 0;
    for digit in digits {
        let longer = 10 * value + u32::from(*digit - b'0');
        value = longer.min(largest + 1);
    }
    value
}
