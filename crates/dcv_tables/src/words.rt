// Letters in order, and what stands between parts of a text.
ghost use Rattle.std.specs.Prelude.{◌≡◌, ◌==◌, [], length, if◌then◌else◌, IfOk};
ghost use Rattle.std.specs.List.{All};
ghost use Rattle.dcv_word.specs.Letter.{letters_of_width};

use dcv_word::Letter;
use std::alloc::Global;
use std::test::Fail;

/// The letters of two slots at most, in order.
pub fn letters(alloc: Global, slots: u8) -> Result<Vec<Letter>, Fail>
    ensures letters { IfOk result (λ letters. letters.items ≡ letters_of_width slots) }
    ensures widths { IfOk result (λ letters. All (λ letter. length letter ≡ slots) letters.items) }
{
    match slots {
        0 => Ok(vec![in alloc; Letter::new(0, 0)]?),
        1 => Ok(vec![in alloc; Letter::new(1, 0), Letter::new(1, 1)]?),
        2 => Ok(vec![in alloc;
            Letter::new(2, 0),
            Letter::new(2, 1),
            Letter::new(2, 2),
            Letter::new(2, 3),
        ]?),
        _ => Err(Fail::new("there are more than two slots")),
    }
}

// What stands before the part of a text at a place, where this stands between two parts.
pub(crate) fn before(place: usize, between: &str) -> &str
    ensures { result.now ≡ (if place == 0 then [] else between.now) }
{
    if place == 0 { "" } else { between }
}
