// What numbers of a text stand for.
ghost use Rattle.std.specs.Prelude.{◌≡◌, IsTrue};
ghost use Rattle.std.specs.List.{list_all};
ghost use Rattle.std.specs.Char.{is_ascii_digit};
ghost use Rattle.dcv_lexer.specs.Lexicon.{is_number};
ghost use Rattle.dcv_lexer.specs.Decimal.{value_of};
ghost use Rattle.dcv_observer.specs.Classes.{is_small_number};

use crate::items::{Item, LARGEST_NUMBER};
use dcv_lexer::value_up_to;

/// Whether an item is a number, and no name.
pub fn is_number(bytes: &[u8]) -> bool
    ensures { result ≡ is_number bytes.now }
{
    !bytes.is_empty() && are_digits(bytes)
}

fn are_digits(bytes: &[u8]) -> bool
    ensures { result ≡ list_all is_ascii_digit bytes.now }
{
    bytes.iter().all(|byte| byte.is_ascii_digit())
}

/// What digits stand for.
pub fn number_at(item: &Item<'_>) -> u16
    requires { IsTrue (is_small_number item.now.bytes.now) }
    ensures { result ≡ value_of item.now.bytes.now }
{
    value_up_to(item.bytes, LARGEST_NUMBER) as u16
}
