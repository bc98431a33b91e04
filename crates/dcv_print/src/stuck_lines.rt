// The lines that say after which behaviour there is no way to go on.
ghost use Rattle.dcv_io.specs.Putting.{Puts};
ghost use Rattle.dcv_print.specs.Stuck.{stuck_text};
ghost use Rattle.dcv_print.specs.Verdict.{letters_of};

use crate::verdict_lines::put_word;
use dcv_io::Target;
use dcv_word::Word;

/// Puts the least stuck word, after a line with the number of its letters, or that there is none.
pub fn put_stuck<T: Target>(target: &mut T, least: &Option<Word>)
    ensures { Puts (T.standing target.old) (T.standing target.new) (stuck_text (letters_of least.now)) }
{
    match least {
        None => target.put(b"never stuck\n"),
        Some(_) => put_word(target, b"stuck", least),
    }
}
