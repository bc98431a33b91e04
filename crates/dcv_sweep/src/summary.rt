// The counts, and the lines that say them.
ghost use Rattle.std.specs.Prelude.{◌≡◌, ◌++◌};
ghost use Rattle.std.specs.Fmt.{decimal};
ghost use Rattle.dcv_io.specs.Putting.{Puts};
ghost use Rattle.dcv_language.specs.VerdictText.{line};
ghost use Rattle.dcv_sweep.specs.Counting.{counted, HasRoom};
ghost use Rattle.dcv_sweep.specs.SummaryText.{summary_text};

use crate::findings::Finding;
use dcv_io::{Target, put_pieces};
use itoa::Buffer;

/// What is counted over formulas.
#[derive(Clone, Copy, Debug, Default, PartialEq, Eq)]
pub struct Summary {
    /// How many formulas there are.
    pub formulas: u32,
    /// How many of those that are not over the limits are valid.
    pub valid: u32,
    /// How many of them are satisfiable.
    pub satisfiable: u32,
    /// How many formulas have a step over the limits.
    pub over: u32,
    /// How many states the canonical automata of the others have together.
    pub states: u64,
}

impl Summary {
    // One formula more.
    pub(crate) fn count(&mut self, finding: Finding)
        requires { HasRoom self.old }
        ensures { self.new ≡ counted self.old finding }
    {
        self.formulas += 1;
        match finding {
            Finding::Over => self.over += 1,
            Finding::Within(judgement) => {
                self.valid += u32::from(judgement.valid);
                self.satisfiable += u32::from(judgement.satisfiable);
                self.states += u64::from(judgement.states);
            }
        }
    }

    /// Puts the lines that say it.
    pub fn put<T: Target>(&self, target: &mut T)
        ensures { Puts (T.standing target.old) (T.standing target.new) (summary_text self.now) }
    {
        put_line(target, b"formulas ", u64::from(self.formulas));
        put_line(target, b"valid ", u64::from(self.valid));
        put_line(target, b"satisfiable ", u64::from(self.satisfiable));
        put_line(target, b"over ", u64::from(self.over));
        put_line(target, b"states ", self.states);
    }
}

// A heading and a number.
fn put_line<T: Target>(target: &mut T, heading: &[u8], number: u64)
    ensures { Puts (T.standing target.old) (T.standing target.new) (line (heading.now ++ decimal number)) }
{
    let mut digits = Buffer::new();
    put_pieces(target, &[heading, digits.format(number).as_bytes(), b"\n"]);
}
