// Words are judged in turn, by their numbers, and the place of a word is found in the text once a rule is broken.
ghost use Rattle.std.specs.Prelude.{◌≡◌, ◌+◌, ◌^◌, ◌<◌, ◌≤◌, length, OnOk};
ghost use Rattle.dcv_automaton_read.specs.Judged.{IsJudged, first_false, AreTrue};
ghost use Rattle.dcv_automaton_read.specs.Starts.{start_of_word};

use crate::faults::Stop;

// The number of the word after these, of which the first has this number, or the first that breaks a rule.
pub(crate) fn judge(first: u64, keeps: &[bool]) -> Result<u64, Stop>
    requires { first + length keeps.now < 2 ^ 64 }
    ensures judged { IsJudged (first_false first keeps.now) (first + length keeps.now) result }
    ensures kept { OnOk result (AreTrue keeps.now) }
{
    let mut number = first;
    for kept in keeps {
        if !*kept {
            return Err(Stop::Word(number));
        }
        number += 1;
    }
    Ok(number)
}

// The offset at which the word with this number begins. One byte stands after each word.
pub(crate) fn start_of_word(text: &[u8], number: u64) -> u32
    requires { length text.now < 2 ^ 32 }
    ensures { result ≡ start_of_word text.now number }
{
    let mut left = number;
    for (at, byte) in text.iter().enumerate() {
        if left == 0 {
            return at as u32;
        }
        if *byte == b' ' || *byte == b'\n' {
            left -= 1;
        }
    }
    text.len() as u32
}
