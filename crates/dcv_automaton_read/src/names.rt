// The names of the variables.
ghost use Rattle.std.specs.Prelude.{◌≡◌, ℕ, ◌+◌, ◌^◌, ◌<◌, ◌≤◌, List, length, take, IfOk, OnOk};
ghost use Rattle.std.specs.List.{list_all};
ghost use Rattle.dcv_tokens.specs.Tokens.{is_word_byte, is_word, is_name};
ghost use Rattle.dcv_language.specs.Limits.{most_variables};
ghost use Rattle.dcv_automaton_text.specs.Rules.{slot_of, is_listed, keeps_name};
ghost use Rattle.dcv_automaton_read.specs.Judged.{IsJudged, first_word};
ghost use Rattle.dcv_automaton_read.specs.Seen.{texts_of};
ghost use Rattle.dcv_automaton_read.specs.Parts.{judged_names};

use crate::faults::Stop;
use crate::words::judge;
use dcv_language::MOST_VARIABLES;
use dcv_tokens::classes::{NAME, class_of};
use dcv_tokens::laws::one_class;

// How many bytes a name may have.
const LONGEST_NAME: usize = 24;

// The place of a name among the variables, and their number for one that is not there.
pub(crate) fn slot_of(names: &[&[u8]], name: &[u8]) -> usize
    ensures slot { result ≡ slot_of (texts_of names.now) name.now }
    ensures bound { result ≤ length names.now }
{
    for (slot, other) in names.iter().enumerate() {
        if name == *other {
            return slot;
        }
    }
    names.len()
}

// Whether a name is one of these.
fn is_listed(names: &[&[u8]], name: &[u8]) -> bool
    ensures { result ≡ is_listed (texts_of names.now) name.now }
{
    for other in names {
        if name == *other {
            return true;
        }
    }
    false
}

fn is_word_byte(byte: u8) -> bool
    ensures { result ≡ is_word_byte byte }
{
    byte.is_ascii_alphabetic() || byte.is_ascii_digit() || byte == b'_'
}

fn are_word_bytes(bytes: &[u8]) -> bool
    ensures { result ≡ list_all is_word_byte bytes.now }
{
    bytes.iter().all(|byte| is_word_byte(*byte))
}

// A letter, and then letters, digits and `_`.
fn is_word(bytes: &[u8]) -> bool
    ensures { result ≡ is_word bytes.now }
{
    if bytes.is_empty() {
        return false;
    }
    bytes[0].is_ascii_alphabetic() && are_word_bytes(&bytes[1..])
}

/// Whether these bytes are a name: a word that is not reserved.
pub fn is_name(bytes: &[u8]) -> bool
    ensures { result ≡ is_name bytes.now }
{
    one_class();
    if !is_word(bytes) {
        return false;
    }
    class_of(bytes) == NAME
}

// Whether the name after these earlier ones keeps the rules.
fn keeps_name(earlier: &[&[u8]], name: &[u8]) -> bool
    ensures { (names : List (List ℕ)) → texts_of earlier.now ≡ take (length earlier.now) names → result ≡ keeps_name names (length earlier.now) name.now }
{
    earlier.len() < MOST_VARIABLES
        && is_name(name)
        && name.len() <= LONGEST_NAME
        && !is_listed(earlier, name)
}

// The words of the variables' line after the first.
pub(crate) fn judge_names(names: &[&[u8]], first: u64) -> Result<u64, Stop>
    requires { first < 2 ^ 32 }
    ensures judged { let words = judged_names (texts_of names.now) in IsJudged (first_word first words) (first + length words) result }
    ensures few { OnOk result (length names.now ≤ most_variables) }
    ensures bound { IfOk result (λ number. number ≤ first + most_variables) }
{
    if names.is_empty() {
        return Ok(first + 1);
    }
    let mut number = first;
    for (place, name) in names.iter().enumerate() {
        number = judge(number, &[keeps_name(&names[..place], name)])?;
    }
    Ok(number)
}
