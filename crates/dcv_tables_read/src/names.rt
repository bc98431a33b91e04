// The parameters of a unit are judged in turn.
ghost use Rattle.std.specs.Prelude.{◌≡◌, ◌+◌, ◌^◌, ◌<◌, ◌≤◌, ◌&&◌, not, nat_le, length, []};
ghost use Rattle.dcv_tokens.specs.Tokens.{is_name};
ghost use Rattle.dcv_tokens.specs.Limits.{longest_word};
ghost use Rattle.dcv_observer.specs.Naming.{is_among};
ghost use Rattle.dcv_tables_read.specs.Reading.{keeps_parameters, parameter_words};
ghost use Rattle.dcv_tables_read.specs.Judged.{IsJudgedWhole, texts_of, parameters_of, parameters_size};

use dcv_automaton_read::is_name;

// How many bytes a name may have.
const LONGEST_NAME: usize = 24;

// Whether a name is one of these.
fn is_among(names: &[&[u8]], name: &[u8]) -> bool
    ensures { result ≡ is_among (texts_of names.now) name.now }
{
    for other in names {
        if name == *other {
            return true;
        }
    }
    false
}

// Whether a name after these earlier ones is that of a variable, and none of them.
fn keeps_name(earlier: &[&[u8]], name: &[u8]) -> bool
    ensures { result ≡ ((is_name name.now && nat_le (length name.now) longest_word) && not (is_among (texts_of earlier.now) name.now)) }
{
    is_name(name) && name.len() <= LONGEST_NAME && !is_among(earlier, name)
}

/// The offset of the first parameter that breaks a rule, where the first begins at this one.
pub(crate) fn judge_names(names: &[&[u8]], first: u32) -> Result<(), u32>
    requires { first + parameters_size (parameters_of names.now) < 2 ^ 32 }
    ensures { IsJudgedWhole (parameter_words first (parameters_of names.now)) (keeps_parameters [] (parameters_of names.now)) result }
{
    let mut at = first;
    for (place, name) in names.iter().enumerate() {
        if !keeps_name(&names[..place], name) {
            return Err(at + 4);
        }
        at += 4 + 2 + name.len() as u32 + 2;
    }
    Ok(())
}
