//! The first two states that no suffix tells apart, by the numbers of the entries: two states that have one number, or the start and a
//! state that has the number of the start with its other flag.
ghost use Rattle.std.specs.Prelude.{◌≡◌, ◌<◌, ◌≤◌, ◌+◌, ◌↔◌, ◌^◌, ℕ, List, length, IsTrue, IfSome, IfNone};
ghost use Rattle.dcv_certify.specs.Joined.{joined, HasMate, HasNoMate, IsFirstJoined, HasNoneJoined, AreAllOwn, IsLeastOther};
ghost use Rattle.dcv_certify.specs.Split.{number_at, AreOwn};

// Whether each entry has its own number.
pub(crate) fn are_own(numbers: &[u32]) -> bool
    ensures { IsTrue result ↔ AreAllOwn numbers.now }
{
    for (entry, number) in numbers.iter().enumerate() {
        if *number as usize != entry {
            return false;
        }
    }
    true
}

// The first two of these states that are joined.
pub(crate) fn first_joined(numbers: &[u32], states: u32) -> Option<(u32, u32)>
    requires states { states ≤ length numbers.now }
    requires own { AreOwn numbers.now }
    ensures some { IfSome result (λ pair. IsFirstJoined numbers.now states pair.0 pair.1) }
    ensures none { IfNone result (HasNoneJoined numbers.now states) }
{
    if let Some(second) = mate_of_start(numbers, states) {
        return Some((0, second));
    }
    least_other(&numbers[..states as usize])
}

// The first state that is joined to the start.
fn mate_of_start(numbers: &[u32], states: u32) -> Option<u32>
    requires { states ≤ length numbers.now }
    ensures some { IfSome result (HasMate numbers.now states 0) }
    ensures none { IfNone result (HasNoMate numbers.now states 0 states) }
{
    let start = number_of(numbers, 0);
    let turned = number_of(numbers, states);
    for second in 1..states {
        let number = numbers[second as usize];
        if start == number || turned == number {
            return Some(second);
        }
    }
    None
}

// The number of an entry. Where the start does not stand a second time, this says 0 of it, as of itself.
fn number_of(numbers: &[u32], entry: u32) -> u32
    ensures { result ≡ number_at numbers.now entry }
{
    numbers.get(entry as usize).copied().unwrap_or(0)
}

// Of the entries with the number of another the first that has the least number, after that number.
fn least_other(numbers: &[u32]) -> Option<(u32, u32)>
    requires { length numbers.now < 2 ^ 32 }
    ensures { IsLeastOther numbers.now (length numbers.now) result }
{
    let mut least = None;
    for (entry, number) in numbers.iter().enumerate() {
        least = lesser(least, *number, entry as u32);
    }
    least
}

// The pair so far, or that of one entry more.
fn lesser(least: Option<(u32, u32)>, number: u32, entry: u32) -> Option<(u32, u32)>
    ensures { (numbers : List ℕ) → IsLeastOther numbers entry least → number_at numbers entry ≡ number → IsLeastOther numbers (entry + 1) result }
{
    if number == entry {
        return least;
    }
    match least {
        None => Some((number, entry)),
        Some((first, second)) => {
            if first <= number {
                Some((first, second))
            } else {
                Some((number, entry))
            }
        }
    }
}
