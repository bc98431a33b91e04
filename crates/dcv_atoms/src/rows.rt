// The rows of the forms: what each remembers after one letter more, by whether its proposition holds there, and its slot is true.
ghost use Rattle.std.specs.Prelude.{◌≡◌, ◌<◌, ◌+◌, ◌^◌, ℕ, Bool, List, []};
ghost use Rattle.dcv_logic.specs.Satisfaction.{compares};
ghost use Rattle.dcv_language.specs.AtomMachines.{capped, point_next, run_next, every_next, unit_next, slen_next, scount_next, sdur_next};
ghost use Rattle.dcv_shifts.specs.Machines.{back_next, fore_next};
ghost use Rattle.dcv_core.specs.TruthViews.{plain_basic};
ghost use Rattle.dcv_atoms.specs.AtomRows.{kept_point, point_found, kept_run, run_found, kept_every, every_found, kept_unit, unit_found};
ghost use Rattle.dcv_atoms.specs.AtomRows.{kept_back, back_found, kept_fore, fore_found};
ghost use Rattle.dcv_atoms.specs.AtomRows.{kept_count, count_found, kept_duration, duration_found, after_letter, is_accepted};
ghost use Rattle.dcv_atoms.specs.Numbers.{HasRoom};

use crate::states::AtomMacro;
use dcv_core::{Basic, Bracket, Count, Direction, Rel};

// The state after a letter.
pub(crate) fn after(basic: &Basic, from: AtomMacro, holds: bool, shifted: bool) -> AtomMacro
    requires { HasRoom (plain_basic basic.now) }
    ensures { result ≡ after_letter (plain_basic basic.now) from holds shifted }
{
    match basic {
        Basic::Constant(_) => AtomMacro::Start,
        Basic::Bracketed(Bracket::Point, _) => point(from, holds),
        Basic::Bracketed(Bracket::Run, _) => run(from, holds),
        Basic::Bracketed(Bracket::Every, _) => every(from, holds),
        Basic::Bracketed(Bracket::Unit, _) => unit(from, holds),
        Basic::Slen(_, number) => slen(from, *number),
        Basic::Counted(Count::Scount, _, _, number) => scount(from, holds, *number),
        Basic::Counted(Count::Sdur, _, _, number) => sdur(from, holds, *number),
        Basic::Track(Direction::Prior, _, _) => back(from, holds, shifted),
        Basic::Track(Direction::Next, _, _) => fore(from, holds, shifted),
    }
}

// One instant, where the proposition holds.
fn point(from: AtomMacro, holds: bool) -> AtomMacro
    ensures { result ≡ kept_point (point_next (λ letter. holds) (point_found from) []) }
{
    match from {
        AtomMacro::Start if holds => AtomMacro::Good,
        _ => AtomMacro::Bad,
    }
}

// More than one instant, and the proposition at each but the last.
fn run(from: AtomMacro, holds: bool) -> AtomMacro
    ensures { result ≡ kept_run (run_next (λ letter. holds) (run_found from) []) }
{
    match (from, holds) {
        (AtomMacro::Start, true) => AtomMacro::First,
        (AtomMacro::First | AtomMacro::Good, true) => AtomMacro::Good,
        (AtomMacro::First | AtomMacro::Good, false) => AtomMacro::Last,
        _ => AtomMacro::Bad,
    }
}

// The proposition at each instant.
fn every(from: AtomMacro, holds: bool) -> AtomMacro
    ensures { result ≡ kept_every (every_next (λ letter. holds) (every_found from) []) }
{
    match from {
        AtomMacro::Start | AtomMacro::Good if holds => AtomMacro::Good,
        _ => AtomMacro::Bad,
    }
}

// Two instants, and the proposition at the first.
fn unit(from: AtomMacro, holds: bool) -> AtomMacro
    ensures { result ≡ kept_unit (unit_next (λ letter. holds) (unit_found from) []) }
{
    match from {
        AtomMacro::Start if holds => AtomMacro::First,
        AtomMacro::First => AtomMacro::Good,
        _ => AtomMacro::Bad,
    }
}

// The slot says what the proposition was one instant before.
fn back(from: AtomMacro, holds: bool, shifted: bool) -> AtomMacro
    ensures { result ≡ kept_back (back_next (λ letter. holds) (λ letter. shifted) (back_found from) []) }
{
    let was = match from {
        AtomMacro::Start | AtomMacro::Good => false,
        AtomMacro::First => true,
        _ => return AtomMacro::Bad,
    };
    if shifted != was {
        return AtomMacro::Bad;
    }
    if holds {
        AtomMacro::First
    } else {
        AtomMacro::Good
    }
}

// The slot says what the proposition is one instant later.
fn fore(from: AtomMacro, holds: bool, shifted: bool) -> AtomMacro
    ensures { result ≡ kept_fore (fore_next (λ letter. holds) (λ letter. shifted) (fore_found from) []) }
{
    let kept = match from {
        AtomMacro::Start => true,
        AtomMacro::First => holds,
        AtomMacro::Good => !holds,
        _ => false,
    };
    if !kept {
        return AtomMacro::Bad;
    }
    if shifted {
        AtomMacro::First
    } else {
        AtomMacro::Good
    }
}

// The number of steps from instant to instant.
fn slen(from: AtomMacro, number: u32) -> AtomMacro
    requires { number + 1 < 2 ^ 32 }
    ensures { result ≡ kept_count (slen_next number (count_found from) []) }
{
    match from {
        AtomMacro::Count(count) => AtomMacro::Count(one_more(count, number)),
        _ => AtomMacro::Count(0),
    }
}

// The number of instants that have the proposition.
fn scount(from: AtomMacro, holds: bool, number: u32) -> AtomMacro
    requires { number + 1 < 2 ^ 32 }
    ensures { result ≡ kept_count (scount_next number (λ letter. holds) (count_found from) []) }
{
    match from {
        AtomMacro::Count(count) => {
            AtomMacro::Count(if holds {
                one_more(count, number)
            } else {
                count
            })
        }
        _ => AtomMacro::Count(u32::from(holds)),
    }
}

// The number of instants but the last that have the proposition: a letter counts once another follows.
fn sdur(from: AtomMacro, holds: bool, number: u32) -> AtomMacro
    requires { number + 1 < 2 ^ 32 }
    ensures { result ≡ kept_duration (sdur_next number (λ letter. holds) (duration_found from) []) }
{
    match from {
        AtomMacro::Lasted { count, last } => AtomMacro::Lasted {
            count: if last { one_more(count, number) } else { count },
            last: holds,
        },
        _ => AtomMacro::Lasted {
            count: 0,
            last: holds,
        },
    }
}

// The count with one more, which stays at one more than the number once it is above that.
fn one_more(count: u32, number: u32) -> u32
    requires { number + 1 < 2 ^ 32 }
    ensures { result ≡ capped number (count + 1) }
{
    count.min(number) + 1
}

// Whether a word that leads to the state is accepted.
pub(crate) fn accepts(basic: &Basic, state: AtomMacro) -> bool
    ensures { result ≡ is_accepted (plain_basic basic.now) state }
{
    match basic {
        Basic::Constant(truth) => *truth,
        Basic::Bracketed(Bracket::Run, _) => matches!(state, AtomMacro::Good | AtomMacro::Last),
        Basic::Track(Direction::Prior, _, _) => {
            matches!(state, AtomMacro::Good | AtomMacro::First)
        }
        Basic::Bracketed(_, _) | Basic::Track(Direction::Next, _, _) => state == AtomMacro::Good,
        Basic::Slen(relation, number) | Basic::Counted(Count::Scount, _, relation, number) => {
            match state {
                AtomMacro::Count(count) => meets(*relation, count, *number),
                _ => false,
            }
        }
        Basic::Counted(Count::Sdur, _, relation, number) => match state {
            AtomMacro::Lasted { count, .. } => meets(*relation, count, *number),
            _ => false,
        },
    }
}

// Whether the count is in this relation to the number.
fn meets(relation: Rel, count: u32, number: u32) -> bool
    ensures { result ≡ compares relation count number }
{
    match relation {
        Rel::Equal => count == number,
        Rel::Less => count < number,
        Rel::AtMost => count <= number,
        Rel::Greater => count > number,
        Rel::AtLeast => count >= number,
    }
}
