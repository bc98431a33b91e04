// What a step is to give, over the automata that wait last.
ghost use Rattle.std.specs.Prelude.{◌≡◌, ◌<◌, ◌≤◌, ◌+◌, ◌^◌, ◌++◌, ◌∷◌, [], length};
ghost use Rattle.dcv_build.specs.Given.{IsCore};
ghost use Rattle.dcv_build.specs.Tasks.{IsTask, numbers_taken, WaitFor, TurnFrom, IsNoComplement};

use crate::asked::Asked;
use dcv_core::{Core, Op};

// An operator over numbers of the shelf, or a form without a formula in it.
#[derive(Clone, Copy)]
pub(crate) enum Task {
    Atom,
    Complement(u32),
    Operator(Asked),
}

// What the step is to give. Its operands wait no more.
pub(crate) fn task_of(core: &Core, step: u32, waiting: &mut Vec<u32>) -> Task
    requires core { IsCore core.now }
    requires step { step < length core.now.steps }
    requires waiting { WaitFor core.now step waiting.old.items }
    ensures taken { waiting.old.items ≡ waiting.new.items ++ numbers_taken result }
    ensures is { IsTask core.now step result }
{
    match core.op(step) {
        Op::Atom(_) => Task::Atom,
        Op::Not(_) => Task::Complement(newest(waiting)),
        Op::Joined(connective, _, _) => {
            let (first, second) = two_newest(waiting);
            Task::Operator(Asked::Joined(connective, first, second))
        }
        Op::Chop(_, _) => {
            let (first, second) = two_newest(waiting);
            Task::Operator(Asked::Chop(first, second))
        }
        Op::Star(_) => Task::Operator(Asked::Star(newest(waiting))),
        Op::Exists(_) => Task::Operator(Asked::Exists(newest(waiting))),
    }
}

// The number that waits last, which waits no more.
fn newest(waiting: &mut Vec<u32>) -> u32
    requires { 0 < length waiting.old.items }
    ensures { waiting.old.items ≡ waiting.new.items ++ result ∷ [] }
{
    waiting.pop().unwrap()
}

// The two that wait last, the older one first.
fn two_newest(waiting: &mut Vec<u32>) -> (u32, u32)
    requires { 1 < length waiting.old.items }
    ensures { waiting.old.items ≡ waiting.new.items ++ result.0 ∷ result.1 ∷ [] }
{
    let newer = newest(waiting);
    let older = newest(waiting);
    (older, newer)
}

// The last step that is no `!`, since all steps after it are.
pub(crate) fn last_operator(core: &Core) -> u32
    requires { IsCore core.now }
    ensures within { result < length core.now.steps }
    ensures fits { result + 1 < 2 ^ 32 }
    ensures operator { IsNoComplement core.now result }
    ensures turn { TurnFrom core.now (result + 1) }
{
    for step in (0..core.steps()).rev() {
        let Op::Not(_) = core.op(step) else {
            return step;
        };
    }
    0
}
