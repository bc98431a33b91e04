// How often builders explore.
ghost use Rattle.dcv_build.specs.Given.{IsCore};

use crate::goals::{LIMITS, core_of};
use dcv_build::{BuildFault, Builder};
use dcv_core::Core;
use std::alloc::{AllocError, Global};
use std::fmt::Write;
use std::test::Fail;

// Macros from `m0`, which is `pt`, up to `m14`, each of which is the one before it twice, and the last as the goal.
fn repeated(alloc: Global) -> Result<String, AllocError> {
    let mut text = String::new(alloc);
    text.push_str("define m0 as pt;")?;
    for number in 0..14 {
        let next = number + 1;
        write!(text, "define m{next} as m{number} && m{number};")?;
    }
    text.push_str("infer m14;")?;
    Ok(text)
}

// How often one builder explores in each of two builds, and how many states the automaton has.
fn explored_twice(alloc: Global, core: &Core) -> Result<[(u32, u32); 2], BuildFault>
    requires { IsCore core.now }
{
    let mut builder = Builder::new(alloc, LIMITS);
    let states = builder.build(core)?.states();
    let first = (builder.explored(), states);
    let states = builder.build(core)?.states();
    let second = (builder.explored(), states);
    Ok([first, second])
}

// 16,384 atoms are explored, and one `&&`, since the others have the same operands. The next build begins with nothing known.
#[test]
fn steps_alike_are_explored_once(rt: HostRuntime) -> Result<(), Fail> {
    let alloc = rt.alloc();
    let core = core_of(alloc, &repeated(alloc)?)?;
    let explored = explored_twice(alloc, &core);
    drop(core);
    assert_eq!(rt; explored?, [(16_385, 3), (16_385, 3)]);
    Ok(())
}

// Operands of `^` in another order, and other operators over the same operands, are explored anew; `!` is not explored.
#[test]
fn steps_apart_are_explored(rt: HostRuntime) -> Result<(), Fail> {
    let alloc = rt.alloc();
    let text = "var p; infer !((<p> ^ pt) && (pt ^ <p>)) || ((<p> ^ pt) <=> (pt ^ <p>));";
    let core = core_of(alloc, text)?;
    let explored = explored_twice(alloc, &core);
    drop(core);
    assert_eq!(rt; explored?.map(|(explored, _)| explored), [13, 13]);
    Ok(())
}
