// An observer into a target, and its text read back.
ghost use Rattle.std.specs.Prelude.{◌≡◌, length, IfOk};
ghost use Rattle.dcv_automaton_file.specs.File.{texts_of};
ghost use Rattle.dcv_automaton_text.specs.Rules.{AreNames};

use crate::library::automata::auto_of;
use anyhow::{Result, bail};
use dcv_c::put_observer;
use dcv_c_read::read;
use dcv_dfa::Auto;
use dcv_io::Text;
use dcv_syntax::{Name, Span, Text as Word};
use std::alloc::{AllocError, Global};

// The largest automaton that has an observer.
const MOST_STATES: u32 = 32_000;

const MOST_NODES: u32 = 1_000_000;

/// Prints the observer of a requirement in C, and whether its text is that of a unit.
pub(crate) fn print_observer(rt: &HostRuntime) -> Result<()> {
    let alloc = rt.alloc();
    let auto = auto_of(alloc, b"var p; infer [[p]];")?;
    let text = observer_of(alloc, &auto)?;
    print!(rt; "{}", String::from_utf8_lossy(alloc, &text)?)?;
    println!(rt; "a unit: {}", is_unit(alloc, &text)?)?;
    Ok(())
}

// Whether a text is that of a unit.
fn is_unit(alloc: Global, text: &[u8]) -> Result<bool> {
    if text.len() > u32::MAX as usize {
        bail!("the text is too long");
    }
    Ok(read(alloc, text).is_ok())
}

// The observer of an automaton over the one variable `p`.
fn observer_of(alloc: Global, auto: &Auto) -> Result<Vec<u8>> {
    if auto.slots() != 1 || auto.states() > MOST_STATES || auto.nodes() > MOST_NODES {
        bail!("another number of variables, or too large");
    }
    let names = name_p(alloc)?;
    let nodes = auto.node_lines(alloc)?;
    let mut text = Text::new(alloc);
    put_observer(&mut text, auto, &names, &nodes);
    Ok(text.finish()?)
}

// The name `p` alone.
fn name_p(alloc: Global) -> Result<Vec<Name>, AllocError>
    ensures names { IfOk result (λ names. AreNames (texts_of names.items)) }
    ensures count { IfOk result (λ names. length names.items ≡ 1) }
{
    let text = Word::copy_of(alloc, b"p")?;
    let span = Span { start: 0, end: 0 };
    let mut names = Vec::new(alloc);
    names.push(Name { text, span })?;
    Ok(names)
}
