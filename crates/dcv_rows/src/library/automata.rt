// From a text to its automaton, to a verdict and to a least word.
ghost use Rattle.std.specs.Prelude.{IfOk};
ghost use Rattle.dcv_build.specs.Given.{IsCore};

use anyhow::{Result, bail};
use dcv_build::build;
use dcv_core::Core;
use dcv_dfa::Auto;
use dcv_explore::Limits;
use dcv_print::verdict_text;
use dcv_reach::shortest;
use dcv_reader::read_file;
use dcv_scope::expand;
use std::alloc::Global;

const LIMITS: Limits = Limits {
    states: 30_000,
    nodes: 1_000_000,
};

/// The minimal automaton of a formula file.
pub(crate) fn auto_of(alloc: Global, text: &[u8]) -> Result<Auto> {
    let core = core_of(alloc, text)?;
    Ok(build(alloc, &core, LIMITS)?)
}

// The goal of a formula file, without macros and names. What `build` requires of it is what `expand` ensures.
fn core_of(alloc: Global, text: &[u8]) -> Result<Core>
    ensures { IfOk result IsCore }
{
    if text.len() > u32::MAX as usize {
        bail!("the text is too long");
    }
    let file = read_file(alloc, text)?;
    Ok(expand(alloc, &file)?)
}

/// Prints the verdict on a formula, and how long the least behaviour is that breaks it.
pub(crate) fn print_verdict(rt: &HostRuntime) -> Result<()> {
    let alloc = rt.alloc();
    let auto = auto_of(alloc, b"var p; infer [[p]];")?;
    let text = verdict_text(alloc, &auto)?;
    print!(rt; "{}", String::from_utf8_lossy(alloc, &text)?)?;
    if let Some(word) = shortest(alloc, &auto, false)? {
        println!(rt;
            "instants of the least behaviour that breaks it: {}",
            word.letters().len()
        )?;
    }
    Ok(())
}
