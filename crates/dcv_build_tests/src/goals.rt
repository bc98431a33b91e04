// From texts to trees, cores and automata.
ghost use Rattle.std.specs.Prelude.{IfOk};
ghost use Rattle.dcv_build.specs.Given.{IsCore};

use dcv_build::build;
use dcv_core::Core;
use dcv_dfa::Auto;
use dcv_explore::Limits;
use dcv_reader::read_file;
use dcv_scope::expand;
use dcv_syntax::File;
use std::alloc::Global;
use std::test::Fail;

// More than any goal here needs that is not about limits.
pub(crate) const LIMITS: Limits = Limits {
    states: 30_000,
    nodes: 1_000_000,
};

// The tree of a text. For the prover: the bound is what a text of `read_file` has to meet.
pub(crate) fn file_of(alloc: Global, text: &str) -> Result<File, Fail> {
    if text.len() > 10_000 {
        return Err("too long".into());
    }
    Ok(read_file(alloc, text.as_bytes())?)
}

// Its core.
pub(crate) fn core_of_file(alloc: Global, file: &File) -> Result<Core, Fail>
    ensures { IfOk result IsCore }
{
    Ok(expand(alloc, file)?)
}

// The core of a text.
pub(crate) fn core_of(alloc: Global, text: &str) -> Result<Core, Fail>
    ensures { IfOk result IsCore }
{
    let file = file_of(alloc, text)?;
    core_of_file(alloc, &file)
}

// The automaton of a text.
pub(crate) fn auto_of(alloc: Global, text: &str) -> Result<Auto, Fail> {
    let core = core_of(alloc, text)?;
    Ok(build(alloc, &core, LIMITS)?)
}
