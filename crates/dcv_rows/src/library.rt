// The crates as a library: the examples of `docs/LIBRARY.md`, each of which prints what it gives.
mod automata;
mod observers;
mod runs;

use anyhow::Result;

/// Prints what the examples give.
pub(crate) fn print_examples(rt: &HostRuntime) -> Result<()> {
    runs::print_run(rt)?;
    automata::print_verdict(rt)?;
    observers::print_observer(rt)
}
