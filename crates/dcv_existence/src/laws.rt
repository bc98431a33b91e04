//! Laws of what there is. Each function here does nothing: its contract is the law.
ghost use Rattle.dcv_existence.specs.Laws.{SomeDiagrams, SomeBudget, SomeCounts, SomeTable};

use dcv_build::laws::machines_accept_steps;

/// Functions of up to 32 slots have diagrams in one arena, which has no other nodes.
pub fn some_diagrams()
    ensures { SomeDiagrams }
{}

/// All steps of a core are within the limits, or one is the first that is over them. Where all are within, each step takes some states and
/// nodes, and the core's words have a canonical table.
pub fn some_budget()
    ensures budget { SomeBudget }
    ensures counts { SomeCounts }
    ensures table { SomeTable }
{
    machines_accept_steps();
}
