// What is found of a formula.
ghost use Rattle.std.specs.Prelude.{◌≡◌, ◌<◌, ◌^◌, ℕ, length, IfOk};
ghost use Rattle.dcv_language.specs.Language.{Language};
ghost use Rattle.dcv_core.specs.Core.{CoreTree};
ghost use Rattle.dcv_build.specs.Budget.{IsAutomatonOf};
ghost use Rattle.dcv_build.specs.Given.{IsCoreOf, IsCore};
ghost use Rattle.dcv_sweep.specs.Findings.{IsJudgement, IsFinding, states_of};

use dcv_build::{BuildFault, build};
use dcv_core::Core;
use dcv_dfa::Auto;
use dcv_dfa::laws::{tables_accept_the_same, tables_have_the_states};
use dcv_explore::Limits;
use dcv_language::laws::verdict_of_same_behaviours;
use dcv_print::verdict;
use std::alloc::{AllocError, Global};

/// What is found of a formula.
#[derive(Clone, Copy, Debug, PartialEq, Eq)]
pub enum Finding {
    /// A step of it is over the limits.
    Over,
    /// None is.
    Within(Judgement),
}

/// What is found of a formula that has an automaton.
#[derive(Clone, Copy, Debug, PartialEq, Eq)]
pub struct Judgement {
    /// Each behaviour satisfies it.
    pub valid: bool,
    /// Some behaviour does.
    pub satisfiable: bool,
    /// How many states its canonical automaton has.
    pub states: u32,
}

/// What is found of the formula of a core within these limits.
pub(crate) fn find(alloc: Global, core: &Core, limits: Limits) -> Result<Finding, AllocError>
    requires { IsCore core.now }
    ensures finding { (tree : CoreTree) → IsCoreOf tree core.now → IfOk result (IsFinding limits core.now.declared tree) }
    ensures few { IfOk result (λ finding. states_of finding < 2 ^ 32) }
{
    match build(alloc, core, limits) {
        Ok(auto) => Ok(Finding::Within(judge(alloc, &auto)?)),
        Err(BuildFault::States { .. }) => Ok(Finding::Over),
        Err(BuildFault::Nodes { .. }) => Ok(Finding::Over),
        Err(BuildFault::Memory) => Err(AllocError),
    }
}

// What is said of each set that this is the canonical automaton of.
fn judge(alloc: Global, auto: &Auto) -> Result<Judgement, AllocError>
    ensures judgement { IfOk result (λ judgement. (k : ℕ) (L : Language) → IsAutomatonOf k L auto.now → IsJudgement k L judgement) }
    ensures states { IfOk result (λ judgement. judgement.states ≡ length auto.now.rows) }
{
    tables_accept_the_same();
    tables_have_the_states();
    verdict_of_same_behaviours();
    let verdict = verdict(alloc, auto)?;
    Ok(Judgement {
        valid: verdict.is_valid(),
        satisfiable: verdict.example.is_some(),
        states: auto.states(),
    })
}
