// Builds of cores: each begins with nothing known, and explores no operator twice over the same automata of one shelf.
ghost use Rattle.std.specs.Prelude.{◌≡◌, length, IfOk};
ghost use Rattle.dcv_core.specs.Core.{CoreTree};
ghost use Rattle.dcv_core.specs.Steps.{steps_of};
ghost use Rattle.dcv_dfa.specs.Auto.{count_of_nodes};
ghost use Rattle.dcv_build.specs.Given.{IsCoreOf, IsCore};
ghost use Rattle.dcv_build.specs.Budget.{IsAutomatonOf, HasVerdictOfSet, Builds};
ghost use Rattle.dcv_build.specs.Counts.{AreCounts};

use crate::building::{Building, is_complemented};
use crate::faults::BuildFault;
use crate::tasks::last_operator;
use dcv_core::Core;
use dcv_dfa::{Auto, Raw};
use dcv_explore::Limits;
use dcv_language::Count;
use std::alloc::Global;
use std::marker::Model;

/// The canonical automaton of a goal's words, and what each step took, in the order of the steps.
#[derive(Drop)]
pub struct Built {
    /// The automaton, over the variables that the core declares.
    pub auto: Auto,
    /// What each step took.
    pub counts: Vec<Count>,
}

/// An automaton that has the verdict of a goal's words: it was explored for the last operator, as far as the verdict needs, or is the canonical
/// one where an earlier step has explored the same.
#[derive(Drop)]
pub struct BuiltForVerdict {
    /// The automaton, over the variables that the core declares.
    pub raw: Raw,
    /// Whether it stands for the words that are not the goal's, in place of the goal's.
    pub complemented: bool,
}

/// Builds cores within limits, each from nothing.
#[derive(Drop)]
pub struct Builder {
    // where automata are allocated
    alloc: Global,
    // how large a step may be
    limits: Limits,
    // how many operators were explored so far
    explored: u32,
}

impl Model for Builder {
    ghost use Rattle.dcv_explore.specs.declared.explorer.Limits.{Limits as OwnLimits};

    ghost Value = { OwnLimits };

    ghost view = { λ builder. builder.limits };
}

/// The canonical automaton of the goal's words: the words on the whole of which the core holds.
///
/// Each step is built in order, over the automata of its operands, and minimised before it is used. The first step over a limit
/// ends it; a step with too many states and too many nodes may be named for either.
pub fn build(alloc: Global, core: &Core, limits: Limits) -> Result<Auto, BuildFault>
    // A core has the steps of a tree where `expand` has made it.
    requires { IsCore core.now }
    ensures { Builds core.now limits (IsAutomatonOf core.now.declared) (λ auto. length auto.rows) count_of_nodes result }
{
    let mut builder = Builder::new(alloc, limits);
    builder.build(core)
}

/// The automaton of `build`, and beside it what each step took.
pub fn build_counted(alloc: Global, core: &Core, limits: Limits) -> Result<Built, BuildFault>
    requires { IsCore core.now }
    ensures builds { Builds core.now limits (λ words built. IsAutomatonOf core.now.declared words built.auto)
        (λ built. length built.auto.rows) (λ built. count_of_nodes built.auto) result }

    // There is one count for each step, in order: the start of its span, and how many states and nodes its row has exactly.
    ensures counts { (tree : CoreTree) → IsCoreOf tree core.now → IfOk result (λ built. AreCounts (steps_of core.now.declared tree) limits built.counts.items) }
{
    let mut builder = Builder::new(alloc, limits);
    builder.build_counted(core)
}

/// An automaton with the verdict of the goal's words: its shortest words are theirs, and its longer ones need not be.
///
/// Nothing is minimised after its last operator was explored, and of a product that cannot exceed the limits no more is explored than the verdict needs.
pub fn build_for_verdict(
    alloc: Global,
    core: &Core,
    limits: Limits,
) -> Result<BuiltForVerdict, BuildFault>
    requires { IsCore core.now }
    ensures { Builds core.now limits (λ words built. HasVerdictOfSet core.now.declared words built.raw built.complemented)
        (λ built. length built.raw.rows) (λ built. length built.raw.arena.nodes) result }
{
    let mut builder = Builder::new(alloc, limits);
    builder.build_for_verdict(core)
}

impl Builder {
    /// A builder within these limits. It takes no memory.
    pub fn new(alloc: Global, limits: Limits) -> Builder
        ensures { result ≡ limits }
    {
        Builder {
            alloc,
            limits,
            explored: 0,
        }
    }

    /// The canonical automaton of the goal's words, as `build` gives it. Nothing is known from an earlier build.
    pub fn build(&mut self, core: &Core) -> Result<Auto, BuildFault>
        requires { IsCore core.now }
        ensures same { self.new ≡ self.old }
        ensures builds { Builds core.now self.old (IsAutomatonOf core.now.declared) (λ auto. length auto.rows) count_of_nodes result }
    {
        match self.build_counted(core) {
            Ok(built) => Ok(built.auto),
            Err(fault) => Err(fault),
        }
    }

    /// The same with what each step took, as `build_counted` gives it.
    pub fn build_counted(&mut self, core: &Core) -> Result<Built, BuildFault>
        requires { IsCore core.now }
        ensures same { self.new ≡ self.old }
        ensures builds { Builds core.now self.old (λ words built. IsAutomatonOf core.now.declared words built.auto)
            (λ built. length built.auto.rows) (λ built. count_of_nodes built.auto) result }
        ensures counts { (tree : CoreTree) → IsCoreOf tree core.now → IfOk result (λ built. AreCounts (steps_of core.now.declared tree) self.old built.counts.items) }
    {
        let last = last_operator(core);
        let mut building = Building::new(self.alloc, self.limits);
        let taken = building.take_to(core, last);
        self.explored = building.explored();
        let auto = building.finish(core, last + 1, taken?)?;
        Ok(Built {
            auto,
            counts: building.into_counts(),
        })
    }

    /// An automaton with the verdict of the goal's words, as `build_for_verdict` gives it.
    pub fn build_for_verdict(&mut self, core: &Core) -> Result<BuiltForVerdict, BuildFault>
        requires { IsCore core.now }
        ensures same { self.new ≡ self.old }
        ensures builds { Builds core.now self.old (λ words built. HasVerdictOfSet core.now.declared words built.raw built.complemented)
            (λ built. length built.raw.rows) (λ built. length built.raw.arena.nodes) result }
    {
        let last = last_operator(core);
        let mut building = Building::new(self.alloc, self.limits);
        let decided = building.decide(core, last);
        self.explored = building.explored();
        drop(building);
        let explored = decided?;
        Ok(BuiltForVerdict {
            raw: explored.raw,
            complemented: is_complemented(core, last + 1),
        })
    }

    /// How many explorations the last build made: one for each atom, and one for each other operator but `!` that it had not met over the
    /// same operands. No clause says so.
    pub fn explored(&self) -> u32 {
        self.explored
    }
}
