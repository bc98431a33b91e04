// From a machine to the automaton that is explored for it within the limits, and from that to the canonical one.
ghost use Rattle.std.specs.Prelude.{◌≡◌, ◌≤◌, ◌-◌, IfOk};
ghost use Rattle.dcv_build.specs.Settled.{IsLeastMade, ExploresUpTo, SettlesUpTo, fault_at};

use crate::faults::BuildFault;
use dcv_dfa::{Auto, Raw};
use dcv_explore::{ExploreFault, Limits, Machine, explore_large, explore_to_verdict};
use dcv_minimise::minimise;
use std::alloc::{AllocError, Global};

// How far a machine is explored.
#[derive(Clone, Copy)]
pub(crate) enum Extent {
    // all states that words reach
    Whole,
    // as many as its verdict needs
    Verdict,
}

// An automaton as its machine was explored, and what was counted.
#[derive(Drop)]
pub(crate) struct Explored {
    // the automaton as it was explored
    pub(crate) raw: Raw,
    // how many states that took
    pub(crate) states: u32,
    // how many nodes it took
    pub(crate) nodes: u32,
}

// The canonical automaton, beside the same counts.
#[derive(Drop)]
pub(crate) struct Made {
    // the minimal automaton
    pub(crate) auto: Auto,
    // how many states its exploration took
    pub(crate) states: u32,
    // how many nodes it took
    pub(crate) nodes: u32,
}

// The automaton of what the machine of a step accepts, or one with its verdict, with its counts. The parts of its proposition, if it has one,
// have so many nodes, which count towards the limit.
pub(crate) fn settle<M: Machine>(
    alloc: Global,
    machine: &M,
    parts: u32,
    limits: Limits,
    step: u32,
    extent: Extent,
) -> Result<Explored, BuildFault>
    requires { parts ≤ limits.nodes }
    ensures { SettlesUpTo extent (M.machine machine.now) parts limits step result }
{
    match explore(alloc, machine, without_parts(limits, parts), extent) {
        Ok(raw) => {
            let states = raw.states();
            let nodes = parts + raw.arena().len();
            Ok(Explored { raw, states, nodes })
        }
        Err(fault) => Err(at_step(step, limits, fault)),
    }
}

// The automaton of the machine, explored so far.
fn explore<M: Machine>(
    alloc: Global,
    machine: &M,
    limits: Limits,
    extent: Extent,
) -> Result<Raw, ExploreFault>
    ensures { ExploresUpTo extent (M.machine machine.now) limits result }
{
    match extent {
        Extent::Whole => explore_large(alloc, machine, limits),
        Extent::Verdict => explore_to_verdict(alloc, machine, limits),
    }
}

// What the parts of a proposition leave to the rows.
fn without_parts(limits: Limits, parts: u32) -> Limits
    requires { parts ≤ limits.nodes }
    ensures states { result.states ≡ limits.states }
    ensures nodes { result.nodes ≡ limits.nodes - parts }
{
    Limits {
        states: limits.states,
        nodes: limits.nodes - parts,
    }
}

// The fault of a step, with the whole limit.
fn at_step(step: u32, limits: Limits, fault: ExploreFault) -> BuildFault
    ensures { result ≡ fault_at step limits fault }
{
    match fault {
        ExploreFault::States { .. } => BuildFault::States {
            step,
            limit: limits.states,
        },
        ExploreFault::Nodes { .. } => BuildFault::Nodes {
            step,
            limit: limits.nodes,
        },
        ExploreFault::Memory => BuildFault::Memory,
    }
}

// The canonical automaton of what was explored.
pub(crate) fn least(alloc: Global, explored: Explored) -> Result<Made, AllocError>
    ensures { IfOk result (IsLeastMade explored) }
{
    let (states, nodes) = (explored.states, explored.nodes);
    // for the prover: what is true of every raw and of every canonical automaton.
    let _raw_states = explored.raw.states();
    let auto = minimise(alloc, explored.raw)?;
    let _states = auto.states();
    Ok(Made {
        auto,
        states,
        nodes,
    })
}
