// A controller's diagrams over the inputs, made of the automaton's rows in one pass over the nodes, whose children come before them: below the
// inputs a node becomes the leaf of its least output's number or next state, and a node of an input is made again, of what its children became.
ghost use Rattle.std.specs.Prelude.{◌≡◌, ◌+◌, ◌-◌, ◌≤◌, ◌<◌, [], length, map, IfOk, OnOk, ℕ};
ghost use Rattle.std.specs.List.{All};
ghost use Rattle.dcv_arena.specs.Arena.{IsArena, IsRef, KeepsRefs};
ghost use Rattle.dcv_arena.specs.declared.nodes.Ref.TheVariants.{Place as AnyPlace, Leaf as AnyLeaf};
ghost use Rattle.dcv_dfa.specs.Auto.{count_of_nodes};
ghost use Rattle.dcv_synth.specs.Answered.{AreAnswers, AreAllAnswers};
ghost use Rattle.dcv_synth.specs.Control.{IsRows};
ghost use Rattle.dcv_synth.specs.Merged.{part_of, IsMerged, AreMerged, AreAllMerged, merged_at, merged_row};

use crate::answers::{Answer, Answers};
use crate::control::Rows;
use dcv_arena::{Arena, ArenaFault, Ref};
use dcv_dfa::Auto;
use std::alloc::{AllocError, Global};

// The part of an answer that a diagram gives.
#[derive(Clone, Copy)]
pub(crate) enum Part {
    Next,
    Output,
}

impl Part {
    // Where there is no answer any number does.
    fn of(self, answer: Option<Answer>) -> u32
        ensures { result ≡ part_of self answer }
    {
        let Some(answer) = answer else {
            return 0;
        };
        match self {
            Part::Next => answer.next,
            Part::Output => answer.output,
        }
    }
}

// The rows of these states over the inputs. They have no more nodes than the automaton.
pub(crate) fn rows_of(
    alloc: Global,
    auto: &Auto,
    inputs: u8,
    answers: &Answers,
    part: Part,
    states: &[u32],
) -> Result<Rows, AllocError>
    requires inputs { inputs ≤ auto.now.arena.slots }
    requires arena { answers.now.arena.now ≡ auto.now.arena }
    requires answers { AreAllAnswers answers.now.arena.now answers.now.win.now answers.now.answers.items }
    requires states { All (λ state. state < length auto.now.rows) states.now }
    ensures slots { IfOk result (λ rows. rows.arena.slots ≡ inputs) }
    ensures nodes { IfOk result (λ rows. length rows.arena.nodes ≤ count_of_nodes auto.now) }
    ensures count { IfOk result (λ rows. length rows.rows ≡ length states.now) }
    ensures are { IfOk result IsRows }
    ensures merged { IfOk result (AreAllMerged part auto.now answers.now.win.now states.now) }
{
    // for the prover: of an automaton that was asked it is known that letters have 32 slots at most.
    let _slots = auto.slots();
    let _states = auto.states();
    let mut arena = Arena::new(alloc, inputs, auto.nodes());
    let merged = merge(alloc, &mut arena, answers, part)?;
    // and of an arena that it is one.
    let _inputs = arena.slots();
    let rows = rows_by(alloc, auto, answers, part, &merged, states)?;
    Ok(Rows::new(arena, rows))
}

// What the rows of these states became.
fn rows_by(
    alloc: Global,
    auto: &Auto,
    answers: &Answers,
    part: Part,
    merged: &[Ref],
    states: &[u32],
) -> Result<Vec<Ref>, AllocError>
    requires { All (λ state. state < length auto.now.rows) states.now }
    ensures { IfOk result (λ rows. rows.items ≡ map (merged_row part auto.now answers.now.win.now answers.now.answers.items merged.now) states.now) }
{
    let mut rows = Vec::new(alloc);
    for state in states {
        rows.push(row_by(auto, answers, part, merged, *state))?;
    }
    Ok(rows)
}

fn row_by(auto: &Auto, answers: &Answers, part: Part, merged: &[Ref], state: u32) -> Ref
    requires { state < length auto.now.rows }
    ensures { result ≡ merged_row part auto.now answers.now.win.now answers.now.answers.items merged.now state }
{
    merged_ref(answers, part, merged, auto.row(state))
}

// What the nodes became, in order. Each has become one node at most, so there is room for all.
fn merge(
    alloc: Global,
    arena: &mut Arena,
    answers: &Answers,
    part: Part,
) -> Result<Vec<Ref>, AllocError>
    requires empty { arena.old.nodes ≡ [] }
    requires room { length answers.now.arena.now.nodes ≤ arena.old.limit }
    requires inputs { arena.old.slots ≤ answers.now.arena.now.slots }
    requires answers { AreAllAnswers answers.now.arena.now answers.now.win.now answers.now.answers.items }
    ensures slots { arena.new.slots ≡ arena.old.slots }
    ensures limit { arena.new.limit ≡ arena.old.limit }
    ensures count { IfOk result (λ merged. length merged.items ≡ length answers.now.arena.now.nodes) }
    ensures merged { IfOk result (λ merged. AreMerged part (answers.now.arena.now.slots - arena.old.slots) answers.now.arena.now answers.now.win.now
        arena.new merged.items) }
{
    let mut merged = Vec::new(alloc);
    for place in 0..answers.arena.len() {
        merged.push(merged_node(arena, answers, part, &merged, place)?)?;
    }
    Ok(merged)
}

// What a node becomes, where those before it are done.
fn merged_node(
    arena: &mut Arena,
    answers: &Answers,
    part: Part,
    merged: &[Ref],
    place: u32,
) -> Result<Ref, AllocError>
    requires place { place < length answers.now.arena.now.nodes }
    requires few { length arena.old.nodes ≤ place }
    requires room { length answers.now.arena.now.nodes ≤ arena.old.limit }
    requires inputs { arena.old.slots ≤ answers.now.arena.now.slots }
    requires before { length merged.now ≡ place }
    requires answers { AreAllAnswers answers.now.arena.now answers.now.win.now answers.now.answers.items }
    requires merged { AreMerged part (answers.now.arena.now.slots - arena.old.slots) answers.now.arena.now answers.now.win.now arena.old merged.now }
    ensures few { length arena.new.nodes ≤ place + 1 }
    ensures kept { KeepsRefs arena.old arena.new }
    ensures merged { IfOk result (IsMerged part (answers.now.arena.now.slots - arena.old.slots) answers.now.arena.now answers.now.win.now
        arena.new (AnyPlace place)) }
{
    let root = Ref::Place(place);
    let slot = answers.arena.level(root);
    if slot >= arena.slots() {
        return Ok(Ref::Leaf(part.of(answers.of(root))));
    }
    let (lo, hi) = answers.arena.split(root, slot);
    let lo = merged_ref(answers, part, merged, lo);
    let hi = merged_ref(answers, part, merged, hi);
    match arena.node(slot, lo, hi) {
        Ok(node) => Ok(node),
        Err(fault) => match fault {
            ArenaFault::Memory => Err(AllocError),
            // each node before this one has become one node at most.
            ArenaFault::Full { .. } => unreachable!(),
        },
    }
}

// What a ref becomes.
fn merged_ref(answers: &Answers, part: Part, merged: &[Ref], root: Ref) -> Ref
    ensures { result ≡ merged_at part answers.now.win.now answers.now.answers.items merged.now root }
{
    match root {
        Ref::Leaf(_) => Ref::Leaf(part.of(answers.of(root))),
        Ref::Place(place) => merged.get(place as usize).copied().unwrap_or(Ref::Leaf(0)),
    }
}
