//! Where letters lead from all states. What was found for a letter is kept, since most texts have few letters.
ghost use Rattle.std.specs.Prelude.{◌≡◌, ◌<◌, ◌≤◌, length, None, slice_index_or, IfOk, OnOk, IsTrue};
ghost use Rattle.dcv_language.specs.Table.{Table};
ghost use Rattle.dcv_automaton_text.specs.Meaning.{table_of, state_at};
ghost use Rattle.dcv_automaton_read.specs.Walk.{child_at, leaves_of, IsEarlier, AreOrdered};
ghost use Rattle.dcv_certify.specs.Steps.{LeadTo, next_of, AreKept};

use dcv_automaton_read::{AutoFile, Node};
use dcv_automaton_text::laws::good_files_are_tables;
use dcv_language::Child;
use dcv_word::Letter;
use dcv_word::laws::letters_of_width_are_all;
use std::alloc::{AllocError, Global};

// How many letters are kept at most. Where these lead takes 262 MB where there are as many states as there may be.
const MOST_KEPT: usize = 2048;

// With more nodes than this for each state, a way through each row takes less time than one pass over all nodes.
const NODES_FOR_A_STATE: usize = 64;

// A letter, and for each state the next one.
#[derive(Drop)]
pub(crate) struct Step {
    // the letter
    letter: Letter,
    // the state to which it leads from each state
    next: Vec<u32>,
}

// The letters that are kept, each at the place that its number gives. A later one takes the place of an earlier one.
#[derive(Drop)]
pub(crate) struct Steps {
    // the steps that are kept
    kept: Vec<Option<Step>>,
}

impl Steps {
    // No letters.
    pub(crate) fn new(alloc: Global) -> Result<Steps, AllocError>
        ensures { IfOk result (λ steps. (table : Table) → AreKept table steps.kept.items) }
    {
        let mut kept = Vec::new(alloc);
        while kept.len() < MOST_KEPT {
            kept.push(None)?;
        }
        Ok(Steps { kept })
    }

    // The place at which it is kept where a letter leads.
    pub(crate) fn meet(
        &mut self,
        alloc: Global,
        file: &AutoFile,
        letter: Letter,
    ) -> Result<usize, AllocError>
        requires kept { AreKept (table_of file.now) self.old.kept.items }
        requires width { length letter ≡ length file.now.names }
        ensures kept { OnOk result (AreKept (table_of file.now) self.new.kept.items) }
        ensures place { IfOk result (λ place. place < length self.new.kept.items) }
        ensures leads { IfOk result (λ place. LeadTo (table_of file.now) letter (next_of (slice_index_or self.new.kept.items place None))) }
    {
        let place = letter.bits() as usize % self.kept.len();
        if self.has(place, letter) {
            return Ok(place);
        }
        let next = next_states(alloc, file, letter)?;
        self.kept[place] = Some(Step { letter, next });
        Ok(place)
    }

    // Whether it is this letter that is kept at a place.
    fn has(&self, place: usize, letter: Letter) -> bool
        requires { place < length self.now.kept.items }
        ensures { (table : Table) → AreKept table self.now.kept.items → IsTrue result
            → LeadTo table letter (next_of (slice_index_or self.now.kept.items place None)) }
    {
        match &self.kept[place] {
            None => false,
            Some(step) => step.letter == letter,
        }
    }

    // The next states that are kept at a place.
    pub(crate) fn next_at(&self, place: usize) -> &[u32]
        requires { place < length self.now.kept.items }
        ensures { result.now ≡ next_of (slice_index_or self.now.kept.items place None) }
    {
        match &self.kept[place] {
            None => &[],
            Some(step) => &step.next,
        }
    }
}

// For each state the next one.
fn next_states(alloc: Global, file: &AutoFile, letter: Letter) -> Result<Vec<u32>, AllocError>
    requires { length letter ≡ length file.now.names }
    ensures { IfOk result (λ next. LeadTo (table_of file.now) letter next.items) }
{
    if file.nodes().len() / NODES_FOR_A_STATE > file.states() as usize {
        next_by_rows(alloc, file, letter)
    } else {
        next_by_nodes(alloc, file, letter)
    }
}

// A way through each row.
fn next_by_rows(alloc: Global, file: &AutoFile, letter: Letter) -> Result<Vec<u32>, AllocError>
    requires { length letter ≡ length file.now.names }
    ensures { IfOk result (λ next. LeadTo (table_of file.now) letter next.items) }
{
    good_files_are_tables();
    // for the prover: what is true of every file.
    file.keeps_the_rules();
    let mut next = Vec::new(alloc);
    for state in 0..file.states() {
        next.push(file.next(state, &letter))?;
    }
    Ok(next)
}

// One pass over all nodes.
fn next_by_nodes(alloc: Global, file: &AutoFile, letter: Letter) -> Result<Vec<u32>, AllocError>
    requires { length letter ≡ length file.now.names }
    ensures { IfOk result (λ next. LeadTo (table_of file.now) letter next.items) }
{
    letters_of_width_are_all();
    let leaves = leaves(alloc, file.nodes(), letter)?;
    let rows = file.rows();
    let mut next = vec![in alloc; 0; rows.len()]?;
    for (state, row) in rows.iter().enumerate() {
        next[state] = state_of(&leaves, row.next);
    }
    Ok(next)
}

// For each node the state to which a letter leads.
fn leaves(alloc: Global, nodes: &[Node], letter: Letter) -> Result<Vec<u32>, AllocError>
    requires narrow { length letter ≤ 32 }
    requires ordered { AreOrdered (length letter) nodes.now }
    ensures count { IfOk result (λ leaves. length leaves.items ≡ length nodes.now) }
    ensures leaves { IfOk result (λ leaves. leaves.items ≡ leaves_of letter nodes.now) }
{
    let mut leaves = vec![in alloc; 0; nodes.len()]?;
    for (place, node) in nodes.iter().enumerate() {
        leaves[place] = state_of(&leaves, child_of(node, letter));
    }
    Ok(leaves)
}

// What comes next at a letter.
fn child_of(node: &Node, letter: Letter) -> Child
    requires narrow { length letter ≤ 32 }
    requires slot { node.now.slot < length letter }
    ensures { result ≡ child_at letter node.now }
{
    if letter.get(node.slot as u8) {
        node.hi
    } else {
        node.lo
    }
}

// The state of a child, given those of the nodes.
fn state_of(leaves: &[u32], child: Child) -> u32
    requires { IsEarlier (length leaves.now) child }
    ensures { result ≡ state_at leaves.now child }
{
    match child {
        Child::State(state) => state,
        Child::Node(number) => leaves[number as usize],
    }
}
