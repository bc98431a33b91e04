// The nodes of the rows, each once. An earlier node is found by its hash.
ghost use Rattle.std.specs.Prelude.{◌≡◌, ◌+◌, ◌*◌, ◌^◌, ◌<◌, ◌≤◌, not, ◌&&◌, length, [], slice_get, Some, IfOk, OnOk};
ghost use Rattle.std.specs.List.{zip};
ghost use Rattle.dcv_language.specs.Limits.{most_nodes};
ghost use Rattle.dcv_automaton_text.specs.Rules.{keeps_node, is_same_target};
ghost use Rattle.dcv_automaton_text.specs.Spelled.{node_words};
ghost use Rattle.dcv_automaton_lines.specs.Seen.{file_of, node_line_of};
ghost use Rattle.dcv_automaton_read.specs.Judged.{IsJudged, first_word};
ghost use Rattle.dcv_automaton_read.specs.Seen.{child_kept, IsAdded, AreNodesOf};
ghost use Rattle.dcv_automaton_read.specs.Parts.{judged_nodes};

use crate::faults::Stop;
use crate::names::slot_of;
use crate::words::judge;
use dcv_automaton_lines::{Lines, NodeLine};
use dcv_language::{Child, MOST_NODES};
use indexmap::IndexSet;
use std::alloc::AllocFailed;

/// A node of the rows.
#[derive(Clone, Copy, Debug, PartialEq, Eq, Hash)]
pub struct Node {
    /// The place of its variable.
    pub slot: usize,
    /// What comes next where the variable is true.
    pub hi: Child,
    /// What comes next where it is false.
    pub lo: Child,
}

// Whether a child is a state that there is, or one of the earlier nodes, with a later variable.
fn keeps_child(nodes: &[Node], states: u32, slot: usize, child: Child) -> bool
    ensures { result ≡ child_kept states nodes.now slot child }
{
    match child {
        Child::State(number) => number < states,
        Child::Node(number) => {
            let place = number as usize;
            place < nodes.len() && slot < nodes[place].slot
        }
    }
}

// Whether the child where the variable is false is one that there may be, and not the other child once more.
fn keeps_other(nodes: &[Node], states: u32, node: Node) -> bool
    ensures { result ≡ (child_kept states nodes.now node.slot node.lo && not (is_same_target node.hi node.lo)) }
{
    keeps_child(nodes, states, node.slot, node.lo) && node.hi != node.lo
}

// Adds a node. Whether there are not too many, and it is none of the earlier ones.
fn add_node(nodes: &mut IndexSet<Node>, node: Node) -> Result<bool, AllocFailed<Node>>
    ensures { IfOk result (λ kept. IsAdded nodes.old.keys node kept nodes.new.keys) }
{
    let few = nodes.len() < MOST_NODES as usize;
    let is_new = nodes.insert(node)?;
    Ok(few && is_new)
}

// The words of a node's line, after those of the earlier nodes.
fn judge_node(
    lines: &Lines,
    nodes: &mut IndexSet<Node>,
    line: &NodeLine,
    first: u64,
) -> Result<u64, Stop>
    requires there { slice_get (file_of lines.now).node_lines (length nodes.old.keys) ≡ Some (node_line_of line.now) }
    requires nodes { AreNodesOf (file_of lines.now) (length nodes.old.keys) nodes.old.keys }
    requires room { first < 2 ^ 40 }
    ensures judged { let file = file_of lines.now in let words = zip (node_words (node_line_of line.now)) (keeps_node file (length nodes.old.keys) (node_line_of line.now)) in IsJudged (first_word first words) (first + 7) result }
    ensures nodes { OnOk result (AreNodesOf (file_of lines.now) (length nodes.old.keys + 1) nodes.new.keys) }
    ensures few { OnOk result (length nodes.old.keys < most_nodes) }
{
    let place = nodes.len();
    let slot = slot_of(&lines.names, line.name);
    let node = Node {
        slot,
        hi: line.hi,
        lo: line.lo,
    };
    let keeps_hi = keeps_child(nodes.as_slice(), lines.states, slot, node.hi);
    let keeps_lo = keeps_other(nodes.as_slice(), lines.states, node);
    let begins = add_node(nodes, node)?;
    let numbered = line.number as usize == place;
    let listed = slot < lines.names.len();
    judge(
        first,
        &[begins, numbered, listed, true, keeps_hi, true, keeps_lo],
    )
}

// The words of the nodes' lines. The nodes are added.
pub(crate) fn judge_nodes(
    lines: &Lines,
    nodes: &mut IndexSet<Node>,
    first: u64,
) -> Result<u64, Stop>
    requires none { nodes.old.keys ≡ [] }
    requires room { first < 2 ^ 32 }
    ensures judged { let words = judged_nodes (file_of lines.now) in IsJudged (first_word first words) (first + length words) result }
    ensures nodes { OnOk result (AreNodesOf (file_of lines.now) (length (file_of lines.now).node_lines) nodes.new.keys) }
    ensures bound { IfOk result (λ number. number ≤ first + 7 * most_nodes) }
{
    let mut number = first;
    for line in &lines.node_lines {
        number = judge_node(lines, nodes, line, number)?;
    }
    Ok(number)
}
