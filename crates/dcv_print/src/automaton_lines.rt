// The text of an automaton, line by line.
ghost use Rattle.std.specs.Prelude.{◌≡◌, ◌∷◌, ◌++◌, ◌<◌, ◌≤◌, ℕ, List, [], length, codes, decimal, IfOk};
ghost use Rattle.std.specs.List.{All};
ghost use Rattle.std.specs.Str.{byte};
ghost use Rattle.dcv_io.specs.Putting.{Puts};
ghost use Rattle.dcv_word.specs.TraceLine.{trace_line};
ghost use Rattle.dcv_language.specs.Limits.{most_states, most_nodes};
ghost use Rattle.dcv_dfa.specs.Auto.{count_of_nodes};
ghost use Rattle.dcv_dfa.specs.NodeLines.{node_lines_of};
ghost use Rattle.dcv_automaton_text.specs.Rules.{AreNames};
ghost use Rattle.dcv_automaton_text.specs.Spelled.{answer_word, target_word, name_words, node_words, state_words, how_access};
ghost use Rattle.dcv_automaton_text.specs.Spelled.{how_suffix, step_words, steps_words, spelled_line, spelled};
ghost use Rattle.dcv_print.specs.Printed.{texts_of, node_line, state_line, printed_file};
ghost use Rattle.dcv_automaton_read.specs.File.{access_from, suffix_from, step_line, step_part};
ghost use Rattle.dcv_certificate.specs.Proof.{IsProof};
ghost use Rattle.dcv_print.specs.Counts.{ArePrintableCounts};
ghost use Rattle.dcv_print.specs.Listed.{IsLined, listed_file};
ghost use Rattle.dcv_print.specs.Pushed.{spaced, spelled_lines};

use crate::verdict_lines::{put_heading, put_letter, put_number};
use dcv_certificate::{Access, Proof, Suffix, separate};
use dcv_dfa::{Auto, NodeLine, NodeLines};
use dcv_io::{Target, Text, put_pieces};
use dcv_language::{Child, Count};
use dcv_syntax::Name;
use dcv_word::Letter;
use itoa::Buffer;
use std::alloc::{AllocError, Global};

/// The text of an automaton, version 2: the names of its variables, its nodes and states, how its access words are spelled, suffixes
/// that tell them apart, and what the steps took of which it was built. There is a count for each step in order, at most 131,168.
pub fn automaton_text(
    alloc: Global,
    auto: &Auto,
    names: &[Name],
    proof: &Proof,
    counts: &[Count],
) -> Result<Vec<u8>, AllocError>
    requires slots { length names.now ≡ auto.now.arena.slots }
    requires counts { ArePrintableCounts counts.now }
    ensures { IfOk result (λ text. text.items
        ≡ spelled (printed_file auto.now (texts_of names.now) proof.now.access proof.now.suffixes counts.now)) }
{
    let nodes = auto.node_lines(alloc)?;
    let mut text = Text::new(alloc);
    put_automaton(&mut text, auto, names, &nodes, proof, counts);
    text.finish()
}

// An automaton with the lines of its nodes beside it, in a list.
#[derive(Drop)]
pub(crate) struct Lined<'a> {
    // the automaton
    pub(crate) auto: &'a Auto,
    // its variables
    pub(crate) names: &'a [Name],
    // the nodes of its rows by their numbers
    pub(crate) nodes: NodeLines,
}

impl<'a> Lined<'a> {
    // The automaton over variables with these names.
    pub(crate) fn new(
        alloc: Global,
        auto: &'a Auto,
        names: &'a [Name],
    ) -> Result<Lined<'a>, AllocError>
        requires names { AreNames (texts_of names.now) }
        requires slots { length names.now ≡ auto.now.arena.slots }
        requires states { length auto.now.rows ≤ most_states }
        requires nodes { count_of_nodes auto.now ≤ most_nodes }
        ensures auto { IfOk result (λ lined. lined.auto.now ≡ auto.now) }
        ensures names { IfOk result (λ lined. lined.names.now ≡ names.now) }
        ensures lined { IfOk result IsLined }
    {
        let nodes = auto.node_lines(alloc)?;
        Ok(Lined { auto, names, nodes })
    }
}

// An automaton with what all its lines say beside it, in lists.
#[derive(Drop)]
pub(crate) struct Listed<'a> {
    // the automaton with its nodes
    pub(crate) lined: Lined<'a>,
    // the words that show that it has the fewest states
    pub(crate) proof: Proof,
    // what each step took
    pub(crate) counts: &'a [Count],
}

impl<'a> Listed<'a> {
    // The automaton over variables with these names, which was built in steps that took so much.
    pub(crate) fn new(
        alloc: Global,
        auto: &'a Auto,
        names: &'a [Name],
        counts: &'a [Count],
    ) -> Result<Listed<'a>, AllocError>
        requires names { AreNames (texts_of names.now) }
        requires slots { length names.now ≡ auto.now.arena.slots }
        requires states { length auto.now.rows ≤ most_states }
        requires nodes { count_of_nodes auto.now ≤ most_nodes }
        ensures auto { IfOk result (λ listed. listed.lined.auto.now ≡ auto.now) }
        ensures names { IfOk result (λ listed. listed.lined.names.now ≡ names.now) }
        ensures proof { IfOk result (λ listed. IsProof auto.now listed.proof.access listed.proof.suffixes) }
        ensures lined { IfOk result (λ listed. IsLined listed.lined) }
        ensures counts { IfOk result (λ listed. listed.counts.now ≡ counts.now) }
    {
        let lined = Lined::new(alloc, auto, names)?;
        let proof = separate(alloc, auto)?;
        Ok(Listed {
            lined,
            proof,
            counts,
        })
    }

    // Puts the automaton's text.
    pub(crate) fn put<T: Target>(&self, target: &mut T)
        requires { IsLined self.now.lined }
        ensures { Puts (T.standing target.old) (T.standing target.new) (spelled (listed_file self.now)) }
    {
        let lined = &self.lined;
        let (auto, names) = (lined.auto, lined.names);
        put_automaton(target, auto, names, &lined.nodes, &self.proof, self.counts);
    }
}

// Puts the lines.
pub(crate) fn put_automaton<T: Target>(
    target: &mut T,
    auto: &Auto,
    names: &[Name],
    nodes: &NodeLines,
    proof: &Proof,
    counts: &[Count],
)
    requires nodes { nodes.now ≡ node_lines_of auto.now }
    requires slots { All (λ (node : NodeLine). node.slot < length names.now) nodes.now.lines }
    ensures { Puts (T.standing target.old) (T.standing target.new)
        (spelled (printed_file auto.now (texts_of names.now) proof.now.access proof.now.suffixes counts.now)) }
{
    put_head(target, names, auto.states());
    put_nodes(target, names, nodes.lines());
    put_states(target, auto, nodes.rows());
    put_entries(target, b"access", proof.access());
    put_entries(target, b"suffix", proof.suffixes());
    put_steps(target, counts);
    target.put(b"end\n");
}

// The lines before those of the nodes.
fn put_head<T: Target>(target: &mut T, names: &[Name], states: u32)
    ensures { Puts (T.standing target.old) (T.standing target.new)
        (spelled_line (codes "automaton" ∷ codes "2" ∷ [])
        ++ (spelled_line (codes "variables" ∷ name_words (texts_of names.now))
        ++ spelled_line (codes "states" ∷ decimal states ∷ []))) }
{
    target.put(b"automaton 2\n");
    put_variables(target, names);
    put_heading(target, b"states", states as usize);
}

// The line of the variables.
fn put_variables<T: Target>(target: &mut T, names: &[Name])
    ensures { Puts (T.standing target.old) (T.standing target.new) (spelled_line (codes "variables" ∷ name_words (texts_of names.now))) }
{
    target.put(b"variables");
    put_names(target, names);
    target.put(b"\n");
}

// The names, each after a space.
fn put_names<T: Target>(target: &mut T, names: &[Name])
    ensures { Puts (T.standing target.old) (T.standing target.new) (spaced (name_words (texts_of names.now))) }
{
    if names.is_empty() {
        target.put(b" -");
        return;
    }
    for name in names {
        put_name(target, name.text.as_bytes());
    }
}

fn put_name<T: Target>(target: &mut T, name: &[u8])
    ensures { Puts (T.standing target.old) (T.standing target.new) (codes " " ++ name.now) }
{
    put_pieces(target, &[b" ", name]);
}

// A line for each node.
fn put_nodes<T: Target>(target: &mut T, names: &[Name], nodes: &[NodeLine])
    requires { All (λ (node : NodeLine). node.slot < length names.now) nodes.now }
    ensures { Puts (T.standing target.old) (T.standing target.new)
        (spelled_lines (λ numbered. node_words (node_line (texts_of names.now) numbered)) nodes.now) }
{
    for (number, node) in nodes.iter().enumerate() {
        let name = names[usize::from(node.slot)].text.as_bytes();
        put_node(target, number, name, *node);
    }
}

// The line of a node.
fn put_node<T: Target>(target: &mut T, number: usize, name: &[u8], node: NodeLine)
    ensures { Puts (T.standing target.old) (T.standing target.new)
        (spelled_line (node_words (record { number = number; name = name.now; hi = node.hi; lo = node.lo }))) }
{
    put_node_head(target, number, name);
    put_child(target, node.hi);
    target.put(b" : ");
    put_child(target, node.lo);
    target.put(b"\n");
}

// The line up to its first child.
fn put_node_head<T: Target>(target: &mut T, number: usize, name: &[u8])
    ensures { Puts (T.standing target.old) (T.standing target.new) (codes "node n" ++ (decimal number ++ (codes " " ++ (name.now ++ codes " ? ")))) }
{
    let mut digits = Buffer::new();
    put_pieces(
        target,
        &[
            b"node n",
            digits.format(number).as_bytes(),
            b" ",
            name,
            b" ? ",
        ],
    );
}

// A line for each state.
fn put_states<T: Target>(target: &mut T, auto: &Auto, rows: &[Child])
    requires { length rows.now ≡ length auto.now.rows }
    ensures { Puts (T.standing target.old) (T.standing target.new) (spelled_lines (λ numbered. state_words (state_line auto.now numbered)) rows.now) }
{
    for state in 0..auto.states() {
        put_state(target, state, auto.accepting(state), rows[state as usize]);
    }
}

// The line of a state.
fn put_state<T: Target>(target: &mut T, state: u32, accepting: bool, row: Child)
    ensures { Puts (T.standing target.old) (T.standing target.new)
        (spelled_line (state_words (record { number = state; accepting = accepting; row = row }))) }
{
    put_state_head(target, state, answer(accepting));
    put_child(target, row);
    target.put(b"\n");
}

// The line up to its row.
fn put_state_head<T: Target>(target: &mut T, state: u32, answer: &[u8])
    ensures { Puts (T.standing target.old) (T.standing target.new) (codes "state " ++ (decimal state ++ (codes " " ++ (answer.now ++ codes " ")))) }
{
    let mut digits = Buffer::new();
    put_pieces(
        target,
        &[
            b"state ",
            digits.format(state as usize).as_bytes(),
            b" ",
            answer,
            b" ",
        ],
    );
}

fn answer(accepting: bool) -> &'static [u8]
    ensures { result.now ≡ answer_word accepting }
{
    if accepting { b"accept" } else { b"reject" }
}

// What a line says after its number.
trait Entry: Copy {
    // How it is spelled.
    ghost words: { Self → List (List ℕ) };

    // Puts its words, each after a space.
    fn put<T: Target>(self, target: &mut T)
        ensures { Puts (T.standing target.old) (T.standing target.new) (spaced (words self)) };
}

impl Entry for Access {
    ghost words = { λ access. how_access (access_from access) };

    fn put<T: Target>(self, target: &mut T) {
        match self {
            Access::Empty => target.put(b" empty"),
            Access::Start(letter) => {
                target.put(b" start ");
                put_letter(target, letter);
            }
            Access::After(state, letter) => put_after(target, state, letter),
        }
    }
}

impl Entry for Suffix {
    ghost words = { λ suffix. how_suffix (suffix_from suffix) };

    fn put<T: Target>(self, target: &mut T) {
        match self {
            Suffix::Empty => target.put(b" empty"),
            Suffix::Then(letter, place) => {
                target.put(b" ");
                put_letter(target, letter);
                target.put(b" ");
                put_number(target, place as usize);
            }
        }
    }
}

// The state before the last letter of an access word, and that letter.
fn put_after<T: Target>(target: &mut T, state: u32, letter: Letter)
    ensures { Puts (T.standing target.old) (T.standing target.new) (spaced (decimal state ∷ trace_line letter ∷ [])) }
{
    target.put(b" ");
    put_number(target, state as usize);
    target.put(b" ");
    put_letter(target, letter);
}

// A line for each access word or each suffix, with this first word.
fn put_entries<T: Target, E: Entry>(target: &mut T, word: &[u8], entries: &[E])
    ensures { Puts (T.standing target.old) (T.standing target.new)
        (spelled_lines (λ numbered. word.now ∷ decimal numbered.0 ∷ E.words numbered.1) entries.now) }
{
    for (number, entry) in entries.iter().enumerate() {
        target.put(word);
        put_entry(target, number, *entry);
    }
}

// What stands on such a line after its first word.
fn put_entry<T: Target, E: Entry>(target: &mut T, number: usize, entry: E)
    ensures { Puts (T.standing target.old) (T.standing target.new) (spaced (decimal number ∷ E.words entry) ++ byte "\n" ∷ []) }
{
    target.put(b" ");
    put_number(target, number);
    entry.put(target);
    target.put(b"\n");
}

// How many steps there are, and a line for each.
fn put_steps<T: Target>(target: &mut T, counts: &[Count])
    ensures { Puts (T.standing target.old) (T.standing target.new)
        (spelled_line (steps_words (step_part counts.now)) ++ spelled_lines (λ numbered. step_words (step_line numbered)) counts.now) }
{
    put_heading(target, b"steps", counts.len());
    for (number, count) in counts.iter().enumerate() {
        put_step(target, number, *count);
    }
}

// The line of a step.
fn put_step<T: Target>(target: &mut T, number: usize, count: Count)
    ensures { Puts (T.standing target.old) (T.standing target.new) (spelled_line (step_words (step_line (number, count)))) }
{
    let (mut place, mut at) = (Buffer::new(), Buffer::new());
    let (mut states, mut nodes) = (Buffer::new(), Buffer::new());
    put_pieces(
        target,
        &[
            b"step ",
            place.format(number).as_bytes(),
            b" at ",
            at.format(count.at).as_bytes(),
            b" states ",
            states.format(count.states).as_bytes(),
            b" nodes ",
            nodes.format(count.nodes).as_bytes(),
            b"\n",
        ],
    );
}

// A state or a node.
fn put_child<T: Target>(target: &mut T, child: Child)
    ensures { Puts (T.standing target.old) (T.standing target.new) (target_word child) }
{
    let mut digits = Buffer::new();
    match child {
        Child::State(state) => put_pieces(
            target,
            &[b"t", digits.format(state as usize).as_bytes()],
        ),
        Child::Node(number) => put_pieces(
            target,
            &[b"n", digits.format(number as usize).as_bytes()],
        ),
    }
}
