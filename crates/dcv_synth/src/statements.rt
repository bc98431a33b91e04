// The statements of a controller's unit. A name is given by its place: the static first, then the inputs, then the locals.
ghost use Rattle.std.specs.Prelude.{◌≡◌, ◌+◌, ◌<◌, ◌≤◌, ◌++◌, ℕ, List, length, map, slice_index_or, IfOk, OnOk};
ghost use Rattle.std.specs.List.{All};
ghost use Rattle.dcv_language.specs.Limits.{most_nodes, number_bound};
ghost use Rattle.dcv_language.specs.declared.child.Child.TheVariants.{State as AnyState};
ghost use Rattle.dcv_dfa.specs.NodeLines.{IsBelow};
ghost use Rattle.dcv_automaton_file.specs.File.{Fits};
ghost use Rattle.dcv_c.specs.Seen.{name_at, seen_item, seen_statement};
ghost use Rattle.dcv_synth.specs.Units.{input_name, target, choice, choices, cleared as cleared_name, state_choices, all_state_choices};
ghost use Rattle.dcv_synth.specs.Units.{next_choice as next_choice_of, output_choice as output_choice_of, last_statement, statements_of};
ghost use Rattle.dcv_synth.specs.Placing.{StandAt, HasNames, AreFew, AreFitting};

use dcv_c::{Condition, Item, Right, Statement};
use dcv_dfa::{NodeLine, NodeLines};
use dcv_language::Child;
use std::alloc::{AllocError, Global};

// How many names come before those of the output rows' nodes.
#[derive(Clone, Copy)]
pub(crate) struct Places {
    // how many inputs there are
    pub(crate) inputs: u32,
    // the nodes of the next-state rows
    pub(crate) nexts: u32,
}

impl Places {
    // Of the state after the step.
    fn next(self) -> u32
        requires { AreFew self }
        ensures { result ≡ self.inputs + 1 }
    {
        self.inputs + 1
    }

    // Of what the step returns.
    pub(crate) fn output(self) -> u32
        requires { AreFew self }
        ensures { result ≡ self.inputs + 2 }
    {
        self.inputs + 2
    }

    // Of the first node of the next-state rows.
    fn next_nodes(self) -> u32
        requires { AreFew self }
        ensures { result ≡ self.inputs + 3 }
    {
        self.inputs + 3
    }

    // Of the first node of the output rows.
    fn output_nodes(self) -> u32
        requires { AreFew self }
        ensures { result ≡ self.inputs + 3 + self.nexts }
    {
        self.inputs + 3 + self.nexts
    }
}

// All statements of a step.
pub(crate) fn statements(
    alloc: Global,
    places: Places,
    states: &[u32],
    next: &NodeLines,
    output: &NodeLines,
) -> Result<Vec<Statement>, AllocError>
    requires few { AreFew places }
    requires nexts { length next.now.lines ≡ places.nexts }
    requires states { All (λ state. state < number_bound) states.now }
    requires next_count { length next.now.rows ≡ length states.now }
    requires output_count { length output.now.rows ≡ length states.now }
    requires next_fits { AreFitting places.inputs next.now }
    requires output_fits { AreFitting places.inputs output.now }
    ensures { IfOk result (λ statements. (all names : List (List ℕ)) → HasNames names (length output.now.lines) places all
        → map (seen_statement all) statements.items
        ≡ statements_of (record { names = names; states = states.now; next = next.now; output = output.now })) }
{
    let mut statements = Vec::new(alloc);
    statements.push(cleared(places.next()))?;
    statements.push(cleared(places.output()))?;
    push_choices(&mut statements, places.next_nodes(), next.lines())?;
    push_choices(&mut statements, places.output_nodes(), output.lines())?;
    push_rows(&mut statements, places, states, next.rows(), output.rows())?;
    statements.push(last(places.next()))?;
    Ok(statements)
}

// `left = 0`.
fn cleared(left: u32) -> Statement
    ensures { (all : List (List ℕ)) → seen_statement all result ≡ cleared_name (name_at all left) }
{
    Statement::Assign(left, Right::Plain(Item::Constant(0)))
}

// `st = nx`.
fn last(next: u32) -> Statement
    ensures { (all names : List (List ℕ)) (outputs : ℕ) (places : Places) → next ≡ places.inputs + 1 → HasNames names outputs places all
        → seen_statement all result ≡ last_statement }
{
    Statement::Assign(0, Right::Plain(Item::Named(next)))
}

// The statements of nodes whose names begin at a place, after the others.
fn push_choices(
    statements: &mut Vec<Statement>,
    first: u32,
    lines: &[NodeLine],
) -> Result<(), AllocError>
    requires first { first ≤ 2000000 }
    requires few { length lines.now ≤ most_nodes }
    requires fit { All (Fits 256 most_nodes) lines.now }
    ensures { OnOk result ((all names : List (List ℕ)) (name : ℕ → List ℕ) → StandAt all 1 (length names) (input_name names)
        → StandAt all first (length lines.now) name → All (Fits (length names) (length lines.now)) lines.now
        → map (seen_statement all) statements.new.items ≡ map (seen_statement all) statements.old.items ++ choices name names lines.now) }
{
    for (number, line) in lines.iter().enumerate() {
        statements.push(node_choice(first, number as u32, *line))?;
    }
    Ok(())
}

// `nJ = v_NAME ? HI : LO`.
fn node_choice(first: u32, number: u32, line: NodeLine) -> Statement
    requires first { first ≤ 2000000 }
    requires number { number < most_nodes }
    requires fits { Fits 256 most_nodes line }
    ensures { (all names : List (List ℕ)) (name : ℕ → List ℕ) (nodes : ℕ) → StandAt all 1 (length names) (input_name names)
        → StandAt all first nodes name → number < nodes → Fits (length names) nodes line
        → seen_statement all result ≡ choice name names (number, line) }
{
    let condition = Condition::Holds(1 + u32::from(line.slot));
    let hi = child_item(first, line.hi);
    let lo = child_item(first, line.lo);
    Statement::Assign(first + number, Right::Chosen(condition, hi, lo))
}

// A number, or the name of a node.
fn child_item(first: u32, child: Child) -> Item
    requires first { first ≤ 2000000 }
    requires child { IsBelow number_bound most_nodes child }
    ensures { (all : List (List ℕ)) (name : ℕ → List ℕ) (nodes : ℕ) → StandAt all first nodes name → IsBelow number_bound nodes child
        → seen_item all result ≡ target name child }
{
    match child {
        Child::State(number) => Item::Constant(number as u16),
        Child::Node(number) => Item::Named(first + number),
    }
}

// A state with its rows.
#[derive(Clone, Copy)]
struct StateRow {
    // the state
    state: u32,
    // the state that comes next
    next: Child,
    // the outputs
    output: Child,
}

// The statements of the states, after the others.
fn push_rows(
    statements: &mut Vec<Statement>,
    places: Places,
    states: &[u32],
    nexts: &[Child],
    outputs: &[Child],
) -> Result<(), AllocError>
    requires few { AreFew places }
    requires states { All (λ state. state < number_bound) states.now }
    requires next_count { length nexts.now ≡ length states.now }
    requires output_count { length outputs.now ≡ length states.now }
    requires nexts { All (IsBelow number_bound most_nodes) nexts.now }
    requires outputs { All (IsBelow number_bound most_nodes) outputs.now }
    ensures { OnOk result ((all names : List (List ℕ)) (count : ℕ) → HasNames names count places all
        → All (IsBelow number_bound places.nexts) nexts.now → All (IsBelow number_bound count) outputs.now
        → map (seen_statement all) statements.new.items
        ≡ map (seen_statement all) statements.old.items ++ all_state_choices states.now nexts.now outputs.now) }
{
    for place in 0..states.len() {
        push_row(statements, places, row_at(states, nexts, outputs, place))?;
    }
    Ok(())
}

// The state at a place, with its rows.
fn row_at(states: &[u32], nexts: &[Child], outputs: &[Child], place: usize) -> StateRow
    requires state { place < length states.now }
    requires next { place < length nexts.now }
    requires output { place < length outputs.now }
    ensures state { result.state ≡ slice_index_or states.now place 0 }
    ensures next { result.next ≡ slice_index_or nexts.now place (AnyState 0) }
    ensures output { result.output ≡ slice_index_or outputs.now place (AnyState 0) }
{
    StateRow {
        state: states[place],
        next: nexts[place],
        output: outputs[place],
    }
}

// Both statements of a state, after the others.
fn push_row(
    statements: &mut Vec<Statement>,
    places: Places,
    row: StateRow,
) -> Result<(), AllocError>
    requires few { AreFew places }
    requires state { row.state < number_bound }
    requires next { IsBelow number_bound most_nodes row.next }
    requires output { IsBelow number_bound most_nodes row.output }
    ensures { OnOk result ((all names : List (List ℕ)) (count : ℕ) → HasNames names count places all
        → IsBelow number_bound places.nexts row.next → IsBelow number_bound count row.output
        → map (seen_statement all) statements.new.items
        ≡ map (seen_statement all) statements.old.items ++ state_choices (row.state, (row.next, row.output))) }
{
    statements.push(next_choice(places, row.state, row.next))?;
    statements.push(output_choice(places, row.state, row.output))?;
    Ok(())
}

// `if (st == I) nx = R`.
fn next_choice(places: Places, state: u32, next: Child) -> Statement
    requires few { AreFew places }
    requires state { state < number_bound }
    requires next { IsBelow number_bound most_nodes next }
    ensures { (all names : List (List ℕ)) (count : ℕ) → HasNames names count places all → IsBelow number_bound places.nexts next
        → seen_statement all result ≡ next_choice_of state next }
{
    let item = child_item(places.next_nodes(), next);
    Statement::When(Condition::Equals(0, state as u16), places.next(), item)
}

// `if (st == I) y = R`.
fn output_choice(places: Places, state: u32, output: Child) -> Statement
    requires few { AreFew places }
    requires state { state < number_bound }
    requires output { IsBelow number_bound most_nodes output }
    ensures { (all names : List (List ℕ)) (count : ℕ) → HasNames names count places all → IsBelow number_bound count output
        → seen_statement all result ≡ output_choice_of state output }
{
    let item = child_item(places.output_nodes(), output);
    Statement::When(Condition::Equals(0, state as u16), places.output(), item)
}
