//! The replay of a node of Lustre.
ghost use Rattle.std.specs.Prelude.{◌≡◌, ◌+◌, ◌<◌, ◌≤◌, [], ◌++◌, length, map, reverse, IfOk};
ghost use Rattle.std.specs.List.{All, flat_map};
ghost use Rattle.dcv_lustre.specs.Meaning.{names_of, width_of, has_only_tick};
ghost use Rattle.dcv_replay.specs.Observer.{Lustre, Follows};
ghost use Rattle.dcv_replay.specs.Program.{first_name};
ghost use Rattle.dcv_replay.specs.Selecting.{slot_of, most_names};
ghost use Rattle.dcv_replay.specs.OfNode.{constant_number, item_slot, choosing, arm_select, arms_selects, tests_selects, cell_of, equation_selects};
ghost use Rattle.dcv_replay.specs.OfNode.{latch_selects, after_cell, first_cell, IsPlacedItem, IsPlacedCondition, IsPlacedArm, ArePlacedTests, HasSlots};
ghost use Rattle.dcv_replay.specs.OfNode.{node_selects, IsStoreOf};

use crate::Replay;
use crate::replay::{Select, Steps};
use crate::selecting::{MOST_NAMES, copy, count_within, new_store, slot_of, test_select};
use dcv_lustre::laws::one_trace;
use dcv_lustre::{Arm, Condition, Equation, Item, Node, Right, Test, Value};
use dcv_syntax::Text;
use std::alloc::{AllocError, Global};

impl Replay {
    /// A replay of a node, as before the first instant. It takes no memory later.
    ///
    /// Memory is out, too, where the store would have 2^32 numbers or more.
    pub fn lustre(alloc: Global, node: &Node) -> Result<Replay, AllocError>
        ensures { IfOk result (Follows (Lustre node.now) []) }
    {
        one_trace();
        node.keeps_the_rules();
        let count = count_of_names(node)?;
        let width = width_of(node);
        let answer = slot_of(node.inputs().len() as u32);
        let equations = node.equations();
        let selects = selects_of(alloc, count, equations)?;
        let store = store_of(alloc, count, equations)?;
        let steps = Steps::Selects(slot_of(0), selects, answer);
        Ok(Replay::of(width, steps, store))
    }
}

// How many names the node has, if so many have slots and cells.
fn count_of_names(node: &Node) -> Result<u32, AllocError>
    ensures count { IfOk result (λ count. count ≡ length (names_of node.now)) }
    ensures within { IfOk result (λ count. count + count ≤ most_names) }
    ensures inputs { IfOk result (λ count. length node.now.inputs < count) }
{
    let count = count_within(node.inputs().len(), 1, node.locals().len())?;
    if count as usize > MOST_NAMES / 2 {
        return Err(AllocError);
    }
    Ok(count)
}

// How many variables a letter has.
fn width_of(node: &Node) -> u8
    ensures { result ≡ width_of node.now }
{
    node.keeps_the_rules();
    let inputs = node.inputs();
    if has_only_tick(inputs) {
        return 0;
    }
    inputs.len() as u8
}

fn has_only_tick(inputs: &[Text]) -> bool
    ensures { result ≡ has_only_tick inputs.now }
{
    if inputs.len() != 1 {
        return false;
    }
    inputs[0].as_bytes() == b"tick".as_slice()
}

// The slot that keeps, for the name at this place, what its equation takes from the instant before.
fn cell_of(count: u32, place: u32) -> u32
    requires { count + place ≤ most_names }
    ensures { result ≡ cell_of count place }
{
    slot_of(count + place)
}

// ---- the store before the first instant

fn store_of(alloc: Global, count: u32, equations: &[Equation]) -> Result<Vec<u32>, AllocError>
    requires within { count + count ≤ most_names }
    requires placed { All (HasSlots count) equations.now }
    ensures { IfOk result (λ store. IsStoreOf count equations.now store.items) }
{
    let mut store = new_store(alloc, count + count)?;
    for equation in equations {
        set_cell(&mut store, count, equation);
    }
    Ok(store)
}

// A delayed right side begins with its constant.
fn set_cell(store: &mut Vec<u32>, count: u32, equation: &Equation)
    requires within { count + count ≤ most_names }
    requires left { equation.now.left < count }
    requires long { length store.old.items ≡ first_name + (count + count) + 1 }
    ensures cell { store.new.items ≡ after_cell first_cell count store.old.items equation.now }
    ensures long { length store.new.items ≡ first_name + (count + count) + 1 }
{
    match &equation.right {
        Right::Delayed(first, _) => {
            store[cell_of(count, equation.left) as usize] = constant_number(*first);
        }
        Right::Chosen(_, _) => {}
        Right::Tested(_) => {}
    }
}

// A constant, as a store has it: truths are the first two numbers.
fn constant_number(value: Value) -> u32
    ensures { result ≡ constant_number value }
{
    match value {
        Value::Truth(truth) => u32::from(truth),
        Value::Number(number) => u32::from(number) + 2,
    }
}

// ---- an instant

// What each equation says, in their order, and then what is kept for the next instant.
fn selects_of(alloc: Global, count: u32, equations: &[Equation]) -> Result<Vec<Select>, AllocError>
    requires within { count + count ≤ most_names }
    requires placed { All (HasSlots count) equations.now }
    ensures { IfOk result (λ selects. selects.items ≡ node_selects count equations.now) }
{
    let mut selects = Vec::new(alloc);
    push_equations(&mut selects, count, equations)?;
    push_latches(&mut selects, count, equations)?;
    Ok(selects)
}

fn push_equations(
    selects: &mut Vec<Select>,
    count: u32,
    equations: &[Equation],
) -> Result<(), AllocError>
    requires within { count + count ≤ most_names }
    requires placed { All (HasSlots count) equations.now }
    ensures { IfOk result (λ _. selects.new.items ≡ selects.old.items ++ flat_map (equation_selects count) equations.now) }
{
    for equation in equations {
        push_equation(selects, count, equation)?;
    }
    Ok(())
}

fn push_equation(
    selects: &mut Vec<Select>,
    count: u32,
    equation: &Equation,
) -> Result<(), AllocError>
    requires within { count + count ≤ most_names }
    requires placed { HasSlots count equation.now }
    ensures { IfOk result (λ _. selects.new.items ≡ selects.old.items ++ equation_selects count equation.now) }
{
    let target = slot_of(equation.left);
    match &equation.right {
        Right::Delayed(_, _) => {
            selects.push(copy(target, cell_of(count, equation.left)))?;
            Ok(())
        }
        Right::Chosen(arms, otherwise) => {
            selects.push(copy(target, item_slot(*otherwise)))?;
            push_arms(selects, target, arms)
        }
        Right::Tested(tests) => push_tests(selects, target, tests),
    }
}

// The last arm comes first, so that the first one that holds has the last word.
fn push_arms(selects: &mut Vec<Select>, target: u32, arms: &[Arm]) -> Result<(), AllocError>
    requires { All (IsPlacedArm most_names) arms.now }
    ensures { IfOk result (λ _. selects.new.items ≡ selects.old.items ++ arms_selects target arms.now) }
{
    let mut rest = arms;
    while let Some((last, others)) = rest.split_last() {
        selects.push(arm_select(target, *last))?;
        rest = others;
    }
    Ok(())
}

fn arm_select(target: u32, arm: Arm) -> Select
    requires { IsPlacedArm most_names arm }
    ensures { result ≡ arm_select target arm }
{
    let held = item_slot(arm.item);
    match arm.condition {
        Condition::Holds(place) => Select {
            target,
            tested: slot_of(place),
            number: 1,
            when_equal: held,
            otherwise: target,
        },
        Condition::Equals(place, number) => Select {
            target,
            tested: slot_of(place),
            number: u32::from(number) + 2,
            when_equal: held,
            otherwise: target,
        },
    }
}

fn item_slot(item: Item) -> u32
    requires { IsPlacedItem most_names item }
    ensures { result ≡ item_slot item }
{
    match item {
        Item::Constant(value) => constant_number(value),
        Item::Named(place) => slot_of(place),
    }
}

// Whether one of the tests passes.
fn push_tests(selects: &mut Vec<Select>, target: u32, tests: &[Test]) -> Result<(), AllocError>
    requires { ArePlacedTests most_names tests.now }
    ensures { IfOk result (λ _. selects.new.items ≡ selects.old.items ++ tests_selects target tests.now) }
{
    selects.push(copy(target, 0))?;
    for test in tests {
        selects.push(test_select(target, slot_of(test.name), u32::from(test.number) + 2))?;
    }
    Ok(())
}

fn push_latches(
    selects: &mut Vec<Select>,
    count: u32,
    equations: &[Equation],
) -> Result<(), AllocError>
    requires within { count + count ≤ most_names }
    requires placed { All (HasSlots count) equations.now }
    ensures { IfOk result (λ _. selects.new.items ≡ selects.old.items ++ flat_map (latch_selects count) equations.now) }
{
    for equation in equations {
        push_latch(selects, count, equation)?;
    }
    Ok(())
}

// What a delayed right side takes at the next instant.
fn push_latch(selects: &mut Vec<Select>, count: u32, equation: &Equation) -> Result<(), AllocError>
    requires within { count + count ≤ most_names }
    requires placed { HasSlots count equation.now }
    ensures { IfOk result (λ _. selects.new.items ≡ selects.old.items ++ latch_selects count equation.now) }
{
    match &equation.right {
        Right::Delayed(_, source) => {
            selects.push(copy(cell_of(count, equation.left), slot_of(*source)))?;
            Ok(())
        }
        Right::Chosen(_, _) => Ok(()),
        Right::Tested(_) => Ok(()),
    }
}
