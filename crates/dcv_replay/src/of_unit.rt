//! The replay of a unit of C.
ghost use Rattle.std.specs.Prelude.{◌≡◌, ◌≤◌, [], ◌++◌, length, map, IfOk};
ghost use Rattle.std.specs.List.{All};
ghost use Rattle.dcv_replay.specs.Observer.{C, Follows};
ghost use Rattle.dcv_replay.specs.Selecting.{slot_of, most_names};
ghost use Rattle.dcv_replay.specs.OfUnit.{item_slot, choosing, right_select, statement_select, tests_selects, returned_selects, IsResetStore, IsStoreOf, AreSelectsOf};
ghost use Rattle.dcv_c.specs.Seen.{names_of};
ghost use Rattle.dcv_replay.specs.OfUnit.{IsPlacedItem, IsPlacedCondition, IsPlacedRight, IsPlacedStatement, ArePlacedTests, IsPlacedReturned};
ghost use Rattle.dcv_replay.specs.OfUnit.{ArePlacedAssignments};

use crate::Replay;
use crate::replay::{Select, Steps};
use crate::selecting::{copy, count_within, new_store, slot_of, test_select};
use dcv_c::laws::nothing_left_over_is_read;
use dcv_c::{CUnit, Condition, Item, Reset, Returned, Right, Statement, Step, Test};
use std::alloc::{AllocError, Global};

impl Replay {
    /// A replay of a unit, as after the function that sets its statics. It takes no memory later.
    ///
    /// Memory is out, too, where the store would have 2^32 numbers or more.
    pub fn c(alloc: Global, unit: &CUnit) -> Result<Replay, AllocError>
        ensures { IfOk result (Follows (C unit.now) []) }
    {
        nothing_left_over_is_read();
        unit.keeps_the_rules();
        let count = count_of_names(unit)?;
        let width = width_of(unit);
        let inputs = slot_of(unit.statics().len() as u32);
        let answer = slot_of(count);
        let selects = selects_of(alloc, unit, answer)?;
        let store = store_of(alloc, unit, count)?;
        let steps = Steps::Selects(inputs, selects, answer);
        Ok(Replay::of(width, steps, store))
    }
}

// How many names the unit has, if so many have slots.
fn count_of_names(unit: &CUnit) -> Result<u32, AllocError>
    ensures count { IfOk result (λ count. count ≡ length (names_of unit.now)) }
    ensures within { IfOk result (λ count. count ≤ most_names) }
    ensures statics { IfOk result (λ count. length unit.now.statics ≤ count) }
{
    let step = unit.step();
    count_within(
        unit.statics().len(),
        step.parameters.len(),
        step.locals.len(),
    )
}

// How many parameters a step has.
fn width_of(unit: &CUnit) -> u8
    ensures { result ≡ length unit.now.parameters }
{
    unit.keeps_the_rules();
    unit.step().parameters.len() as u8
}

// The store once the statics are set.
fn store_of(alloc: Global, unit: &CUnit, count: u32) -> Result<Vec<u32>, AllocError>
    requires count { count ≡ length (names_of unit.now) }
    requires within { count ≤ most_names }
    ensures { IfOk result (λ store. IsStoreOf unit.now count store.items) }
{
    unit.keeps_the_rules();
    reset_store(alloc, count, unit.reset())
}

fn reset_store(alloc: Global, count: u32, reset: &Reset) -> Result<Vec<u32>, AllocError>
    requires count { count ≤ most_names }
    requires placed { ArePlacedAssignments count reset.now.assignments.items }
    ensures { IfOk result (λ store. IsResetStore count reset.now.assignments.items store.items) }
{
    let mut store = new_store(alloc, count)?;
    for assignment in &reset.assignments {
        store[slot_of(assignment.name) as usize] = u32::from(assignment.number);
    }
    Ok(store)
}

// What a step does, and whether it returns another number than 0.
fn selects_of(alloc: Global, unit: &CUnit, answer: u32) -> Result<Vec<Select>, AllocError>
    requires { length (names_of unit.now) ≤ most_names }
    ensures { IfOk result (λ selects. AreSelectsOf unit.now answer selects.items) }
{
    unit.keeps_the_rules();
    let step = unit.step();
    let mut selects = Vec::new(alloc);
    push_statements(&mut selects, step)?;
    push_returned(&mut selects, answer, &step.returned)?;
    Ok(selects)
}

fn push_statements(selects: &mut Vec<Select>, step: &Step) -> Result<(), AllocError>
    requires { All (IsPlacedStatement most_names) step.now.statements.items }
    ensures { IfOk result (λ _. selects.new.items ≡ selects.old.items ++ map statement_select step.now.statements.items) }
{
    for statement in &step.statements {
        selects.push(statement_select(*statement))?;
    }
    Ok(())
}

fn statement_select(statement: Statement) -> Select
    requires { IsPlacedStatement most_names statement }
    ensures { result ≡ statement_select statement }
{
    match statement {
        Statement::Assign(left, right) => right_select(slot_of(left), right),
        Statement::When(condition, left, item) => {
            let target = slot_of(left);
            choosing(target, condition, item_slot(item), target)
        }
    }
}

fn right_select(target: u32, right: Right) -> Select
    requires { IsPlacedRight most_names right }
    ensures { result ≡ right_select target right }
{
    match right {
        Right::Plain(item) => copy(target, item_slot(item)),
        Right::Chosen(condition, item, otherwise) => {
            choosing(target, condition, item_slot(item), item_slot(otherwise))
        }
    }
}

// The number in the slot `held` where the condition holds, and else that in the other.
fn choosing(target: u32, condition: Condition, held: u32, otherwise: u32) -> Select
    requires { IsPlacedCondition most_names condition }
    ensures { result ≡ choosing target condition held otherwise }
{
    match condition {
        Condition::Holds(place) => Select {
            target,
            tested: slot_of(place),
            number: 0,
            when_equal: otherwise,
            otherwise: held,
        },
        Condition::Equals(place, number) => Select {
            target,
            tested: slot_of(place),
            number: u32::from(number),
            when_equal: held,
            otherwise,
        },
    }
}

fn item_slot(item: Item) -> u32
    requires { IsPlacedItem most_names item }
    ensures { result ≡ item_slot item }
{
    match item {
        Item::Constant(number) => u32::from(number),
        Item::Named(place) => slot_of(place),
    }
}

// Whether a number other than 0 is returned.
fn push_returned(
    selects: &mut Vec<Select>,
    answer: u32,
    returned: &Returned,
) -> Result<(), AllocError>
    requires { IsPlacedReturned most_names returned.now }
    ensures { IfOk result (λ _. selects.new.items ≡ selects.old.items ++ returned_selects answer returned.now) }
{
    match returned {
        Returned::Fixed(number) => {
            let truth = if *number == 0 { 0 } else { 1 };
            selects.push(copy(answer, truth))?;
            Ok(())
        }
        Returned::Read(place) => {
            selects.push(choosing(answer, Condition::Holds(*place), 1, 0))?;
            Ok(())
        }
        Returned::Tested(tests) => push_tests(selects, answer, tests),
    }
}

// Whether one of the tests passes.
fn push_tests(selects: &mut Vec<Select>, answer: u32, tests: &[Test]) -> Result<(), AllocError>
    requires { ArePlacedTests most_names tests.now }
    ensures { IfOk result (λ _. selects.new.items ≡ selects.old.items ++ tests_selects answer tests.now) }
{
    selects.push(copy(answer, 0))?;
    for test in tests {
        selects.push(test_select(answer, slot_of(test.name), u32::from(test.number)))?;
    }
    Ok(())
}
