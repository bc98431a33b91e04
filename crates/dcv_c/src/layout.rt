// The text of a unit.
ghost use Rattle.std.specs.Prelude.{◌≡◌, ℕ, List, decimal, map, IfOk};
ghost use Rattle.dcv_io.specs.Putting.{Puts};
ghost use Rattle.dcv_c.specs.Seen.{name_at, seen_item, seen_condition, seen_right, seen_statement, seen_test, seen_returned, seen_assignment, all_names};
ghost use Rattle.dcv_c.specs.Placed.{PlacedUnit, unit_of};
ghost use Rattle.dcv_c.specs.Actions.{Spells};
ghost use Rattle.dcv_observer.specs.Layouts.{Word, ◌<>◌, Each, Joined};
ghost use Rattle.dcv_c.specs.Tree.{Assign, When, Chosen, Equals};
ghost use Rattle.dcv_c.specs.Layout.{text_in, item_text, condition_layout, right_layout, set_line, statement_line, test_layout, between_tests, returned_layout};
ghost use Rattle.dcv_c.specs.Layout.{declaration, static_line, local_line, local_lines, parameters_layout, beginning, head, assignment_line, reset_lines, end_lines, step_lines, text_of};

use crate::laws::texts_spell_units;
use crate::unit::{Assignment, CUnit, Item, Reset, Returned, Right, Statement, Step};
use crate::words::{
    BECOMES, CHOICE, CLOSING, COMMA, END, IF, INDENT, INT, IS, NEWLINE, OPENING, OR, OTHERWISE,
    RETURN, SPACE, STATIC, THEN, VOID,
};
use dcv_io::{Target, Text as TextInMemory, put_pieces};
use dcv_observer::{Condition, Test};
use dcv_syntax::Text;
use itoa::Buffer;
use std::alloc::{AllocError, Global};
use std::marker::Model;

/// The text of a unit, which spells it.
pub fn text(alloc: Global, unit: &CUnit) -> Result<Vec<u8>, AllocError>
    ensures layout { IfOk result (λ text. text.items ≡ text_of unit.now) }
    ensures spelled { IfOk result (λ text. (placed : PlacedUnit) × Spells text.items placed × (unit_of placed ≡ unit.now)) }
{
    texts_spell_units();
    unit.keeps_the_rules();
    let mut text = TextInMemory::new(alloc);
    put(unit, &mut text);
    text.finish()
}

/// Puts the text of a unit, piece by piece. It takes no memory but what the target does.
pub fn put<T: Target>(unit: &CUnit, target: &mut T)
    ensures { Puts (T.standing target.old) (T.standing target.new) (text_of unit.now) }
{
    let step = unit.step();
    let names = Names {
        statics: unit.statics(),
        parameters: &step.parameters,
        locals: &step.locals,
    };
    put_statics(target, unit.statics());
    put_reset(target, &names, unit.reset());
    put_step(target, &names, step);
}

// The names of a unit, by their places.
#[derive(Drop)]
struct Names<'a> {
    // those of the variables that keep their values
    statics: &'a [Text],
    // those of the parameters
    parameters: &'a [Text],
    // those of the variables of one call
    locals: &'a [Text],
}

impl<'a> Model for Names<'a> {
    ghost use Rattle.std.specs.Prelude.{List, ℕ};
    ghost use Rattle.dcv_c.specs.Seen.{all_names};

    ghost Value = { List (List ℕ) };

    ghost view = { λ names. all_names names.statics.now names.parameters.now names.locals.now };
}

impl<'a> Names<'a> {
    // The name at a place, and none after the last.
    fn at(&self, place: u32) -> &'a [u8]
        ensures { result.now ≡ name_at self.now place }
    {
        let place = place as usize;
        let statics = self.statics.len();
        if place < statics {
            return self.statics[place].as_bytes();
        }
        let behind = place - statics;
        let parameters = self.parameters.len();
        if behind < parameters {
            return self.parameters[behind].as_bytes();
        }
        let last = behind - parameters;
        if last < self.locals.len() {
            return self.locals[last].as_bytes();
        }
        b""
    }
}

// The name at a place.
fn put_name<T: Target>(target: &mut T, names: &Names<'_>, place: u32)
    ensures { Puts (T.standing target.old) (T.standing target.new) (name_at names.now place) }
{
    target.put(names.at(place));
}

// ---- declarations

fn put_statics<T: Target>(target: &mut T, statics: &[Text])
    ensures { Puts (T.standing target.old) (T.standing target.new) (text_in (Each static_line statics.now)) }
{
    for name in statics {
        put_static(target, name.as_bytes());
    }
}

pub(crate) fn put_static<T: Target>(target: &mut T, name: &[u8])
    ensures { Puts (T.standing target.old) (T.standing target.new) (text_in (static_line name.now)) }
{
    put_pieces(target, &[STATIC, INT, SPACE, name, END]);
}

// The lines of the locals and the empty line after them, where there are any.
fn put_locals<T: Target>(target: &mut T, locals: &[Text])
    ensures { Puts (T.standing target.old) (T.standing target.new) (text_in (local_lines locals.now)) }
{
    if locals.is_empty() {
        return;
    }
    for name in locals {
        put_local(target, name.as_bytes());
    }
    target.put(NEWLINE);
}

pub(crate) fn put_local<T: Target>(target: &mut T, name: &[u8])
    ensures { Puts (T.standing target.old) (T.standing target.new) (text_in (local_line name.now)) }
{
    put_pieces(target, &[INDENT, INT, SPACE, name, END]);
}

// ---- functions

// The lines before the body.
pub(crate) fn put_head<T: Target>(target: &mut T, kind: &[u8], name: &[u8], parameters: &[Text])
    ensures { Puts (T.standing target.old) (T.standing target.new) (text_in (head kind.now name.now (parameters_layout parameters.now))) }
{
    put_beginning(target, kind, name);
    put_parameters(target, parameters);
    target.put(OPENING);
}

// The same up to the parameters.
pub(crate) fn put_beginning<T: Target>(target: &mut T, kind: &[u8], name: &[u8])
    ensures { Puts (T.standing target.old) (T.standing target.new) (text_in (beginning kind.now name.now)) }
{
    put_pieces(target, &[NEWLINE, kind, SPACE, name, b"("]);
}

// The parameters, with something between every two, or `void` where there are none.
fn put_parameters<T: Target>(target: &mut T, parameters: &[Text])
    ensures { Puts (T.standing target.old) (T.standing target.new) (text_in (parameters_layout parameters.now)) }
{
    let Some((first, others)) = parameters.split_first() else {
        return target.put(VOID);
    };
    put_parameter(target, b"", first.as_bytes());
    for parameter in others {
        put_parameter(target, COMMA, parameter.as_bytes());
    }
}

// A parameter, after the text between it and the one before.
fn put_parameter<T: Target>(target: &mut T, between: &[u8], name: &[u8])
    ensures { Puts (T.standing target.old) (T.standing target.new) (text_in (Word between.now <> declaration name.now)) }
{
    put_pieces(target, &[between, INT, SPACE, name]);
}

// The function that sets the statics.
fn put_reset<T: Target>(target: &mut T, names: &Names<'_>, reset: &Reset)
    ensures { Puts (T.standing target.old) (T.standing target.new)
        (text_in (reset_lines reset.now.name (map (seen_assignment names.now) reset.now.assignments.items))) }
{
    put_head(target, VOID, reset.name.as_bytes(), &[]);
    put_assignments(target, names, &reset.assignments);
    target.put(CLOSING);
}

fn put_assignments<T: Target>(target: &mut T, names: &Names<'_>, assignments: &[Assignment])
    ensures { Puts (T.standing target.old) (T.standing target.new) (text_in (Each assignment_line (map (seen_assignment names.now) assignments.now))) }
{
    for assignment in assignments {
        put_assignment(target, names, *assignment);
    }
}

fn put_assignment<T: Target>(target: &mut T, names: &Names<'_>, assignment: Assignment)
    ensures { Puts (T.standing target.old) (T.standing target.new) (text_in (assignment_line (seen_assignment names.now assignment))) }
{
    let mut digits = Buffer::new();
    let number = digits.format(assignment.number).as_bytes();
    put_set(target, names.at(assignment.name), number);
}

// `left = right;`
pub(crate) fn put_set<T: Target>(target: &mut T, left: &[u8], right: &[u8])
    ensures { Puts (T.standing target.old) (T.standing target.new) (text_in (set_line left.now (Word right.now))) }
{
    put_pieces(target, &[INDENT, left, BECOMES, right, END]);
}

// The function that makes a step.
fn put_step<T: Target>(target: &mut T, names: &Names<'_>, step: &Step)
    ensures { Puts (T.standing target.old) (T.standing target.new) (text_in (step_lines step.now.name step.now.parameters.items step.now.locals.items
        (map (seen_statement names.now) step.now.statements.items) (seen_returned names.now step.now.returned))) }
{
    put_head(target, INT, step.name.as_bytes(), &step.parameters);
    put_locals(target, &step.locals);
    put_statements(target, names, &step.statements);
    put_end(target, names, &step.returned);
}

// What a step returns, and its end.
fn put_end<T: Target>(target: &mut T, names: &Names<'_>, returned: &Returned)
    ensures { Puts (T.standing target.old) (T.standing target.new) (text_in (end_lines (returned_layout (seen_returned names.now returned.now)))) }
{
    put_pieces(target, &[INDENT, RETURN]);
    put_returned(target, names, returned);
    put_pieces(target, &[END, CLOSING]);
}

// ---- statements

fn put_statements<T: Target>(target: &mut T, names: &Names<'_>, statements: &[Statement])
    ensures { Puts (T.standing target.old) (T.standing target.new) (text_in (Each statement_line (map (seen_statement names.now) statements.now))) }
{
    for statement in statements {
        put_statement(target, names, *statement);
    }
}

fn put_statement<T: Target>(target: &mut T, names: &Names<'_>, statement: Statement)
    ensures { Puts (T.standing target.old) (T.standing target.new) (text_in (statement_line (seen_statement names.now statement))) }
{
    match statement {
        Statement::Assign(left, right) => put_assign(target, names, left, right),
        Statement::When(condition, left, item) => put_when(target, names, condition, left, item),
    }
}

// `left = right;`
fn put_assign<T: Target>(target: &mut T, names: &Names<'_>, left: u32, right: Right)
    ensures { Puts (T.standing target.old) (T.standing target.new) (text_in (statement_line (Assign (name_at names.now left) (seen_right names.now right)))) }
{
    target.put(INDENT);
    put_name(target, names, left);
    target.put(BECOMES);
    put_right(target, names, right);
    target.put(END);
}

// `if (condition) left = item;`
fn put_when<T: Target>(
    target: &mut T,
    names: &Names<'_>,
    condition: Condition,
    left: u32,
    item: Item,
)
    ensures { Puts (T.standing target.old) (T.standing target.new)
        (text_in (statement_line (When (seen_condition names.now condition) (name_at names.now left) (seen_item names.now item)))) }
{
    put_pieces(target, &[INDENT, IF]);
    put_condition(target, names, condition);
    target.put(THEN);
    put_name(target, names, left);
    target.put(BECOMES);
    put_item(target, names, item);
    target.put(END);
}

fn put_right<T: Target>(target: &mut T, names: &Names<'_>, right: Right)
    ensures { Puts (T.standing target.old) (T.standing target.new) (text_in (right_layout (seen_right names.now right))) }
{
    match right {
        Right::Plain(item) => put_item(target, names, item),
        Right::Chosen(condition, item, otherwise) => {
            put_chosen(target, names, condition, item, otherwise)
        }
    }
}

// `condition ? item : otherwise`
fn put_chosen<T: Target>(
    target: &mut T,
    names: &Names<'_>,
    condition: Condition,
    item: Item,
    otherwise: Item,
)
    ensures { Puts (T.standing target.old) (T.standing target.new)
        (text_in (right_layout (Chosen (seen_condition names.now condition) (seen_item names.now item) (seen_item names.now otherwise)))) }
{
    put_condition(target, names, condition);
    target.put(CHOICE);
    put_item(target, names, item);
    target.put(OTHERWISE);
    put_item(target, names, otherwise);
}

fn put_condition<T: Target>(target: &mut T, names: &Names<'_>, condition: Condition)
    ensures { Puts (T.standing target.old) (T.standing target.new) (text_in (condition_layout (seen_condition names.now condition))) }
{
    match condition {
        Condition::Holds(name) => put_name(target, names, name),
        Condition::Equals(name, number) => put_equal(target, names.at(name), number),
    }
}

// `name == number`
fn put_equal<T: Target>(target: &mut T, name: &[u8], number: u16)
    ensures { Puts (T.standing target.old) (T.standing target.new) (text_in (condition_layout (Equals name.now number))) }
{
    let mut digits = Buffer::new();
    put_pieces(target, &[name, IS, digits.format(number).as_bytes()]);
}

fn put_returned<T: Target>(target: &mut T, names: &Names<'_>, returned: &Returned)
    ensures { Puts (T.standing target.old) (T.standing target.new) (text_in (returned_layout (seen_returned names.now returned.now))) }
{
    match returned {
        Returned::Fixed(number) => put_number(target, *number),
        Returned::Read(name) => put_name(target, names, *name),
        Returned::Tested(tests) => put_tests(target, names, tests),
    }
}

// The tests, with `||` between every two.
fn put_tests<T: Target>(target: &mut T, names: &Names<'_>, tests: &[Test])
    ensures { Puts (T.standing target.old) (T.standing target.new) (text_in (Joined between_tests test_layout (map (seen_test names.now) tests.now))) }
{
    let Some((first, others)) = tests.split_first() else {
        return;
    };
    put_test(target, b"", names, *first);
    for test in others {
        put_test(target, OR, names, *test);
    }
}

// `name == number`, after the text between it and the test before.
fn put_test<T: Target>(target: &mut T, between: &[u8], names: &Names<'_>, test: Test)
    ensures { Puts (T.standing target.old) (T.standing target.new) (text_in (Word between.now <> test_layout (seen_test names.now test))) }
{
    target.put(between);
    put_equal(target, names.at(test.name), test.number);
}

fn put_item<T: Target>(target: &mut T, names: &Names<'_>, item: Item)
    ensures { Puts (T.standing target.old) (T.standing target.new) (item_text (seen_item names.now item)) }
{
    match item {
        Item::Constant(number) => put_number(target, number),
        Item::Named(name) => put_name(target, names, name),
    }
}

fn put_number<T: Target>(target: &mut T, number: u16)
    ensures { Puts (T.standing target.old) (T.standing target.new) (decimal number) }
{
    let mut digits = Buffer::new();
    target.put(digits.format(number).as_bytes());
}
