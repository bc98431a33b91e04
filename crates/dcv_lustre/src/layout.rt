// The text of a node.
ghost use Rattle.std.specs.Prelude.{◌≡◌, ◌++◌, ℕ, List, codes, decimal, map, IfOk};
ghost use Rattle.dcv_io.specs.Putting.{Puts};
ghost use Rattle.dcv_observer.specs.Layouts.{Word, ◌<>◌, ◌<+>◌, Each, text_in};
ghost use Rattle.dcv_lustre.specs.Seen.{name_at, seen_value, seen_kind, seen_item, seen_condition, seen_arm, seen_test, seen_right, seen_equation, seen_local};
ghost use Rattle.dcv_lustre.specs.Tree.{Truth, Equals, Delayed, Tested};
ghost use Rattle.dcv_lustre.specs.Placed.{PlacedNode, node_of};
ghost use Rattle.dcv_lustre.specs.Actions.{Spells};
ghost use Rattle.dcv_lustre.specs.Layout.{value_text, item_text, condition_layout, arm_layout, test_layout, right_layout, equation_line};
ghost use Rattle.dcv_lustre.specs.Layout.{kind_text, end, local_line, local_lines, input_layout, inputs_layout, opening_layout, text_of};

use crate::laws::texts_spell_nodes;
use crate::node::{Arm, Equation, Item, Kind, Local, Node, Right, Value};
use crate::words::{
    ARROW_PRE, CLOSE, ELSE, END, FALSE, IF, INDENT, INPUT_END, IS, LET, NEXT_INPUT, NODE,
    NUMBER_END, OPEN, OR, OUTPUT, TEL, THEN, TRUE, TRUTH_END, VAR,
};
use dcv_io::{Target, Text as TextInMemory, put_pieces};
use dcv_observer::{Condition, Test};
use dcv_syntax::Text;
use itoa::Buffer;
use std::alloc::{AllocError, Global};
use std::marker::Model;

/// The text of a node, which spells it.
pub fn text(alloc: Global, node: &Node) -> Result<Vec<u8>, AllocError>
    ensures layout { IfOk result (λ text. text.items ≡ text_of node.now) }
    ensures spelled { IfOk result (λ text. (placed : PlacedNode) × Spells text.items placed × (node_of placed ≡ node.now)) }
{
    texts_spell_nodes();
    node.keeps_the_rules();
    let mut text = TextInMemory::new(alloc);
    put(node, &mut text);
    text.finish()
}

// Puts the text of a node, piece by piece.
fn put<T: Target>(node: &Node, target: &mut T)
    ensures { Puts (T.standing target.old) (T.standing target.new) (text_of node.now) }
{
    let names = Names {
        inputs: node.inputs(),
        locals: node.locals(),
    };
    put_opening(target, node.name());
    put_inputs(target, node.inputs());
    target.put(OUTPUT);
    put_locals(target, node.locals());
    target.put(LET);
    put_equations(target, &names, node.equations());
    target.put(TEL);
}

// The names of a node, by their places.
#[derive(Drop)]
struct Names<'a> {
    // those of the inputs
    inputs: &'a [Text],
    // the local variables with their types
    locals: &'a [Local],
}

impl<'a> Model for Names<'a> {
    ghost use Rattle.std.specs.Prelude.{List, ℕ};
    ghost use Rattle.dcv_lustre.specs.Seen.{all_names};

    ghost Value = { List (List ℕ) };

    ghost view = { λ names. all_names names.inputs.now names.locals.now };
}

impl<'a> Names<'a> {
    // The name at a place, and none after the last.
    fn at(&self, place: u32) -> &'a [u8]
        ensures { result.now ≡ name_at self.now place }
    {
        let place = place as usize;
        let inputs = self.inputs.len();
        if place < inputs {
            return self.inputs[place].as_bytes();
        }
        if place == inputs {
            return b"ok";
        }
        let behind = place - inputs - 1;
        if behind < self.locals.len() {
            return self.locals[behind].name.as_bytes();
        }
        b""
    }
}

// The name at a place.
fn put_name<T: Target>(target: &mut T, names: &Names<'_>, place: u32)
    ensures { Puts (T.standing target.old) (T.standing target.new) (name_at names.now place) }
{
    target.put(names.at(place));
}

// The first line up to its inputs.
pub(crate) fn put_opening<T: Target>(target: &mut T, name: &[u8])
    ensures { Puts (T.standing target.old) (T.standing target.new) (text_in (opening_layout name.now)) }
{
    put_pieces(target, &[NODE, name, OPEN]);
}

fn put_inputs<T: Target>(target: &mut T, inputs: &[Text])
    ensures { Puts (T.standing target.old) (T.standing target.new) (text_in (inputs_layout inputs.now)) }
{
    let Some((first, others)) = inputs.split_first() else {
        return;
    };
    put_input(target, b"", first.as_bytes());
    for input in others {
        put_input(target, NEXT_INPUT, input.as_bytes());
    }
}

// An input, after the text between it and the one before.
fn put_input<T: Target>(target: &mut T, between: &[u8], name: &[u8])
    ensures { Puts (T.standing target.old) (T.standing target.new) (between.now ++ text_in (input_layout name.now)) }
{
    put_pieces(target, &[between, name, INPUT_END]);
}

fn put_locals<T: Target>(target: &mut T, locals: &[Local])
    ensures { Puts (T.standing target.old) (T.standing target.new) (text_in (local_lines (map seen_local locals.now))) }
{
    if locals.is_empty() {
        return;
    }
    target.put(VAR);
    for local in locals {
        put_local(target, local);
    }
}

fn put_local<T: Target>(target: &mut T, local: &Local)
    ensures { Puts (T.standing target.old) (T.standing target.new) (text_in (local_line (seen_local local.now))) }
{
    put_pieces(
        target,
        &[INDENT, local.name.as_bytes(), kind_end(local.kind)],
    );
}

// The text after the name of a local.
fn kind_end<'a>(kind: Kind) -> &'a [u8]
    ensures { result.now ≡ text_in (Word (codes ":") <+> Word (kind_text (seen_kind kind)) <> end) }
{
    match kind {
        Kind::OfTruth => TRUTH_END,
        Kind::OfNumber => NUMBER_END,
    }
}

fn put_equations<T: Target>(target: &mut T, names: &Names<'_>, equations: &[Equation])
    ensures { Puts (T.standing target.old) (T.standing target.new) (text_in (Each equation_line (map (seen_equation names.now) equations.now))) }
{
    for equation in equations {
        put_equation(target, names, equation);
    }
}

fn put_equation<T: Target>(target: &mut T, names: &Names<'_>, equation: &Equation)
    ensures { Puts (T.standing target.old) (T.standing target.new) (text_in (equation_line (seen_equation names.now equation.now))) }
{
    target.put(INDENT);
    put_name(target, names, equation.left);
    target.put(IS);
    put_right(target, names, &equation.right);
    target.put(END);
}

fn put_right<T: Target>(target: &mut T, names: &Names<'_>, right: &Right)
    ensures { Puts (T.standing target.old) (T.standing target.new) (text_in (right_layout (seen_right names.now right.now))) }
{
    match right {
        Right::Delayed(first, source) => put_delayed(target, names, *first, *source),
        Right::Chosen(arms, otherwise) => {
            put_arms(target, names, arms);
            put_item(target, names, *otherwise);
        }
        Right::Tested(tests) => put_tests(target, names, tests),
    }
}

fn put_delayed<T: Target>(target: &mut T, names: &Names<'_>, first: Value, source: u32)
    ensures { Puts (T.standing target.old) (T.standing target.new) (text_in (right_layout (Delayed (seen_value first) (name_at names.now source)))) }
{
    put_value(target, first);
    target.put(ARROW_PRE);
    put_name(target, names, source);
}

fn put_arms<T: Target>(target: &mut T, names: &Names<'_>, arms: &[Arm])
    ensures { Puts (T.standing target.old) (T.standing target.new) (text_in (Each arm_layout (map (seen_arm names.now) arms.now))) }
{
    for arm in arms {
        put_arm(target, names, *arm);
    }
}

fn put_arm<T: Target>(target: &mut T, names: &Names<'_>, arm: Arm)
    ensures { Puts (T.standing target.old) (T.standing target.new) (text_in (arm_layout (seen_arm names.now arm))) }
{
    target.put(IF);
    put_condition(target, names, arm.condition);
    target.put(THEN);
    put_item(target, names, arm.item);
    target.put(ELSE);
}

fn put_condition<T: Target>(target: &mut T, names: &Names<'_>, condition: Condition)
    ensures { Puts (T.standing target.old) (T.standing target.new) (text_in (condition_layout (seen_condition names.now condition))) }
{
    match condition {
        Condition::Holds(name) => put_name(target, names, name),
        Condition::Equals(name, number) => put_equal(target, names, name, number),
    }
}

fn put_equal<T: Target>(target: &mut T, names: &Names<'_>, name: u32, number: u16)
    ensures { Puts (T.standing target.old) (T.standing target.new) (text_in (condition_layout (Equals (name_at names.now name) number))) }
{
    let mut digits = Buffer::new();
    put_pieces(
        target,
        &[names.at(name), IS, digits.format(number).as_bytes()],
    );
}

fn put_tests<T: Target>(target: &mut T, names: &Names<'_>, tests: &[Test])
    ensures { Puts (T.standing target.old) (T.standing target.new) (text_in (right_layout (Tested (map (seen_test names.now) tests.now)))) }
{
    let Some((first, others)) = tests.split_first() else {
        return;
    };
    put_test(target, b"", names, *first);
    for test in others {
        put_test(target, OR, names, *test);
    }
}

// A test, after the text between it and the one before.
fn put_test<T: Target>(target: &mut T, between: &[u8], names: &Names<'_>, test: Test)
    ensures { Puts (T.standing target.old) (T.standing target.new) (between.now ++ text_in (test_layout (seen_test names.now test))) }
{
    target.put(between);
    target.put(OPEN);
    put_equal(target, names, test.name, test.number);
    target.put(CLOSE);
}

fn put_item<T: Target>(target: &mut T, names: &Names<'_>, item: Item)
    ensures { Puts (T.standing target.old) (T.standing target.new) (item_text (seen_item names.now item)) }
{
    match item {
        Item::Constant(value) => put_value(target, value),
        Item::Named(name) => put_name(target, names, name),
    }
}

fn put_value<T: Target>(target: &mut T, value: Value)
    ensures { Puts (T.standing target.old) (T.standing target.new) (value_text (seen_value value)) }
{
    match value {
        Value::Truth(truth) => target.put(truth_word(truth)),
        Value::Number(number) => put_number(target, number),
    }
}

fn truth_word(truth: bool) -> &'static [u8]
    ensures { result.now ≡ value_text (Truth truth) }
{
    if truth { TRUE } else { FALSE }
}

fn put_number<T: Target>(target: &mut T, number: u16)
    ensures { Puts (T.standing target.old) (T.standing target.new) (decimal number) }
{
    let mut digits = Buffer::new();
    target.put(digits.format(number).as_bytes());
}
