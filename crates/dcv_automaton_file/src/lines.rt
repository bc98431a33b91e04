// Puts what is said of an automaton's variables, nodes and states, by the texts around each part.
ghost use Rattle.std.specs.Prelude.{◌≡◌, ◌<◌, ◌||◌, ◌++◌, [], List, if◌then◌else◌, length, map, decimal};
ghost use Rattle.std.specs.List.{All, range_with_len, enumerate_from, flat_map};
ghost use Rattle.dcv_io.specs.Putting.{Puts};
ghost use Rattle.dcv_dfa.specs.Raw.{RawValue};
ghost use Rattle.dcv_language.specs.declared.child.Child.{Child as PlainChild};
ghost use Rattle.dcv_automaton_file.specs.File.{texts_of, node_line, state_lines};
ghost use Rattle.dcv_automaton_file.specs.Lines.{in_turn, child_text, node_text, row_text, one_listed, listed, accepting_numbers};

use dcv_dfa::{Auto, NodeLine};
use dcv_io::{Target, put_pieces};
use dcv_language::Child;
use dcv_syntax::Name;
use itoa::Buffer;

/// How a list is laid out: the text before and after each, between every two, and in place of none.
#[derive(Clone, Copy)]
pub struct Listing<'a> {
    /// The text before each.
    pub before: &'a [&'a [u8]],
    /// The text after each.
    pub after: &'a [u8],
    /// The text between every two.
    pub between: &'a [u8],
    /// The text in place of an empty list.
    pub none: &'a [&'a [u8]],
}

/// How a node's line is laid out: the text before its number, before the name of its variable, before its children, and at the end.
#[derive(Clone, Copy)]
pub struct NodeLayout<'a> {
    /// The text before the node's number.
    pub number: &'a [&'a [u8]],
    /// The text before the name of its variable.
    pub variable: &'a [&'a [u8]],
    /// The text before the child where the variable is true.
    pub hi: &'a [u8],
    /// The text before the child where it is false.
    pub lo: &'a [u8],
    /// What ends the line.
    pub end: &'a [u8],
}

/// How a state's line is laid out: the text before its number, before its row, and at the end.
#[derive(Clone, Copy)]
pub struct RowLayout<'a> {
    /// The text before the state's number.
    pub number: &'a [&'a [u8]],
    /// The text before its row.
    pub row: &'a [&'a [u8]],
    /// What ends the line.
    pub end: &'a [u8],
}

// ---- variables

/// Puts the names of variables.
pub fn put_names<T: Target>(target: &mut T, listing: &Listing<'_>, names: &[Name])
    ensures { Puts (T.standing target.old) (T.standing target.new) (listed listing.now (texts_of names.now)) }
{
    let Some((first, others)) = names.split_first() else {
        return put_pieces(target, listing.none);
    };
    put_one(target, listing, b"", first.text.as_bytes());
    for name in others {
        put_one(target, listing, listing.between, name.text.as_bytes());
    }
}

// One of a list, after the text between it and the one before.
fn put_one<T: Target>(target: &mut T, listing: &Listing<'_>, between: &[u8], text: &[u8])
    ensures { Puts (T.standing target.old) (T.standing target.new) (between.now ++ one_listed listing.now text.now) }
{
    target.put(between);
    put_pieces(target, listing.before);
    target.put(text);
    target.put(listing.after);
}

// ---- nodes

/// Puts the numbers below a count, each between two texts.
pub fn put_numbers<T: Target>(target: &mut T, before: &[&[u8]], after: &[u8], count: u32)
    ensures { Puts (T.standing target.old) (T.standing target.new) (flat_map (λ number. in_turn before.now ++ (decimal number ++ after.now)) (range_with_len 0 count)) }
{
    for number in 0..count {
        put_number(target, before, after, number);
    }
}

fn put_number<T: Target>(target: &mut T, before: &[&[u8]], after: &[u8], number: u32)
    ensures { Puts (T.standing target.old) (T.standing target.new) (in_turn before.now ++ (decimal number ++ after.now)) }
{
    put_pieces(target, before);
    put_digits(target, number as usize);
    target.put(after);
}

fn put_digits<T: Target>(target: &mut T, number: usize)
    ensures { Puts (T.standing target.old) (T.standing target.new) (decimal number) }
{
    let mut digits = Buffer::new();
    target.put(digits.format(number).as_bytes());
}

/// Puts a line for each node.
pub fn put_nodes<T: Target>(
    target: &mut T,
    layout: &NodeLayout<'_>,
    names: &[Name],
    lines: &[NodeLine],
)
    requires { All (λ (line : NodeLine). line.slot < length names.now) lines.now }
    ensures { Puts (T.standing target.old) (T.standing target.new)
        (flat_map (node_text layout.now) (map (node_line (texts_of names.now)) (enumerate_from 0 lines.now))) }
{
    for (number, line) in lines.iter().enumerate() {
        let name = names[usize::from(line.slot)].text.as_bytes();
        put_node(target, layout, number, name, *line);
    }
}

fn put_node<T: Target>(
    target: &mut T,
    layout: &NodeLayout<'_>,
    number: usize,
    name: &[u8],
    line: NodeLine,
)
    ensures { Puts (T.standing target.old) (T.standing target.new)
        (node_text layout.now (record { number = number; name = name.now; hi = line.hi; lo = line.lo })) }
{
    put_node_start(target, layout, number, name);
    put_child(target, line.hi);
    target.put(layout.lo);
    put_child(target, line.lo);
    target.put(layout.end);
}

// The line up to its first child.
fn put_node_start<T: Target>(target: &mut T, layout: &NodeLayout<'_>, number: usize, name: &[u8])
    ensures { Puts (T.standing target.old) (T.standing target.new)
        (in_turn layout.now.number.now ++ (decimal number ++ (in_turn layout.now.variable.now ++ (name.now ++ layout.now.hi.now)))) }
{
    put_pieces(target, layout.number);
    put_digits(target, number);
    put_pieces(target, layout.variable);
    target.put(name);
    target.put(layout.hi);
}

/// Puts a state as its number, and a node as `nJ`.
pub fn put_child<T: Target>(target: &mut T, child: Child)
    ensures { Puts (T.standing target.old) (T.standing target.new) (child_text child) }
{
    let mut digits = Buffer::new();
    match child {
        Child::State(state) => target.put(digits.format(state).as_bytes()),
        Child::Node(number) => put_pieces(target, &[b"n", digits.format(number).as_bytes()]),
    }
}

// ---- states

/// Puts a line for each state, by its row.
pub fn put_rows<T: Target>(target: &mut T, layout: &RowLayout<'_>, rows: &[Child])
    ensures { (raw : RawValue) → Puts (T.standing target.old) (T.standing target.new) (flat_map (row_text layout.now) (state_lines raw rows.now)) }
{
    for (number, row) in rows.iter().enumerate() {
        put_row(target, layout, number, *row);
    }
}

fn put_row<T: Target>(target: &mut T, layout: &RowLayout<'_>, number: usize, row: Child)
    ensures { Puts (T.standing target.old) (T.standing target.new)
        (in_turn layout.now.number.now ++ (decimal number ++ (in_turn layout.now.row.now ++ (child_text row ++ layout.now.end.now)))) }
{
    put_row_start(target, layout, number);
    put_child(target, row);
    target.put(layout.end);
}

// The line up to its row.
fn put_row_start<T: Target>(target: &mut T, layout: &RowLayout<'_>, number: usize)
    ensures { Puts (T.standing target.old) (T.standing target.new) (in_turn layout.now.number.now ++ (decimal number ++ in_turn layout.now.row.now)) }
{
    put_pieces(target, layout.number);
    put_digits(target, number);
    put_pieces(target, layout.row);
}

/// Puts the numbers of the states that accept.
pub fn put_accepting<T: Target>(target: &mut T, listing: &Listing<'_>, auto: &Auto)
    ensures { (rows : List PlainChild) → length rows ≡ length auto.now.rows
        → Puts (T.standing target.old) (T.standing target.new) (listed listing.now (accepting_numbers (state_lines auto.now rows))) }
{
    let mut some = false;
    for state in 0..auto.states() {
        some = put_if_accepting(target, listing, some, state, auto.accepting(state));
    }
    put_unless(target, listing, some);
}

// The number of a state that accepts, after the text between where some number stands before it. Returns whether there is one now.
fn put_if_accepting<T: Target>(
    target: &mut T,
    listing: &Listing<'_>,
    some: bool,
    state: u32,
    accepting: bool,
) -> bool
    ensures some { result ≡ (accepting || some) }
    ensures puts { Puts (T.standing target.old) (T.standing target.new)
        (if accepting then (if some then listing.now.between.now else []) ++ one_listed listing.now (decimal state) else []) }
{
    if accepting {
        let mut digits = Buffer::new();
        put_one(
            target,
            listing,
            between_if(listing, some),
            digits.format(state).as_bytes(),
        );
        return true;
    }
    some
}

fn between_if<'a>(listing: &Listing<'a>, some: bool) -> &'a [u8]
    ensures { result.now ≡ (if some then listing.now.between.now else []) }
{
    if some { listing.between } else { b"" }
}

// The text in place of none, unless there is one.
fn put_unless<T: Target>(target: &mut T, listing: &Listing<'_>, some: bool)
    ensures { Puts (T.standing target.old) (T.standing target.new) (if some then [] else in_turn listing.now.none.now) }
{
    if !some {
        put_pieces(target, listing.none);
    }
}
