// The lines of arrays.
ghost use Rattle.std.specs.Prelude.{◌≡◌, ◌+◌, ◌<◌, ℕ, List, length};
ghost use Rattle.std.specs.List.{range_with_len};
ghost use Rattle.dcv_dfa.specs.Raw.{is_accepting};
ghost use Rattle.dcv_dfa.specs.declared.node_lines.NodeLine.{NodeLine as CodeNodeLine};
ghost use Rattle.dcv_io.specs.Putting.{Puts};
ghost use Rattle.dcv_observer.specs.Layouts.{Each};
ghost use Rattle.dcv_c_tables.specs.Layout.{text_in, number_line, accept_number};
ghost use Rattle.dcv_c_tables.specs.Observer.{place_of};

use dcv_dfa::{Auto, NodeLine};
use dcv_io::{Target, put_pieces};
use dcv_language::Child;
use itoa::Buffer;

// Puts a line with a number.
fn put_entry<T: Target>(target: &mut T, number: u64)
    ensures { Puts (T.standing target.old) (T.standing target.new) (text_in (number_line number)) }
{
    let mut digits = Buffer::new();
    put_pieces(target, &[b"  ", digits.format(number).as_bytes(), b",\n"]);
}

// The place of a state is its number, and that of a node its own number after those of the states.
fn place(states: u32, child: Child) -> u64
    ensures { result ≡ place_of states child }
{
    match child {
        Child::State(state) => u64::from(state),
        Child::Node(number) => u64::from(states) + u64::from(number),
    }
}

/// What an array lists of each element of a slice.
pub(crate) trait Entry<X> {
    /// The number of an element.
    ghost number: { Self → X → ℕ };

    /// Returns the number of an element.
    fn number(&self, element: &X) -> u64
        ensures { result ≡ number self.now element.now };
}

/// The variables of nodes.
#[derive(Clone, Copy)]
pub(crate) struct Variables;

/// The places after nodes whose variable is true.
#[derive(Clone, Copy)]
pub(crate) struct Highs {
    pub states: u32,
}

/// The places after nodes whose variable is false.
#[derive(Clone, Copy)]
pub(crate) struct Lows {
    pub states: u32,
}

/// The places that states' rows begin at.
#[derive(Clone, Copy)]
pub(crate) struct Rows {
    pub states: u32,
}

impl Entry<NodeLine> for Variables {
    ghost number = { λ entry line. line.slot };

    fn number(&self, line: &NodeLine) -> u64 {
        u64::from(line.slot)
    }
}

impl Entry<NodeLine> for Highs {
    ghost number = { λ entry line. place_of entry.states line.hi };

    fn number(&self, line: &NodeLine) -> u64 {
        place(self.states, line.hi)
    }
}

impl Entry<NodeLine> for Lows {
    ghost number = { λ entry line. place_of entry.states line.lo };

    fn number(&self, line: &NodeLine) -> u64 {
        place(self.states, line.lo)
    }
}

impl Entry<Child> for Rows {
    ghost number = { λ entry row. place_of entry.states row };

    fn number(&self, row: &Child) -> u64 {
        place(self.states, *row)
    }
}

/// Puts a line for each element.
pub(crate) fn put_entries<T: Target, X, E: Entry<X>>(target: &mut T, entry: &E, elements: &[X])
    ensures { Puts (T.standing target.old) (T.standing target.new) (text_in (Each (λ (element : X). number_line (E.number entry.now element)) elements.now)) }
{
    for element in elements {
        put_entry(target, entry.number(element));
    }
}

/// Puts a line for each state: 1 if it accepts, else 0.
pub(crate) fn put_accepts<T: Target>(target: &mut T, auto: &Auto)
    ensures { Puts (T.standing target.old) (T.standing target.new)
        (text_in (Each (λ state. number_line (accept_number (is_accepting auto.now state))) (range_with_len 0 (length auto.now.rows)))) }
{
    for state in 0..auto.states() {
        put_accept(target, auto.accepting(state));
    }
}

fn put_accept<T: Target>(target: &mut T, accepts: bool)
    ensures { Puts (T.standing target.old) (T.standing target.new) (text_in (number_line (accept_number accepts))) }
{
    put_entry(target, if accepts { 1 } else { 0 });
}
