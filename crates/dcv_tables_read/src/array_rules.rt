// The lines of an array are judged in turn.
ghost use Rattle.std.specs.Prelude.{◌≡◌, ◌+◌, ◌^◌, ◌<◌, ◌≤◌, ℕ, Bool, nat_lt, length, map, slice_index_or, decimal};
ghost use Rattle.dcv_c_tables.specs.Unit.{no_node};
ghost use Rattle.dcv_c_tables.specs.Layout.{text_in, number_line};
ghost use Rattle.dcv_tables_read.specs.Reading.{keeps_child, entries};
ghost use Rattle.dcv_tables_read.specs.Seen.{seen_node, seen_tables};
ghost use Rattle.dcv_tables_read.specs.Judged.{IsJudged, judged_from, lines_of};

use crate::unit::{TableNode, TableState, TableUnit};
use itoa::Buffer;

/// What an array lists of each element of a slice, and the rule of these numbers.
pub(crate) trait Rule<X> {
    /// The number of an element.
    ghost number: { Self → X → ℕ };

    /// Whether the number of the element at a place keeps the rule.
    ghost keeps: { Self → ℕ → X → Bool };

    /// Returns the number of an element.
    fn number(&self, element: &X) -> u32
        ensures { result ≡ number self.now element.now };

    /// Returns whether the number of the element at a place keeps the rule.
    fn keeps(&self, place: usize, element: &X) -> bool
        ensures { result ≡ keeps self.now place element.now };
}

/// The variables of nodes, of which there are so many.
#[derive(Clone, Copy)]
pub(crate) struct Variables {
    pub width: usize,
}

/// The places after nodes whose variable is true.
#[derive(Clone, Copy)]
pub(crate) struct Highs<'u, 'a> {
    pub unit: &'u TableUnit<'a>,
}

/// The places after nodes whose variable is false.
#[derive(Clone, Copy)]
pub(crate) struct Lows<'u, 'a> {
    pub unit: &'u TableUnit<'a>,
}

/// The places that states' rows begin at, of which there are so many.
#[derive(Clone, Copy)]
pub(crate) struct Rows {
    pub places: usize,
}

impl Rule<TableNode> for Variables {
    ghost number = { λ rule node. node.variable };

    ghost keeps = { λ rule place node. nat_lt node.variable rule.width };

    fn number(&self, node: &TableNode) -> u32 {
        node.variable
    }

    fn keeps(&self, _place: usize, node: &TableNode) -> bool {
        (node.variable as usize) < self.width
    }
}

impl<'u, 'a> Rule<TableNode> for Highs<'u, 'a> {
    ghost number = { λ rule node. node.high };

    ghost keeps = { λ rule place node. keeps_child (seen_tables rule.unit.now) (length rule.unit.now.states.items + place) node.variable node.high };

    fn number(&self, node: &TableNode) -> u32 {
        node.high
    }

    fn keeps(&self, place: usize, node: &TableNode) -> bool {
        keeps_child(self.unit, place, node.variable, node.high)
    }
}

impl<'u, 'a> Rule<TableNode> for Lows<'u, 'a> {
    ghost number = { λ rule node. node.low };

    ghost keeps = { λ rule place node. keeps_child (seen_tables rule.unit.now) (length rule.unit.now.states.items + place) node.variable node.low };

    fn number(&self, node: &TableNode) -> u32 {
        node.low
    }

    fn keeps(&self, place: usize, node: &TableNode) -> bool {
        keeps_child(self.unit, place, node.variable, node.low)
    }
}

impl Rule<TableState> for Rows {
    ghost number = { λ rule state. state.row };

    ghost keeps = { λ rule place state. nat_lt state.row rule.places };

    fn number(&self, state: &TableState) -> u32 {
        state.row
    }

    fn keeps(&self, _place: usize, state: &TableState) -> bool {
        (state.row as usize) < self.places
    }
}

// Whether a child of the node at this place is a state, or an earlier node with a later variable.
fn keeps_child(unit: &TableUnit<'_>, place: usize, variable: u32, child: u32) -> bool
    ensures { result ≡ keeps_child (seen_tables unit.now) (length unit.now.states.items + place) variable child }
{
    let child = child as usize;
    if child < unit.states.len() {
        return true;
    }
    let number = child - unit.states.len();
    number < place && variable < variable_of(&unit.nodes, number)
}

// The variable of the node with this number, and 0 beyond all.
fn variable_of(nodes: &[TableNode], number: usize) -> u32
    ensures { result ≡ (slice_index_or (map seen_node nodes.now) number no_node).variable }
{
    match nodes.get(number) {
        Some(node) => node.variable,
        None => 0,
    }
}

/// How many digits a number has.
pub(crate) fn digits_of(number: u64) -> u32
    ensures digits { result ≡ length (decimal number) }
    ensures few { result ≤ 20 }
{
    let mut digits = Buffer::new();
    digits.format(number).len() as u32
}

// The offset after the line of a number.
fn after_line(at: u32, number: u32) -> u32
    requires { at + length (text_in (number_line number)) < 2 ^ 32 }
    ensures { result ≡ at + length (text_in (number_line number)) }
{
    at + digits_of(u64::from(number)) + 4
}

/// The offset after the lines, of which the first begins at this one, or that of the first number that breaks the rule.
pub(crate) fn judge_numbers<X, R: Rule<X>>(rule: &R, elements: &[X], first: u32) -> Result<u32, u32>
    requires { first + length (text_in (lines_of (R.number rule.now) elements.now)) < 2 ^ 32 }
    ensures { IsJudged (entries first (map (R.number rule.now) elements.now)) (judged_from (R.keeps rule.now) 0 elements.now)
        (first + length (text_in (lines_of (R.number rule.now) elements.now))) result }
{
    let mut at = first;
    for (place, element) in elements.iter().enumerate() {
        if !rule.keeps(place, element) {
            return Err(at + 2);
        }
        at = after_line(at, rule.number(element));
    }
    Ok(at)
}
