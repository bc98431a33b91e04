// A controller as a table of diagrams over the inputs.
ghost use Rattle.std.specs.Prelude.{◌≡◌, ◌<◌, length};
ghost use Rattle.dcv_synth.specs.Control.{IsRows, IsControl, value_in};

use dcv_arena::{Arena, Ref};
use dcv_word::Letter;
use std::marker::Model;

/// Functions of the inputs, as diagrams in one arena.
#[derive(Drop)]
pub struct Rows {
    // the nodes of the rows
    arena: Arena,
    // a function of the inputs for each state
    rows: Vec<Ref>,
}

impl Model for Rows {
    ghost use Rattle.dcv_synth.specs.Control.{RowsValue, IsRows};

    ghost Value = { RowsValue };

    ghost view = { λ rows. record { arena = rows.arena; rows = rows.rows.items } };

    ghost invariant = { λ rows. IsRows (record { arena = rows.arena; rows = rows.rows.items }) };
}

impl Rows {
    pub(crate) fn new(arena: Arena, rows: Vec<Ref>) -> Rows
        requires { IsRows (record { arena = arena; rows = rows.items }) }
        ensures { result ≡ record { arena = arena; rows = rows.items } }
    {
        Rows { arena, rows }
    }

    /// The arena of the functions. It has as many slots as there are inputs.
    pub fn arena(&self) -> &Arena
        ensures arena { result.now ≡ self.now.arena }
        ensures rows { IsRows self.now }
    {
        &self.arena
    }

    /// The functions, in order.
    pub fn rows(&self) -> &[Ref]
        ensures rows { result.now ≡ self.now.rows }
        ensures refs { IsRows self.now }
    {
        &self.rows
    }

    /// The number that the function at this place has at an input.
    pub fn value(&self, place: u32, input: &Letter) -> u32
        requires place { place < length self.now.rows }
        requires width { length input.now ≡ self.now.arena.slots }
        ensures { result ≡ value_in self.now place input.now }
    {
        self.arena.eval(self.rows[place as usize], input)
    }
}

/// A controller of least outputs. It begins in state 0, and its states are those of the automaton from which it never loses.
#[derive(Drop)]
pub struct Control {
    // the states of the automaton that the controller keeps to
    states: Vec<u32>,
    // the state that comes next
    next: Rows,
    // the outputs as a number
    output: Rows,
}

impl Model for Control {
    ghost use Rattle.dcv_synth.specs.Control.{ControlValue, IsControl};

    ghost Value = { ControlValue };

    ghost view = { λ control. record { states = control.states.items; next = control.next; output = control.output } };

    ghost invariant = { λ control. IsControl (record { states = control.states.items; next = control.next; output = control.output }) };
}

impl Control {
    pub(crate) fn new(states: Vec<u32>, next: Rows, output: Rows) -> Control
        requires { IsControl (record { states = states.items; next = next; output = output }) }
        ensures { result ≡ record { states = states.items; next = next; output = output } }
    {
        Control {
            states,
            next,
            output,
        }
    }

    /// Its states, by the automaton's numbers and in their order.
    pub fn states(&self) -> &[u32]
        ensures states { result.now ≡ self.now.states }
        ensures control { IsControl self.now }
    {
        &self.states
    }

    /// For each of its states, the state that comes next.
    pub fn next(&self) -> &Rows
        ensures next { result.now ≡ self.now.next }
        ensures control { IsControl self.now }
    {
        &self.next
    }

    /// For each of its states, the outputs as one number, of which the first output is the highest digit.
    pub fn output(&self) -> &Rows
        ensures output { result.now ≡ self.now.output }
        ensures control { IsControl self.now }
    {
        &self.output
    }
}
