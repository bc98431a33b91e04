//! What the text of an automaton says of its nodes and its states, and how such lines are put by a layout. The text itself and the observers of
//! the automaton are made of this. The definitions are in `specs/`, and their law in [`laws`].
#![tactic(auto)]

pub mod laws;
mod lines;

pub use lines::{
    Listing, NodeLayout, RowLayout, put_accepting, put_child, put_names, put_nodes, put_numbers,
    put_rows,
};
