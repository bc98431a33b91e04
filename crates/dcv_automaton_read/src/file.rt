// The automaton that a text stands for, how its access words and suffixes are spelled, and what its steps took.
ghost use Rattle.std.specs.Prelude.{◌≡◌, ◌<◌, ◌≤◌, length, map};
ghost use Rattle.std.specs.List.{enumerate_from};
ghost use Rattle.dcv_language.specs.Table.{is_accepting, next_in};
ghost use Rattle.dcv_automaton_text.specs.Meaning.{table_of};
ghost use Rattle.dcv_automaton_text.specs.Rules.{IsGood};
ghost use Rattle.dcv_automaton_text.specs.Spelled.{spelled_front};
ghost use Rattle.dcv_automaton_text.specs.Versions.{version_of, steps_of};
ghost use Rattle.dcv_automaton_read.specs.File.{file_from, IsRead, IsKept, state_line, access_from, suffix_from, accesses_of, suffixes_of};
ghost use Rattle.dcv_automaton_read.specs.File.{step_line, counts_in};

use crate::nodes::Node;
use crate::walk::leaf;
use dcv_language::{Access, Child, Count, Suffix};
use dcv_syntax::Text;
use dcv_word::Letter;
use dcv_word::laws::letters_of_width_are_all;
use indexmap::IndexSet;
use std::marker::Model;

/// A state.
#[derive(Clone, Copy)]
pub struct Row {
    /// Whether it accepts.
    pub accepting: bool,
    /// What comes first in its row.
    pub next: Child,
}

/// What the text of an automaton says, where it keeps the table rules. It is seen as the plain data of the text.
#[derive(Drop)]
pub struct AutoFile {
    // the variables, in their order
    names: Vec<Text>,
    // the nodes by their numbers, each once
    nodes: IndexSet<Node>,
    // the states by their numbers
    rows: Vec<Row>,
    // how the access word of each state is spelled
    access: Vec<Access>,
    // how each suffix is spelled
    suffixes: Vec<Suffix>,
    // What the steps took, which a text of version 1 does not say.
    steps: Option<Vec<Count>>,
    // The offset of the step part, or of the last line where there is none.
    steps_at: u32,
}

impl Model for AutoFile {
    ghost use Rattle.dcv_automaton_text.specs.File.{AutomatonFile};
    ghost use Rattle.dcv_automaton_read.specs.File.{file_from, IsKept, counts_in};

    ghost Value = { AutomatonFile };

    ghost view = { λ file. file_from file.names.items file.nodes.keys file.rows.items file.access.items file.suffixes.items (counts_in file.steps) };

    ghost invariant = { λ file. IsKept (file_from file.names.items file.nodes.keys file.rows.items file.access.items file.suffixes.items (counts_in file.steps)) file.nodes.keys file.steps_at };
}

impl AutoFile {
    // What these parts make.
    pub(crate) fn new(
        names: Vec<Text>,
        nodes: IndexSet<Node>,
        rows: Vec<Row>,
        access: Vec<Access>,
        suffixes: Vec<Suffix>,
        steps: Option<Vec<Count>>,
        steps_at: u32,
    ) -> AutoFile
        requires { IsKept (file_from names.items nodes.keys rows.items access.items suffixes.items (counts_in steps)) nodes.keys steps_at }
        ensures { result ≡ file_from names.items nodes.keys rows.items access.items suffixes.items (counts_in steps) }
    {
        AutoFile {
            names,
            nodes,
            rows,
            access,
            suffixes,
            steps,
            steps_at,
        }
    }

    /// Each file keeps the table rules.
    pub fn keeps_the_rules(&self)
        ensures { IsGood self.now }
    {
        let _ = &self.rows;
    }

    /// The names of the variables, in order.
    pub fn names(&self) -> &[Text]
        ensures { result.now ≡ self.now.names }
    {
        &self.names
    }

    /// How many states there are.
    pub fn states(&self) -> u32
        ensures { result ≡ self.now.states }
    {
        self.rows.len() as u32
    }

    /// The nodes of the rows, each after its children.
    pub fn nodes(&self) -> &[Node]
        ensures { IsRead self.now result.now }
    {
        self.nodes.as_slice()
    }

    /// The states in order: whether each accepts, and its row.
    pub fn rows(&self) -> &[Row]
        ensures { self.now.state_lines ≡ map state_line (enumerate_from 0 result.now) }
    {
        &self.rows
    }

    /// Whether a state accepts.
    pub fn accepting(&self, state: u32) -> bool
        requires { state < self.now.states }
        ensures { result ≡ is_accepting (table_of self.now) state }
    {
        self.rows[state as usize].accepting
    }

    /// The state to which a letter leads from a state.
    pub fn next(&self, state: u32, letter: &Letter) -> u32
        requires state { state < self.now.states }
        requires width { length letter.now ≡ length self.now.names }
        ensures { result ≡ next_in (table_of self.now) state letter.now }
    {
        letters_of_width_are_all();
        leaf(
            self.nodes.as_slice(),
            self.rows[state as usize].next,
            letter,
        )
    }

    /// How the access words are spelled, that of state 0 first.
    pub fn access(&self) -> &[Access]
        ensures { map access_from result.now ≡ accesses_of self.now }
    {
        &self.access
    }

    /// How the suffixes are spelled.
    pub fn suffixes(&self) -> &[Suffix]
        ensures { map suffix_from result.now ≡ suffixes_of self.now }
    {
        &self.suffixes
    }

    /// The version of the text: 1, or 2, which says what the steps took.
    pub fn version(&self) -> u8
        ensures { result ≡ version_of self.now }
    {
        match &self.steps {
            None => 1,
            Some(_) => 2,
        }
    }

    /// What each step took, in order. A text of version 1 says it of none.
    pub fn counts(&self) -> &[Count]
        ensures { steps_of self.now ≡ map step_line (enumerate_from 0 result.now) }
    {
        match &self.steps {
            None => &[],
            Some(counts) => counts,
        }
    }

    /// The offset at which the step part begins, in bytes, or the last line where there is none.
    pub fn steps_at(&self) -> u32
        ensures { result ≡ length (spelled_front self.now) }
    {
        self.steps_at
    }
}
