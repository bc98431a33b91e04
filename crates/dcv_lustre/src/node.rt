// The tree of a node. A name is given by its place: the inputs first, then the output `ok`, then the locals.
ghost use Rattle.std.specs.Prelude.{◌≡◌, map};

use dcv_observer::{Condition, Test};
use dcv_syntax::Text;
use std::marker::Model;

/// A truth or a number.
#[derive(Clone, Copy, Debug, PartialEq, Eq)]
pub enum Value {
    Truth(bool),
    Number(u16),
}

/// What values a name has.
#[derive(Clone, Copy, Debug, PartialEq, Eq)]
pub enum Kind {
    OfTruth,
    OfNumber,
}

/// A constant, or what the name at this place has at the same instant.
#[derive(Clone, Copy, Debug, PartialEq, Eq)]
pub enum Item {
    Constant(Value),
    Named(u32),
}

/// `if condition then item`.
#[derive(Clone, Copy, Debug, PartialEq, Eq)]
pub struct Arm {
    /// When the arm is chosen.
    pub condition: Condition,
    /// What it then gives.
    pub item: Item,
}

/// What an equation says that its left side is, at each instant.
#[derive(Drop)]
pub enum Right {
    /// `first -> pre source`: the constant at the first instant, and then what the name at this place had at the instant before.
    Delayed(Value, u32),
    /// `if condition then item else ..`: the item of the first arm whose condition holds, and otherwise the last one. There may be no arm.
    Chosen(Vec<Arm>, Item),
    /// `(name = number) or ..`: whether one of the tests holds.
    Tested(Vec<Test>),
}

/// `left = right`, where `left` is the place of a name.
#[derive(Drop)]
pub struct Equation {
    /// The place of the name that is defined.
    pub left: u32,
    /// What defines it.
    pub right: Right,
}

/// A name that is neither an input nor the output, and what values it has.
#[derive(Drop)]
pub struct Local {
    /// Its name.
    pub name: Text,
    /// Whether it has truths or numbers.
    pub kind: Kind,
}

/// A node that keeps the rules of names: each local and the output have one equation, which reads inputs and earlier names, but for
/// what is after `pre`; and each name is used for values of its own kind. So it has one trace over each word.
#[derive(Drop)]
pub struct Node {
    // the name of the node
    name: Text,
    // one for each variable, in their order
    inputs: Vec<Text>,
    // the names that are neither inputs nor the output
    locals: Vec<Local>,
    // one for each local and one for the output, in the order of the text
    equations: Vec<Equation>,
}

impl Model for Node {
    ghost use Rattle.dcv_lustre.specs.Tree.{Node as PlainNode};
    ghost use Rattle.dcv_lustre.specs.Seen.{seen_node, IsNode};

    ghost Value = { PlainNode };

    ghost view = { λ node. seen_node node.name node.inputs.items node.locals.items node.equations.items };

    ghost invariant = { λ node. IsNode node.name node.inputs.items node.locals.items node.equations.items };
}

impl Node {
    ghost use Rattle.dcv_lustre.specs.Seen.{seen_node, IsNode};
    ghost use Rattle.dcv_lustre.specs.Seen.{seen_local, seen_equation};
    ghost use Rattle.dcv_lustre.specs.Meaning.{names_of};
    ghost use Rattle.dcv_lustre.specs.Rules.{IsWellNamed};
    ghost use Rattle.dcv_lustre.specs.Form.{IsSpellable};

    /// A node of these parts, which keep the rules of names and have a text.
    pub fn new(name: Text, inputs: Vec<Text>, locals: Vec<Local>, equations: Vec<Equation>) -> Node
        requires { IsNode name inputs.items locals.items equations.items }
        ensures { result ≡ seen_node name inputs.items locals.items equations.items }
    {
        Node {
            name,
            inputs,
            locals,
            equations,
        }
    }

    /// Each node keeps the rules of names, and has a text.
    pub fn keeps_the_rules(&self)
        ensures names { IsWellNamed self.now }
        ensures form { IsSpellable self.now }
    {
        let _ = &self.name;
    }

    /// Its name.
    pub fn name(&self) -> &[u8]
        ensures { result.now ≡ self.now.name }
    {
        self.name.as_bytes()
    }

    /// The names of its inputs.
    pub fn inputs(&self) -> &[Text]
        ensures { result.now ≡ self.now.inputs }
    {
        &self.inputs
    }

    /// Its locals.
    pub fn locals(&self) -> &[Local]
        ensures { map seen_local result.now ≡ self.now.locals }
    {
        &self.locals
    }

    /// Its equations, by the places of names.
    pub fn equations(&self) -> &[Equation]
        ensures { map (seen_equation (names_of self.now)) result.now ≡ self.now.equations }
    {
        &self.equations
    }
}
