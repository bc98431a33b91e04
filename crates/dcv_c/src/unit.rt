// The tree of a unit. A name is given by its place: the statics first, then the parameters, then the locals.
ghost use Rattle.std.specs.Prelude.{◌≡◌, map};

use dcv_observer::{Condition, Test};
use dcv_syntax::Text;
use std::marker::Model;

/// A number, or the number that the name at this place has.
#[derive(Clone, Copy, Debug, PartialEq, Eq)]
pub enum Item {
    Constant(u16),
    Named(u32),
}

/// What is assigned.
#[derive(Clone, Copy, Debug, PartialEq, Eq)]
pub enum Right {
    Plain(Item),
    /// `condition ? item : otherwise`: the first item where the condition holds, and else the second.
    Chosen(Condition, Item, Item),
}

/// A statement of a step, by the place of the name to which it assigns.
#[derive(Clone, Copy, Debug, PartialEq, Eq)]
pub enum Statement {
    /// `left = right;`
    Assign(u32, Right),
    /// `if (condition) left = item;`
    When(Condition, u32, Item),
}

/// What a step returns.
#[derive(Drop)]
pub enum Returned {
    Fixed(u16),
    /// The number that the name at this place has.
    Read(u32),
    /// `name == number || ..`: 1 where one of the tests passes, and else 0.
    Tested(Vec<Test>),
}

/// `name = number;`, by the place of a static.
#[derive(Clone, Copy, Debug, PartialEq, Eq)]
pub struct Assignment {
    /// The place of the static.
    pub name: u32,
    /// What it is set to.
    pub number: u16,
}

/// The function that sets the statics.
#[derive(Drop)]
pub struct Reset {
    /// The name of the function.
    pub name: Text,
    /// The statics with their values, in the order of the text.
    pub assignments: Vec<Assignment>,
}

/// The function that makes a step. Its parameters are the values of the variables, as 0 and 1.
#[derive(Drop)]
pub struct Step {
    /// The name of the function.
    pub name: Text,
    /// One for each variable, in their order.
    pub parameters: Vec<Text>,
    /// Names that keep nothing from one step to the next.
    pub locals: Vec<Text>,
    /// What is done, in order.
    pub statements: Vec<Statement>,
    /// What is answered in the end.
    pub returned: Returned,
}

/// A unit that keeps the rules of names: its names differ, each static is set once, and a step reads no local before it is assigned. So what a
/// step does depends on the statics and on the parameters alone.
#[derive(Drop)]
pub struct CUnit {
    // names that keep their values from step to step
    statics: Vec<Text>,
    // what sets the statics
    reset: Reset,
    // what takes the values of an instant and answers
    step: Step,
}

impl Model for CUnit {
    ghost use Rattle.dcv_c.specs.Tree.{CUnit as PlainUnit};
    ghost use Rattle.dcv_c.specs.Seen.{seen_unit, IsUnit};

    ghost Value = { PlainUnit };

    ghost view = { λ unit. seen_unit unit.statics.items unit.reset unit.step };

    ghost invariant = { λ unit. IsUnit unit.statics.items unit.reset unit.step };
}

impl CUnit {
    ghost use Rattle.dcv_c.specs.Seen.{names_of, seen_assignment, seen_statement, seen_returned, seen_unit, IsUnit};
    ghost use Rattle.dcv_c.specs.Rules.{IsWellNamed};
    ghost use Rattle.dcv_c.specs.Form.{IsSpellable};

    /// A unit of these parts, which keep the rules of names and have a text.
    pub fn new(statics: Vec<Text>, reset: Reset, step: Step) -> CUnit
        requires { IsUnit statics.items reset step }
        ensures { result ≡ seen_unit statics.items reset step }
    {
        CUnit {
            statics,
            reset,
            step,
        }
    }

    /// Each unit keeps the rules of names, and has a text.
    pub fn keeps_the_rules(&self)
        ensures names { IsWellNamed self.now }
        ensures form { IsSpellable self.now }
    {
        let _ = &self.statics;
    }

    /// The names of its statics.
    pub fn statics(&self) -> &[Text]
        ensures { result.now ≡ self.now.statics }
    {
        &self.statics
    }

    /// The function that sets the statics.
    pub fn reset(&self) -> &Reset
        ensures name { result.now.name ≡ self.now.reset }
        ensures assignments { map (seen_assignment (names_of self.now)) result.now.assignments.items ≡ self.now.assignments }
    {
        &self.reset
    }

    /// The function that makes a step.
    pub fn step(&self) -> &Step
        ensures name { result.now.name ≡ self.now.step }
        ensures parameters { result.now.parameters.items ≡ self.now.parameters }
        ensures locals { result.now.locals.items ≡ self.now.locals }
        ensures statements { map (seen_statement (names_of self.now)) result.now.statements.items ≡ self.now.statements }
        ensures returned { seen_returned (names_of self.now) result.now.returned ≡ self.now.returned }
    {
        &self.step
    }
}
