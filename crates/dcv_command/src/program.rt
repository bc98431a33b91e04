//! The commands of the program in one table, with the texts of their help, and the `clap` command that is made of it.
ghost use Rattle.std.specs.Prelude.{◌≡◌, [], false, codes, fold, map, IfOk};
ghost use Rattle.clap.specs.Words.{rule_of as rule_seen, app_of, new_app, with_rule, with_subcommand};
ghost use Rattle.clap.specs.declared.builder.Command.TheViews.{out-Command as fields_of};
ghost use Rattle.dcv_command.specs.Program.{bare_app, given_as, program as the_program, rule_of, taken_as};
ghost use Rattle.dcv_command.specs.Seen.{argument_seen, form_seen, shape_seen, value_seen};

use clap::builder::ValueParser;
use clap::{Arg, ArgAction, Command};
use dcv_language::{MOST_NODES, MOST_STATES, MOST_VARIABLES};
use std::alloc::{AllocError, Global};

const ABOUT: &str =
    "Decides whether a requirement about stretches of time, a formula of Quantified Discrete-time Duration Calculus, always holds. \
Shows a shortest behaviour that breaks it, the minimal automaton of the behaviours that satisfy it, or an observer of these. \
Reports whether one requirement implies another, whether every behaviour that satisfied a requirement so far can go on, and whether \
the words of an automaton's text prove that it is minimal. \
Reports whether requirements can be satisfied together and can always go on, and whether one follows from others. \
Converts such a text to another version. \
Synthesises a controller that satisfies a requirement for all inputs, or shows how the inputs beat every controller. \
Replays traces through observers. Counts verdicts of drawn formulas.";

const EXAMPLE_AND_STATUS: &str =
    "Example, with `var door_closed; infer [[door_closed]];` in the file door.dc:
  dcvalid check door.dc
  dcvalid automaton door.dc --states 1000 > door.auto
  dcvalid certify door.auto
  dcvalid convert door.auto --to 1 > door.auto1
  dcvalid implies door.dc other.dc
  dcvalid stuck door.dc
  dcvalid synth door.dc --inputs 0 | tail -n +2 > controller.c
  dcvalid c door.dc > door.c
  dcvalid replay-c door.c door.trace
  dcvalid tables door.dc > door_tables.c
  dcvalid replay-tables door_tables.c door.trace
  dcvalid sweep 7 200
  dcvalid together door.dc other.dc --tuples 1000
  dcvalid follows other.dc door.dc
The file door.trace has a line for each instant, with a digit for each variable: 1 where the door is closed.
The report is on standard output, and the line of a fault on standard error. /dev/stdin is a file too.

Status:
  0  each behaviour satisfies the formula; the automaton is shown to be minimal; A implies B; there is a controller;
     the automaton's text was converted; the trace was read to its end; the drawn formulas are counted;
     every behaviour that satisfied the formula, or all formulas, so far can go on; the first formula follows from the others
  1  some behaviour does not; the automaton is not shown to be minimal; A does not imply B; there is no controller;
     some behaviour that satisfied the formula, or all formulas, so far cannot go on, or none satisfies all formulas;
     the first formula does not follow from the others
  2  the words are no command, or ask for help
  3  a file holds no formula, for the fault that is named, at its offset in bytes; A and B declare different variables;
     there are fewer variables than inputs, or more than 8 outputs; the files declare too many variables together
  4  a step of a formula, or the product of A and B, has more states or nodes than the limit;
     there are more tuples of states than the limit
  5  a file could not be opened or read
  6  the report could not be written
  7  memory ran out
  8  a line of the trace, which is named, is no instant, or the trace is empty or too long
  9  the file holds no observer's text, for the fault that is named
 10  the file holds no automaton's text, for the fault that is named";

/// The greatest version of an automaton's text.
pub(crate) const MOST_VERSION: u32 = 2;

/// The most inputs that may be asked for.
pub(crate) const MOST_INPUTS: u32 = MOST_VARIABLES as u32;

/// The greatest seed that formulas may be drawn from.
pub(crate) const MOST_SEED: u32 = 2_147_483_647;

/// The most formulas that may be drawn.
pub(crate) const MOST_COUNT: u32 = 1_000;

/// The most tuples of states that may be allowed.
pub(crate) const MOST_TUPLES: u32 = 100_000_000;

/// A command: its name, what its help says of it, and its arguments in order.
pub(crate) struct Entry<'a> {
    // the word that asks for it
    name: &'a str,
    // what `--help` says of it
    about: &'a str,
    // its arguments, in order
    arguments: &'a [Argument<'a>],
}

/// An argument, whose name an option bears, and what help says of it.
pub(crate) struct Argument<'a> {
    // what it is called by in the table
    id: &'a str,
    // whether it has a place or a name
    form: Form<'a>,
    // which values it takes
    value: Value,
    // what usage calls its value
    value_name: &'a str,
    // what `--help` says of it
    help: &'a str,
}

/// How an argument is given: by its place, by an option that has to be there, or by one that has a default.
#[derive(Clone, Copy)]
pub(crate) enum Form<'a> {
    Operand,
    Required,
    WithDefault(&'a str),
}

/// What is given for an argument: the name of a file, the names of one or more, or a number from the least to the most.
#[derive(Clone, Copy)]
pub(crate) enum Value {
    FileName,
    FileNames,
    Number(u32, u32),
}

// An argument by its fields, in order.
macro_rules! argument {
    ($id:literal, $form:expr, $value:expr, $value_name:literal, $help:literal) => {
        Argument {
            id: $id,
            form: $form,
            value: $value,
            value_name: $value_name,
            help: $help,
        }
    };
}

// A command in each row: its name, what `--help` says of it, and its arguments.
macro_rules! entries {
    ($($name:literal $about:literal $arguments:expr;)*) => {
        [$(Entry { name: $name, about: $about, arguments: &$arguments }),*]
    };
}

// The formula file of a command, and the limits on the states and the diagram nodes of a step.
const FORMULA_FILE: Argument<'static> =
    argument! { "file", Form::Operand, Value::FileName, "FILE", "The formula file" };

const STATES: Argument<'static> =
    argument! { "states", Form::WithDefault("30000"), Value::Number(1, MOST_STATES), "N", "The most states that a step may have, from 1 to 32000" };

const NODES: Argument<'static> =
    argument! { "nodes", Form::WithDefault("1000000"), Value::Number(1, MOST_NODES), "N", "The most diagram nodes that a step may have, from 1 to 1000000" };

const TUPLES: Argument<'static> =
    argument! { "tuples", Form::WithDefault("5000000"), Value::Number(1, MOST_TUPLES), "N", "The most tuples of states, one of each file, from 1 to 100000000" };

// Of a command over a formula file.
const OVER_A_FORMULA: [Argument<'static>; 3] = [FORMULA_FILE, STATES, NODES];

// Of a command over a set of formula files.
const OVER_A_SET: [Argument<'static>; 4] = [
    argument! { "file", Form::Operand, Value::FileNames, "FILE", "The formula files, one or more, whose variables are joined by their names" },
    STATES,
    NODES,
    TUPLES,
];

// Of a command over an observer's text and a trace.
const OVER_A_TRACE: [Argument<'static>; 2] = [
    argument! { "observer", Form::Operand, Value::FileName, "OBS", "The file with the observer's text" },
    argument! { "trace", Form::Operand, Value::FileName, "TRACE",
        "The trace: a line for each instant, with a digit 0 or 1 for each variable, or - where there is none" },
];

static COMMANDS: [Entry<'static>; 17] = entries! {
    "check" "Writes the verdict, with a shortest counterexample and a shortest example" OVER_A_FORMULA;
    "automaton" "Writes the minimal automaton, with words that show that it is minimal" OVER_A_FORMULA;
    "lustre" "Writes an observer in a flat subset of Lustre, which reports at each instant whether the behaviour so far satisfies the formula" OVER_A_FORMULA;
    "c" "Writes such an observer in a flat subset of C" OVER_A_FORMULA;
    "tables" "Writes such an observer in constant tables of C: a step looks at each variable at most once, however many states there are" OVER_A_FORMULA;
    "all" "Writes the verdict, the automaton and both observers, each after a line that names it" OVER_A_FORMULA;
    "certify" "Reports whether the words in an automaton's text prove that it is minimal, and if not, for which state or pair of states they do not"
        [argument! { "automaton", Form::Operand, Value::FileName, "AUTO", "The file with the automaton's text, as the command automaton writes it" }];
    "convert" "Writes an automaton's text in the version that is asked for: version 2 says of each step of the formula how many states and \
nodes it had, and version 1 does not"
        [argument! { "automaton", Form::Operand, Value::FileName, "AUTO", "The file with the automaton's text, in either version" },
        argument! { "to", Form::Required, Value::Number(1, MOST_VERSION), "N", "The version, 1 or 2" }];
    "implies" "Reports whether each behaviour that satisfies the formula of A also satisfies that of B, with a shortest one that does not"
        [argument! { "first", Form::Operand, Value::FileName, "A", "The formula file that is to imply the other" },
        argument! { "second", Form::Operand, Value::FileName, "B", "The formula file that is to be implied, with the same variables in the same order" },
        STATES, NODES];
    "stuck" "Reports whether every behaviour that satisfied the formula at each instant so far can go on, with a shortest one that cannot" OVER_A_FORMULA;
    "synth" "Writes a controller in a flat subset of C, whose outputs keep to the formula whatever its inputs are, or else moves of the \
inputs that beat every controller"
        [FORMULA_FILE, argument! { "inputs", Form::Required, Value::Number(0, MOST_INPUTS), "N",
            "How many of the declared variables, from the first on, are inputs, from 0 to 16; the others, at most 8, are outputs" }, STATES, NODES];
    "replay-lustre" "Writes what an observer, as the command lustre writes it, answers at each instant of a trace" OVER_A_TRACE;
    "replay-c" "Writes what an observer, as the command c writes it, answers at each instant of a trace" OVER_A_TRACE;
    "replay-tables" "Writes what an observer, as the command tables writes it, answers at each instant of a trace" OVER_A_TRACE;
    "sweep" "Draws formulas over x, y and z, and writes how many are valid, how many satisfiable, how many are over the limits of 30000 \
states and 1000000 nodes, and how many states the minimal automata of the others have together"
        [argument! { "seed", Form::Operand, Value::Number(0, MOST_SEED), "SEED", "The number that the drawing begins from, up to 2147483647" },
        argument! { "count", Form::Operand, Value::Number(1, MOST_COUNT), "COUNT", "How many formulas are drawn, from 1 to 1000" }];
    "together" "Reports whether the requirements of all files can be satisfied together, and whether every behaviour that satisfied all of \
them so far can go on, with a shortest one that cannot" OVER_A_SET;
    "follows" "Reports whether each behaviour that satisfies all files after the first also satisfies the first, with a shortest one that does not" OVER_A_SET;
};

// The table.
fn commands() -> &'static [Entry<'static>]
    ensures { map shape_seen result.now ≡ the_program.subs }
{
    &COMMANDS
}

// The command of the program.
pub(crate) fn program<'a>(alloc: Global) -> Result<Command<'a>, AllocError>
    ensures { IfOk result (λ command. app_of command ≡ the_program) }
{
    let mut command = bare_program(alloc)?;
    for entry in commands() {
        command = command.subcommand(subcommand(alloc, entry)?)?;
    }
    Ok(command)
}

// The command without its subcommands, of which one is required.
fn bare_program<'a>(alloc: Global) -> Result<Command<'a>, AllocError>
    ensures { IfOk result (λ command. app_of command ≡ bare_app) }
{
    Ok(
        named(alloc)?
            .about(ABOUT)
            .after_help(EXAMPLE_AND_STATUS)
            .no_binary_name(true)
            .subcommand_required(true),
    )
}

// A command with no words yet, which usage calls by its name.
fn named<'a>(alloc: Global) -> Result<Command<'a>, AllocError>
    ensures { IfOk result (λ command. app_of command ≡ new_app (codes "dcvalid")) }
{
    Command::new(alloc, "dcvalid").bin_name("dcvalid")
}

// The subcommand of an entry.
fn subcommand<'a>(alloc: Global, entry: &Entry<'a>) -> Result<Command<'a>, AllocError>
    ensures app { IfOk result (λ command. app_of command ≡ record { top = shape_seen entry.now; subs = [] }) }
    ensures local { IfOk result (λ command. (fields_of command).has_globals ≡ false) }
{
    let mut command = Command::new(alloc, entry.name).about(entry.about);
    for argument in entry.arguments {
        command = command.arg(arg_of(alloc, argument))?;
    }
    Ok(command)
}

// The argument, as `clap` is told it.
fn arg_of<'a>(alloc: Global, argument: &Argument<'a>) -> Arg<'a>
    ensures rule { rule_seen result ≡ rule_of (argument_seen argument.now) }
    ensures local { result.global ≡ false }
{
    let plain = Arg::new(alloc, argument.id)
        .value_name(argument.value_name)
        .help(argument.help);
    with_form(
        with_value(plain, argument.value),
        argument.id,
        argument.form,
    )
}

// The argument, which has such a value.
fn with_value<'a>(arg: Arg<'a>, value: Value) -> Arg<'a>
    ensures rule { rule_seen result ≡ taken_as (value_seen value) (rule_seen arg.entry) }
    ensures local { result.global ≡ arg.entry.global }
{
    match value {
        Value::FileName => arg,
        Value::FileNames => arg.action(ArgAction::Append),
        Value::Number(least, most) => {
            arg.value_parser(ValueParser::unsigned(u64::from(least), u64::from(most)))
        }
    }
}

// The argument, which is given in this form.
fn with_form<'a>(arg: Arg<'a>, id: &'a str, form: Form<'a>) -> Arg<'a>
    ensures rule { rule_seen result ≡ given_as (form_seen form.entry) id.entry.now (rule_seen arg.entry) }
    ensures local { result.global ≡ arg.entry.global }
{
    match form {
        Form::Operand => arg.required(true),
        Form::Required => arg.long(id).required(true),
        Form::WithDefault(text) => arg.long(id).default_value(text),
    }
}
