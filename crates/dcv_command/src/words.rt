//! What the words of the command line ask for.
ghost use Rattle.std.specs.Prelude.{◌≡◌, ◌≢◌, true, [], codes, map, option_map, IfOk, IfErr, Some, string_bytes};
ghost use Rattle.clap.specs.Words.{fault_of, first_of, found_of, rows_of, subcommand_of, subcommand_rows_of, takes};
ghost use Rattle.dcv_command.specs.Program.{program as the_program};
ghost use Rattle.dcv_command.specs.Request.{IsInRange, IsTaken, request_of, request_of_subcommand, number_in as number_in_rows};
ghost use Rattle.dcv_command.specs.Request.{asked_of, names_in as names_in_rows, request_in as request_among};
ghost use Rattle.dcv_command.specs.Table.{report, certify, convert, implies, stuck, synth, replay, set, sweep, version_numbered as the_version};
ghost use Rattle.dcv_command.specs.declared.words.WordsFault.TheVariants.{Memory};
ghost use Rattle.dcv_command.specs.Seen.{asked_by, names_seen, HasText, IsUsageOnlyWhere};

use crate::program::{MOST_COUNT, MOST_INPUTS, MOST_SEED, MOST_TUPLES, MOST_VERSION, program};
use clap::error::ErrorKind;
use clap::{ArgMatches, Error};
use dcv_explore::Limits;
use dcv_language::{Kind, MOST_NODES, MOST_STATES};
use std::alloc::{AllocError, Global};
use std::convert::AsStr;

/// What the program is asked for.
#[derive(Drop)]
pub enum Request<'a> {
    /// A report on the formula in the file of this name, of which no step exceeds the limits.
    Report {
        kind: Kind,
        file: &'a str,
        limits: Limits,
    },
    /// Whether the words of the automaton's text in the file of this name show that it is minimal.
    Certify {
        automaton: &'a str,
    },
    /// The automaton's text in the file of this name, in this version.
    Convert {
        automaton: &'a str,
        to: Version,
    },
    /// Whether the formula in the first file implies that in the second, where no step exceeds the limits.
    Implies {
        first: &'a str,
        second: &'a str,
        limits: Limits,
    },
    /// Whether what has kept to the formula in the file of this name so far can always go on, where no step exceeds the limits.
    Stuck {
        file: &'a str,
        limits: Limits,
    },
    /// A controller for the formula in the file of this name, of which so many variables, the first, are inputs and the others outputs.
    Synth {
        file: &'a str,
        inputs: u32,
        limits: Limits,
    },
    /// What the observer in the first file, a text of this subset, answers at each instant of the trace in the second.
    Replay {
        subset: Subset,
        observer: &'a str,
        trace: &'a str,
    },
    /// A summary over so many formulas that are drawn from the seed.
    Sweep {
        seed: u32,
        count: u32,
    },
    /// What is asked of the formulas in the files together, where no step exceeds the limits, and within so many tuples of states.
    Set {
        asked: SetQuestion,
        files: Vec<&'a str>,
        limits: Limits,
        tuples: u32,
    },
}

/// What is asked of a set of formulas.
#[derive(Clone, Copy)]
pub enum SetQuestion {
    /// Whether they can be satisfied together, and whether what has kept to all of them so far can always go on.
    Together,
    /// Whether the others together imply the first.
    Follows,
}

/// The subset of a language that an observer is written in.
#[derive(Clone, Copy)]
pub enum Subset {
    Lustre,
    C,
    /// The constant tables of C.
    Tables,
}

/// A version of an automaton's text: the second has a line for each step of the formula.
#[derive(Clone, Copy)]
pub enum Version {
    One,
    Two,
}

/// Why words ask for nothing.
#[derive(Drop)]
pub enum WordsFault {
    /// They are no command's, or ask for help, which is the text.
    Usage { text: String },
    /// Memory ran out.
    Memory,
}

/// What the words ask for.
pub fn read_words<'a, S: AsStr>(alloc: Global, words: &'a [S]) -> Result<Request<'a>, WordsFault>
    ensures taken { IfOk result (λ request. IsTaken (map S.text words.entry.now)) }
    ensures asked { IfOk result (λ request. request_of (map S.text words.entry.now) ≡ Some (asked_by request)) }
    ensures limits { IfOk result (λ request. IsInRange (asked_by request)) }
    ensures usage { IfErr result (IsUsageOnlyWhere (¬ IsTaken (map S.text words.entry.now))) }
    ensures passes { IfErr result (IsUsageOnlyWhere (¬ (takes the_program (map S.text words.entry.now) ≡ true))) }
    ensures text { IfErr result HasText }
{
    let matches = matches_of(alloc, words)?;
    match request_in(alloc, &matches)? {
        Some(request) => Ok(request),
        None => unreachable!(),
    }
}

// The matches of the words by `clap`.
fn matches_of<'a, S: AsStr>(alloc: Global, words: &'a [S]) -> Result<ArgMatches<'a>, WordsFault>
    ensures no_fault { IfOk result (λ matches. fault_of the_program (map S.text words.entry.now) ≡ []) }
    ensures subcommand { IfOk result (λ matches. subcommand_rows_of matches ≡ subcommand_of the_program (map S.text words.entry.now)) }
    ensures usage { IfErr result (IsUsageOnlyWhere (¬ IsTaken (map S.text words.entry.now))) }
    ensures text { IfErr result HasText }
{
    let command = program(alloc)?;
    match command.try_get_matches_from(words) {
        Ok(matches) => Ok(matches),
        Err(error) if error.kind() == ErrorKind::OutOfMemory => Err(WordsFault::Memory),
        Err(error) => Err(WordsFault::Usage {
            text: text_of(alloc, &error)?,
        }),
    }
}

// The text with which the words are refused, or of the help that they ask for: no clause of `clap` says that it has one.
fn text_of(alloc: Global, error: &Error) -> Result<String, AllocError>
    ensures { IfOk result (λ text. string_bytes text ≢ []) }
{
    let text = error.to_string(alloc)?;
    if text.is_empty() {
        String::from_str(alloc, "error: these words are no command\n")
    } else {
        Ok(text)
    }
}

// What the matches of the words ask for.
fn request_in<'a>(
    alloc: Global,
    matches: &ArgMatches<'a>,
) -> Result<Option<Request<'a>>, AllocError>
    ensures { IfOk result (λ request. option_map asked_by request ≡ request_of_subcommand (subcommand_rows_of matches.now)) }
{
    match matches.subcommand() {
        Some((name, matches)) => request_named(alloc, name, matches),
        None => Ok(None),
    }
}

// What the subcommand of this name asks for, with its matches.
fn request_named<'a>(
    alloc: Global,
    name: &str,
    matches: &ArgMatches<'a>,
) -> Result<Option<Request<'a>>, AllocError>
    ensures { IfOk result (λ request. option_map asked_by request ≡ request_among name.now (rows_of (found_of matches.now))) }
{
    match name {
        "check" => Ok(report_in(matches, Kind::Check)),
        "automaton" => Ok(report_in(matches, Kind::Automaton)),
        "lustre" => Ok(report_in(matches, Kind::Lustre)),
        "c" => Ok(report_in(matches, Kind::C)),
        "tables" => Ok(report_in(matches, Kind::Tables)),
        "all" => Ok(report_in(matches, Kind::All)),
        "certify" => Ok(certify_in(matches)),
        "convert" => Ok(convert_in(matches)),
        "implies" => Ok(implies_in(matches)),
        "stuck" => Ok(stuck_in(matches)),
        "synth" => Ok(synth_in(matches)),
        "replay-lustre" => Ok(replay_in(matches, Subset::Lustre)),
        "replay-c" => Ok(replay_in(matches, Subset::C)),
        "replay-tables" => Ok(replay_in(matches, Subset::Tables)),
        "sweep" => Ok(sweep_in(matches)),
        "together" => Ok(set_in(
            matches,
            SetQuestion::Together,
            names_in(alloc, matches, "file")?,
        )),
        "follows" => Ok(set_in(
            matches,
            SetQuestion::Follows,
            names_in(alloc, matches, "file")?,
        )),
        _ => Ok(None),
    }
}

// The report that is asked for.
fn report_in<'a>(matches: &ArgMatches<'a>, kind: Kind) -> Option<Request<'a>>
    ensures { option_map asked_by result ≡ asked_of (report kind) (rows_of (found_of matches.now)) }
{
    let file = operand_in(matches, "file")?;
    let states = number_in(matches, "states", 1, MOST_STATES)?;
    let nodes = number_in(matches, "nodes", 1, MOST_NODES)?;
    Some(Request::Report {
        kind,
        file,
        limits: Limits { states, nodes },
    })
}

// The automaton whose text is to be certified.
fn certify_in<'a>(matches: &ArgMatches<'a>) -> Option<Request<'a>>
    ensures { option_map asked_by result ≡ asked_of certify (rows_of (found_of matches.now)) }
{
    let automaton = operand_in(matches, "automaton")?;
    Some(Request::Certify { automaton })
}

// The automaton whose text is to be converted, and its new version.
fn convert_in<'a>(matches: &ArgMatches<'a>) -> Option<Request<'a>>
    ensures { option_map asked_by result ≡ asked_of convert (rows_of (found_of matches.now)) }
{
    let automaton = operand_in(matches, "automaton")?;
    let number = number_in(matches, "to", 1, MOST_VERSION)?;
    let to = version_numbered(number);
    Some(Request::Convert { automaton, to })
}

// The version of this number, 1 or 2.
fn version_numbered(number: u32) -> Version
    ensures { result ≡ the_version number }
{
    if number == 1 {
        Version::One
    } else {
        Version::Two
    }
}

// The comparison that is asked for.
fn implies_in<'a>(matches: &ArgMatches<'a>) -> Option<Request<'a>>
    ensures { option_map asked_by result ≡ asked_of implies (rows_of (found_of matches.now)) }
{
    let first = operand_in(matches, "first")?;
    let second = operand_in(matches, "second")?;
    let states = number_in(matches, "states", 1, MOST_STATES)?;
    let nodes = number_in(matches, "nodes", 1, MOST_NODES)?;
    Some(Request::Implies {
        first,
        second,
        limits: Limits { states, nodes },
    })
}

// The file of which it is asked whether what keeps to its formula can always go on.
fn stuck_in<'a>(matches: &ArgMatches<'a>) -> Option<Request<'a>>
    ensures { option_map asked_by result ≡ asked_of stuck (rows_of (found_of matches.now)) }
{
    let file = operand_in(matches, "file")?;
    let states = number_in(matches, "states", 1, MOST_STATES)?;
    let nodes = number_in(matches, "nodes", 1, MOST_NODES)?;
    Some(Request::Stuck {
        file,
        limits: Limits { states, nodes },
    })
}

// The controller that is asked for.
fn synth_in<'a>(matches: &ArgMatches<'a>) -> Option<Request<'a>>
    ensures { option_map asked_by result ≡ asked_of synth (rows_of (found_of matches.now)) }
{
    let file = operand_in(matches, "file")?;
    let inputs = number_in(matches, "inputs", 0, MOST_INPUTS)?;
    let states = number_in(matches, "states", 1, MOST_STATES)?;
    let nodes = number_in(matches, "nodes", 1, MOST_NODES)?;
    Some(Request::Synth {
        file,
        inputs,
        limits: Limits { states, nodes },
    })
}

// The replay that is asked for.
fn replay_in<'a>(matches: &ArgMatches<'a>, subset: Subset) -> Option<Request<'a>>
    ensures { option_map asked_by result ≡ asked_of (replay subset) (rows_of (found_of matches.now)) }
{
    let observer = operand_in(matches, "observer")?;
    let trace = operand_in(matches, "trace")?;
    Some(Request::Replay {
        subset,
        observer,
        trace,
    })
}

// The summary that is asked for.
fn sweep_in<'a>(matches: &ArgMatches<'a>) -> Option<Request<'a>>
    ensures { option_map asked_by result ≡ asked_of sweep (rows_of (found_of matches.now)) }
{
    let seed = number_in(matches, "seed", 0, MOST_SEED)?;
    let count = number_in(matches, "count", 1, MOST_COUNT)?;
    Some(Request::Sweep { seed, count })
}

// The question about these files.
fn set_in<'a>(
    matches: &ArgMatches<'a>,
    asked: SetQuestion,
    files: Option<Vec<&'a str>>,
) -> Option<Request<'a>>
    requires files { option_map names_seen files ≡ names_in_rows (codes "file") (rows_of (found_of matches.now)) }
    ensures { option_map asked_by result ≡ asked_of (set asked) (rows_of (found_of matches.now)) }
{
    let files = files?;
    let states = number_in(matches, "states", 1, MOST_STATES)?;
    let nodes = number_in(matches, "nodes", 1, MOST_NODES)?;
    let tuples = number_in(matches, "tuples", 1, MOST_TUPLES)?;
    Some(Request::Set {
        asked,
        files,
        limits: Limits { states, nodes },
        tuples,
    })
}

// The names of a list of operands, one or more.
fn names_in<'a>(
    alloc: Global,
    matches: &ArgMatches<'a>,
    id: &str,
) -> Result<Option<Vec<&'a str>>, AllocError>
    ensures { IfOk result (λ names. option_map names_seen names ≡ names_in_rows id.now (rows_of (found_of matches.now))) }
{
    let Some(names) = matches.get_strs(id) else {
        return Ok(None);
    };
    if names.is_empty() {
        return Ok(None);
    }
    Ok(Some(names.to_vec(alloc)?))
}

// The value of an operand.
fn operand_in<'a>(matches: &ArgMatches<'a>, id: &str) -> Option<&'a str>
    ensures { option_map (λ operand. operand.now) result ≡ first_of id.now (rows_of (found_of matches.now)) }
{
    matches.get_str(id)
}

// The value of an option or of an operand, a number from the least to the most.
fn number_in(matches: &ArgMatches<'_>, id: &str, least: u32, most: u32) -> Option<u32>
    ensures { result ≡ number_in_rows least most id.now (rows_of (found_of matches.now)) }
{
    let number = matches.get_one::<u32>(id)?;
    if least <= number && number <= most {
        Some(number)
    } else {
        None
    }
}

impl From<AllocError> for WordsFault {
    ghost from_gives = { λ _ fault. fault ≡ Memory };

    fn from(_: AllocError) -> Self {
        WordsFault::Memory
    }
}
