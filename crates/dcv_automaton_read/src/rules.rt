// The table rules, section by section.
ghost use Rattle.std.specs.Prelude.{◌≡◌, ◌+◌, ◌*◌, ◌^◌, ◌<◌, ◌≤◌, ◌&&◌, nat_lt, nat_le, ℕ, Bool, List, length, map, Some, IfOk, OnOk};
ghost use Rattle.std.specs.List.{zip};
ghost use Rattle.dcv_language.specs.Limits.{most_states};
ghost use Rattle.dcv_automaton_text.specs.Form.{HasForm};
ghost use Rattle.dcv_automaton_text.specs.Rules.{keeps_state, keeps_access, keeps_suffix, keeps_step, keeps_row, has_width, goes_before};
ghost use Rattle.dcv_automaton_text.specs.Rules.{has_all_states, has_all_access, has_all_steps, judged_steps, judged_words};
ghost use Rattle.dcv_automaton_text.specs.Spelled.{state_words, access_words, suffix_words, step_words};
ghost use Rattle.dcv_automaton_lines.specs.Seen.{file_of, letter_of, state_line_of, access_line_of, suffix_line_of};
ghost use Rattle.dcv_automaton_lines.specs.Seen.{step_line_of, step_part_of};
ghost use Rattle.dcv_automaton_read.specs.Judged.{IsJudged, first_word, IsJudgedWhole};
ghost use Rattle.dcv_automaton_read.specs.Seen.{AreNodesOf, IsJudgedText};
ghost use Rattle.dcv_automaton_read.specs.Parts.{judged_head, judged_lines};
ghost use Rattle.dcv_automaton_text.specs.File.{StateLine as PlainStateLine, AccessLine as PlainAccessLine, SuffixLine as PlainSuffixLine, StepLine as PlainStepLine};

use crate::faults::{AutoFault, Stop};
use crate::names::judge_names;
use crate::nodes::{Node, judge_nodes};
use crate::words::{judge, start_of_word};
use dcv_automaton_lines::{
    AccessLine, AccessWord, Lines, StateLine, StepLine, StepPart, SuffixLine, SuffixWord,
};
use dcv_language::{Child, MOST_NODES, MOST_STATES};
use indexmap::IndexSet;
use std::alloc::Global;

// How many steps there may be.
const MOST_STEPS: u32 = 131_168;

// The last byte at which a step may start.
const MOST_START: u32 = 262_143;

// Whether there may be so many states.
fn keeps_count(states: u32) -> bool
    ensures { result ≡ (nat_lt 0 states && nat_le states most_states) }
{
    0 < states && states <= MOST_STATES
}

// The words of the first three lines.
fn judge_head(lines: &Lines) -> Result<u64, Stop>
    ensures judged { let words = judged_head (file_of lines.now) in IsJudged (first_word 0 words) (length words) result }
    ensures bound { IfOk result (λ number. number < 32) }
{
    let number = judge_names(&lines.names, 3)?;
    judge(number, &[true, keeps_count(lines.states)])
}

// Whether a row is a state or a node that there is.
fn keeps_row(lines: &Lines, row: Child) -> bool
    ensures { result ≡ keeps_row (file_of lines.now) row }
{
    match row {
        Child::State(number) => number < lines.states,
        Child::Node(number) => (number as usize) < lines.node_lines.len(),
    }
}

// Whether a letter has a value for each variable.
fn has_width(lines: &Lines, letter: &[u8]) -> bool
    ensures { result ≡ has_width (file_of lines.now) (letter_of letter.now) }
{
    if letter == b"-".as_slice() {
        lines.names.is_empty()
    } else {
        letter.len() == lines.names.len()
    }
}

// Whether the access word of the state at this place may go on from that of another.
fn goes_before(lines: &Lines, place: usize, state: u32) -> bool
    ensures { result ≡ goes_before (file_of lines.now) place state }
{
    0 < state && state < lines.states && (place == 0 || (state as usize) < place)
}

// Whether there are enough states.
fn has_all_states(lines: &Lines) -> bool
    ensures { result ≡ has_all_states (file_of lines.now) }
{
    lines.states as usize <= lines.state_lines.len()
}

// Whether there are enough states and access words.
fn has_all_access(lines: &Lines) -> bool
    ensures { result ≡ has_all_access (file_of lines.now) }
{
    has_all_states(lines) && lines.states as usize <= lines.access_lines.len()
}

// A section of an automaton's text: what its lines spell, and the rules that they keep.
trait Section<Line> {
    // The lines.
    ghost lines: { Self → List Line };

    // A line, as definitions have it.
    ghost Seen: { Type 0 };

    ghost seen: { Line → Seen };

    // The words of a line.
    ghost words: { Seen → List (List ℕ) };

    // Which of its words keep the rules, at a place.
    ghost keeps: { Self → ℕ → Seen → List Bool };

    // The lines.
    fn lines(&self) -> &[Line]
        ensures { result.now ≡ lines self.now };

    // The words of the line at this place.
    fn judge_line(&self, place: usize, line: &Line, first: u64) -> Result<u64, Stop>
        requires { first < 2 ^ 40 }
        ensures judged { let words = zip (words (seen line.now)) (keeps self.now place (seen line.now)) in IsJudged (first_word first words) (first + length words) result }
        ensures few { OnOk result (place < 2 ^ 32) }
        ensures bound { IfOk result (λ number. number ≤ first + 8) };
}

// The words of the lines of a section.
fn judge_section<Line, S: Section<Line>>(section: &S, first: u64) -> Result<u64, Stop>
    requires { first < 2 ^ 39 }
    ensures judged { let words = judged_lines S.words (S.keeps section.now) 0 (map S.seen (S.lines section.now)) in IsJudged (first_word first words) (first + length words) result }
    ensures bound { IfOk result (λ number. number ≤ first + 8 * 2 ^ 32) }
{
    let mut number = first;
    for (place, line) in section.lines().iter().enumerate() {
        number = section.judge_line(place, line, number)?;
    }
    Ok(number)
}

// The lines of states.
#[derive(Clone, Copy)]
struct States<'a, 't> {
    lines: &'a Lines<'t>,
}

impl Section<StateLine> for States<'_, '_> {
    ghost lines = { λ section. section.lines.now.state_lines.items };

    ghost Seen = { PlainStateLine };

    ghost seen = { state_line_of };

    ghost words = { state_words };

    ghost keeps = { λ section. keeps_state (file_of section.lines.now) };

    fn lines(&self) -> &[StateLine] {
        &self.lines.state_lines
    }

    fn judge_line(&self, place: usize, line: &StateLine, first: u64) -> Result<u64, Stop> {
        judge(
            first,
            &[
                place < self.lines.states as usize,
                line.number as usize == place,
                true,
                keeps_row(self.lines, line.row),
            ],
        )
    }
}

// The lines of access words.
#[derive(Clone, Copy)]
struct AccessWords<'a, 't> {
    lines: &'a Lines<'t>,
}

impl<'t> Section<AccessLine<'t>> for AccessWords<'_, 't> {
    ghost lines = { λ section. section.lines.now.access_lines.items };

    ghost Seen = { PlainAccessLine };

    ghost seen = { access_line_of };

    ghost words = { access_words };

    ghost keeps = { λ section. keeps_access (file_of section.lines.now) };

    fn lines(&self) -> &[AccessLine<'t>] {
        &self.lines.access_lines
    }

    fn judge_line(&self, place: usize, line: &AccessLine<'t>, first: u64) -> Result<u64, Stop> {
        let begins = has_all_states(self.lines) && place < self.lines.states as usize;
        let numbered = line.number as usize == place;
        match line.access {
            AccessWord::Empty => judge(first, &[begins, numbered, place == 0]),
            AccessWord::Start(letter) => {
                judge(
                    first,
                    &[begins, numbered, true, has_width(self.lines, letter)],
                )
            }
            AccessWord::After(state, letter) => {
                let before = goes_before(self.lines, place, state);
                judge(
                    first,
                    &[begins, numbered, before, has_width(self.lines, letter)],
                )
            }
        }
    }
}

// The lines of suffixes.
#[derive(Clone, Copy)]
struct Suffixes<'a, 't> {
    lines: &'a Lines<'t>,
}

impl<'t> Section<SuffixLine<'t>> for Suffixes<'_, 't> {
    ghost lines = { λ section. section.lines.now.suffix_lines.items };

    ghost Seen = { PlainSuffixLine };

    ghost seen = { suffix_line_of };

    ghost words = { suffix_words };

    ghost keeps = { λ section. keeps_suffix (file_of section.lines.now) };

    fn lines(&self) -> &[SuffixLine<'t>] {
        &self.lines.suffix_lines
    }

    fn judge_line(&self, place: usize, line: &SuffixLine<'t>, first: u64) -> Result<u64, Stop> {
        let begins = has_all_access(self.lines);
        let numbered = line.number as usize == place;
        match line.suffix {
            SuffixWord::Empty => judge(first, &[begins, numbered, place == 0]),
            SuffixWord::Then(letter, suffix) => {
                let goes_on = 0 < place && has_width(self.lines, letter);
                judge(
                    first,
                    &[begins, numbered, goes_on, (suffix as usize) < place],
                )
            }
        }
    }
}

// The lines of steps.
#[derive(Clone, Copy)]
struct Steps<'a> {
    part: &'a StepPart,
}

impl Section<StepLine> for Steps<'_> {
    ghost lines = { λ section. section.part.now.lines.items };

    ghost Seen = { PlainStepLine };

    ghost seen = { step_line_of };

    ghost words = { step_words };

    ghost keeps = { λ section. keeps_step (step_part_of section.part.now) };

    fn lines(&self) -> &[StepLine] {
        &self.part.lines
    }

    fn judge_line(&self, place: usize, line: &StepLine, first: u64) -> Result<u64, Stop> {
        let keeps_number = line.number as usize == place;
        let keeps_at = line.at <= MOST_START;
        let keeps_states = keeps_count(line.states);
        let keeps_nodes = line.nodes <= MOST_NODES;
        judge(
            first,
            &[
                place < self.part.count as usize,
                keeps_number,
                true,
                keeps_at,
                true,
                keeps_states,
                true,
                keeps_nodes,
            ],
        )
    }
}

// The words of the step part.
fn judge_step_part(lines: &Lines, part: &StepPart, first: u64) -> Result<u64, Stop>
    requires { first < 2 ^ 38 }
    ensures judged { let words = judged_steps (file_of lines.now) (Some (step_part_of part.now)) in IsJudged (first_word first words) (first + length words) result }
    ensures bound { IfOk result (λ number. number ≤ first + 2 ^ 36) }
{
    let behind_count = judge(first, &[has_all_access(lines), part.count <= MOST_STEPS])?;
    judge_section(&Steps { part }, behind_count)
}

// The words of the step part, if there is one.
fn judge_steps(lines: &Lines, first: u64) -> Result<u64, Stop>
    requires { first < 2 ^ 38 }
    ensures judged { let words = judged_steps (file_of lines.now) (file_of lines.now).steps in IsJudged (first_word first words) (first + length words) result }
    ensures bound { IfOk result (λ number. number ≤ first + 2 ^ 36) }
{
    match &lines.steps {
        None => Ok(first),
        Some(part) => judge_step_part(lines, part, first),
    }
}

// Whether there are enough steps.
fn has_all_steps(lines: &Lines) -> bool
    ensures { result ≡ has_all_steps (file_of lines.now).steps }
{
    match &lines.steps {
        None => true,
        Some(part) => part.count as usize <= part.lines.len(),
    }
}

// Whether there are enough states, access words and steps.
fn has_all_lines(lines: &Lines) -> bool
    ensures { let file = file_of lines.now in result ≡ (has_all_access file && has_all_steps file.steps) }
{
    has_all_access(lines) && has_all_steps(lines)
}

// The nodes of lines that keep the rules, or where these stop.
fn judge_lines(alloc: Global, lines: &Lines) -> Result<IndexSet<Node>, Stop>
    ensures judged { IsJudgedWhole (first_word 0 (judged_words (file_of lines.now))) result }
    ensures nodes { IfOk result (λ nodes. AreNodesOf (file_of lines.now) (length (file_of lines.now).node_lines) nodes.keys) }
{
    let mut nodes = IndexSet::new(alloc);
    let behind_head = judge_head(lines)?;
    let behind_nodes = judge_nodes(lines, &mut nodes, behind_head)?;
    let behind_states = judge_section(&States { lines }, behind_nodes)?;
    let behind_access = judge_section(&AccessWords { lines }, behind_states)?;
    let behind_suffixes = judge_section(&Suffixes { lines }, behind_access)?;
    let behind_steps = judge_steps(lines, behind_suffixes)?;
    judge(behind_steps, &[has_all_lines(lines)])?;
    Ok(nodes)
}

// The nodes of a text's lines that keep the rules, or the fault.
pub(crate) fn good_nodes(
    alloc: Global,
    text: &[u8],
    lines: &Lines,
) -> Result<IndexSet<Node>, AutoFault>
    requires form { HasForm text.now (file_of lines.now) }
    requires short { length text.now < 2 ^ 32 }
    ensures judged { IsJudgedText (file_of lines.now) result }
    ensures nodes { IfOk result (λ nodes. AreNodesOf (file_of lines.now) (length (file_of lines.now).node_lines) nodes.keys) }
{
    match judge_lines(alloc, lines) {
        Ok(nodes) => Ok(nodes),
        Err(Stop::Word(number)) => Err(AutoFault::Table {
            at: start_of_word(text, number),
        }),
        Err(Stop::OutOfMemory) => Err(AutoFault::Memory),
    }
}
