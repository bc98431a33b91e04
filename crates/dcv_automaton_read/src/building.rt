// What a text says, from its lines, once they keep the rules.
ghost use Rattle.std.specs.Prelude.{◌≡◌, ◌^◌, ◌<◌, length, map, option_map, IfOk};
ghost use Rattle.std.specs.List.{All};
ghost use Rattle.dcv_automaton_text.specs.Rules.{IsGood};
ghost use Rattle.dcv_automaton_text.specs.Spelled.{spelled_front};
ghost use Rattle.dcv_automaton_lines.specs.Seen.{file_of, access_of, suffix_of};
ghost use Rattle.dcv_automaton_read.specs.Seen.{texts_of, AreNodesOf};
ghost use Rattle.dcv_automaton_read.specs.File.{access_from, suffix_from, row_of, count_of, counts_of, counts_in, IsNarrow, IsNarrowSuffix};

use crate::file::{AutoFile, Row};
use crate::letters::letter_of;
use crate::nodes::Node;
use dcv_automaton_lines::{
    AccessLine, AccessWord, Lines, StateLine, StepLine, SuffixLine, SuffixWord,
};
use dcv_language::{Access, Count, Suffix};
use dcv_syntax::Text;
use indexmap::IndexSet;
use std::alloc::{AllocError, Global};

// The names, as texts of their own.
fn texts(alloc: Global, names: &[&[u8]]) -> Result<Vec<Text>, AllocError>
    ensures { IfOk result (λ texts. texts.items ≡ texts_of names.now) }
{
    let mut texts = Vec::new(alloc);
    for name in names {
        texts.push(Text::copy_of(alloc, name)?)?;
    }
    Ok(texts)
}

// What the line of a state says.
fn row_of(line: &StateLine) -> Row
    ensures { result ≡ row_of line.now }
{
    Row {
        accepting: line.accepting,
        next: line.row,
    }
}

// What the lines of states say.
fn rows(alloc: Global, lines: &[StateLine]) -> Result<Vec<Row>, AllocError>
    ensures { IfOk result (λ rows. rows.items ≡ map row_of lines.now) }
{
    lines.iter().map(row_of).collect(alloc)
}

// How a line spells an access word.
fn access(line: &AccessLine) -> Access
    requires { IsNarrow (access_of line.now.access) }
    ensures { access_from result ≡ access_of line.now.access }
{
    match line.access {
        AccessWord::Empty => Access::Empty,
        AccessWord::Start(letter) => Access::Start(letter_of(letter)),
        AccessWord::After(state, letter) => Access::After(state, letter_of(letter)),
    }
}

// How the lines spell access words.
fn access_words(alloc: Global, lines: &[AccessLine]) -> Result<Vec<Access>, AllocError>
    requires { All (λ (line : AccessLine). IsNarrow (access_of line.access)) lines.now }
    ensures { IfOk result (λ words. map access_from words.items ≡ map (λ (line : AccessLine). access_of line.access) lines.now) }
{
    let mut words = Vec::new(alloc);
    for line in lines {
        words.push(access(line))?;
    }
    Ok(words)
}

// How a line spells a suffix.
fn suffix(line: &SuffixLine) -> Suffix
    requires { IsNarrowSuffix (suffix_of line.now.suffix) }
    ensures { suffix_from result ≡ suffix_of line.now.suffix }
{
    match line.suffix {
        SuffixWord::Empty => Suffix::Empty,
        SuffixWord::Then(letter, place) => Suffix::Then(letter_of(letter), place),
    }
}

// How the lines spell suffixes.
fn suffix_words(alloc: Global, lines: &[SuffixLine]) -> Result<Vec<Suffix>, AllocError>
    requires { All (λ (line : SuffixLine). IsNarrowSuffix (suffix_of line.suffix)) lines.now }
    ensures { IfOk result (λ words. map suffix_from words.items ≡ map (λ (line : SuffixLine). suffix_of line.suffix) lines.now) }
{
    let mut words = Vec::new(alloc);
    for line in lines {
        words.push(suffix(line))?;
    }
    Ok(words)
}

// What the line of a step says.
fn count_of(line: &StepLine) -> Count
    ensures { result ≡ count_of line.now }
{
    Count {
        at: line.at,
        states: line.states,
        nodes: line.nodes,
    }
}

// What the lines of steps say.
fn counts(alloc: Global, lines: &[StepLine]) -> Result<Vec<Count>, AllocError>
    ensures { IfOk result (λ counts. counts.items ≡ map count_of lines.now) }
{
    lines.iter().map(count_of).collect(alloc)
}

// What the step part says, if there is one.
fn steps(alloc: Global, lines: &Lines) -> Result<Option<Vec<Count>>, AllocError>
    ensures { IfOk result (λ steps. counts_in steps ≡ option_map counts_of lines.now.steps) }
{
    match &lines.steps {
        None => Ok(None),
        Some(part) => Ok(Some(counts(alloc, &part.lines)?)),
    }
}

// What the lines say, given the nodes.
pub(crate) fn built(
    alloc: Global,
    lines: &Lines,
    nodes: IndexSet<Node>,
) -> Result<AutoFile, AllocError>
    requires good { IsGood (file_of lines.now) }
    requires nodes { AreNodesOf (file_of lines.now) (length (file_of lines.now).node_lines) nodes.keys }
    requires front { lines.now.front.now ≡ spelled_front (file_of lines.now) }
    requires short { length lines.now.front.now < 2 ^ 32 }
    ensures { IfOk result (λ file. file ≡ file_of lines.now) }
{
    let names = texts(alloc, &lines.names)?;
    let rows = rows(alloc, &lines.state_lines)?;
    let access = access_words(alloc, &lines.access_lines)?;
    let suffixes = suffix_words(alloc, &lines.suffix_lines)?;
    let steps = steps(alloc, lines)?;
    let steps_at = lines.front.len() as u32;
    Ok(AutoFile::new(names, nodes, rows, access, suffixes, steps, steps_at))
}
