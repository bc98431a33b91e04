// The lines after the head are read one after another: each is of the kind of the line before or of a later one.
ghost use Rattle.std.specs.Prelude.{◌≡◌, ℕ, ◌↔◌, IsTrue, map, ◌+◌, ◌≤◌, ◌++◌, ◌∷◌, List, [], length, IfOk, IfSome, IfNone};
ghost use Rattle.std.specs.List.{flat_map};
ghost use Rattle.dcv_automaton_text.specs.Spelled.{spelled_line};
ghost use Rattle.dcv_automaton_lines.specs.Pieces.{IsFaultAt};
ghost use Rattle.dcv_automaton_lines.specs.Parts.{rank, behind, keyword as keyword_of, closing_then, Closed, Keyword, AnyLine, Tail};
ghost use Rattle.dcv_automaton_lines.specs.Gathered.{line_of, kind_of, line_then, IsLine, added, section_words, HasLines, IsOpen};
ghost use Rattle.dcv_automaton_lines.specs.Seen.{file_of};
ghost use Rattle.dcv_automaton_lines.specs.declared.sections.Kind.TheVariants.{Node};
ghost use Rattle.dcv_automaton_lines.specs.Stops.{IsStuckAt, IsStopAt};

use crate::bodies::{access_line, node_line, state_line, suffix_line};
use crate::lines::{AccessLine, Lines, NodeLine, StateLine, SuffixLine};
use crate::stop::{Stop, Stuck};
use crate::version::Version;
use crate::words::literal;
use std::alloc::{AllocError, Global};

/// The kinds of lines after the head, in the order of their sections, and the word that closes them.
#[derive(Clone, Copy, Debug, PartialEq, Eq)]
pub enum Kind {
    Node,
    State,
    Access,
    Suffix,
    Closing,
}

/// A line after the head, or the word that closes the sections.
#[derive(Clone, Copy)]
pub enum Line<'a> {
    Node(NodeLine<'a>),
    State(StateLine),
    Access(AccessLine<'a>),
    Suffix(SuffixLine<'a>),
    Closing,
}

impl Kind {
    // The first word of a line of this kind, and the byte after it.
    fn word(self, version: Version) -> &'static [u8]
        ensures { result.now ≡ keyword_of version self ++ behind version self ∷ [] }
    {
        match self {
            Kind::Node => b"node ",
            Kind::State => b"state ",
            Kind::Access => b"access ",
            Kind::Suffix => b"suffix ",
            Kind::Closing => version.closing(),
        }
    }

    // The kind of the next section.
    fn next(self) -> Option<Kind>
        ensures some { IfSome result (λ next. rank next ≡ rank self + 1) }
        ensures none { IfNone result (rank self ≡ 4) }
    {
        match self {
            Kind::Node => Some(Kind::State),
            Kind::State => Some(Kind::Access),
            Kind::Access => Some(Kind::Suffix),
            Kind::Suffix => Some(Kind::Closing),
            Kind::Closing => None,
        }
    }

    // Whether it is the word that closes the sections.
    fn is_closing(self) -> bool
        ensures { IsTrue result ↔ (rank self ≡ 4) }
    {
        match self {
            Kind::Closing => true,
            Kind::Node | Kind::State | Kind::Access | Kind::Suffix => false,
        }
    }
}

impl Line<'_> {
    fn kind(&self) -> Kind
        ensures { result ≡ kind_of (line_of self.now) }
    {
        match self {
            Line::Node(_) => Kind::Node,
            Line::State(_) => Kind::State,
            Line::Access(_) => Kind::Access,
            Line::Suffix(_) => Kind::Suffix,
            Line::Closing => Kind::Closing,
        }
    }
}

// The kind of the line that begins there, from this kind on, and the text after its first word.
fn keyword<'a>(text: &'a [u8], version: Version, first: Kind) -> Result<(Kind, &'a [u8]), Stuck<'a>>
    ensures later { IfOk result (λ read. rank first ≤ rank read.0) }
    ensures spelled { IfOk result (λ read. text.now ≡ keyword_of version read.0 ++ behind version read.0 ∷ read.1.now) }
    ensures fault { IsStuckAt (Keyword version first) text.now result }
{
    let stuck = match literal(text, first.word(version)) {
        Ok(body) => return Ok((first, body)),
        Err(stuck) => stuck,
    };
    let Some(next) = first.next() else {
        return Err(stuck);
    };
    match keyword(text, version, next) {
        Ok(read) => Ok(read),
        Err(other) if other.left.len() < stuck.left.len() => Err(other),
        Err(_) => Err(stuck),
    }
}

// The line that begins there, of this kind or a later one, and the text after it.
fn read_line<'a>(
    text: &'a [u8],
    version: Version,
    first: Kind,
) -> Result<(Line<'a>, &'a [u8]), Stuck<'a>>
    ensures later { IfOk result (λ read. rank first ≤ rank (kind_of (line_of read.0))) }
    ensures form { IfOk result (λ read. IsLine (line_of read.0)) }
    ensures spelled { IfOk result (λ read. text.now ≡ line_then version (line_of read.0) read.1.now) }
    ensures fault { IsStuckAt (AnyLine version first) text.now result }
{
    let (kind, body) = keyword(text, version, first)?;
    match kind {
        Kind::Node => {
            let (node, rest) = node_line(body)?;
            Ok((Line::Node(node), rest))
        }
        Kind::State => {
            let (state, rest) = state_line(body)?;
            Ok((Line::State(state), rest))
        }
        Kind::Access => {
            let (access, rest) = access_line(body)?;
            Ok((Line::Access(access), rest))
        }
        Kind::Suffix => {
            let (suffix, rest) = suffix_line(body)?;
            Ok((Line::Suffix(suffix), rest))
        }
        Kind::Closing => Ok((Line::Closing, body)),
    }
}

impl<'a> Lines<'a> {
    fn add(&mut self, line: Line<'a>) -> Result<(), AllocError>
        ensures { IfOk result (λ _. file_of self.new ≡ added (file_of self.old) (line_of line.entry)) }
    {
        match line {
            Line::Node(node) => self.node_lines.push(node)?,
            Line::State(state) => self.state_lines.push(state)?,
            Line::Access(access) => self.access_lines.push(access)?,
            Line::Suffix(suffix) => self.suffix_lines.push(suffix)?,
            Line::Closing => {}
        }
        Ok(())
    }
}

/// The lines of the sections, with the names and the number of states, and the text after the word that closes them. There is
/// no step part yet, and no text in front.
pub fn sections<'a>(
    alloc: Global,
    version: Version,
    names: Vec<&'a [u8]>,
    states: u32,
    text: &'a [u8],
) -> Result<(Lines<'a>, &'a [u8]), Stop<'a>>
    ensures names { IfOk result (λ read. (file_of read.0).names ≡ map (λ name. name.now) names.entry.items) }
    ensures states { IfOk result (λ read. read.0.states ≡ states) }
    ensures form { IfOk result (λ read. HasLines (file_of read.0)) }
    ensures spelled { IfOk result (λ read. text.now ≡ flat_map spelled_line (section_words (file_of read.0)) ++ closing_then version read.1.now) }
    ensures behind { IfOk result (λ read. (left : List ℕ) → IsFaultAt (Closed version) read.1.now left → IsFaultAt (Tail version Node) text.now left) }
    ensures fault { IsStopAt (Tail version Node) text.now result }
{
    let mut lines = Lines {
        names,
        states,
        node_lines: Vec::new(alloc),
        state_lines: Vec::new(alloc),
        access_lines: Vec::new(alloc),
        suffix_lines: Vec::new(alloc),
        steps: None,
        front: b"",
    };
    let mut rest = text;
    let mut first = Kind::Node;
    while !first.is_closing() {
        let (line, behind) = read_line(rest, version, first)?;
        first = line.kind();
        rest = behind;
        lines.add(line)?;
    }
    Ok((lines, rest))
}
