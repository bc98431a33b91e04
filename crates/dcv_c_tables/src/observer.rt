// The text of an automaton's tables, put from the automaton's lines. No tree of it is made.
ghost use Rattle.std.specs.Prelude.{◌≡◌, ◌≤◌, ◌++◌, ℕ, List, [], ◌∷◌, length, map, decimal, if◌then◌else◌};
ghost use Rattle.std.specs.List.{enumerate_from, range_with_len};
ghost use Rattle.dcv_dfa.specs.Raw.{is_accepting};
ghost use Rattle.dcv_dfa.specs.declared.node_lines.NodeLine.{NodeLine as CodeNodeLine};
ghost use Rattle.dcv_language.specs.declared.child.Child.{Child as PlainChild};
ghost use Rattle.dcv_io.specs.Putting.{Puts};
ghost use Rattle.dcv_language.specs.Limits.{most_states, most_nodes};
ghost use Rattle.dcv_dfa.specs.NodeLines.{node_lines_of};
ghost use Rattle.dcv_dfa.specs.Auto.{count_of_nodes};
ghost use Rattle.dcv_automaton_text.specs.Rules.{AreNames};
ghost use Rattle.dcv_automaton_text.specs.File.{AccessLine, SuffixLine};
ghost use Rattle.dcv_automaton_file.specs.File.{texts_of, file_of};
ghost use Rattle.dcv_observer.specs.Layouts.{Each, Word};
ghost use Rattle.dcv_c_tables.specs.Layout.{text_in, type_for, counts_line, letter_line, number_line, accept_number, node_arrays, body_lines, text_of};
ghost use Rattle.dcv_c_tables.specs.Layout.{opening, closing, array_lines, char_type, variable_head, high_head, low_head, row_head, accept_head, reset_lines, at_line, if_some};
ghost use Rattle.dcv_c_tables.specs.Observer.{parameter_name, place_of, seen_node, tables_of};

use crate::entries::{Entry, Highs, Lows, Rows, Variables, put_accepts, put_entries};
use dcv_automaton_file::{Listing, put_names};
use dcv_dfa::{Auto, NodeLine, NodeLines};
use dcv_io::{Target, put_pieces};
use dcv_language::Child;
use dcv_syntax::Name;
use itoa::Buffer;

const CHAR: &[u8] = b"unsigned char";

const SHORT: &[u8] = b"unsigned short";

const LONG: &[u8] = b"unsigned long";

const PARAMETERS: Listing<'static> = Listing {
    before: &[b"int ", b"v_"],
    after: b"",
    between: b", ",
    none: &[b"void"],
};

// The type of so many places.
fn integer(places: u64) -> &'static [u8]
    ensures { result.now ≡ type_for places }
{
    if places > 65_535 { LONG } else { SHORT }
}

// The counts, by name.
fn put_counts<T: Target>(target: &mut T, states: usize, nodes: usize, variables: usize)
    ensures { Puts (T.standing target.old) (T.standing target.new) (text_in (counts_line states nodes variables)) }
{
    put_count(target, b"enum { states = ", states);
    put_count(target, b", nodes = ", nodes);
    put_count(target, b", variables = ", variables);
    target.put(b" };\n\n");
}

fn put_count<T: Target>(target: &mut T, before: &[u8], count: usize)
    ensures { Puts (T.standing target.old) (T.standing target.new) (before.now ++ decimal count) }
{
    let mut digits = Buffer::new();
    put_pieces(target, &[before, digits.format(count).as_bytes()]);
}

fn put_letter<T: Target>(target: &mut T, names: &[Name])
    ensures { Puts (T.standing target.old) (T.standing target.new) (text_in (Each letter_line (enumerate_from 0 (map parameter_name (texts_of names.now))))) }
{
    for (number, name) in names.iter().enumerate() {
        put_letter_line(target, number, name.text.as_bytes());
    }
}

fn put_letter_line<T: Target>(target: &mut T, number: usize, name: &[u8])
    ensures { Puts (T.standing target.old) (T.standing target.new) (text_in (letter_line (number, parameter_name name.now))) }
{
    let mut digits = Buffer::new();
    put_pieces(
        target,
        &[
            b"  letter[",
            digits.format(number).as_bytes(),
            b"] = v_",
            name,
            b";\n",
        ],
    );
}

// What begins an array.
fn put_opening<T: Target>(target: &mut T, integer: &[u8], head: &[u8])
    ensures { Puts (T.standing target.old) (T.standing target.new) (text_in (opening integer.now head.now)) }
{
    put_pieces(target, &[b"static const ", integer, head]);
}

fn put_closing<T: Target>(target: &mut T)
    ensures { Puts (T.standing target.old) (T.standing target.new) (text_in closing) }
{
    target.put(b"};\n\n");
}

// Puts an array with a line for each element.
fn put_array<T: Target, X, E: Entry<X>>(
    target: &mut T,
    integer: &[u8],
    head: &[u8],
    entry: &E,
    elements: &[X],
)
    ensures { Puts (T.standing target.old) (T.standing target.new)
        (text_in (array_lines integer.now head.now (Each (λ (element : X). number_line (E.number entry.now element)) elements.now))) }
{
    put_opening(target, integer, head);
    put_entries(target, entry, elements);
    put_closing(target);
}

fn put_accept_array<T: Target>(target: &mut T, auto: &Auto)
    ensures { Puts (T.standing target.old) (T.standing target.new)
        (text_in (array_lines char_type accept_head (Each (λ state. number_line (accept_number (is_accepting auto.now state))) (range_with_len 0 (length auto.now.rows))))) }
{
    put_opening(target, CHAR, b" accept[states] = {\n");
    put_accepts(target, auto);
    put_closing(target);
}

// The arrays of the nodes, where there are any.
fn put_node_arrays<T: Target>(target: &mut T, integer: &[u8], states: u32, lines: &[NodeLine])
    ensures { Puts (T.standing target.old) (T.standing target.new) (text_in (node_arrays integer.now (map (seen_node states) lines.now))) }
{
    if lines.is_empty() {
        return;
    }
    put_array(target, CHAR, b" variable[nodes] = {\n", &Variables, lines);
    put_array(
        target,
        integer,
        b" high[nodes] = {\n",
        &Highs { states },
        lines,
    );
    put_array(
        target,
        integer,
        b" low[nodes] = {\n",
        &Lows { states },
        lines,
    );
}

/// Puts the text of an automaton's tables, with these names of its variables and these lines of its nodes, piece by piece. It takes no
/// memory but what the target does.
pub fn put_tables<T: Target>(target: &mut T, auto: &Auto, names: &[Name], nodes: &NodeLines)
    requires names { AreNames (texts_of names.now) }
    requires slots { length names.now ≡ auto.now.arena.slots }
    requires states { length auto.now.rows ≤ most_states }
    requires nodes { count_of_nodes auto.now ≤ most_nodes }
    requires lines { nodes.now ≡ node_lines_of auto.now }
    ensures { (access : List AccessLine) (suffixes : List SuffixLine)
        → Puts (T.standing target.old) (T.standing target.new) (text_of (tables_of (file_of auto.now (texts_of names.now) access suffixes))) }
{
    let states = auto.states();
    let lines = nodes.lines();
    let integer = integer(u64::from(states) + lines.len() as u64);
    put_counts(target, states as usize, lines.len(), names.len());
    put_node_arrays(target, integer, states, lines);
    put_array(
        target,
        integer,
        b" row[states] = {\n",
        &Rows { states },
        nodes.rows(),
    );
    put_accept_array(target, auto);
    put_reset(target, integer);
    put_names(target, &PARAMETERS, names);
    target.put(b")\n{\n");
    put_body(target, integer, names, !lines.is_empty());
}

fn put_reset<T: Target>(target: &mut T, integer: &[u8])
    ensures { Puts (T.standing target.old) (T.standing target.new) (text_in (reset_lines integer.now)) }
{
    put_pieces(
        target,
        &[
            b"static ",
            integer,
            b" st;\n\nvoid observer_reset(void)\n{\n  st = 0;\n}\n\nint observer_step(",
        ],
    );
}

// What a step does, with its locals.
fn put_body<T: Target>(target: &mut T, integer: &[u8], names: &[Name], some: bool)
    ensures { Puts (T.standing target.old) (T.standing target.new) (text_in (body_lines integer.now (map parameter_name (texts_of names.now)) some)) }
{
    put_if(target, some, b"  int letter[variables];\n");
    put_at(target, integer);
    put_letter_if(target, some, names);
    target.put(b"  at = row[st];\n");
    put_if(
        target,
        some,
        b"  while (at >= states) at = letter[variable[at - states]] ? high[at - states] : low[at - states];\n",
    );
    target.put(b"  st = at;\n  return accept[st];\n}\n");
}

fn put_at<T: Target>(target: &mut T, integer: &[u8])
    ensures { Puts (T.standing target.old) (T.standing target.new) (text_in (at_line integer.now)) }
{
    put_pieces(target, &[b"  ", integer, b" at;\n\n"]);
}

fn put_if<T: Target>(target: &mut T, some: bool, text: &[u8])
    ensures { Puts (T.standing target.old) (T.standing target.new) (text_in (if_some some (Word text.now))) }
{
    if some {
        target.put(text);
    }
}

fn put_letter_if<T: Target>(target: &mut T, some: bool, names: &[Name])
    ensures { Puts (T.standing target.old) (T.standing target.new)
        (text_in (if_some some (Each letter_line (enumerate_from 0 (map parameter_name (texts_of names.now)))))) }
{
    if some {
        put_letter(target, names);
    }
}
