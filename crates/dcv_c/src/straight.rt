// The text of an automaton's observer, put from the automaton's lines. No tree of it is made.
ghost use Rattle.std.specs.Prelude.{◌≡◌, ◌≤◌, List, length};
ghost use Rattle.dcv_io.specs.Putting.{Puts};
ghost use Rattle.dcv_language.specs.Limits.{most_states, most_nodes};
ghost use Rattle.dcv_dfa.specs.NodeLines.{node_lines_of};
ghost use Rattle.dcv_dfa.specs.Auto.{count_of_nodes};
ghost use Rattle.dcv_automaton_text.specs.Rules.{AreNames};
ghost use Rattle.dcv_automaton_text.specs.File.{AccessLine, SuffixLine};
ghost use Rattle.dcv_automaton_file.specs.File.{texts_of, state_lines, file_of};
ghost use Rattle.dcv_language.specs.declared.child.Child.{Child as PlainChild};
ghost use Rattle.dcv_c.specs.Layout.{text_in, statement_line, returned_layout, text_of};
ghost use Rattle.dcv_c.specs.Observer.{last_statement, accepting_tests, returned_for, observer_of};

use crate::layout::{put_beginning, put_head, put_local, put_set, put_static};
use crate::words::{
    BECOMES, CHOICE, CLOSING, COMMA, END, IF, INDENT, INT, IS, NEWLINE, OPENING, OR, OTHERWISE,
    RETURN, SPACE, THEN, VARIABLE, VOID,
};
use dcv_automaton_file::{
    Listing, NodeLayout, RowLayout, put_accepting, put_names, put_nodes, put_numbers, put_rows,
};
use dcv_dfa::{Auto, NodeLines};
use dcv_io::{Target, put_pieces};
use dcv_syntax::Name;

const STATE: &[u8] = b"st";

const NEXT: &[u8] = b"nx";

const NODE: &[u8] = b"n";

const PARAMETERS: Listing<'static> = Listing {
    before: &[INT, SPACE, VARIABLE],
    after: b"",
    between: COMMA,
    none: &[VOID],
};

const NODES: NodeLayout<'static> = NodeLayout {
    number: &[INDENT, NODE],
    variable: &[BECOMES, VARIABLE],
    hi: CHOICE,
    lo: OTHERWISE,
    end: END,
};

const ROWS: RowLayout<'static> = RowLayout {
    number: &[INDENT, IF, STATE, IS],
    row: &[THEN, NEXT, BECOMES],
    end: END,
};

const ACCEPTING: Listing<'static> = Listing {
    before: &[NEXT, IS],
    after: b"",
    between: OR,
    none: &[b"0"],
};

// The state is stored.
fn put_stored<T: Target>(target: &mut T)
    ensures { Puts (T.standing target.old) (T.standing target.new) (text_in (statement_line last_statement)) }
{
    put_set(target, STATE, NEXT);
}

// What the step returns.
#[tactic(auto, using(crate::proofs::ObserverText::tests_are))]
fn put_returned<T: Target>(target: &mut T, auto: &Auto)
    ensures { (rows : List PlainChild) → length rows ≡ length auto.now.rows
        → Puts (T.standing target.old) (T.standing target.new) (text_in (returned_layout (returned_for (accepting_tests (state_lines auto.now rows))))) }
{
    put_accepting(target, &ACCEPTING, auto);
}

/// Puts the text of an automaton's observer, with these names of its variables and these lines of its nodes, piece by piece. It takes no
/// memory but what the target does.
pub fn put_observer<T: Target>(target: &mut T, auto: &Auto, names: &[Name], nodes: &NodeLines)
    requires names { AreNames (texts_of names.now) }
    requires slots { length names.now ≡ auto.now.arena.slots }
    requires states { length auto.now.rows ≤ most_states }
    requires nodes { count_of_nodes auto.now ≤ most_nodes }
    requires lines { nodes.now ≡ node_lines_of auto.now }
    ensures { (access : List AccessLine) (suffixes : List SuffixLine)
        → Puts (T.standing target.old) (T.standing target.new) (text_of (observer_of (file_of auto.now (texts_of names.now) access suffixes))) }
{
    // for the prover: what is true of every canonical automaton.
    let _states = auto.states();
    let lines = nodes.lines();
    put_static(target, STATE);
    put_head(target, VOID, b"observer_reset", &[]);
    put_set(target, STATE, b"0");
    target.put(CLOSING);
    put_beginning(target, INT, b"observer_step");
    put_names(target, &PARAMETERS, names);
    target.put(OPENING);
    put_local(target, NEXT);
    put_numbers(target, &[INDENT, INT, SPACE, NODE], END, lines.len() as u32);
    target.put(NEWLINE);
    put_set(target, NEXT, b"0");
    put_nodes(target, &NODES, names, lines);
    put_rows(target, &ROWS, nodes.rows());
    put_stored(target);
    put_pieces(target, &[INDENT, RETURN]);
    put_returned(target, auto);
    put_pieces(target, &[END, CLOSING]);
}
