// The text of an automaton's observer, put from the automaton's lines. No tree of it is made.
ghost use Rattle.std.specs.Prelude.{◌≡◌, ◌<◌, ◌≤◌, List, length};
ghost use Rattle.dcv_io.specs.Putting.{Puts};
ghost use Rattle.dcv_language.specs.Limits.{most_states, most_nodes};
ghost use Rattle.dcv_dfa.specs.NodeLines.{node_lines_of};
ghost use Rattle.dcv_dfa.specs.Auto.{count_of_nodes};
ghost use Rattle.dcv_dfa.specs.Raw.{RawValue};
ghost use Rattle.dcv_automaton_text.specs.Rules.{AreNames};
ghost use Rattle.dcv_automaton_text.specs.File.{AccessLine, SuffixLine};
ghost use Rattle.dcv_automaton_file.specs.File.{texts_of, file_of, state_lines};
ghost use Rattle.dcv_lustre.specs.Tree.{Chosen};
ghost use Rattle.dcv_lustre.specs.Layout.{text_in, inputs_layout, right_layout, equation_line, text_of};
ghost use Rattle.dcv_lustre.specs.Observer.{input_names, state_equation, item_of, row_arms, last_row, ok_equation, observer_of};
ghost use Rattle.dcv_language.specs.declared.child.Child.{Child as PlainChild};

use crate::layout::put_opening;
use crate::words::{
    ARROW_PRE, CLOSE, ELSE, END, FALSE, IF, INDENT, INPUT_END, IS, LET, NEXT_INPUT, NUMBER_END,
    OPEN, OR, OUTPUT, TEL, THEN, VAR,
};
use dcv_automaton_file::{
    Listing, NodeLayout, RowLayout, put_accepting, put_child, put_names, put_nodes, put_numbers,
    put_rows,
};
use dcv_dfa::{Auto, NodeLines};
use dcv_io::{Target, put_pieces};
use dcv_language::Child;
use dcv_syntax::Name;

const INPUTS: Listing<'static> = Listing {
    before: &[b"v_"],
    after: INPUT_END,
    between: NEXT_INPUT,
    none: &[b"tick", INPUT_END],
};

const NODES: NodeLayout<'static> = NodeLayout {
    number: &[INDENT, b"n"],
    variable: &[IS, IF, b"v_"],
    hi: THEN,
    lo: ELSE,
    end: END,
};

const ROWS: RowLayout<'static> = RowLayout {
    number: &[IF, b"st", IS],
    row: &[THEN],
    end: ELSE,
};

const ACCEPTING: Listing<'static> = Listing {
    before: &[OPEN, b"nx", IS],
    after: CLOSE,
    between: OR,
    none: &[FALSE],
};

/// Puts the text of an automaton's observer, with these names of its variables and these lines of its nodes, piece by piece. It takes no
/// memory but what the target does.
pub fn put_observer<T: Target>(target: &mut T, auto: &Auto, names: &[Name], nodes: &NodeLines)
    requires names { AreNames (texts_of names.now) }
    requires slots { length names.now ≡ auto.now.arena.slots }
    requires states { length auto.now.rows ≤ most_states }
    requires nodes { count_of_nodes auto.now ≤ most_nodes }
    requires lines { nodes.now ≡ node_lines_of auto.now }
    ensures { (access : List AccessLine) (suffixes : List SuffixLine)
        → Puts (T.standing target.old) (T.standing target.new) (text_of (observer_of (file_of auto.now (texts_of names.now) access suffixes))) }
{
    // for the prover: what is true of every canonical automaton.
    let _states = auto.states();
    let lines = nodes.lines();
    put_opening(target, b"observer");
    put_inputs(target, names);
    put_pieces(target, &[OUTPUT, VAR, INDENT, b"st", NUMBER_END]);
    put_pieces(target, &[INDENT, b"nx", NUMBER_END]);
    put_numbers(target, &[INDENT, b"n"], NUMBER_END, lines.len() as u32);
    target.put(LET);
    put_state(target);
    put_nodes(target, &NODES, names, lines);
    put_pieces(target, &[INDENT, b"nx", IS]);
    put_choice(target, nodes.rows());
    put_pieces(target, &[END, INDENT, b"ok", IS]);
    put_tests(target, auto);
    put_pieces(target, &[END, TEL]);
}

#[tactic(auto, using(crate::proofs::ObserverText::inputs_text))]
fn put_inputs<T: Target>(target: &mut T, names: &[Name])
    ensures { Puts (T.standing target.old) (T.standing target.new) (text_in (inputs_layout (input_names (texts_of names.now)))) }
{
    put_names(target, &INPUTS, names);
}

fn put_state<T: Target>(target: &mut T)
    ensures { Puts (T.standing target.old) (T.standing target.new) (text_in (equation_line state_equation)) }
{
    put_pieces(target, &[INDENT, b"st", IS, b"0", ARROW_PRE, b"nx", END]);
}

// The right side of `ok`.
#[tactic(auto, using(crate::proofs::ObserverText::tests_text))]
fn put_tests<T: Target>(target: &mut T, auto: &Auto)
    ensures { (rows : List PlainChild) → length rows ≡ length auto.now.rows
        → Puts (T.standing target.old) (T.standing target.new) (text_in (right_layout (ok_equation (state_lines auto.now rows)).right)) }
{
    put_accepting(target, &ACCEPTING, auto);
}

// The row of the state, with an arm for each but the last.
fn put_choice<T: Target>(target: &mut T, rows: &[Child])
    requires { 0 < length rows.now }
    ensures { (raw : RawValue) → Puts (T.standing target.old) (T.standing target.new)
        (text_in (right_layout (Chosen (row_arms (state_lines raw rows.now)) (item_of (last_row (state_lines raw rows.now)))))) }
{
    let last = rows.len() - 1;
    put_rows(target, &ROWS, &rows[..last]);
    put_child(target, rows[last]);
}
