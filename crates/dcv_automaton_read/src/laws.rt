//! Laws of the reader. Each function here does nothing: its contract is the law.
ghost use Rattle.dcv_automaton_read.specs.Laws.{GoodTextsAreRead, SomeReading, NoFaultWhereRead, OneFault};

use dcv_automaton_lines::laws::texts_have_the_form_or_a_fault;
use dcv_automaton_text::laws::one_file;

/// A text of the form whose file keeps the table rules, as each printed one, is read as that file, unless memory runs out: by its
/// contract [`automaton_read`](crate::automaton_read) answers no fault of it, and no other file.
pub fn good_texts_are_read()
    ensures { GoodTextsAreRead }
{
    one_file();
}

/// Each text has one fault, or is that of one automaton.
pub fn texts_are_automata_or_at_fault()
    ensures some { SomeReading }
    ensures none { NoFaultWhereRead }
    ensures one { OneFault }
{
    texts_have_the_form_or_a_fault();
    one_file();
}
