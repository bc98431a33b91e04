//! A law of the form of an automaton's text, the contract of a function that does nothing.
ghost use Rattle.dcv_automaton_lines.specs.Laws.{FormOrFault, NoFaultOfForm, OneSyntaxFault};

/// Each text has the form, or one syntax fault, and not both.
pub fn texts_have_the_form_or_a_fault()
    ensures some { FormOrFault }
    ensures none { NoFaultOfForm }
    ensures one { OneSyntaxFault }
{}
