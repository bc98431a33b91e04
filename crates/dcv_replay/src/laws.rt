//! Laws of trace texts and of answers. Each function here does nothing: its contract is the law.
ghost use Rattle.dcv_replay.specs.Laws.{OneVerdict, SomeVerdict, NoBadTrace, NoLongTrace, LinesAreFront};
ghost use Rattle.dcv_replay.specs.Laws.{OneText, AnswersOfFront, GoodLinesAreAnswered};

use dcv_lustre::laws::one_trace;
use dcv_word::laws::lines_are_read_back;

/// A text has one verdict: it is the trace of one word, or after the lines of one word comes the first bad line or a line too many, or
/// it is empty. So no trace has a bad line, and none is too long. Lines at the front of a text are a front of those of its verdict.
pub fn traces_have_one_verdict()
    ensures one { OneVerdict }
    ensures some { SomeVerdict }
    ensures bad { NoBadTrace }
    ensures long { NoLongTrace }
    ensures front { LinesAreFront }
{
    lines_are_read_back();
}

/// The answers to letters are one text, and those to a front of them a front of it. An observer that keeps the rules of names answers the good lines
/// of each trace.
pub fn letters_have_one_text_of_answers()
    ensures one { OneText }
    ensures front { AnswersOfFront }
    ensures some { GoodLinesAreAnswered }
{
    one_trace();
}
