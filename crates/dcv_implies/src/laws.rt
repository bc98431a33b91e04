//! Laws of the comparison of two sets of words. Each function here does nothing: its contract is the law.
ghost use Rattle.dcv_implies.specs.Laws.{AnswerOfSameBehaviours, AnswerOfAutomata, OneAnswer};
ghost use Rattle.dcv_implies.specs.Laws.{NoneWhereIncluded, IncludedBothWays};

use dcv_language::laws::one_canonical_table;
use dcv_word::laws::words_are_in_order;

/// What is answered of two automata is answered of the sets that they are the canonical automata of, whatever their arenas are: it
/// depends on the behaviours of the sets alone.
pub fn answers_are_of_sets()
    ensures same { AnswerOfSameBehaviours }
    ensures automata { AnswerOfAutomata }
{}

/// Two sets have one answer, but that a product with too many states and too many nodes may be named for either.
pub fn one_answer()
    ensures { OneAnswer }
{
    one_canonical_table();
    words_are_in_order();
}

/// There is no least word outside exactly where the first set is included in the second. Two sets that include each other have
/// the same behaviours.
pub fn none_is_inclusion()
    ensures none { NoneWhereIncluded }
    ensures both { IncludedBothWays }
{}
