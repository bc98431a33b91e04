//! Laws of items, and of the faults of syntax.
ghost use Rattle.std.specs.Prelude.{ℕ, List, Option, IsTrue};
ghost use Rattle.dcv_grammar.specs.Grammar.{ContextFree};
ghost use Rattle.dcv_grammar.specs.Predictive.{IsPredictive};
ghost use Rattle.dcv_lexer.specs.Lexicon.{Lexicon, is_orderly};
ghost use Rattle.dcv_observer.specs.Items.{ItemsExist, ItemsAreUnique, IsSyntaxVerdict, VerdictIsUnique};
ghost use Rattle.dcv_observer.specs.Pieces.{HasItsTokens};

/// With any lexicon each text has one list of items.
pub fn one_list()
    ensures exists { ItemsExist }
    ensures unique { ItemsAreUnique }
{}

/// With a predictive grammar each text is a sentence or has a syntax fault, and with any grammar not both, nor two faults.
pub fn one_verdict()
    ensures some { (lexicon : Lexicon) (grammar : ContextFree) → IsPredictive grammar → (text : List ℕ) →
        (verdict : Option ℕ) × IsSyntaxVerdict lexicon grammar text verdict }
    ensures only { VerdictIsUnique }
{}

/// With an orderly lexicon a text that is laid out has the tokens that are laid out.
pub fn laid_out()
    ensures { (lexicon : Lexicon) → IsTrue (is_orderly lexicon) → HasItsTokens lexicon }
{}
