//! Laws of how texts are cut.
ghost use Rattle.dcv_lexer.specs.Lexicon.{Lexicon};
ghost use Rattle.dcv_lexer.specs.Cuts.{CutExists, CutIsUnique};

/// With any lexicon each text is cut into pieces and a rest in one way.
pub fn one_cut()
    ensures exists { (lexicon : Lexicon) → CutExists lexicon }
    ensures unique { (lexicon : Lexicon) → CutIsUnique lexicon }
{}
