//! Laws of the definitions that the contracts cite.
ghost use Rattle.dcv_tokens.specs.Tokens.{CutExists, CutIsUnique};
ghost use Rattle.dcv_tokens.specs.Classes.{FixedTextsDiffer, NamesHaveTheClass, NumbersHaveTheClass};

/// Each text is cut into pieces and a rest in one way.
pub fn one_cut()
    ensures exists { CutExists }
    ensures unique { CutIsUnique }
{}

/// The class of a token tells names and numbers from each other and from all other tokens, and each symbol and reserved
/// word from all others.
pub fn one_class()
    ensures fixed { FixedTextsDiffer }
    ensures names { NamesHaveTheClass }
    ensures numbers { NumbersHaveTheClass }
{}
