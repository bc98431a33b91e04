// Names that observers may have.
ghost use Rattle.std.specs.Prelude.{◌≡◌, ◌⊎◌, [], ◌∷◌, length, map, IfOk};
ghost use Rattle.dcv_automaton_text.specs.Rules.{AreNames};
ghost use Rattle.dcv_syntax.specs.declared.names.Name.{Name as AnyName};

use dcv_syntax::{Name, Span, Text};
use std::alloc::Global;
use std::test::Fail;

/// One name and no other, which is one letter: `a` or `p`.
pub fn one_name(alloc: Global, letter: u8) -> Result<Vec<Name>, Fail>
    requires { (letter ≡ 97) ⊎ (letter ≡ 112) }
    ensures texts { IfOk result (λ names. map (λ (name : AnyName). name.text) names.items ≡ (letter ∷ []) ∷ []) }
    ensures names { IfOk result (λ names. AreNames (map (λ (name : AnyName). name.text) names.items)) }
    ensures length { IfOk result (λ names. length names.items ≡ 1) }
{
    let text = Text::copy_of(alloc, &[letter])?;
    let span = Span { start: 0, end: 0 };
    let mut names = Vec::new(alloc);
    names.push(Name { text, span })?;
    Ok(names)
}
