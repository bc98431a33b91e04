// What each rule of a grammar stands for.
ghost use Rattle.std.specs.Prelude.{◌≡◌, map, IfOk};
ghost use Rattle.dcv_grammar.specs.Grammar.{grammar_of};
ghost use Rattle.dcv_grammar.specs.Predictive.{IsPredictive};
ghost use Rattle.dcv_lexer.specs.Cuts.{Token};
ghost use Rattle.dcv_translation.specs.Scheme.{Scheme, IsOfBody};

use crate::body::Body;
use dcv_grammar::grammar::ContextFree;
use std::alloc::AllocError;

/// A language, and what its derivation trees stand for: `scheme` has what its tokens stand for, and the action of each rule.
pub trait Translation<'a> {
    /// What a symbol stands for, in code.
    type Part: Drop;

    /// A token with its place, in code.
    type Token: Drop;

    /// What a part is to definitions.
    ghost Meaning: { Type 0 };

    /// The language and the actions.
    ghost scheme: { Scheme Meaning };

    /// The same part, as the definitions have it.
    ghost meaning: { Self.Part → Meaning };

    /// The same token, as the definitions have it.
    ghost seen: { Self.Token → Token };

    /// The grammar of the language.
    fn grammar(&self) -> &'a ContextFree<'a>
        ensures grammar { grammar_of result.now ≡ scheme.grammar }
        ensures predictive { IsPredictive scheme.grammar };

    /// Whether the tokens of a class stand for anything.
    fn has_part(&self, class: u8) -> bool
        ensures { result ≡ scheme.has_part class };

    /// What a token of such a class stands for.
    fn token(&self, token: Self::Token) -> Self::Part
        ensures { meaning result ≡ scheme.of_token (seen token) };

    /// What a rule stands for, by the parts of one of its bodies.
    fn rule(&self, rule: u8, body: &mut Body<Self::Part>) -> Result<Self::Part, AllocError>
        requires { IsOfBody scheme rule (map meaning body.old) }
        ensures { IfOk result (λ part. meaning part ≡ scheme.action rule (map meaning body.old)) };
}
