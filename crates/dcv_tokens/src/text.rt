// From the bytes of a text to its tokens.
ghost use Rattle.std.specs.Prelude.{◌↔◌, ◌^◌, ◌<◌, ℕ, List, length};
ghost use Rattle.dcv_tokens.specs.Reading.{HasTokens};
ghost use Rattle.dcv_tokens.specs.Tokens.{Token as AnyToken, IsTokenized};

use crate::lexer::Tokens;

/// The tokens of a text, each a part of it, in order. They end at the end of the text, or before its byte fault. No
/// memory is taken.
pub fn tokens(text: &[u8]) -> Tokens<'_>
    requires { length text.now < 2 ^ 32 }
    ensures { (tokens : List AnyToken) (rest : List ℕ) → HasTokens result tokens rest ↔ IsTokenized text.now tokens rest }
{
    Tokens::new(text)
}
