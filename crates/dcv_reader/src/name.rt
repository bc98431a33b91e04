// Names of a text.
ghost use Rattle.std.specs.Prelude.{◌≡◌, IfOk};
ghost use Rattle.dcv_tokens.specs.Reading.{seen};
ghost use Rattle.dcv_reader.specs.Nodes.{name_of};

use dcv_syntax::{Name, Text};
use dcv_tokens::Token;
use std::alloc::{AllocError, Global};

// The name that a token is.
pub(crate) fn name_of(alloc: Global, token: &Token) -> Result<Name, AllocError>
    ensures { IfOk result (λ name. name ≡ name_of (seen token.now)) }
{
    Ok(Name {
        text: Text::copy_of(alloc, token.bytes)?,
        span: token.span(),
    })
}
