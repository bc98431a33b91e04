// The tokens of a text without faults: each kind of fault is sought in a pass of its own.
ghost use Rattle.std.specs.Prelude.{◌≡◌, ◌≢◌, ◌^◌, ◌<◌, ◌≤◌, [], length, map, All, IfOk, IfErr};
ghost use Rattle.dcv_grammar.specs.Grammar.{IsSentence};
ghost use Rattle.dcv_tokens.specs.Classes.{number, class_of};
ghost use Rattle.dcv_tokens.specs.Decimal.{value_of};
ghost use Rattle.dcv_tokens.specs.Tokens.{IsTokenized};
ghost use Rattle.dcv_tokens.specs.Limits.{largest_number};
ghost use Rattle.dcv_tokens.specs.Reading.{seen};
ghost use Rattle.dcv_sentence.specs.declared.faults.ReadFault.{ReadFault};
ghost use Rattle.dcv_sentence.specs.Language.{language};
ghost use Rattle.dcv_sentence.specs.Faults.{HasFault, IsFirstFault};

use crate::faults::ReadFault;
use crate::scan::Scan;
use dcv_tokens::Token;
use std::alloc::Global;

/// The tokens of a text without faults, which are a sentence of the grammar; else the first of its faults, or that memory ran out.
pub fn sentence_of<'a>(alloc: Global, text: &'a [u8]) -> Result<Vec<Token<'a>>, ReadFault>
    requires { length text.now < 2 ^ 32 }
    ensures tokens { IfOk result (λ tokens. IsTokenized text.now (map seen tokens.items) []) }
    ensures sentence { IfOk result (λ tokens.
        IsSentence language (map (λ token. class_of token.bytes.now) tokens.items)) }
    ensures small_numbers { IfOk result (λ tokens.
        All (λ token. class_of token.bytes ≡ number → value_of token.bytes ≤ largest_number) (map seen tokens.items)) }
    ensures faultless { IfOk result (λ _. (fault : ReadFault) → HasFault text.now fault → ⊥) }
    ensures first { IfErr result (λ fault. fault ≢ ReadFault.Memory → IsFirstFault text.now fault) }
{
    let scan = Scan::of(alloc, text)?;
    if let Some(fault) = scan.first_fault(alloc)? {
        return Err(fault);
    }
    Ok(scan.tokens)
}
