// Whether a text is a sentence, and else where its syntax is at fault.
ghost use Rattle.std.specs.Prelude.{◌≡◌, ◌^◌, ◌<◌, ℕ, Option, length, IsTrue, IfOk};
ghost use Rattle.dcv_grammar.specs.Grammar.{grammar_of};
ghost use Rattle.dcv_grammar.specs.Predictive.{IsPredictive};
ghost use Rattle.dcv_lexer.specs.Lexicon.{lexicon_of, is_orderly};
ghost use Rattle.dcv_observer.specs.Items.{IsSyntaxVerdict};

use crate::items::Items;
use dcv_grammar::grammar::ContextFree;
use dcv_grammar::reader::Reading;
use dcv_lexer::Lexicon;
use std::alloc::{AllocError, Global};

/// Where a text's first item stands with which it begins no sentence, or its end where it merely stops too early, and none in
/// a sentence. It takes memory for what may still come alone, and keeps no items.
pub fn syntax_fault(
    alloc: Global,
    lexicon: &Lexicon<'_>,
    grammar: &ContextFree<'_>,
    text: &[u8],
) -> Result<Option<u32>, AllocError>
    requires orderly { IsTrue (is_orderly (lexicon_of lexicon.now)) }
    requires predictive { IsPredictive (grammar_of grammar.now) }
    requires in_range { length text.now < 2 ^ 32 }
    ensures verdict { IfOk result (IsSyntaxVerdict (lexicon_of lexicon.now) (grammar_of grammar.now) text.now) }
    ensures only { IfOk result (λ found. (other : Option ℕ) →
        IsSyntaxVerdict (lexicon_of lexicon.now) (grammar_of grammar.now) text.now other → other ≡ found) }
{
    let mut reading = Reading::new(alloc, *grammar)?;
    let mut items = Items::new(lexicon, text);
    while let Some(item) = items.next() {
        if !reading.take(item.class)? {
            return Ok(Some(item.start));
        }
    }
    if !reading.end()? {
        return Ok(Some(text.len() as u32));
    }
    Ok(None)
}
