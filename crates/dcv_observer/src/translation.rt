// From a text to what its derivation tree stands for.
ghost use Rattle.std.specs.Prelude.{◌≡◌, ◌≢◌, ◌^◌, ◌<◌, ℕ, length, IsTrue, IfOk, IfErr};
ghost use Rattle.dcv_lexer.specs.Lexicon.{lexicon_of, is_orderly};
ghost use Rattle.dcv_observer.specs.Items.{IsSyntaxFault, token_class};
ghost use Rattle.dcv_observer.specs.Left.{seen};
ghost use Rattle.dcv_observer.specs.declared.fault.ObsFault.TheVariants.{Syntax, Memory};
ghost use Rattle.dcv_observer.specs.Scheme.{StandsFor, written};

use crate::fault::ObsFault;
use crate::items::{Item, Items};
use dcv_lexer::Lexicon;
use dcv_translation::{Machine, Translation};
use std::alloc::Global;

/// What a text stands for that is written with the lexicon: the part of its one derivation tree. Where it is no sentence, the fault is where its syntax is
/// at fault. It goes through the text once, up to the fault.
pub fn translate<'a, T: Translation<'a, Token = Item<'a>>>(
    alloc: Global,
    translation: &T,
    lexicon: &'a Lexicon<'a>,
    text: &'a [u8],
) -> Result<T::Part, ObsFault>
    requires orderly { IsTrue (is_orderly (lexicon_of lexicon.now)) }
    requires class { T.scheme.class ≡ token_class (lexicon_of lexicon.now) }
    requires seen { T.seen ≡ seen }
    requires in_range { length text.now < 2 ^ 32 }
    ensures part { IfOk result (λ part. StandsFor (written (lexicon_of lexicon.now) T.scheme) text.now (T.meaning part)) }
    ensures fault { IfErr result (λ fault. fault ≢ Memory → (at : ℕ) × (fault ≡ Syntax at)
        × IsSyntaxFault (lexicon_of lexicon.now) T.scheme.grammar text.now at) }
{
    let mut machine = Machine::new(alloc, translation)?;
    let mut items = Items::new(lexicon, text);
    while let Some(item) = items.next() {
        if !machine.take(item.class, item)? {
            return Err(ObsFault::Syntax { at: item.start });
        }
    }
    if let Some(part) = machine.finish()? {
        return Ok(part);
    }
    Err(ObsFault::Syntax {
        at: text.len() as u32,
    })
}
