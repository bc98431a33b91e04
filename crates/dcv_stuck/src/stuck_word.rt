// The least stuck word: the empty one, or the least word of the automaton of the stuck words.
ghost use Rattle.std.specs.Prelude.{◌≡◌, option_map, IfOk, IfSome};
ghost use Rattle.dcv_word.specs.Word.{WordValue};
ghost use Rattle.dcv_dfa.specs.Raw.{raw_accepts};
ghost use Rattle.dcv_stuck.specs.Stuck.{IsLeastStuckOf};

use crate::sink::stuck_words;
use dcv_dfa::Raw;
use dcv_reach::shortest_in;
use dcv_word::Word;
use std::alloc::{AllocError, Global};

/// The shortlex-least stuck word of the set that the automaton accepts: what keeps to the set up to there has no way to go on. There is none
/// where no word is stuck.
pub fn least_stuck(alloc: Global, raw: &Raw) -> Result<Option<Word>, AllocError>
    ensures least { IfOk result (λ found. IsLeastStuckOf raw.now.arena.slots (raw_accepts raw.now)
        (option_map (λ (word : WordValue). word.letters) found)) }
    ensures width { IfOk result (λ found. IfSome found (λ word. word.width ≡ raw.now.arena.slots)) }
{
    let stuck = stuck_words(alloc, raw)?;
    if stuck.accepting(stuck.start()) {
        return Ok(Some(Word::new(alloc, raw.slots())));
    }
    shortest_in(alloc, &stuck, true)
}
