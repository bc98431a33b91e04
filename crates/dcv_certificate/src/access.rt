// How the access words are spelled: the least word that leads to a state is that of the state before it, and a letter more.
ghost use Rattle.std.specs.Prelude.{◌≡◌, ◌≢◌, ◌<◌, ℕ, List, Some, length, slice_get, IfOk, IfSome};
ghost use Rattle.std.specs.List.{All, AllPairs};
ghost use Rattle.dcv_word.specs.Behaviour.{Word};
ghost use Rattle.dcv_dfa.specs.Raw.{raw_accepts};
ghost use Rattle.dcv_dfa.specs.Auto.{IsAuto, table_of_states};
ghost use Rattle.dcv_language.specs.Canonical.{IsCanonical};
ghost use Rattle.dcv_reach.specs.Reached.{states_of};
ghost use Rattle.dcv_reach.specs.declared.reached.Found.{Found as AnyFound};
ghost use Rattle.dcv_certificate.specs.Proof.{AreSpelled};
ghost use Rattle.dcv_certificate.specs.Spelling.{spelling_of, AreSpellings};

use dcv_dfa::Auto;
use dcv_dfa::laws::{tables_accept_the_same, tables_have_the_states};
use dcv_language::Access;
use dcv_reach::{Found, reach};
use dcv_word::Letter;
use dcv_word::laws::{word_order_is_kept, words_are_in_order};
use std::alloc::{AllocError, Global};

// A start that no word leads to is not found, and keeps the empty word.
pub(crate) fn access_of(alloc: Global, auto: &Auto) -> Result<Vec<Access>, AllocError>
    ensures spelled { IfOk result (λ access. (words : List Word)
        → IsCanonical auto.now.arena.slots (raw_accepts auto.now) (table_of_states auto.now) words → AreSpelled access.items words) }
    ensures auto { IsAuto auto.now }
{
    tables_have_the_states();
    tables_accept_the_same();
    words_are_in_order();
    word_order_is_kept();
    let reached = reach(alloc, auto.raw())?;
    spellings(alloc, auto.states(), reached.found())
}

// For each state how its word is spelled, in the order of the states.
fn spellings(alloc: Global, states: u32, found: &[Found]) -> Result<Vec<Access>, AllocError>
    requires states { All (λ state. state < states) (states_of found.now) }
    requires once { AllPairs (λ first second. first ≢ second) (states_of found.now) }
    requires before { (place : ℕ) (one : AnyFound) → slice_get found.now place ≡ Some one → IfSome one.before (λ earlier. earlier < place) }
    ensures { IfOk result (λ access. AreSpellings states found.now access.items) }
{
    let mut access = vec![in alloc; Access::Empty; states as usize]?;
    for one in found {
        access[one.state as usize] = spelling(found, one.before, one.letter);
    }
    Ok(access)
}

// The word that ends with this letter, after the word at a place or after none.
fn spelling(found: &[Found], before: Option<u32>, letter: Letter) -> Access
    requires { IfSome before (λ place. place < length found.now) }
    ensures { result ≡ spelling_of found.now before letter }
{
    match before {
        None => Access::Start(letter),
        Some(place) => Access::After(found[place as usize].state, letter),
    }
}
