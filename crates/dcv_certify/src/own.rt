//! Whether the words of a text are those that the program itself lists for its automaton. Then no suffix has to be tried.
ghost use Rattle.std.specs.Prelude.{◌≡◌, map, IfOk, IsTrue};
ghost use Rattle.dcv_automaton_read.specs.File.{access_from, suffix_from, accesses_of, suffixes_of};
ghost use Rattle.dcv_certify.specs.Certified.{HasAllTold};

use crate::built::automaton_of;
use dcv_arena::ArenaFault;
use dcv_automaton_read::AutoFile;
use dcv_certificate::{Proof, separate};
use dcv_minimise::minimise;
use std::alloc::{AllocError, Global};

// The suffixes of such a text tell every two states apart.
pub(crate) fn lists_own_words(alloc: Global, file: &AutoFile) -> Result<bool, AllocError>
    ensures { IfOk result (λ own. IsTrue own → HasAllTold file.now) }
{
    // for the prover: what is true of every file.
    file.keeps_the_rules();
    let raw = match automaton_of(alloc, file) {
        Ok(raw) => raw,
        Err(ArenaFault::Full { .. }) => return Ok(false),
        Err(ArenaFault::Memory) => return Err(AllocError),
    };
    let auto = minimise(alloc, raw)?;
    if auto.states() != file.states() {
        return Ok(false);
    }
    let proof = separate(alloc, &auto)?;
    Ok(is_spelled_so(&proof, file))
}

// Whether a text spells its words as a proof does.
fn is_spelled_so(proof: &Proof, file: &AutoFile) -> bool
    ensures access { IsTrue result → map access_from proof.now.access ≡ accesses_of file.now }
    ensures suffixes { IsTrue result → map suffix_from proof.now.suffixes ≡ suffixes_of file.now }
{
    if proof.access() != file.access() {
        return false;
    }
    proof.suffixes() == file.suffixes()
}
