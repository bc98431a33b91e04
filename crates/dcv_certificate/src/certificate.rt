// The two parts: how the access words are spelled, and suffixes that tell them apart.
ghost use Rattle.std.specs.Prelude.{◌≡◌, List, false, IfOk};
ghost use Rattle.dcv_word.specs.Behaviour.{Word};
ghost use Rattle.dcv_dfa.specs.Raw.{IsRaw, raw_accepts};
ghost use Rattle.dcv_dfa.specs.Auto.{table_of_states};
ghost use Rattle.dcv_language.specs.Canonical.{IsCanonical};
ghost use Rattle.dcv_language.specs.Certificate.{IsCertificate};
ghost use Rattle.dcv_certificate.specs.Proof.{IsProof, suffix_words, GoOnFromEarlier};
ghost use Rattle.dcv_certificate.specs.Separation.{AreVertices, IsSeparated};
ghost use Rattle.dcv_certificate.specs.Vertices.{raw_of, with_start, AreVerticesOf};

use crate::access::access_of;
use crate::partition::Partition;
use crate::proof::Proof;
use crate::vertices::Vertices;
use dcv_dfa::Auto;
use dcv_dfa::laws::{tables_accept_the_same, tables_have_the_states};
use dcv_language::Suffix;
use dcv_language::laws::one_canonical_table;
use dcv_refinement::{Above, Index};
use std::alloc::{AllocError, Global};

/// Suffixes that show that no automaton with fewer states accepts the same words, beside the words that lead to each state.
///
/// They are found by splitting the states into blocks, letter by letter from each suffix in turn (E. F. Moore, 1956, with
/// J. E. Hopcroft's smaller parts, 1971).
pub fn separate(alloc: Global, auto: &Auto) -> Result<Proof, AllocError>
    ensures { IfOk result (λ proof. IsProof auto.now proof.access proof.suffixes) }
{
    let access = access_of(alloc, auto)?;
    let suffixes = suffixes_of(alloc, auto)?;
    Ok(Proof::new(access, suffixes))
}

// The suffixes of a certificate.
fn suffixes_of(alloc: Global, auto: &Auto) -> Result<Vec<Suffix>, AllocError>
    ensures earlier { IfOk result (λ suffixes. GoOnFromEarlier suffixes.items) }
    ensures certificate { IfOk result (λ suffixes. (words : List Word)
        → IsCanonical auto.now.arena.slots (raw_accepts auto.now) (table_of_states auto.now) words
        → IsCertificate auto.now.arena.slots (raw_accepts auto.now) words (suffix_words suffixes.items)) }
{
    tables_have_the_states();
    if auto.states() == 1 {
        return Ok(Vec::new(alloc));
    }
    tables_accept_the_same();
    one_canonical_table();
    let vertices = vertices_of(alloc, auto)?;
    separating(alloc, &vertices)
}

// The states, and a start that stands alone once more.
fn vertices_of<'a>(alloc: Global, auto: &'a Auto) -> Result<Vertices<'a>, AllocError>
    ensures { IfOk result (λ new. AreVerticesOf auto.now (raw_of new)) }
{
    let vertices = states_of(alloc, auto)?;
    if auto.starts_alone() {
        return vertices.with_start();
    }
    Ok(vertices)
}

// The states of the automaton.
fn states_of<'a>(alloc: Global, auto: &'a Auto) -> Result<Vertices<'a>, AllocError>
    ensures states { IfOk result (λ new. raw_of new ≡ with_start false auto.now) }
    ensures raw { IsRaw auto.now }
{
    let mut rows = Vec::new(alloc);
    let mut flags = Vec::new(alloc);
    for state in 0..auto.states() {
        rows.push(auto.row(state))?;
        flags.push(auto.accepting(state))?;
    }
    Ok(Vertices {
        arena: auto.arena(),
        rows,
        flags,
    })
}

// Suffixes that tell any two states apart that some word tells apart.
fn separating(alloc: Global, vertices: &Vertices) -> Result<Vec<Suffix>, AllocError>
    requires { AreVertices (raw_of vertices.now) }
    ensures earlier { IfOk result (λ suffixes. GoOnFromEarlier suffixes.items) }
    ensures separated { IfOk result (λ suffixes. IsSeparated (raw_of vertices.now) (suffix_words suffixes.items)) }
{
    let index = Index::new(alloc, vertices.arena, &vertices.rows)?;
    let mut found = Above::new(alloc);
    let mut partition = Partition::new(alloc, vertices)?;
    let mut place = 0;
    while place < partition.suffixes.len() {
        partition.go_on_from(&index, &mut found, place)?;
        place += 1;
    }
    Ok(partition.suffixes)
}
