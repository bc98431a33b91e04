//! Which suffixes go on from which: for each suffix the first that goes on from it, and for that one the next that goes on from the same.
//! The last of these is one with the most suffixes below it.
ghost use Rattle.std.specs.Prelude.{◌≡◌, ◌<◌, ◌^◌, length, IfOk, IfSome};
ghost use Rattle.dcv_automaton_read.specs.File.{suffix_from};
ghost use Rattle.dcv_certify.specs.Links.{parent, parent_at, leads_to, light_parent_at, AreHeaviest, AreLinks};

use dcv_automaton_read::{AutoFile, Suffix};
use std::alloc::{AllocError, Global};

// The suffixes of a file as a tree.
#[derive(Drop)]
pub(crate) struct Links {
    // For each suffix the first that goes on from it.
    pub(crate) first: Vec<Option<u32>>,
    // For each suffix the next that goes on from the same one.
    pub(crate) next: Vec<Option<u32>>,
}

impl Links {
    // The links of a file's suffixes.
    pub(crate) fn of(alloc: Global, file: &AutoFile) -> Result<Links, AllocError>
        ensures { IfOk result (λ links. AreLinks file.now links.first.items links.next.items) }
    {
        let heaviest = heaviest(alloc, file)?;
        linked(alloc, file, &heaviest)
    }
}

// How many suffixes there are.
fn suffix_count(file: &AutoFile) -> usize
    ensures count { result ≡ length file.now.suffix_lines }
    ensures few { result < 2 ^ 32 }
{
    // for the prover: what is true of every file, and that its text is not too long.
    file.keeps_the_rules();
    file.steps_at();
    let suffixes = file.suffixes();
    suffixes.len()
}

// The place of the suffix that one goes on from.
fn parent_of(file: &AutoFile, place: usize) -> Option<u32>
    requires { place < length file.now.suffix_lines }
    ensures parent { result ≡ parent_at file.now place }
    ensures earlier { IfSome result (λ from. from < place) }
{
    // for the prover: what is true of every file.
    file.keeps_the_rules();
    let suffixes = file.suffixes();
    parent(suffixes[place])
}

fn parent(suffix: Suffix) -> Option<u32>
    ensures { result ≡ parent (suffix_from suffix) }
{
    match suffix {
        Suffix::Empty => None,
        Suffix::Then(_, from) => Some(from),
    }
}

// For each suffix the one that has the most below it, of those that go on from it.
fn heaviest(alloc: Global, file: &AutoFile) -> Result<Vec<Option<u32>>, AllocError>
    ensures { IfOk result (λ heaviest. AreHeaviest file.now heaviest.items) }
{
    // for the prover: what is true of every file.
    file.keeps_the_rules();
    let count = suffix_count(file);
    let mut sizes: Vec<u32> = vec![in alloc; 1; count]?;
    let mut heaviest = vec![in alloc; None; count]?;
    for place in (0..count).rev() {
        if let Some(from) = parent_of(file, place) {
            let from = from as usize;
            sizes[from] = sizes[from].saturating_add(sizes[place]);
            if is_heavier(&sizes, place, heaviest[from]) {
                heaviest[from] = Some(place as u32);
            }
        }
    }
    Ok(heaviest)
}

// Whether a suffix has more below it than another.
fn is_heavier(sizes: &[u32], place: usize, other: Option<u32>) -> bool {
    let size = sizes.get(place).copied().unwrap_or(0);
    match other {
        None => true,
        Some(other) => sizes.get(other as usize).copied().unwrap_or(0) < size,
    }
}

// Each suffix comes first of those that go on from the same one, before the later ones. The heaviest is there from the start.
fn linked(alloc: Global, file: &AutoFile, heaviest: &[Option<u32>]) -> Result<Links, AllocError>
    requires { AreHeaviest file.now heaviest.now }
    ensures { IfOk result (λ links. AreLinks file.now links.first.items links.next.items) }
{
    // for the prover: what is true of every file.
    file.keeps_the_rules();
    let count = suffix_count(file);
    let mut first = Vec::new(alloc);
    first.extend_from_slice(heaviest)?;
    let mut next = vec![in alloc; None; count]?;
    for place in (0..count).rev() {
        if let Some(from) = light_parent(file, heaviest, place) {
            next[place] = first[from as usize];
            first[from as usize] = Some(place as u32);
        }
    }
    Ok(Links { first, next })
}

// The place of the suffix that one goes on from, where it is not the heaviest there.
fn light_parent(file: &AutoFile, heaviest: &[Option<u32>], place: usize) -> Option<u32>
    requires place { place < length file.now.suffix_lines }
    requires count { length heaviest.now ≡ length file.now.suffix_lines }
    ensures light { result ≡ light_parent_at file.now heaviest.now place }
    ensures earlier { IfSome result (λ from. from < place) }
{
    let from = parent_of(file, place)?;
    if leads_to(heaviest[from as usize], place) {
        None
    } else {
        Some(from)
    }
}

// Whether a link leads to a place.
fn leads_to(link: Option<u32>, place: usize) -> bool
    ensures { result ≡ leads_to link place }
{
    match link {
        None => false,
        Some(other) => other as usize == place,
    }
}
