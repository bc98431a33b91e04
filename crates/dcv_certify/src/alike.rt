//! For each entry the least one that no suffix tells from it. The entries are the states, and, where its access word is empty, the start
//! once more with its other flag: the empty suffix says nothing of an empty word.
ghost use Rattle.std.specs.Prelude.{◌≡◌, IfOk, IfSome, IfNone};
ghost use Rattle.dcv_certify.specs.Certified.{HasGoodWords, HasAllTold, IsFirstPair};
ghost use Rattle.dcv_automaton_read.specs.File.{access_from};
ghost use Rattle.dcv_certify.specs.Alike.{has_no_letters, is_empty_access, entries_of};
ghost use Rattle.dcv_certify.specs.Numbers.{AreNumbersOf};
ghost use Rattle.dcv_certify.specs.Links.{root_of};

use crate::joined::{are_own, first_joined};
use crate::links::Links;
use crate::steps::Steps;
use crate::walk::{try_next, wait};
use dcv_automaton_read::{Access, AutoFile};
use std::alloc::{AllocError, Global};

// The first two states that no suffix tells apart.
pub(crate) fn first_pair(alloc: Global, file: &AutoFile) -> Result<Option<(u32, u32)>, AllocError>
    requires { HasGoodWords file.now }
    ensures some { IfOk result (λ found. IfSome found (λ pair. IsFirstPair file.now pair.0 pair.1)) }
    ensures none { IfOk result (λ found. IfNone found (HasAllTold file.now)) }
{
    // for the prover: what is true of every file.
    file.keeps_the_rules();
    let numbers = least_alike(alloc, file)?;
    Ok(first_joined(&numbers, file.states()))
}

// A column of bits for each suffix in turn splits the entries. Nothing is left to be told apart once each entry is the least alike to it.
fn least_alike(alloc: Global, file: &AutoFile) -> Result<Vec<u32>, AllocError>
    ensures { IfOk result (λ numbers. AreNumbersOf file.now numbers.items) }
{
    // for the prover: what is true of every file.
    file.keeps_the_rules();
    let links = Links::of(alloc, file)?;
    let mut steps = Steps::new(alloc)?;
    let mut numbers = vec![in alloc; 0; entries(file)]?;
    let mut left = Vec::new(alloc);
    wait(&mut left, Vec::new(alloc), root(file))?;
    while let Some(at) = left.pop() {
        let splits = try_next(alloc, file, &links, &mut steps, at, &mut left, &mut numbers)?;
        if splits && are_own(&numbers) {
            return Ok(numbers);
        }
    }
    Ok(numbers)
}

// The first suffix, from which all others go on.
fn root(file: &AutoFile) -> Option<u32>
    ensures { result ≡ root_of file.now }
{
    // for the prover: what is true of every file.
    file.keeps_the_rules();
    if file.suffixes().is_empty() {
        None
    } else {
        Some(0)
    }
}

// How many entries there are.
fn entries(file: &AutoFile) -> usize
    ensures { result ≡ entries_of file.now }
{
    let states = file.states() as usize;
    if starts_with_no_letters(file) {
        states + 1
    } else {
        states
    }
}

// Whether the access word of the start is empty.
fn starts_with_no_letters(file: &AutoFile) -> bool
    ensures { result ≡ has_no_letters file.now }
{
    // for the prover: what is true of every file.
    file.keeps_the_rules();
    let access = file.access();
    is_empty(access[0])
}

fn is_empty(access: Access) -> bool
    ensures { result ≡ is_empty_access (access_from access) }
{
    match access {
        Access::Empty => true,
        Access::Start(_) | Access::After(_, _) => false,
    }
}
