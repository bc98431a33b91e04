//! Where the access words lead. The word of each state goes on from that of an earlier one, but for that of state 0, which comes last.
ghost use Rattle.std.specs.Prelude.{◌≡◌, ◌<◌, length, IfOk, IfSome, IfNone, slice_index_or};
ghost use Rattle.std.specs.List.{All};
ghost use Rattle.dcv_automaton_text.specs.Meaning.{table_of};
ghost use Rattle.dcv_automaton_text.specs.Rules.{IsGood};
ghost use Rattle.dcv_automaton_read.specs.File.{access_from};
ghost use Rattle.dcv_certify.specs.Certified.{HasGoodWords, IsFirstAstray};
ghost use Rattle.dcv_certify.specs.Landing.{AreLanded, followed, GoesOnFrom};

use dcv_automaton_read::{Access, AutoFile};
use dcv_automaton_text::laws::good_files_are_tables;
use std::alloc::{AllocError, Global};

// The first state whose access word does not lead to it.
pub(crate) fn first_astray(alloc: Global, file: &AutoFile) -> Result<Option<u32>, AllocError>
    ensures some { IfOk result (λ found. IfSome found (IsFirstAstray file.now)) }
    ensures none { IfOk result (λ found. IfNone found (HasGoodWords file.now)) }
{
    // for the prover: what is true of every file.
    file.keeps_the_rules();
    let states = landed(alloc, file)?;
    for (place, state) in states.iter().enumerate() {
        if *state as usize != place {
            return Ok(Some(place as u32));
        }
    }
    Ok(None)
}

// The states to which the access words lead.
fn landed(alloc: Global, file: &AutoFile) -> Result<Vec<u32>, AllocError>
    ensures { IfOk result (λ states. AreLanded file.now states.items) }
{
    good_files_are_tables();
    // for the prover: what is true of every file.
    file.keeps_the_rules();
    let access = file.access();
    let mut states = Vec::new(alloc);
    states.push(0)?;
    for place in 1..access.len() {
        let state = follow(file, &states, access[place]);
        states.push(state)?;
    }
    states[0] = follow(file, &states, access[0]);
    Ok(states)
}

// The state to which a word leads that goes on from one of these.
fn follow(file: &AutoFile, states: &[u32], access: Access) -> u32
    requires goes_on { GoesOnFrom file.now states.now (access_from access) }
    requires states { All (λ state. state < file.now.states) states.now }
    ensures { result ≡ followed (table_of file.now) states.now (access_from access) }
{
    match access {
        Access::Empty => 0,
        Access::Start(letter) => file.next(0, &letter),
        Access::After(before, letter) => file.next(states[before as usize], &letter),
    }
}
