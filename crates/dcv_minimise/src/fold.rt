// The automaton whose states are blocks (after A. Nerode, 1958). Of each block that words lead to one state is kept, the one
// with the least word, and the states are numbered in the order of these words. The start gets a state of its own only where
// no block has its row: whether it accepts does not matter, since no word is empty.
ghost use Rattle.std.specs.Prelude.{◌≡◌, ◌≢◌, ◌<◌, ◌^◌, ◌==◌, ℕ, true, [], ◌∷◌, length, drop, slice_index_or, IfOk};
ghost use Rattle.std.specs.List.{All, AllPairs, enumerate_from, list_all, range_with_len};
ghost use Rattle.dcv_dfa.specs.Raw.{IsRaw, automaton_of, next_in};
ghost use Rattle.dcv_reach.specs.Reached.{IsReached, states_of};
ghost use Rattle.dcv_refinement.specs.Members.{block_of};
ghost use Rattle.dcv_minimise.specs.Minimal.{IsMinimalOf};
ghost use Rattle.dcv_minimise.specs.Partition.{IsPartition};
ghost use Rattle.dcv_minimise.specs.Classes.{HasFirsts, IsFirstLike, AreKept, IsKeptList, AreBlockNumbers, AreNumbers};
ghost use Rattle.dcv_minimise.specs.Folded.{HasRows, HasKeptRows, flags_of};

use crate::own_nodes::has_only_own_nodes;
use crate::refine::keys::Keys;
use dcv_arena::{Arena, Ref};
use dcv_dfa::{Auto, Raw};
use dcv_reach::{Found, Reached};
use dcv_renumber::{Places, Renumbering};
use dcv_word::Letter;
use std::alloc::{AllocError, Global};

// The states that are kept: with their rows and flags they are the states 0, 1, 2, .. of the new automaton.
#[derive(Drop)]
struct Kept {
    // the number that each had before
    states: Vec<u32>,
    // Whether the first of them is a start that stands alone.
    alone: bool,
}

// Rows, in an arena that has their nodes and no others.
#[derive(Drop)]
struct Rows {
    // the nodes of the rows and no others
    arena: Arena,
    // the row of each state that is kept
    rows: Vec<Ref>,
}

// The canonical automaton whose states are the blocks of the reached states, in the order of their least words, and the start
// where it stands alone.
pub(crate) fn fold(
    alloc: Global,
    raw: Raw,
    reached: &Reached,
    blocks: &[u32],
) -> Result<Auto, AllocError>
    requires partition { IsPartition raw blocks.now }
    requires reached { IsReached raw.arena.slots (automaton_of raw) reached.now.found }
    ensures { IfOk result (IsMinimalOf raw) }
{
    let kept = keep(alloc, &raw, reached.found(), blocks)?;
    let accepting = flags(alloc, &raw, &kept)?;
    let new = rows_for(alloc, raw, &kept.states, blocks)?;
    let folded = Raw::new(new.arena, new.rows, accepting, 0);
    Ok(Auto::new(folded, kept.alone))
}

// The rows of the kept states, by the numbers of these. Where they may stay as they are, no node is made anew.
fn rows_for(alloc: Global, raw: Raw, states: &[u32], blocks: &[u32]) -> Result<Rows, AllocError>
    requires partition { IsPartition raw blocks.now }
    requires kept { IsKeptList raw blocks.now states.now }
    ensures rows { IfOk result (λ new. HasKeptRows raw blocks.now states.now new.arena new.rows.items) }
    ensures raw { IsRaw raw }
{
    if are_all(states, raw.states()) && has_only_own_nodes(alloc, &raw)? {
        return Ok(as_they_are(raw));
    }
    let numbers = numbers_of(alloc, states, blocks)?;
    rows_of(alloc, &raw, states, &numbers)
}

// The rows as they are, with their arena.
fn as_they_are(raw: Raw) -> Rows
    ensures arena { result.arena ≡ raw.arena }
    ensures rows { result.rows.items ≡ raw.rows }
{
    let (arena, rows) = raw.into_rows();
    Rows { arena, rows }
}

// The start and the first state of each class, without the start where a class has its row. That class is then the first.
fn keep(alloc: Global, raw: &Raw, found: &[Found], blocks: &[u32]) -> Result<Kept, AllocError>
    requires partition { IsPartition raw.now blocks.now }
    requires reached { IsReached raw.now.arena.slots (automaton_of raw.now) found.now }
    ensures kept { IfOk result (λ kept. AreKept raw.now blocks.now (states_of found.now) kept.states.items kept.alone) }
    ensures list { IfOk result (λ kept. IsKeptList raw.now blocks.now kept.states.items) }
{
    // for the prover: of an automaton that was asked it is known what is true of every one.
    let _ = raw.slots();
    let mut states = first_states(alloc, raw.start(), found, blocks)?;
    match like_start(alloc, raw, &states, blocks)? {
        Some(place) => {
            let own = states.remove(place + 1);
            states[0] = own;
            Ok(Kept {
                states,
                alone: false,
            })
        }
        None => Ok(Kept {
            states,
            alone: true,
        }),
    }
}

// The start, and after it the first of these states in each block.
fn first_states(
    alloc: Global,
    start: u32,
    found: &[Found],
    blocks: &[u32],
) -> Result<Vec<u32>, AllocError>
    requires states { All (λ state. state < length blocks.now) (states_of found.now) }
    requires blocks { All (λ block. block < length blocks.now) blocks.now }
    ensures { IfOk result (λ states. HasFirsts blocks.now (states_of found.now) (length (states_of found.now)) start states.items) }
{
    let mut met = vec![in alloc; false; blocks.len()]?;
    let mut states = alone_with_room(alloc, start, found.len())?;
    for one in found {
        let block = blocks[one.state as usize] as usize;
        if met[block] {
            continue;
        }
        met[block] = true;
        states.push(one.state)?;
    }
    Ok(states)
}

// The start alone, with room for so many states after it.
fn alone_with_room(alloc: Global, start: u32, room: usize) -> Result<Vec<u32>, AllocError>
    ensures items { IfOk result (λ states. states.items ≡ start ∷ []) }
{
    let mut alone = Vec::with_capacity(alloc, room.saturating_add(1))?;
    alone.push(start)?;
    Ok(alone)
}

// The place, after the start, of the first of these states that has the start's row: whose letters lead to the same blocks. Most differ from
// the start at the letter that is false alone, and their rows are not gone through.
fn like_start(
    alloc: Global,
    raw: &Raw,
    states: &[u32],
    blocks: &[u32],
) -> Result<Option<usize>, AllocError>
    requires states { All (λ state. state < length raw.now.rows) states.now }
    requires some { 0 < length states.now }
    requires blocks { length blocks.now ≡ length raw.now.rows }
    ensures { IfOk result (IsFirstLike raw.now blocks.now (slice_index_or states.now 0 0) (drop 1 states.now)) }
{
    // for the prover: of an automaton that was asked it is known what is true of every one.
    let letter = Letter::new(raw.slots(), 0);
    let mut keys = Keys::new(alloc, Places::new(alloc), raw, blocks);
    let start = states[0];
    let own = keys.of(raw, start)?;
    let block = block_after(raw, blocks, start, &letter);
    for (place, state) in states[1..].iter().enumerate() {
        if block_after(raw, blocks, *state, &letter) != block {
            continue;
        }
        let key = keys.of(raw, *state)?;
        if key == own {
            return Ok(Some(place));
        }
    }
    Ok(None)
}

// The rows of these states, with new numbers in place of the states to which they lead. Functions are equal exactly where their
// refs are.
fn rows_of(alloc: Global, raw: &Raw, states: &[u32], numbers: &[u32]) -> Result<Rows, AllocError>
    requires states { All (λ state. state < length raw.now.rows) states.now }
    requires numbers { length numbers.now ≡ length raw.now.rows }
    ensures rows { IfOk result (λ new. HasRows raw.now states.now numbers.now new.arena new.rows.items) }
    ensures count { IfOk result (λ new. length new.rows.items ≡ length states.now) }
    ensures raw { IsRaw raw.now }
{
    // for the prover: of an automaton that was asked it is known what is true of every one.
    let _ = raw.slots();
    let mut new = Renumbering::new(alloc, Places::new(alloc), raw.arena(), numbers);
    let mut rows = Vec::with_capacity(alloc, states.len())?;
    for state in states {
        let row = new.renumber(raw.row(*state))?;
        rows.push(row)?;
    }
    Ok(Rows {
        arena: new.into_arena(),
        rows,
    })
}

// The block to which a letter leads from a state.
fn block_after(raw: &Raw, blocks: &[u32], state: u32, letter: &Letter) -> u32
    requires state { state < length raw.now.rows }
    requires letter { length letter.now ≡ raw.now.arena.slots }
    ensures { result ≡ block_of blocks.now (next_in raw.now state letter.now) }
{
    let next = raw.arena().eval(raw.row(state), letter);
    blocks.get(next as usize).copied().unwrap_or(0)
}

// For each state the number of the kept state in its block, and 0 where none is in it.
fn numbers_of(alloc: Global, kept: &[u32], blocks: &[u32]) -> Result<Vec<u32>, AllocError>
    requires kept { All (λ state. state < length blocks.now) kept.now }
    requires some { 0 < length kept.now }
    requires bound { length kept.now < 2 ^ 32 }
    requires blocks { All (λ block. block < length blocks.now) blocks.now }
    requires apart { AllPairs (λ first second. block_of blocks.now first ≢ block_of blocks.now second) kept.now }
    ensures { IfOk result (λ numbers. AreNumbers blocks.now kept.now numbers.items) }
{
    let of_block = numbers_of_blocks(alloc, kept, blocks)?;
    let mut numbers = Vec::with_capacity(alloc, blocks.len())?;
    for block in blocks {
        numbers.push(of_block[*block as usize])?;
    }
    Ok(numbers)
}

// For each block the number of the kept state that is in it.
fn numbers_of_blocks(alloc: Global, kept: &[u32], blocks: &[u32]) -> Result<Vec<u32>, AllocError>
    requires kept { All (λ state. state < length blocks.now) kept.now }
    requires some { 0 < length kept.now }
    requires bound { length kept.now < 2 ^ 32 }
    requires blocks { All (λ block. block < length blocks.now) blocks.now }
    requires apart { AllPairs (λ first second. block_of blocks.now first ≢ block_of blocks.now second) kept.now }
    ensures { IfOk result (λ numbers. AreBlockNumbers blocks.now kept.now numbers.items) }
{
    let mut numbers = vec![in alloc; 0; blocks.len()]?;
    for (number, state) in kept.iter().enumerate() {
        numbers[blocks[*state as usize] as usize] = number as u32;
    }
    Ok(numbers)
}

// Which of the kept states accept. A start that stands alone does not.
fn flags(alloc: Global, raw: &Raw, kept: &Kept) -> Result<Vec<bool>, AllocError>
    requires states { All (λ state. state < length raw.now.rows) kept.now.states.items }
    requires some { 0 < length kept.now.states.items }
    ensures { IfOk result (λ flags. flags.items ≡ flags_of raw.now kept.now.states.items kept.now.alone) }
{
    let mut accepting = Vec::with_capacity(alloc, kept.states.len())?;
    for state in &kept.states {
        accepting.push(raw.accepting(*state))?;
    }
    if kept.alone {
        accepting[0] = false;
    }
    Ok(accepting)
}

// Whether these are the states 0, 1, 2, .., so many of them.
fn are_all(states: &[u32], count: u32) -> bool
    ensures { result ≡ true → states.now ≡ range_with_len 0 count }
{
    states.len() == count as usize && stand_in_place(states)
}

// Whether each state stands at the place that is its number.
fn stand_in_place(states: &[u32]) -> bool
    ensures { result ≡ list_all (λ at. at.1 == at.0) (enumerate_from 0 states.now) }
{
    states
        .iter()
        .enumerate()
        .all(|(place, state)| *state as usize == place)
}
