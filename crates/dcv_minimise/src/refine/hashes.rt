// Blocks by hashes of rows: a first division that costs little, since no node is looked up. States that go on alike have one hash, so those
// that hashes tell apart are apart. Two that are apart may have one hash, by chance, which the rounds after find out.
ghost use Rattle.std.specs.Prelude.{◌≡◌, ◌<◌, ◌^◌, length, IfOk, OnOk};
ghost use Rattle.dcv_minimise.specs.Rounds.{IsWitnessed, IsTold};
ghost use Rattle.dcv_minimise.specs.Hashes.{stirred, mixed, hash_at, hash_of_node, AreHashes, IsPut};
ghost use Rattle.dcv_minimise.specs.declared.refine.hashes.Alike.{Alike as AnyAlike};

use super::partition::Partition;
use dcv_arena::{Arena, Ref};
use dcv_dfa::Raw;
use indexmap::IndexSet;
use std::alloc::{AllocError, Global};

// How often blocks are divided by hashes at most.
const MOST_ROUNDS: u32 = 24;

// 2^64 over the golden ratio, an odd number whose multiples spread over all of its 64 bits (D. E. Knuth, "The Art of Computer Programming",
// volume 3, section 6.4).
const GOLDEN_RATIO: u64 = 11_400_714_819_323_198_485;

// An odd number without pattern.
const MIXER: u64 = 15_485_907_386_658_061_715;

// What the states of a new block have in common: their block, and the hash of their rows.
#[derive(Clone, Copy, Debug, PartialEq, Eq, Hash)]
pub(crate) struct Alike {
    // the block of the states
    pub(crate) block: u32,
    // the hash of their rows by the blocks so far
    pub(crate) hash: u64,
}

// New blocks of the states so far: what each has in common, which one each state has, and the first state of each.
#[derive(Drop)]
struct NewBlocks {
    // what the states of each new block have in common
    parts: IndexSet<Alike>,
    // the new block of each state
    blocks: Vec<u32>,
    // the first state of each new block
    witness: Vec<u32>,
}

// The blocks by flags, divided by hashes for as long as that makes a quarter more of them at once.
pub(crate) fn by_hashes(alloc: Global, raw: &Raw) -> Result<Partition, AllocError>
    ensures witnessed { IfOk result (λ partition. IsWitnessed raw.now partition.blocks.items partition.witness.items) }
    ensures told { IfOk result (λ partition. IsTold raw.now partition.blocks.items) }
{
    let mut partition = Partition::by_flags(alloc, raw)?;
    for _round in 0..MOST_ROUNDS {
        let before = partition.witness.len();
        partition = divided(alloc, raw, &partition.blocks)?;
        if !goes_on(raw.states(), before, partition.witness.len()) {
            return Ok(partition);
        }
    }
    Ok(partition)
}

// Whether hashes may divide so many blocks further with profit, where there were fewer before: not all states are apart, and it made a
// quarter more of them.
fn goes_on(states: u32, before: usize, blocks: usize) -> bool {
    blocks < states as usize && blocks > before.saturating_add(before / 4)
}

// The blocks divided once.
fn divided(alloc: Global, raw: &Raw, blocks: &[u32]) -> Result<Partition, AllocError>
    requires each { length blocks.now ≡ length raw.now.rows }
    requires told { IsTold raw.now blocks.now }
    ensures witnessed { IfOk result (λ partition. IsWitnessed raw.now partition.blocks.items partition.witness.items) }
    ensures told { IfOk result (λ partition. IsTold raw.now partition.blocks.items) }
{
    let hashes = hashes_of(alloc, raw.arena(), blocks)?;
    let states = raw.states();
    let mut made = NewBlocks {
        parts: IndexSet::new(alloc),
        blocks: Vec::with_capacity(alloc, states as usize)?,
        witness: Vec::new(alloc),
    };
    for state in 0..states {
        let hash = hash_at(blocks, &hashes, raw.row(state));
        let block = blocks[state as usize];
        made.add(Alike { block, hash }, state)?;
    }
    Ok(Partition {
        blocks: made.blocks,
        witness: made.witness,
    })
}

impl NewBlocks {
    // Puts the next state into the block of its part, which is added where it is not there.
    fn add(&mut self, part: Alike, state: u32) -> Result<(), AllocError>
        requires { length self.old.parts.keys < 2 ^ 32 }
        ensures { OnOk result (IsPut AnyAlike self.old.parts.keys self.new.parts.keys self.old.blocks.items self.new.blocks.items
            self.old.witness.items self.new.witness.items part state) }
    {
        let (number, is_new) = self.parts.insert_full(part)?;
        self.blocks.push(number as u32)?;
        if !is_new {
            return Ok(());
        }
        self.witness.push(state)?;
        Ok(())
    }
}

// The hash of each node, in order.
fn hashes_of(alloc: Global, arena: &Arena, blocks: &[u32]) -> Result<Vec<u64>, AllocError>
    ensures each { IfOk result (λ hashes. length hashes.items ≡ length arena.now.nodes) }
    ensures hashes { IfOk result (λ hashes. AreHashes arena.now blocks.now hashes.items) }
{
    // for the prover: of an arena that was asked it is known what is true of every arena.
    let _ = arena.slots();
    let nodes = arena.len();
    let mut hashes = Vec::with_capacity(alloc, nodes as usize)?;
    for place in 0..nodes {
        let hash = hash_of(arena, blocks, &hashes, place);
        hashes.push(hash)?;
    }
    Ok(hashes)
}

// The hash of a node, given those of the nodes before it.
fn hash_of(arena: &Arena, blocks: &[u32], hashes: &[u64], place: u32) -> u64
    requires place { place < length arena.now.nodes }
    requires before { length hashes.now ≡ place }
    ensures { result ≡ hash_of_node arena.now blocks.now hashes.now place }
{
    let node = Ref::Place(place);
    let slot = arena.level(node);
    let (lo, hi) = arena.split(node, slot);
    mixed(
        slot,
        hash_at(blocks, hashes, lo),
        hash_at(blocks, hashes, hi),
    )
}

// The hash of a ref: that of its node, or a state's block.
fn hash_at(blocks: &[u32], hashes: &[u64], at: Ref) -> u64
    ensures { result ≡ hash_at blocks.now hashes.now at }
{
    match at {
        Ref::Leaf(state) => u64::from(blocks.get(state as usize).copied().unwrap_or(0)),
        Ref::Place(place) => hashes.get(place as usize).copied().unwrap_or(0),
    }
}

// The hash of a node whose children have these. Where they have one, the slot may not matter, and it is that one.
fn mixed(slot: u8, lo: u64, hi: u64) -> u64
    ensures { result ≡ mixed slot lo hi }
{
    if lo == hi { lo } else { stirred(slot, lo, hi) }
}

// A number from three, in which each of their bits counts.
fn stirred(slot: u8, lo: u64, hi: u64) -> u64
    ensures { result ≡ stirred slot lo hi }
{
    let first = lo
        .wrapping_add(u64::from(slot))
        .wrapping_mul(GOLDEN_RATIO)
        .rotate_left(29);
    first.wrapping_add(hi).wrapping_mul(MIXER).rotate_left(32)
}
