// Where letters lead into a part of the states: a function for each row, which has 1 at the letters that do, and 0 at the others.
ghost use Rattle.std.specs.Prelude.{◌≡◌, ◌+◌, ◌^◌, ◌<◌, ◌≤◌, ℕ, Bool, List, [], true, false, if◌then◌else◌, nat_eq, length, slice_index_or};
ghost use Rattle.std.specs.Prelude.{IfOk, OnOk, Contains};
ghost use Rattle.std.specs.List.{All};
ghost use Rattle.indexmap.specs.IndexMap.{get};
ghost use Rattle.indexmap.specs.IndexSet.{contains};
ghost use Rattle.dcv_arena.specs.Arena.{IsRef, IsArena, KeepsRefs, level_of, value_of};
ghost use Rattle.dcv_certificate.specs.Separation.{has};
ghost use Rattle.dcv_certificate.specs.Marks.{IsMarkFrom};
ghost use Rattle.dcv_certificate.specs.Indicators.{IsIndicator, Became, HasFewNodes, KeepsEarlier, IsMarkedAbove, part_of, AreIndicators};

use dcv_arena::{Arena, ArenaFault, Ref};
use dcv_refinement::SparseSet;
use indexmap::{IndexMap, IndexSet};
use std::alloc::{AllocError, Global};

// The states of the part, and the nodes that stand above them.
#[derive(Drop)]
pub(crate) struct Part<'a> {
    // the arena of the rows
    pub(crate) arena: &'a Arena,
    // the states of the part
    states: IndexSet<u32>,
    // the places of the nodes from which a state of the part can be reached
    above: &'a SparseSet,
}

impl<'a> Part<'a> {
    pub(crate) fn new(
        alloc: Global,
        arena: &'a Arena,
        states: &[u32],
        above: &'a SparseSet,
    ) -> Result<Part<'a>, AllocError>
        ensures arena { IfOk result (λ part. part.arena.now ≡ arena.now) }
        ensures states { IfOk result (λ part. (state : ℕ) → part_of part state ≡ has states.now state) }
        ensures above { IfOk result (λ part. part.above.now ≡ above.now) }
    {
        let states = set_of(alloc, states)?;
        Ok(Part {
            arena,
            states,
            above,
        })
    }
}

impl Part<'_> {
    // The indicators of these rows, each beside its state.
    pub(crate) fn marks(
        &self,
        alloc: Global,
        scratch: &mut Arena,
        rows: &[Ref],
        looked: &[u32],
    ) -> Result<Vec<(u32, Ref)>, AllocError>
        requires rows { All (IsRef self.now.arena.now) rows.now }
        requires looked { All (λ state. state < length rows.now) looked.now }
        requires above { IsMarkedAbove self.now }
        requires slots { scratch.old.slots ≡ self.now.arena.now.slots }
        requires arena { IsArena scratch.old }
        requires none { scratch.old.nodes ≡ [] }
        requires limit { 2 ^ 32 ≤ scratch.old.limit + 1 }
        ensures kept { KeepsRefs scratch.old scratch.new }
        ensures arena { IsArena scratch.new }
        ensures marks { IfOk result (λ marks. All (IsMarkFrom scratch.new (length rows.now) 0) marks.items) }
        ensures marked { IfOk result (λ marks. AreIndicators self.now rows.now looked.now scratch.new marks.items) }
    {
        // for the prover: of an arena that was asked it is known what is true of every arena.
        let _ = scratch.slots();
        let mut became = IndexMap::new(alloc);
        let mut marks = Vec::new(alloc);
        for state in looked {
            let mark = self.indicator(scratch, rows[*state as usize], &mut became)?;
            marks.push((*state, mark))?;
        }
        Ok(marks)
    }

    // The function that has 1 where the ref leads into the part. What nodes became is kept.
    fn indicator(
        &self,
        scratch: &mut Arena,
        root: Ref,
        became: &mut IndexMap<u32, Ref>,
    ) -> Result<Ref, AllocError>
        requires root { IsRef self.now.arena.now root }
        requires above { IsMarkedAbove self.now }
        requires slots { scratch.old.slots ≡ self.now.arena.now.slots }
        requires arena { IsArena scratch.old }
        requires limit { 2 ^ 32 ≤ scratch.old.limit + 1 }
        requires few { HasFewNodes self.now scratch.old (get nat_eq became.old) }
        requires became { Became self.now scratch.old (get nat_eq became.old) }
        ensures kept { KeepsRefs scratch.old scratch.new }
        ensures arena { IsArena scratch.new }
        ensures few { OnOk result (HasFewNodes self.now scratch.new (get nat_eq became.new)) }
        ensures earlier { OnOk result (KeepsEarlier self.now root (get nat_eq became.old) (get nat_eq became.new)) }
        ensures became { OnOk result (Became self.now scratch.new (get nat_eq became.new)) }
        ensures indicator { IfOk result (IsIndicator self.now scratch.new root) }
    {
        match root {
            Ref::Leaf(state) => Ok(scratch.leaf(u32::from(self.states.contains(&state)))),
            Ref::Place(place) => {
                let slot = self.arena.level(root);
                if !self.above.contains(place) {
                    return Ok(scratch.leaf(0));
                }
                if let Some(mark) = became.get(&place).copied() {
                    return Ok(mark);
                }
                let (lo, hi) = self.arena.split(root, slot);
                let low = self.indicator(scratch, lo, became)?;
                let high = self.indicator(scratch, hi, became)?;
                let mark = node_in(scratch, slot, low, high)?;
                became.insert(place, mark)?;
                Ok(mark)
            }
        }
    }
}

// The node of two functions, in an arena that has room for it.
fn node_in(scratch: &mut Arena, slot: u8, lo: Ref, hi: Ref) -> Result<Ref, AllocError>
    requires slot { slot < scratch.old.slots }
    requires lo { IsRef scratch.old lo }
    requires hi { IsRef scratch.old hi }
    requires lo_level { slot < level_of scratch.old lo }
    requires hi_level { slot < level_of scratch.old hi }
    requires room { length scratch.old.nodes < scratch.old.limit }
    ensures is_ref { IfOk result (IsRef scratch.new) }
    ensures level { IfOk result (λ node. slot ≤ level_of scratch.new node) }
    ensures value { IfOk result (λ node. (letter : List Bool) → value_of scratch.new node letter
        ≡ (if slice_index_or letter slot false then value_of scratch.old hi letter else value_of scratch.old lo letter)) }
    ensures kept { KeepsRefs scratch.old scratch.new }
    ensures one_more { length scratch.new.nodes ≤ length scratch.old.nodes + 1 }
    ensures arena { IsArena scratch.new }
{
    match scratch.node(slot, lo, hi) {
        Ok(node) => Ok(node),
        Err(ArenaFault::Memory) => Err(AllocError),
        Err(ArenaFault::Full { .. }) => unreachable!(),
    }
}

// The set of these states.
fn set_of(alloc: Global, states: &[u32]) -> Result<IndexSet<u32>, AllocError>
    ensures { IfOk result (λ set. (state : ℕ) → contains nat_eq set state ≡ has states.now state) }
{
    let mut set = IndexSet::new(alloc);
    for state in states {
        set.insert(*state)?;
    }
    Ok(set)
}
