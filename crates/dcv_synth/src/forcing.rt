// Which refs of an automaton's rows the environment forces out of the states that are not lost. At first one pass over the nodes finds them, whose
// children come before them; where further states are lost, only what leads to these is looked at again.
ghost use Rattle.std.specs.Prelude.{◌≡◌, ◌-◌, ◌^◌, ◌≤◌, ◌<◌, ℕ, true, length, slice_set, if◌then◌else◌, IfOk, OnOk, Contains};
ghost use Rattle.std.specs.Ordering.{nat_cmp};
ghost use Rattle.std.specs.List.{All};
ghost use Rattle.std.specs.List.Sorted.{IsSorted};
ghost use Rattle.dcv_arena.specs.Arena.{IsArena, IsRef};
ghost use Rattle.dcv_arena.specs.declared.nodes.Ref.TheVariants.{Place as AnyPlace};
ghost use Rattle.dcv_synth.specs.Tracks.{least_track};
ghost use Rattle.dcv_synth.specs.Forced.{picked, forced_at, IsForced, AreForcedBefore, AreAllForced, AreForcedBut, HasLost, IsApart, loses};

use dcv_arena::{Arena, Ref};
use dcv_word::Letter;
use std::alloc::{AllocError, Global};

// What is forced while some states are lost.
#[derive(Drop)]
pub(crate) struct Forcing<'a> {
    // the arena of the rows
    arena: &'a Arena,
    // how many of the first variables are inputs
    inputs: u8,
    // For each state whether it is lost.
    lost: Vec<bool>,
    // For each place, in order, whether the environment picks the inputs below it so that a lost state comes next, whatever the outputs are.
    forced: Vec<bool>,
}

impl<'a> Forcing<'a> {
    pub(crate) fn new(
        alloc: Global,
        arena: &'a Arena,
        inputs: u8,
        lost: Vec<bool>,
    ) -> Result<Forcing<'a>, AllocError>
        ensures arena { IfOk result (λ forcing. forcing.arena.now ≡ arena.now) }
        ensures inputs { IfOk result (λ forcing. forcing.inputs ≡ inputs) }
        ensures lost { IfOk result (λ forcing. forcing.lost.items ≡ lost.items) }
        ensures forced { IfOk result (λ forcing. AreAllForced inputs arena.now lost.items forcing.forced.items) }
    {
        let mut forcing = Forcing {
            arena,
            inputs,
            lost,
            forced: Vec::new(alloc),
        };
        for place in 0..arena.len() {
            let forced = forcing.is_node_forced(place);
            forcing.forced.push(forced)?;
        }
        Ok(forcing)
    }
}

impl Forcing<'_> {
    // Further states are lost, and `above` has the places from which some letter leads to one of them.
    pub(crate) fn lose(
        &mut self,
        alloc: Global,
        states: &[u32],
        above: &[u32],
    ) -> Result<(), AllocError>
        requires forced { AreAllForced self.old.inputs self.old.arena.now self.old.lost.items self.old.forced.items }
        requires within { All (λ place. place < length self.old.arena.now.nodes) above.now }
        requires apart { (place : ℕ) → place < length self.old.arena.now.nodes → ¬ Contains above.now place
            → IsApart self.old.arena.now (length self.old.lost.items) states.now place }
        ensures arena { self.new.arena.now ≡ self.old.arena.now }
        ensures inputs { self.new.inputs ≡ self.old.inputs }
        ensures lost { OnOk result (HasLost self.old.lost.items states.now self.new.lost.items) }
        ensures forced { OnOk result (AreAllForced self.new.inputs self.new.arena.now self.new.lost.items self.new.forced.items) }
    {
        let mut places = Vec::new(alloc);
        places.extend_from_slice(above)?;
        places.sort_unstable();
        lose_each(&mut self.lost, states);
        self.force_each(&places);
        Ok(())
    }

    // Looks at these places again, children before their nodes.
    fn force_each(&mut self, places: &[u32])
        requires sorted { IsSorted nat_cmp places.now }
        requires within { All (λ place. place < length self.old.arena.now.nodes) places.now }
        requires forced { AreForcedBut places.now self.old.inputs self.old.arena.now self.old.lost.items self.old.forced.items }
        ensures arena { self.new.arena.now ≡ self.old.arena.now }
        ensures inputs { self.new.inputs ≡ self.old.inputs }
        ensures lost { self.new.lost.items ≡ self.old.lost.items }
        ensures forced { AreAllForced self.new.inputs self.new.arena.now self.new.lost.items self.new.forced.items }
    {
        for place in places {
            let forced = self.is_node_forced(*place);
            self.forced[*place as usize] = forced;
        }
    }

    // Whether a lost state is forced from a node on, where that is known of the nodes before it.
    fn is_node_forced(&self, place: u32) -> bool
        requires place { place < length self.now.arena.now.nodes }
        requires before { AreForcedBefore place self.now.inputs self.now.arena.now self.now.lost.items self.now.forced.items }
        ensures { IsForced self.now.inputs self.now.arena.now self.now.lost.items (AnyPlace place) result }
    {
        let root = Ref::Place(place);
        let slot = self.arena.level(root);
        let (lo, hi) = self.arena.split(root, slot);
        pick(self.inputs, slot, self.is_forced(lo), self.is_forced(hi))
    }

    // The least inputs that force a lost state from a ref on, if there are any.
    pub(crate) fn least_input(&self, root: Ref) -> Letter
        requires root { IsRef self.now.arena.now root }
        requires inputs { self.now.inputs ≤ self.now.arena.now.slots }
        requires forced { AreAllForced self.now.inputs self.now.arena.now self.now.lost.items self.now.forced.items }
        ensures { result ≡ least_track self.now.inputs
            (loses (self.now.arena.now.slots - self.now.inputs) self.now.arena.now self.now.lost.items root) }
    {
        // for the prover: of an arena that was asked it is known that letters have 32 slots at most.
        let _ = self.arena.slots();
        let mut input = Letter::new(self.inputs, 0);
        let mut current = root;
        for slot in 0..self.inputs {
            let (lo, hi) = self.arena.split(current, slot);
            let low = self.is_forced(lo);
            input = input.with(slot, !low);
            current = side(low, lo, hi);
        }
        input
    }

    // Whether a lost state is forced from a ref on.
    pub(crate) fn is_forced(&self, root: Ref) -> bool
        ensures { result ≡ forced_at self.now.lost.items self.now.forced.items root }
    {
        match root {
            Ref::Leaf(state) => self.lost.get(state as usize).copied().unwrap_or(true),
            Ref::Place(place) => self.forced.get(place as usize).copied().unwrap_or(false),
        }
    }
}

// These states are lost too.
fn lose_each(lost: &mut Vec<bool>, states: &[u32])
    ensures { HasLost lost.old.items states.now lost.new.items }
{
    for state in states {
        set_lost(lost, *state);
    }
}

fn set_lost(lost: &mut Vec<bool>, state: u32)
    ensures { lost.new.items ≡ slice_set lost.old.items state true }
{
    if (state as usize) < lost.len() {
        lost[state as usize] = true;
    }
}

// At a slot of an input the environment picks the side, at the others the controller does.
fn pick(inputs: u8, slot: u8, lo: bool, hi: bool) -> bool
    ensures { result ≡ picked inputs slot lo hi }
{
    if slot < inputs { lo || hi } else { lo && hi }
}

fn side(low: bool, lo: Ref, hi: Ref) -> Ref
    ensures { result ≡ if low then lo else hi }
{
    if low { lo } else { hi }
}
