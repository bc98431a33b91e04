// The least outputs that lead into a set of states, for each place of an arena: one pass over the nodes, whose children come before them.
// A number stands for the values of the last slots, the last the lowest digit.
ghost use Rattle.std.specs.Prelude.{◌≡◌, ◌-◌, ◌+◌, ◌^◌, ◌≤◌, ◌<◌, ℕ, length, IfOk, IfSome};
ghost use Rattle.dcv_arena.specs.Arena.{IsArena, IsRef};
ghost use Rattle.dcv_arena.specs.declared.nodes.Ref.TheVariants.{Leaf as AnyLeaf, Place as AnyPlace};
ghost use Rattle.dcv_synth.specs.Answered.{IsAnswer, AreAnswers, AreAllAnswers, first_of, answer_at};

use dcv_arena::{Arena, Ref};
use std::alloc::{AllocError, Global};

// The least values of the slots from a ref on, and the state to which they lead.
#[derive(Clone, Copy)]
pub(crate) struct Answer {
    // the outputs as a number
    pub(crate) output: u32,
    // the state that comes next
    pub(crate) next: u32,
}

// The answers of an arena's nodes.
#[derive(Drop)]
pub(crate) struct Answers<'a> {
    // the arena of the rows
    pub(crate) arena: &'a Arena,
    // For each state whether it is in the set.
    win: &'a [bool],
    // For each place, in order.
    answers: Vec<Option<Answer>>,
}

impl<'a> Answers<'a> {
    pub(crate) fn new(
        alloc: Global,
        arena: &'a Arena,
        win: &'a [bool],
    ) -> Result<Answers<'a>, AllocError>
        ensures arena { IfOk result (λ all. all.arena.now ≡ arena.now) }
        ensures win { IfOk result (λ all. all.win.now ≡ win.now) }
        ensures answers { IfOk result (λ all. AreAllAnswers arena.now win.now all.answers.items) }
    {
        let mut all = Answers {
            arena,
            win,
            answers: Vec::new(alloc),
        };
        for place in 0..arena.len() {
            let answer = all.of_node(place);
            all.answers.push(answer)?;
        }
        Ok(all)
    }
}

impl Answers<'_> {
    // The answer of a node, where those of the nodes before it are known.
    fn of_node(&self, place: u32) -> Option<Answer>
        requires place { place < length self.now.arena.now.nodes }
        requires before { length self.now.answers.items ≡ place }
        requires answers { AreAnswers self.now.arena.now self.now.win.now self.now.answers.items }
        ensures { IsAnswer self.now.arena.now self.now.win.now (AnyPlace place) result }
    {
        let root = Ref::Place(place);
        let slot = self.arena.level(root);
        let (lo, hi) = self.arena.split(root, slot);
        let weight = weight_of(self.arena.slots(), slot);
        first_of_two(self.of(lo), self.of(hi), weight)
    }

    // The answer of a ref.
    pub(crate) fn of(&self, root: Ref) -> Option<Answer>
        ensures { result ≡ answer_at self.now.win.now self.now.answers.items root }
    {
        match root {
            Ref::Leaf(state) => self.of_leaf(state),
            Ref::Place(place) => self.answers.get(place as usize).copied().unwrap_or(None),
        }
    }

    fn of_leaf(&self, state: u32) -> Option<Answer>
        ensures { result ≡ answer_at self.now.win.now self.now.answers.items (AnyLeaf state) }
    {
        if self.win.get(state as usize).copied().unwrap_or(false) {
            Some(Answer {
                output: 0,
                next: state,
            })
        } else {
            None
        }
    }
}

// The answer where a slot is false, or else the one where it is true.
fn first_of_two(lo: Option<Answer>, hi: Option<Answer>, weight: u32) -> Option<Answer>
    requires { IfSome hi (λ answer. answer.output + weight < 2 ^ 32) }
    ensures { result ≡ first_of lo hi weight }
{
    if lo.is_some() {
        return lo;
    }
    let hi = hi?;
    Some(Answer {
        output: hi.output + weight,
        next: hi.next,
    })
}

// What the value of a slot counts in a number.
fn weight_of(slots: u8, slot: u8) -> u32
    requires few { slots ≤ 32 }
    requires slot { slot < slots }
    ensures { result ≡ 2 ^ (slots - 1 - slot) }
{
    1u32 << (slots - 1 - slot)
}
