//! An observer as a program that is stepped by letters: selections over the numbers of a store, or a walk through tables.
//!
//! Of selections the first slots hold the numbers of their own places, so that a constant is read as a name is. Then come the observer's names, and
//! after them what it keeps beside its names. The store of tables is the number of the state alone.
ghost use Rattle.std.specs.Prelude.{◌≡◌, ◌↔◌, ◌+◌, ◌≤◌, [], ◌∷◌, ◌++◌, length, fold, IsTrue};
ghost use Rattle.std.specs.List.{All};
ghost use Rattle.dcv_word.specs.Behaviour.{Word};
ghost use Rattle.dcv_replay.specs.Observer.{Observer, Accepts, Follows};
ghost use Rattle.dcv_replay.specs.Program.{IsReplay, IsWithin, after_select, with_letter, rest_of, advanced};
ghost use Rattle.dcv_replay.specs.Seen.{seen_steps};

use crate::of_tables::Walk;
use dcv_word::Letter;
use std::marker::Model;

// Puts the number in one of two slots into the slot `target`: that of `when_equal` where the slot `tested` has the number `number`,
// and else that of `otherwise`.
#[derive(Clone, Copy)]
pub(crate) struct Select {
    // the slot that is written
    pub(crate) target: u32,
    // the slot that is compared
    pub(crate) tested: u32,
    // what it is compared with
    pub(crate) number: u32,
    // the slot that is copied if they are equal
    pub(crate) when_equal: u32,
    // the slot that is copied if they are not
    pub(crate) otherwise: u32,
}

// What a step does.
#[derive(Drop)]
pub(crate) enum Steps {
    // The slot of the first input, the selections in order, and the slot that has the answer after them.
    Selects(u32, Vec<Select>, u32),
    // A walk through tables.
    Walks(Walk),
}

/// An observer, and what it keeps of the letters so far.
#[derive(Drop)]
pub struct Replay {
    // how many variables a letter has
    width: u8,
    // what an instant does
    steps: Steps,
    // the numbers of all slots
    store: Vec<u32>,
}

impl Model for Replay {
    ghost use Rattle.dcv_replay.specs.Program.{ReplayValue, IsReplay};
    ghost use Rattle.dcv_replay.specs.Seen.{seen_steps};

    ghost Value = { ReplayValue };

    ghost view = { λ r. record { program = record { width = r.width; steps = seen_steps r.steps }; store = r.store.items } };

    ghost invariant = { λ r. IsReplay record { program = record { width = r.width; steps = seen_steps r.steps }; store = r.store.items } };
}

impl Replay {
    // An observer of these steps.
    pub(crate) fn of(width: u8, steps: Steps, store: Vec<u32>) -> Replay
        requires { IsReplay record { program = record { width = width; steps = seen_steps steps }; store = store.items } }
        ensures { result ≡ record { program = record { width = width; steps = seen_steps steps }; store = store.items } }
    {
        Replay {
            width,
            steps,
            store,
        }
    }

    /// How many variables the observer's letters have, 32 at most.
    pub fn width(&self) -> u8
        ensures width { result ≡ self.now.program.width }
        ensures bound { result ≤ 32 }
    {
        self.width
    }

    /// Goes on by a letter, and returns whether the observer accepts the letters so far and this one. It takes no memory.
    pub fn step(&mut self, letter: &Letter) -> bool
        requires { length letter.now ≡ self.old.program.width }
        ensures after { self.new ≡ advanced self.old (letter.now ∷ []) }
        ensures program { self.new.program ≡ self.old.program }
        ensures answer { result ≡ rest_of self.old (letter.now ∷ []) }

        // Whatever the observer, and the word after which its store is the replay's: so it is after the letter too.
        ensures follows { (observer : Observer) (before : Word) → Follows observer before self.old
            → Follows observer (before ++ letter.now ∷ []) self.new }
        ensures accepts { (observer : Observer) (before : Word) → Follows observer before self.old
            → IsTrue result ↔ Accepts observer (before ++ letter.now ∷ []) }
    {
        self.advance(letter)
    }

    // The same, with what the replay's own program answers.
    fn advance(&mut self, letter: &Letter) -> bool
        requires { length letter.now ≡ self.old.program.width }
        ensures after { self.new ≡ advanced self.old (letter.now ∷ []) }
        ensures program { self.new.program ≡ self.old.program }
        ensures answer { result ≡ rest_of self.old (letter.now ∷ []) }
    {
        match &self.steps {
            Steps::Selects(inputs, selects, answer) => {
                put_letter(&mut self.store, *inputs, letter);
                select_all(&mut self.store, selects);
                self.store[*answer as usize] == 1
            }
            Steps::Walks(walk) => {
                let state = walk.state_after(letter, self.store[0]);
                self.store[0] = state;
                walk.accepts(state)
            }
        }
    }
}

// Puts the values of a letter into the slots from this one on.
fn put_letter(store: &mut [u32], inputs: u32, letter: &Letter)
    requires { inputs + length letter.now ≤ length store.old }
    ensures store { store.new ≡ with_letter inputs letter.now store.old }
    ensures length { length store.new ≡ length store.old }
{
    let mut place = inputs as usize;
    for slot in 0..letter.width() {
        store[place] = if letter.get(slot) { 1 } else { 0 };
        place += 1;
    }
}

// Makes all these selections, in order.
fn select_all(store: &mut [u32], selects: &[Select])
    requires { All (IsWithin (length store.old)) selects.now }
    ensures store { store.new ≡ fold after_select store.old selects.now }
    ensures length { length store.new ≡ length store.old }
{
    for select in selects {
        let from = if store[select.tested as usize] == select.number {
            select.when_equal
        } else {
            select.otherwise
        };
        store[select.target as usize] = store[from as usize];
    }
}
