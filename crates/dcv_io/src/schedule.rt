// What a fake in memory does at which call.
ghost use Rattle.std.specs.Prelude.{◌≡◌, ◌<◌, ◌≤◌, All, [], IfOk};
ghost use Rattle.dcv_io.specs.Plan.{fails_next, after_call, moved_by, after_move};

use crate::counts::raise;
use std::alloc::{AllocError, Global};
use std::marker::Model;

// Which calls fail, and how many bytes each call moves at most.
#[derive(Drop)]
pub struct Schedule {
    // how many bytes each of the first calls moves at most, in turn
    sizes: Vec<usize>,
    // whose turn is next
    turn: usize,
    // the numbers of the calls that fail
    fails: Vec<u64>,
    // how many calls there were
    calls: u64,
}

impl Model for Schedule {
    ghost use Rattle.std.specs.Prelude.{◌<◌, ◌≤◌, All, drop, length};
    ghost use Rattle.dcv_io.specs.Plan.{Plan};

    ghost Value = { Plan };

    ghost view = { λ s. record {
      sizes = drop s.turn s.sizes.items;
      fails = s.fails.items;
      calls = s.calls;
    } };

    ghost invariant = { λ s. (s.turn ≤ length s.sizes.items)
        × All (λ size. 0 < size) s.sizes.items };
}

impl Schedule {
    pub fn new(alloc: Global, sizes: &[usize], fails: &[u64]) -> Result<Schedule, AllocError>
        requires { All (λ size. 0 < size) sizes.now }
        ensures { IfOk result (λ plan.
            plan ≡ record { sizes = sizes.now; fails = fails.now; calls = 0 }) }
    {
        Ok(Schedule {
            sizes: Vec::from_slice(alloc, sizes)?,
            turn: 0,
            fails: Vec::from_slice(alloc, fails)?,
            calls: 0,
        })
    }

    // Counts a call, and returns whether it is one of those that fail.
    pub fn begin_call(&mut self) -> bool
        ensures fails { result ≡ fails_next self.old }
        ensures counted { self.new ≡ after_call self.old }
    {
        raise(&mut self.calls);
        self.fails.contains(&self.calls)
    }

    // How many bytes are moved, of so many at hand.
    pub fn share(&self, available: usize) -> usize
        ensures least { result ≡ moved_by self.now.sizes available }
        ensures within { result ≤ available }
        ensures progress { 0 < available → 0 < result }
    {
        match self.sizes.get(self.turn) {
            Some(size) => available.min(*size),
            None => available,
        }
    }

    // Goes on to the next size, if bytes were moved.
    pub fn advance(&mut self, count: usize)
        ensures { self.new ≡ after_move count self.old }
    {
        if count > 0 && self.turn < self.sizes.len() {
            self.turn += 1;
        }
    }
}
