// The generator of numbers.
ghost use Rattle.std.specs.Prelude.{◌≡◌, ◌<◌, ◌≤◌, ◌^◌};
ghost use Rattle.dcv_sweep.specs.Draw.{next_draw, drawn};

use std::marker::Model;

/// A linear congruential generator (D. H. Lehmer, 1951) of the states below 2^31, with the multiplier and the increment of the C
/// standard's example of `rand`.
#[derive(Drop)]
pub struct Draw {
    // the state of the generator
    state: u32,
}

impl Model for Draw {
    ghost use Rattle.std.specs.Prelude.{ℕ, ◌<◌, ◌^◌};

    ghost Value = { ℕ };

    ghost view = { λ d. d.state };

    ghost invariant = { λ d. d.state < 2 ^ 31 };
}

impl Draw {
    /// A generator that has drawn nothing yet.
    pub fn new(seed: u32) -> Draw
        requires { seed < 2 ^ 31 }
        ensures { result ≡ seed }
    {
        Draw { state: seed }
    }

    /// The next number, below `n`.
    pub fn draw(&mut self, n: u32) -> u32
        requires { 1 ≤ n }
        ensures number { result ≡ drawn n (next_draw self.old) }
        ensures below { result < n }
        ensures state { self.new ≡ next_draw self.old }
    {
        let next = (1_103_515_245 * u64::from(self.state) + 12_345) % 2_147_483_648;
        self.state = next as u32;
        self.state / 65_536 % n
    }
}
