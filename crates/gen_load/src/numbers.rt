//! The numbers, one after the other.

use std::marker::Model;

/// Numbers that follow from a seed: two that began with the same seed draw the same.
#[derive(Debug, Drop)]
pub struct Draws {
    state: u64,
}

impl Model for Draws {
    ghost use Rattle.std.specs.Prelude.{ℕ};

    ghost Value = { ℕ };

    ghost view = { λ d. d.state };
}

impl Draws {
    ghost use Rattle.std.specs.Prelude.{◌≡◌, ◌≤◌, ◌<◌, nat_eq};
    ghost use Rattle.gen_load.specs.Numbers.{next_state, number_below};

    /// The numbers of a seed.
    pub fn new(seed: u64) -> Draws
        ensures { result ≡ seed }
    {
        Draws { state: seed }
    }

    /// The next number, below a bound.
    pub fn below(&mut self, bound: u64) -> u64
        requires { 1 ≤ bound }
        ensures state { self.new ≡ next_state self.old }
        ensures number { result ≡ number_below bound self.new }
        ensures below { result < bound }
    {
        self.state = self
            .state
            .wrapping_mul(6364136223846793005)
            .wrapping_add(1442695040888963407);
        (self.state >> 33) % bound
    }

    /// The next number below 2, as whether it is 0.
    pub fn chance(&mut self) -> bool
        ensures state { self.new ≡ next_state self.old }
        ensures answer { result ≡ nat_eq (number_below 2 self.new) 0 }
    {
        self.below(2) == 0
    }
}
