ghost use Rattle.std.specs.Prelude.{◌≡◌, ◌<◌};
ghost use Rattle.demo_definitions.specs.Draws.{next_seed, drawn_of};

use std::marker::Model;

/// Numbers that are drawn one after another from a seed (a linear congruential generator with Knuth's constants for MMIX).
#[derive(Drop)]
pub(crate) struct Draws {
    seed: u64,
}

impl Model for Draws {
    ghost use Rattle.std.specs.Prelude.{ℕ};

    ghost Value = { ℕ };

    ghost view = { λ d. d.seed };
}

impl Draws {
    pub(crate) fn new(seed: u64) -> Draws
        ensures { result ≡ seed }
    {
        Draws { seed }
    }

    /// Draws one of so many numbers, counted from 0.
    pub(crate) fn draw(&mut self, count: usize) -> usize
        requires { 0 < count }
        ensures drawn { result ≡ drawn_of count self.old }
        ensures below { result < count }
        ensures seed { self.new ≡ next_seed self.old }
    {
        self.seed = self
            .seed
            .wrapping_mul(6364136223846793005)
            .wrapping_add(1442695040888963407);
        (self.seed >> 33) as usize % count
    }
}
