//! Numbers that look random, for tests and workloads: each seed gives the same ones each time. The product stands on
//! none of this.
#![tactic(auto)]

use rand_core::{Rng, SeedableRng};
use rand_xoshiro::SplitMix64;

/// A sequence of numbers that look random.
#[derive(Drop)]
pub struct Draws {
    generator: SplitMix64,
}

impl Draws {
    /// The sequence of this seed.
    pub fn new(seed: u64) -> Draws {
        Draws {
            generator: SplitMix64::seed_from_u64(seed),
        }
    }

    /// One of many sequences of this seed.
    pub fn sequence(seed: u32, sequence: u64) -> Draws {
        let first = Draws::new(u64::from(seed)).draw();
        Draws::new(first ^ sequence)
    }

    /// The next number.
    pub fn draw(&mut self) -> u64 {
        self.generator.next_u64()
    }

    /// The next byte.
    pub fn byte(&mut self) -> u8 {
        let [byte, ..] = self.draw().to_le_bytes();
        byte
    }

    /// The next number, below `count`, which counts as 1 where it is 0.
    pub fn below(&mut self, count: u32) -> u32 {
        let drawn = self.draw() % u64::from(count.max(1));
        u32::try_from(drawn).unwrap_or(0)
    }

    /// Whether what happens once in `count` times happens now; never where it is 0.
    pub fn happens(&mut self, count: u32) -> bool {
        count > 0 && self.below(count) == 0
    }

    /// One of these.
    pub fn pick<T: Copy>(&mut self, choices: &[T]) -> Option<T> {
        let count = u32::try_from(choices.len()).ok()?;
        choices.get(self.below(count) as usize).copied()
    }
}
