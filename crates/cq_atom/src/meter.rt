//! Counted work.

ghost use Rattle.std.specs.Prelude.{◌≡◌, ◌+◌, ℕ, min};

use std::marker::Model;

/// A count of work that only rises, and stays at `u64::MAX`.
#[derive(Drop)]
pub struct Meter {
    count: u64,
}

impl Model for Meter {
    ghost Value = { ℕ };

    ghost view = { λ m. m.count };
}

impl Meter {
    /// A meter that has counted nothing.
    pub fn new() -> Meter
        ensures { result ≡ 0 }
    {
        Meter { count: 0 }
    }

    /// How much was counted.
    pub fn count(&self) -> u64
        ensures { result ≡ self.now }
    {
        self.count
    }

    /// Counts one.
    pub fn tick(&mut self)
        ensures { self.new ≡ min (self.old + 1) u64.MAX }
    {
        self.count = self.count.saturating_add(1);
    }

    /// Counts so many at once.
    pub fn add(&mut self, count: usize)
        ensures { self.new ≡ min (self.old + count) u64.MAX }
    {
        self.count = self.count.saturating_add(count as u64);
    }
}
