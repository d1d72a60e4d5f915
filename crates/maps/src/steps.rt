ghost use Rattle.std.specs.Prelude.{◌≡◌};

use std::cmp::Ordering;
use std::marker::Model;
use terms::Key;

/// How many comparisons of keys were made. The count stays at the greatest `u64`.
#[derive(Debug, Drop)]
pub struct Steps {
    made: u64,
}

impl Model for Steps {
    ghost use Rattle.std.specs.Prelude.{ℕ};

    ghost Value = { ℕ };

    ghost view = { λ s. s.made };
}

impl Steps {
    ghost use Rattle.std.specs.Prelude.{◌+◌, ◌-◌, ◌^◌, ◌≤◌, min};
    ghost use Rattle.terms.specs.Key.{key_cmp};

    /// No comparison yet.
    pub fn new() -> Self
        ensures { result ≡ 0 }
    {
        Steps { made: 0 }
    }

    /// The comparisons so far.
    pub fn made(&self) -> u64
        ensures { result ≡ self.now }
    {
        self.made
    }

    /// Compares two keys, and counts that.
    pub fn compare(&mut self, one: &Key, two: &Key) -> Ordering
        ensures order { result ≡ key_cmp one.now two.now }
        ensures counts { self.new ≡ min (self.old + 1) (2 ^ 64 - 1) }
        ensures more { self.old ≤ self.new }
    {
        self.made = self.made.saturating_add(1);
        one.cmp(two)
    }
}
