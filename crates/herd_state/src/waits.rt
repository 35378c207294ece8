//! How often a reader waited.
ghost use Rattle.std.specs.Prelude.{◌≡◌};
ghost use Rattle.counts.specs.Count.{Counted};

use counts::Count;
use std::marker::Model;

/// How often one reader waited for another's read. `HerdState::join` alone raises it. At its last value, 2^64 - 1, it stands still.
#[derive(Drop)]
pub struct Waits {
    count: Count,
}

impl Model for Waits {
    ghost use Rattle.std.specs.Prelude.{ℕ};

    ghost Value = { ℕ };

    ghost view = { λ waits. waits.count };
}

impl Waits {
    /// It didn't wait yet.
    pub fn make() -> Waits
        ensures { result ≡ 0 }
    {
        Waits {
            count: Count::new(),
        }
    }

    /// How often it waited.
    pub fn count(&self) -> u64
        ensures { result ≡ self.now }
    {
        self.count.value()
    }

    /// It waits once more.
    pub(crate) fn rise(&mut self)
        ensures { Counted self.old self.new }
    {
        self.count.rise();
    }
}
