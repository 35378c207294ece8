//! What it means that a count of faults rose, for all that can fail: sources, sinks, links and keepers. And calls that
//! fail where a plan says so, for those of them that stand in memory.
//!
//! What it promises. What it means that a count rose, for all that can fail; a count never falls and stands still
//! at its last value; of calls that a plan numbers exactly those fail.
//!
//! The contracts that say so: `Count::rise`; `Rose`, `HasCause`; `PlannedCalls`.
#![tactic(auto)]

ghost use Rattle.std.specs.Prelude.{◌≡◌, ◌≤◌};
ghost use Rattle.counts.specs.Count.{Counted};

mod planned;

pub use planned::PlannedCalls;
use std::marker::Model;

/// A count of calls or of faults. At its last value, 2^64 - 1, it stands still.
#[derive(Clone, Copy, Default, PartialEq, Eq)]
pub struct Count {
    value: u64,
}

impl Model for Count {
    ghost use Rattle.std.specs.Prelude.{ℕ};

    ghost Value = { ℕ };

    ghost view = { λ c. c.value };

    ghost inverse = { λ n. record { value = n } };
}

impl Count {
    /// Nothing was counted yet.
    pub fn new() -> Count
        ensures { result ≡ 0 }
    {
        Count { value: 0 }
    }

    /// Counts one more.
    pub fn rise(&mut self)
        ensures counted { Counted self.old self.new }
        ensures later { self.old ≤ self.new }
    {
        self.value = self.value.saturating_add(1);
    }

    /// How many were counted.
    pub fn value(&self) -> u64
        ensures { result ≡ self.now }
    {
        self.value
    }
}
