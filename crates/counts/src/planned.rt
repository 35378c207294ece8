//! Calls that fail where a plan says so.
ghost use Rattle.std.specs.Prelude.{◌≡◌, ◌↔◌, IsTrue};
ghost use Rattle.counts.specs.Planned.{FailsNext, NoneBetween, after_next, from_one};

use crate::Count;
use std::marker::Model;

/// Calls that are counted from 1 on, with the numbers of those that fail.
#[derive(Drop)]
pub struct PlannedCalls {
    fails: Vec<u64>,
    count: Count,
    /// None of the calls to come fails before that of this number.
    first: u64,
}

impl Model for PlannedCalls {
    ghost use Rattle.counts.specs.Count.{after_one};
    ghost use Rattle.counts.specs.Planned.{NoneBetween, Planned};

    ghost Value = { Planned };

    ghost view = { λ calls. record { fails = calls.fails.items; count = calls.count } };

    ghost invariant = { λ calls. NoneBetween (after_one calls.count) calls.first calls.fails.items };
}

impl PlannedCalls {
    /// No call yet. Those whose numbers are listed will fail. Looks through the list.
    pub fn of(fails: Vec<u64>) -> PlannedCalls
        ensures { result ≡ from_one fails.items }
    {
        let first = least_from(&fails, 1);
        PlannedCalls {
            fails,
            count: Count::new(),
            first,
        }
    }

    /// Counts one more call, and says whether it fails. A call that fails looks through the list of numbers, no other does.
    pub fn next_fails(&mut self) -> bool
        ensures fails { IsTrue result ↔ FailsNext self.old }
        ensures counted { self.new ≡ after_next self.old }
    {
        self.count.rise();
        let number = self.count.value();
        if number < self.first {
            return false;
        }
        self.first = least_from(&self.fails, number.saturating_add(1));
        self.fails.contains(&number)
    }

    /// How many calls there were.
    pub fn count(&self) -> u64
        ensures { result ≡ self.now.count }
    {
        self.count.value()
    }
}

/// The least of the numbers from that one on, or 2^64 - 1 where there is none.
fn least_from(numbers: &[u64], from: u64) -> u64
    ensures { NoneBetween from result numbers.now }
{
    let mut least = u64::MAX;
    for number in numbers {
        if *number >= from {
            least = least.min(*number);
        }
    }
    least
}
