//! The faults of a source or sink in memory: at which calls it fails, and how many it counted.
ghost use Rattle.std.specs.Prelude.{◌≡◌, ◌≤◌, ◌↔◌, IsTrue};
ghost use Rattle.counts.specs.Planned.{FailsNext, after_next};
ghost use Rattle.tao_io.specs.Plan.{new_plan, CountsFault};

use counts::{Count, PlannedCalls};
use std::marker::Model;

/// Which calls of an object in memory fail, by their numbers from 1 on, and what it counted so far.
#[derive(Drop)]
pub(crate) struct FaultPlan {
    calls: PlannedCalls,
    faults: Count,
}

impl Model for FaultPlan {
    ghost use Rattle.tao_io.specs.Plan.{Plan};

    ghost Value = { Plan };

    ghost view = { λ p. record { calls = p.calls; faults = p.faults } };
}

impl FaultPlan {
    pub(crate) fn of(fails: Vec<u64>) -> FaultPlan
        ensures { result ≡ new_plan fails.items }
    {
        FaultPlan {
            calls: PlannedCalls::of(fails),
            faults: Count::new(),
        }
    }

    /// Counts a call. Says whether it is one of those that fail.
    pub(crate) fn count_call(&mut self) -> bool
        ensures listed { IsTrue result ↔ FailsNext self.old.calls }
        ensures counted { self.new ≡ record self.old { calls = after_next self.old.calls } }
    {
        self.calls.next_fails()
    }

    /// Counts a fault.
    pub(crate) fn count_fault(&mut self)
        ensures counted { CountsFault self.old self.new }
        ensures later { self.old.faults ≤ self.new.faults }
    {
        self.faults.rise();
    }
}
