//! `PlannedLink`, which fails where it is told to.
ghost use Rattle.std.specs.Prelude.{◌≡◌, IsOk};
ghost use Rattle.counts.specs.Planned.{FailsNext, after_next};
ghost use Rattle.tao_link.specs.Cuts.{between};
ghost use Rattle.tao_link.specs.Planned.{plan_of, planned_shown};
ghost use Rattle.tao_link.specs.Shown.{CarriesUnless};

use crate::link::{Carry, Link, LinkFailed};
use counts::{Count, PlannedCalls};
use node_name::NodeName;
use std::marker::Model;
use tao_base::OutOfMemory;

/// A link that fails exactly at the carries whose numbers are listed, whatever it was asked to cut. The first
/// carry has the number 1.
///
/// A carry that fails looks through the list of numbers. Every other call takes constant time, and none takes memory.
#[derive(Drop)]
pub struct PlannedLink {
    carries: PlannedCalls,
    faults: Count,
    failed: Option<Carry>,
}

impl Model for PlannedLink {
    ghost use Rattle.tao_link.specs.Planned.{LinkPlan};

    ghost Value = { LinkPlan };

    ghost view = { λ link. record { carries = link.carries; faults = link.faults; failed = link.failed } };
}

impl PlannedLink {
    /// A link that carried nothing yet. The carries whose numbers are listed will fail, and no others.
    pub fn make(fails: Vec<u64>) -> PlannedLink
        ensures { result ≡ plan_of fails.items }
    {
        PlannedLink {
            carries: PlannedCalls::of(fails),
            faults: Count::new(),
            failed: None,
        }
    }
}

impl Link for PlannedLink {
    ghost shown = { planned_shown };

    /// Fails exactly where its number among the carries is listed.
    fn carry(&mut self, from: NodeName, to: NodeName) -> Result<(), LinkFailed>
        ensures carried { CarriesUnless (FailsNext self.old.carries) (between from to) (planned_shown self.old) (planned_shown self.new) result }
        ensures plan { self.new.carries ≡ after_next self.old.carries }
    {
        if self.carries.next_fails() {
            self.faults.rise();
            self.failed = Some(Carry { from, to });
            return Err(LinkFailed);
        }
        Ok(())
    }

    /// Cuts nothing, and never fails.
    fn switch(&mut self, _from: NodeName, _to: NodeName, _whole: bool) -> Result<(), OutOfMemory>
        ensures done { IsOk result }
        ensures same { self.new ≡ self.old }
    {
        Ok(())
    }

    fn carries(&self) -> u64 {
        self.carries.count()
    }

    fn faults(&self) -> u64 {
        self.faults.value()
    }

    fn failed(&self) -> Option<Carry> {
        self.failed
    }
}
