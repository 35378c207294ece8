//! `SteadyLink`, which never fails.
ghost use Rattle.std.specs.Prelude.{◌≡◌, IsNone, IsOk};
ghost use Rattle.counts.specs.Count.{Counted};

use crate::link::{Carry, Link, LinkFailed};
use counts::Count;
use node_name::NodeName;
use std::marker::Model;
use tao_base::OutOfMemory;

/// A link that always carries, whatever it was asked to cut. Contracts see it as the count of its carries.
///
/// Each call takes constant time and no memory.
#[derive(Drop)]
pub struct SteadyLink {
    carries: Count,
}

impl Model for SteadyLink {
    ghost use Rattle.std.specs.Prelude.{ℕ};

    ghost Value = { ℕ };

    ghost view = { λ link. link.carries };
}

impl SteadyLink {
    /// A link that carried nothing yet.
    pub fn make() -> SteadyLink
        ensures { result ≡ 0 }
    {
        SteadyLink {
            carries: Count::new(),
        }
    }
}

impl Link for SteadyLink {
    ghost use Rattle.std.specs.Prelude.{None};

    ghost shown = { λ carries. record { cuts = None; carries = carries; faults = 0; failed = None } };

    /// Never fails.
    fn carry(&mut self, _from: NodeName, _to: NodeName) -> Result<(), LinkFailed>
        ensures steady { IsOk result }
        ensures counted { Counted self.old self.new }
    {
        self.carries.rise();
        Ok(())
    }

    /// Cuts nothing, and never fails.
    fn switch(&mut self, _from: NodeName, _to: NodeName, _whole: bool) -> Result<(), OutOfMemory>
        ensures steady { IsOk result }
        ensures same { self.new ≡ self.old }
    {
        Ok(())
    }

    fn carries(&self) -> u64 {
        self.carries.value()
    }

    /// Always 0.
    fn faults(&self) -> u64
        ensures { result ≡ 0 }
    {
        0
    }

    /// Always None.
    fn failed(&self) -> Option<Carry>
        ensures { IsNone result }
    {
        None
    }
}
