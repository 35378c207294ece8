//! `SwitchLink`, which fails where it is cut.
ghost use Rattle.std.specs.Prelude.{◌≡◌, true, false, Contains, IsTrue, IsOk, OnErr, OnOk};
ghost use Rattle.tao_link.specs.Cuts.{Switches, between};
ghost use Rattle.tao_link.specs.Shown.{CarriesUnless};
ghost use Rattle.tao_link.specs.Switch.{switch_shown, uncut};

use crate::link::{Carry, Link, LinkFailed};
use counts::Count;
use node_name::NodeName;
use std::alloc::Global;
use std::marker::Model;
use tao_base::OutOfMemory;

/// A link that fails exactly at the carries that are cut, and tells them. Each direction is cut and mended alone.
///
/// A carry and a switch look through the cuts. Cutting takes memory for one carry, and no other call takes any.
#[derive(Drop)]
pub struct SwitchLink {
    cuts: Vec<Carry>,
    carries: Count,
    faults: Count,
    failed: Option<Carry>,
}

impl Model for SwitchLink {
    ghost use Rattle.tao_link.specs.Switch.{Switched};

    ghost Value = { Switched };

    ghost view = { λ link. record { cuts = link.cuts.items; carries = link.carries; faults = link.faults; failed = link.failed } };
}

impl SwitchLink {
    /// A link of which nothing is cut, and that carried nothing yet. Takes no memory.
    pub fn make(alloc: Global) -> SwitchLink
        ensures { result ≡ uncut }
    {
        SwitchLink {
            cuts: Vec::new(alloc),
            carries: Count::new(),
            faults: Count::new(),
            failed: None,
        }
    }
}

/// Mends one direction.
fn mend(cuts: &mut Vec<Carry>, at: Carry)
    ensures { Switches at true cuts.old.items cuts.new.items }
{
    cuts.retain(|cut| *cut != at);
}

/// Cuts one direction.
fn cut(cuts: &mut Vec<Carry>, at: Carry) -> Result<(), OutOfMemory>
    ensures ok { OnOk result (Switches at false cuts.old.items cuts.new.items) }
    ensures err { OnErr result (cuts.new.items ≡ cuts.old.items) }
{
    if !cuts.contains(&at) {
        cuts.push(at)?;
    }
    Ok(())
}

impl Link for SwitchLink {
    ghost use Rattle.std.specs.Prelude.{◌≡◌};

    ghost shown = { switch_shown };

    /// Fails exactly where it is cut from the one node to the other.
    fn carry(&mut self, from: NodeName, to: NodeName) -> Result<(), LinkFailed>
        ensures { CarriesUnless (Contains self.old.cuts (between from to)) (between from to) (switch_shown self.old) (switch_shown self.new) result }
    {
        self.carries.rise();
        let at = Carry { from, to };
        if self.cuts.contains(&at) {
            self.faults.rise();
            self.failed = Some(at);
            return Err(LinkFailed);
        }
        Ok(())
    }

    /// Cuts or mends one direction, and no other. Mending takes no memory, so it never fails.
    fn switch(&mut self, from: NodeName, to: NodeName, whole: bool) -> Result<(), OutOfMemory>
        ensures rest { self.new ≡ record self.old { cuts = self.new.cuts } }
        ensures ok { OnOk result (Switches (between from to) whole self.old.cuts self.new.cuts) }
        ensures err { OnErr result (self.new ≡ self.old) }
        ensures mended { IsTrue whole → IsOk result }
    {
        let at = Carry { from, to };
        if whole {
            mend(&mut self.cuts, at);
            Ok(())
        } else {
            cut(&mut self.cuts, at)
        }
    }

    fn carries(&self) -> u64 {
        self.carries.value()
    }

    fn faults(&self) -> u64 {
        self.faults.value()
    }

    fn failed(&self) -> Option<Carry> {
        self.failed
    }
}
