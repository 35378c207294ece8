//! The link of a thread.
ghost use Rattle.std.specs.Prelude.{◌≡◌};

use crate::gate::Gate;
use counts::Count;
use load_shares::is_hit;
use node_name::NodeName;
use replies::Reply;
use std::marker::Model;
use tao_base::OutOfMemory;
use tao_link::{Carry, Link, LinkFailed};

/// A link that always carries, and tells a gate of the answers to the reads of its thread. Contracts see it as the count of its carries.
#[derive(Drop)]
pub(crate) struct GateLink<'g, G: Gate> {
    gate: &'g G,
    carries: Count,
    /// The number of the read that is under way, if one is.
    reading: Option<u64>,
}

impl<'g, G: Gate> Model for GateLink<'g, G> {
    ghost use Rattle.std.specs.Prelude.{ℕ};

    ghost Value = { ℕ };

    ghost view = { λ link. link.carries };
}

/// Tells the gate of a carry to a node, where it is one to the follower of a read.
fn tell_carry<G: Gate>(gate: &G, reading: Option<u64>, to: NodeName) {
    if let (Some(call), NodeName::Follower { .. }) = (reading, to) {
        gate.store_read(call);
    }
}

impl<'g, G: Gate> GateLink<'g, G> {
    /// A link that carried nothing yet.
    pub(crate) fn make(gate: &'g G) -> GateLink<'g, G>
        ensures { result ≡ 0 }
    {
        GateLink {
            gate,
            carries: Count::new(),
            reading: None,
        }
    }

    /// The read of this number is under way, or none is.
    pub(crate) fn begin(&mut self, reading: Option<u64>)
        ensures { self.new ≡ self.old }
    {
        self.reading = reading;
    }

    /// Tells the gate of the reply to a call of this number, where it is a hit.
    pub(crate) fn tell_reply(&self, said: &Reply, call: u64) {
        if is_hit(said) {
            self.gate.hit(call);
        }
    }
}

impl<'g, G: Gate> Link for GateLink<'g, G> {
    ghost use Rattle.std.specs.Prelude.{None};

    ghost shown = { λ carries. record { cuts = None; carries = carries; faults = 0; failed = None } };

    /// Always carries.
    fn carry(&mut self, _from: NodeName, to: NodeName) -> Result<(), LinkFailed> {
        self.carries.rise();
        tell_carry(self.gate, self.reading, to);
        Ok(())
    }

    /// Cuts nothing.
    fn switch(&mut self, _from: NodeName, _to: NodeName, _whole: bool) -> Result<(), OutOfMemory> {
        Ok(())
    }

    fn carries(&self) -> u64 {
        self.carries.value()
    }

    /// Always 0.
    fn faults(&self) -> u64 {
        0
    }

    /// Always None.
    fn failed(&self) -> Option<Carry> {
        None
    }
}
