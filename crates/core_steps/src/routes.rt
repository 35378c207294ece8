//! The way of a call over links.
ghost use Rattle.std.specs.Prelude.{◌≡◌, IfErr, OnOk};
ghost use Rattle.core_steps.specs.Routes.{FailsCarry};
ghost use Rattle.tao_link.specs.Shown.{after_carry};

use node_name::NodeName;
use tao_link::{Link, LinkFailed};

/// From the follower of a session to a leader, or to the store that is asked in the place of one, and back.
#[derive(Clone, Copy, PartialEq, Eq)]
pub struct Route {
    pub follower: NodeName,
    pub leader: NodeName,
}

/// A tier: the place of its region, and its own in that region.
#[derive(Clone, Copy, PartialEq, Eq)]
pub struct TierPlace {
    pub region: u16,
    pub tier: u16,
}

/// Carries a call, or its answer, from one node to another.
pub(crate) fn carry<L: Link>(link: &mut L, from: NodeName, to: NodeName) -> Result<(), LinkFailed>
    ensures ok { OnOk result (L.shown link.new ≡ after_carry (L.shown link.old)) }
    ensures err { IfErr result (λ _. FailsCarry from to (L.shown link.old) (L.shown link.new)) }
{
    link.carry(from, to)
}
