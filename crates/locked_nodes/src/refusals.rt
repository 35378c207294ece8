//! Carries of a read.
ghost use Rattle.std.specs.Prelude.{◌≤◌, IfErr};
ghost use Rattle.counts.specs.Count.{Rose};
ghost use Rattle.locked_nodes.specs.Replies.{RepliesRefused};

use node_name::NodeName;
use replies::{Reply, When};
use store_replies::link_fault;
use tao_link::{Link, LinkFailed};

/// A carry, of which a reply says that it failed.
pub fn carry_over<L: Link>(link: &mut L, from: NodeName, to: NodeName) -> Result<(), Reply>
    ensures carries { (L.shown link.old).carries ≤ (L.shown link.new).carries }
    ensures later { (L.shown link.old).faults ≤ (L.shown link.new).faults }
    ensures err { IfErr result (RepliesRefused (Rose (L.shown link.old).faults (L.shown link.new).faults) ⊥) }
{
    match link.carry(from, to) {
        Ok(()) => Ok(()),
        Err(LinkFailed) => Err(Reply::Refused(link_fault(link.faults(), When::Before))),
    }
}
