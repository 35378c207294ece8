//! How messages and entries reach the nodes of a cluster.
ghost use Rattle.std.specs.Prelude.{◌≡◌, IfOk};
ghost use Rattle.cluster_pumps.specs.Hands.{IsHandOf, IsNodeIn};
ghost use Rattle.cluster_pumps.specs.Pumps.{PumpsAs};
ghost use Rattle.cluster_closing.specs.locked_nodes.Cluster.{MayFail};

use crate::cluster::Cluster;
use cluster_pumps::{Hand, Pumped};
use node_name::NodeName;
use shared_stores::Sharing;
use std::sync::Wait;
use tao_base::OutOfMemory;
use tao_keeper::Keeper;

impl<'c, K: Keeper, J: Sharing> Cluster<'c, K, J> {
    /// A hand on a configured node, which found nothing to take so far: for a leader or a follower by a pass of its inbox. The one error is out of memory.
    pub fn hand(&self, node: NodeName) -> Result<Hand<J>, OutOfMemory>
        requires { IsNodeIn J.making.settings node }
        ensures of { IfOk result (IsHandOf J.making self.now) }
        ensures node { IfOk result (λ hand. hand.node ≡ node) }
        ensures empties { IfOk result (λ hand. hand.empties ≡ 0) }
    {
        cluster_pumps::hand_on(&self.nodes, node)
    }

    /// Delivers the first message that waits for the hand's node, or of a slave's store the next entry of its master's log, as `cluster_pumps::pump` does.
    pub fn pump<R: Wait>(&self, rt: &R, hand: &mut Hand<J>) -> Pumped
        requires { IsHandOf J.making self.now hand.old }
        ensures of { IsHandOf J.making self.now hand.new }
        ensures pumps { PumpsAs (MayFail K.state) J.making J.log hand.old hand.new result }
    {
        cluster_pumps::pump(&self.nodes, rt, hand)
    }
}
