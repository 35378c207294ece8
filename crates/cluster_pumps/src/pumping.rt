//! `pump`, by which what waits for a node comes to it.
ghost use Rattle.cluster_pumps.specs.Hands.{IsHandOf};
ghost use Rattle.cluster_pumps.specs.Pumps.{PumpsAs};
ghost use Rattle.locked_nodes.specs.Cluster.{MayFail};

use crate::delivering::pump_inbox;
use crate::hands::{Hand, Work};
use crate::streaming::pump_store;
use locked_nodes::LockedNodes;
use shard_tables::StoreRefusal;
use shared_stores::Sharing;
use std::sync::Wait;
use tao_keeper::Keeper;

/// What a pump of a node came to.
#[derive(Clone, Copy, Debug, PartialEq, Eq)]
pub enum Pumped {
    /// A leader or a follower processed the message of the entry at this position of the shard's log, and dropped so many items; or a slave's store took
    /// the entry, which drops nothing.
    Delivered {
        shard: u16,
        position: u64,
        dropped: u64,
    },
    /// No message waited, or the store lacked no entry of its master's log. Always of a master's store.
    Empty,
    /// A slave's store took no entry, for this reason. Neither log has changed.
    Failed(StoreRefusal),
}

/// Has the hand's node take one of what waits for it: a leader or a follower the first message of its inbox, a slave's store the next entry of its master's
/// log, of which the leader and the followers of its region that serve the shard then get messages.
///
/// `Empty` comes always at a master's store, and else only where the hand's count of empties rose. `Failed` comes at a slave's store alone: for a keeper's
/// fault, or where there was no memory. A message that finds no memory is lost. Costs one hold of the node's lock, or of both stores' locks with at most
/// three calls of keepers.
pub fn pump<K: Keeper, J: Sharing, R: Wait>(
    nodes: &LockedNodes<'_, K, J>,
    rt: &R,
    hand: &mut Hand<J>,
) -> Pumped
    requires { IsHandOf J.making nodes.now hand.old }
    ensures of { IsHandOf J.making nodes.now hand.new }
    ensures pumps { PumpsAs (MayFail K.state) J.making J.log hand.old hand.new result }
{
    match &mut hand.work {
        Work::Inbox { node, pass } => pump_inbox(nodes, rt, *node, pass),
        Work::Stream { at, follow } => pump_store(nodes, rt, *at, follow),
    }
}
