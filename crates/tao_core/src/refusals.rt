//! The replies where a keeper gives no answer, or no node can be chosen.
ghost use Rattle.std.specs.Prelude.{◌≡◌};
ghost use Rattle.tao_core.specs.StoreReplies.{failed_as};

use node_name::NodeName;
use replies::{NodeRefused, Refusal, Reply, StoreRefused};
use store_replies::out_of_memory;
use tao_base::StoreName;
use tao_keeper::KeepFail;

/// A keeper's failure, where the keepers have counted so many faults.
pub(crate) fn failed_as(fail: KeepFail, faults: u64) -> Reply
    ensures { result ≡ failed_as faults fail }
{
    match fail {
        KeepFail::Failed => {
            Reply::Refused(Refusal::Store(StoreRefused::KeeperFault { count: faults }))
        }
        KeepFail::OutOfMemory => out_of_memory(),
    }
}

/// No follower of the region can be chosen.
pub(crate) fn no_server(region: u16) -> Reply
    ensures { result ≡ Reply.Refused (Refusal.Node (NodeRefused.NoServer region)) }
{
    Reply::Refused(Refusal::Node(NodeRefused::NoServer { region }))
}

/// No message waits at the place.
pub(crate) fn no_message(message: u32) -> Reply
    ensures { result ≡ Reply.Refused (Refusal.Node (NodeRefused.NoMessage message)) }
{
    Reply::Refused(Refusal::Node(NodeRefused::NoMessage { message }))
}

/// No refill waits at the follower.
pub(crate) fn no_refill(node: NodeName) -> Reply
    ensures { result ≡ Reply.Refused (Refusal.Node (NodeRefused.NoRefill node)) }
{
    Reply::Refused(Refusal::Node(NodeRefused::NoRefill { node }))
}

/// The store is its shard's master's, which no stream goes into.
pub(crate) fn is_master(store: StoreName) -> Reply
    ensures { result ≡ Reply.Refused (Refusal.Node (NodeRefused.IsMaster store)) }
{
    Reply::Refused(Refusal::Node(NodeRefused::IsMaster { store }))
}
