//! Messages are delivered to a leader or a follower. Its value under the lock is known by its type alone, so its name is compared, and what its inbox has
//! is known to be of its shard's log alone. A message that isn't for the node can't come, and is passed over.
ghost use Rattle.std.specs.Prelude.{◌≡◌, ◌<◌, IfSome, IsTrue};
ghost use Rattle.cluster_pumps.specs.Hands.{IsCache, IsHandOf, inbox_hand};
ghost use Rattle.cluster_pumps.specs.Pumps.{IsDelivery, IsPosition, PumpsAs};
ghost use Rattle.core_model.specs.Fleet.{serves};
ghost use Rattle.core_model.specs.Messages.{IsRightMessage};
ghost use Rattle.locked_nodes.specs.Cluster.{MayFail};
ghost use Rattle.log_names.specs.Names.{IsOfLog};
ghost use Rattle.maint_msg.specs.Maints.{IsMaint};
ghost use Rattle.shared_inbox.specs.Messages.{IsMaintOf};

use crate::pumping::Pumped;
use core_model::serves_in_turn;
use locked_nodes::LockedNodes;
use locked_nodes::shared_nodes::{SharedFollower, SharedLeader};
use maint_msg::Maint;
use node_name::NodeName;
use shared_inbox::InboxPass;
use shared_stores::Sharing;
use std::sync::Wait;
use tao_keeper::{Keeper, MOST_ENTRIES};
use tao_schema::Schema;
use topology::Config;

/// Whether the message is one that the node may get: of a shard that it serves, and of a position that an entry may have.
fn is_for(config: &Config, node: NodeName, message: &Maint) -> bool
    ensures here { IsTrue result → message.now.shard < config.now.shards }
    ensures serves { IsTrue result → IsTrue (serves config.now node message.now.shard) }
    ensures position { IsTrue result → IsPosition message.now.position }
{
    message.shard() < config.shards
        && serves_in_turn(config, node, message.shard())
        && (1..=MOST_ENTRIES).contains(&message.position())
}

fn deliver_to_leader<J: Sharing>(
    leader: &mut SharedLeader<J>,
    schema: &Schema,
    node: NodeName,
    message: Maint,
) -> Option<u64>
    requires schema { schema.now ≡ J.making.settings.schema }
    requires message { IsRightMessage J.making.settings (IsOfLog J.log) node message }
{
    if leader.name() != node {
        drop(message);
        return None;
    }
    Some(leader.deliver(schema, message))
}

fn deliver_to_follower<J: Sharing>(
    follower: &mut SharedFollower<J>,
    schema: &Schema,
    node: NodeName,
    message: Maint,
) -> Option<u64>
    requires schema { schema.now ≡ J.making.settings.schema }
    requires message { IsRightMessage J.making.settings (IsOfLog J.log) node message }
{
    if follower.name() != node {
        drop(message);
        return None;
    }
    Some(follower.deliver(schema, message))
}

/// The node of that name processes the message, under its lock. Answers how many items it dropped; None where there is no such node.
fn process<K: Keeper, J: Sharing, R: Wait>(
    nodes: &LockedNodes<'_, K, J>,
    rt: &R,
    node: NodeName,
    message: Maint,
) -> Option<u64>
    requires { IsRightMessage J.making.settings (IsOfLog J.log) node message }
{
    if let Some(leader) = nodes.leader(node) {
        return deliver_to_leader(&mut leader.lock(rt), nodes.schema(), node, message);
    }
    if let Some(follower) = nodes.follower(node) {
        return deliver_to_follower(&mut follower.lock(rt), nodes.schema(), node, message);
    }
    drop(message);
    None
}

/// The node processes a message that its inbox had. None where the message isn't for it.
fn deliver<K: Keeper, J: Sharing, R: Wait>(
    nodes: &LockedNodes<'_, K, J>,
    rt: &R,
    node: NodeName,
    message: Maint,
) -> Option<Pumped>
    requires log { IsMaintOf J.log message }
    requires names { IsMaint message }
    requires cache { IsCache node }
    ensures { IfSome result (IsDelivery J.making J.log node) }
{
    if !is_for(nodes.config(), node, &message) {
        drop(message);
        return None;
    }
    let (shard, position) = (message.shard(), message.position());
    let dropped = process(nodes, rt, node, message)?;
    Some(Pumped::Delivered {
        shard,
        position,
        dropped,
    })
}

/// The node processes the first message of its inbox, which its pass takes. `Empty` only where the inbox was found empty.
pub(crate) fn pump_inbox<K: Keeper, J: Sharing, R: Wait>(
    nodes: &LockedNodes<'_, K, J>,
    rt: &R,
    node: NodeName,
    pass: &mut InboxPass<J>,
) -> Pumped
    requires { IsHandOf J.making nodes.now (inbox_hand node pass.old) }
    ensures { PumpsAs (MayFail K.state) J.making J.log (inbox_hand node pass.old) (inbox_hand node pass.new) result }
{
    let Some(inbox) = nodes.inbox(node) else {
        unreachable!();
    };
    for _ in rt.forever() {
        let Some(message) = inbox.take(rt, pass) else {
            return Pumped::Empty;
        };
        if let Some(delivered) = deliver(nodes, rt, node, message) {
            return delivered;
        }
    }
    unreachable!()
}
