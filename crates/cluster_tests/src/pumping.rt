//! A node that is pumped.
ghost use Rattle.std.specs.Prelude.{Contains, IfSome, IsTrue};
ghost use Rattle.shared_tiers.specs.cluster_pumps.Hands.{IsNodeIn};

use cluster_plays::Steady;
use core_model::{follower_names, leader_names};
use node_name::NodeName;
use shared_stores::Sharing;
use shared_tiers::cluster_pumps::Pumped;
use std::alloc::Global;
use std::sync::Wait;
use topology::Config;

/// What came of one pump.
fn said(alloc: Global, pumped: Pumped) -> Option<String> {
    match pumped {
        Pumped::Delivered {
            shard,
            position,
            dropped,
        } => format!(in alloc; "shard {shard} position {position} dropped {dropped}").ok(),
        Pumped::Empty => format!(in alloc; "empty").ok(),
        Pumped::Failed(_) => format!(in alloc; "failed").ok(),
    }
}

/// Whether the name is one of these.
fn is_among(names: &[NodeName], name: NodeName) -> bool
    ensures { IsTrue result → Contains names.now name }
{
    names.contains(&name)
}

/// The node of a text. None where it isn't configured, or for want of memory.
fn node_of(alloc: Global, config: &Config, text: &str) -> Option<NodeName>
    ensures { IfSome result (IsNodeIn config.now) }
{
    let name = config.node(text)?;
    let is_one = match name {
        NodeName::Store(at) => usize::from(at.region) < config.regions.as_slice().len()
            && at.shard < config.shards,
        NodeName::Leader { .. } => is_among(leader_names(alloc, config).ok()?.as_slice(), name),
        NodeName::Follower { .. } => is_among(follower_names(alloc, config).ok()?.as_slice(), name),
    };
    if is_one { Some(name) } else { None }
}

/// What came of three pumps.
fn all_said(alloc: Global, pumped: [Pumped; 3]) -> Option<String> {
    let [first, second, third] = pumped;
    let first = said(alloc, first)?;
    let second = said(alloc, second)?;
    let third = said(alloc, third)?;
    format!(in alloc; "{first}, {second}, {third}").ok()
}

/// Pumps a node three times by one hand, and says what came of each. None for want of memory, or where the node isn't configured.
pub(crate) fn pump<J: Sharing, R: Wait>(
    rt: &R,
    alloc: Global,
    cluster: &Steady<'_, J>,
    node: &str,
) -> Option<String> {
    let name = node_of(alloc, cluster.config(), node)?;
    let Ok(mut hand) = cluster.hand(name) else {
        return None;
    };
    let first = cluster.pump(rt, &mut hand);
    let second = cluster.pump(rt, &mut hand);
    let third = cluster.pump(rt, &mut hand);
    drop(hand);
    all_said(alloc, [first, second, third])
}
