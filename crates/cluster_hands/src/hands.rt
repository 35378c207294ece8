//! The hands of a thread: one on each node and store.
ghost use Rattle.std.specs.Prelude.{◌≡◌, ◌<◌, All, IfOk, IfSome, IsSomeAnd, OnOk, length, slice_get};
ghost use Rattle.shared_tiers.specs.cluster_pumps.Hands.{IsHandOf, IsNodeIn};
ghost use Rattle.cluster_hands.specs.Hands.{AreNodesIn, EachHand};

use core_model::{follower_names, leader_names};
use node_name::NodeName;
use shared_stores::Sharing;
use shared_tiers::Cluster;
use shared_tiers::cluster_pumps::Hand;
use std::alloc::Global;
use tao_base::{OutOfMemory, StoreName};
use tao_keeper::Keeper;
use topology::Config;

/// How many regions a configuration has.
pub fn region_count(config: &Config) -> u16
    ensures { result ≡ length config.now.regions }
{
    config.regions.as_slice().len() as u16
}

/// Adds a hand on a node.
fn add_hand<K: Keeper, J: Sharing>(
    cluster: &Cluster<'_, K, J>,
    node: NodeName,
    hands: &mut Vec<Hand<J>>,
) -> Result<(), OutOfMemory>
    requires node { IsNodeIn J.making.settings node }
    requires hands { EachHand (IsHandOf J.making cluster.now) hands.old.items }
    ensures hands { OnOk result (EachHand (IsHandOf J.making cluster.now) hands.new.items) }
{
    let hand = cluster.hand(node)?;
    hands.push(hand)?;
    Ok(())
}

/// Adds a hand on each of these nodes.
fn add_hands<K: Keeper, J: Sharing>(
    cluster: &Cluster<'_, K, J>,
    nodes: &[NodeName],
    hands: &mut Vec<Hand<J>>,
) -> Result<(), OutOfMemory>
    requires nodes { AreNodesIn J.making.settings nodes.now }
    requires hands { EachHand (IsHandOf J.making cluster.now) hands.old.items }
    ensures hands { OnOk result (EachHand (IsHandOf J.making cluster.now) hands.new.items) }
{
    for node in nodes {
        add_hand(cluster, *node, hands)?;
    }
    Ok(())
}

/// Adds a hand on each store of a region.
fn add_stores<K: Keeper, J: Sharing>(
    cluster: &Cluster<'_, K, J>,
    region: u16,
    hands: &mut Vec<Hand<J>>,
) -> Result<(), OutOfMemory>
    requires here { region < length J.making.settings.regions }
    requires hands { EachHand (IsHandOf J.making cluster.now) hands.old.items }
    ensures hands { OnOk result (EachHand (IsHandOf J.making cluster.now) hands.new.items) }
{
    for shard in 0..cluster.config().shards {
        add_hand(cluster, NodeName::Store(StoreName { region, shard }), hands)?;
    }
    Ok(())
}

/// A hand on each leader, each follower and each store. The one error is out of memory.
#[tactic(auto, using(crate::proofs::Configured::leaders_are, crate::proofs::Configured::followers_are))]
pub fn take_hands<K: Keeper, J: Sharing>(
    alloc: Global,
    cluster: &Cluster<'_, K, J>,
) -> Result<Vec<Hand<J>>, OutOfMemory>
    ensures { IfOk result (λ hands. EachHand (IsHandOf J.making cluster.now) hands.items) }
{
    let config = cluster.config();
    let mut hands = Vec::new(alloc);
    add_hands(cluster, leader_names(alloc, config)?.as_slice(), &mut hands)?;
    add_hands(
        cluster,
        follower_names(alloc, config)?.as_slice(),
        &mut hands,
    )?;
    for region in 0..region_count(config) {
        add_stores(cluster, region, &mut hands)?;
    }
    Ok(hands)
}

/// The place of the hand on a node, where there is one.
pub fn hand_place<J: Sharing>(hands: &[Hand<J>], node: NodeName) -> Option<usize>
    ensures { IfSome result (λ place. IsSomeAnd (slice_get hands.now place) (λ hand. hand.node ≡ node)) }
{
    for (place, hand) in hands.iter().enumerate() {
        if hand.node() == node {
            return Some(place);
        }
    }
    None
}
