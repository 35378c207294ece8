//! What waits for the nodes of a cluster, taken by hands.
ghost use Rattle.std.specs.Prelude.{◌≡◌, ◌≤◌, ◌<◌};
ghost use Rattle.shared_tiers.specs.cluster_pumps.Hands.{IsHandOf};
ghost use Rattle.shared_tiers.specs.locked_nodes.Cluster.{MayFail};
ghost use Rattle.cluster_hands.specs.Hands.{EachHand};
ghost use Rattle.cluster_hands.specs.Pumping.{TakesNoMore};

use shared_stores::Sharing;
use shared_tiers::Cluster;
use shared_tiers::cluster_pumps::{Hand, Pumped};
use std::sync::Wait;
use tao_keeper::Keeper;

/// Pumps the node or store of a hand until nothing waits for it, it fails, or it took so many, and answers how many it took.
pub fn pump_out<K: Keeper, J: Sharing, R: Wait>(
    rt: &R,
    cluster: &Cluster<'_, K, J>,
    hand: &mut Hand<J>,
    most: u64,
) -> u64
    requires { IsHandOf J.making cluster.now hand.old }
    ensures of { IsHandOf J.making cluster.now hand.new }
    ensures few { result ≤ most }
    ensures all { result < most → TakesNoMore (MayFail K.state) J.making J.log hand.old hand.new }
    ensures same { result ≡ most → hand.new ≡ hand.old }
{
    for taken in 0..most {
        match cluster.pump(rt, hand) {
            Pumped::Delivered { .. } => {}
            Pumped::Empty | Pumped::Failed(_) => return taken,
        }
    }
    most
}

/// Pumps out the node or store of the hand at a place, as `pump_out` does. Where there is no such hand it took none.
pub fn pump_at<K: Keeper, J: Sharing, R: Wait>(
    rt: &R,
    cluster: &Cluster<'_, K, J>,
    hands: &mut [Hand<J>],
    place: usize,
    most: u64,
) -> u64
    requires { EachHand (IsHandOf J.making cluster.now) hands.old }
    ensures of { EachHand (IsHandOf J.making cluster.now) hands.new }
    ensures few { result ≤ most }
{
    if place < hands.len() {
        pump_out(rt, cluster, &mut hands[place], most)
    } else {
        0
    }
}

/// Pumps out the node or store of each hand in their order, of each so many at most, and answers whether one took any.
pub fn pump_round<K: Keeper, J: Sharing, R: Wait>(
    rt: &R,
    cluster: &Cluster<'_, K, J>,
    hands: &mut [Hand<J>],
    most: u64,
) -> bool
    requires { EachHand (IsHandOf J.making cluster.now) hands.old }
    ensures { EachHand (IsHandOf J.making cluster.now) hands.new }
{
    let mut any = false;
    for place in 0..hands.len() {
        let taken = pump_at(rt, cluster, hands, place, most);
        any = any || taken > 0;
    }
    any
}
