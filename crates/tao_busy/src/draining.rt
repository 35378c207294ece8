//! What waits for the nodes once a thread has made its calls.
ghost use Rattle.std.specs.Prelude.{◌<◌};

use cluster_hands::{pump_at, take_hands};
use load_shares::Turn;
use shared_stores::Sharing;
use shared_tiers::Cluster;
use std::alloc::Global;
use std::sync::Wait;
use tao_keeper::Keeper;

/// Pumps out each node and store that is the thread's: those whose places leave its place when they are divided by the number of threads. What they then lack
/// of the logs they catch up with once the cluster is closed, which one thread does for all. Where there is no memory for hands nothing is pumped.
pub(crate) fn drain<K: Keeper, J: Sharing, R: Wait>(
    rt: &R,
    alloc: Global,
    cluster: &Cluster<'_, K, J>,
    turn: Turn,
)
    requires { 0 < turn.threads }
{
    let Ok(mut hands) = take_hands(alloc, cluster) else {
        return;
    };
    for place in 0..hands.len() {
        if place as u64 % turn.threads == turn.place {
            let _ = pump_at(rt, cluster, hands.as_mut_slice(), place, u64::MAX);
        }
    }
}
