//! The calls of a thread.
ghost use Rattle.std.specs.Prelude.{◌≡◌, ◌≤◌, ◌<◌, ◌+◌, ◌∷◌, [], length};
ghost use Rattle.shared_tiers.specs.cluster_pumps.Hands.{IsHandOf};
ghost use Rattle.shared_tiers.specs.locked_nodes.Cluster.{on_cluster};
ghost use Rattle.shared_tiers.specs.locked_nodes.Passes.{IsPassOf, PassGoesOn};
ghost use Rattle.cluster_hands.specs.Hands.{EachHand};
ghost use Rattle.load_shares.specs.Seen.{EachPass, SeeOn};
ghost use Rattle.tao_busy.specs.Counting.{MissesFew, MissesNone};
ghost use Rattle.tao_busy.specs.Refusing.{HaveEachSession, IsCallOf, RefusesNoneOf, RefusesNot, RefusesNotOf};

use crate::gate::Gate;
use crate::link::GateLink;
use cluster_hands::hand_place;
use load_shares::{Tally, no_tally, one_refusal, reading_of, tally_of};
use node_name::NodeName;
use requests::{CacheRequest, Request, StoreRequest};
use session_pass::Pass;
use shared_stores::Sharing;
use shared_tiers::Cluster;
use shared_tiers::cluster_pumps::Hand;
use std::sync::Wait;
use tao_base::StoreName;
use tao_keeper::Keeper;
use topology::Config;

/// What a thread has of its own: a pass for each session, a hand on each node and store, and a link.
#[derive(Drop)]
pub(crate) struct Worker<'g, G: Gate, J: Sharing> {
    pub passes: Vec<Pass>,
    pub hands: Vec<Hand<J>>,
    pub link: GateLink<'g, G>,
}

/// Makes a call by the pass of its session.
fn ask_by<K: Keeper, J: Sharing, R: Wait, G: Gate>(
    rt: &R,
    cluster: &Cluster<'_, K, J>,
    pass: &mut Pass,
    link: &mut GateLink<'_, G>,
    request: &Request,
    number: u64,
) -> Tally
    requires pass { IsPassOf J.making J.log pass.old }
    ensures pass { IsPassOf J.making J.log pass.new }
    ensures on { PassGoesOn pass.old pass.new }
    ensures one { result.refused ≤ 1 }
    ensures few { MissesNone K.TELLS request.now result.refused pass.new.notes }
    ensures none { RefusesNot (on_cluster K.TELLS K.state J.making J.log) pass.old.session request.now result pass.new.notes }
{
    link.begin(reading_of(request, number));
    let said = cluster.call(rt, pass, link, request);
    let came = tally_of(request, &said);
    link.tell_reply(&said, number);
    drop(said);
    came
}

/// Makes a call by the pass at a place.
fn ask_at<K: Keeper, J: Sharing, R: Wait, G: Gate>(
    rt: &R,
    cluster: &Cluster<'_, K, J>,
    passes: &mut [Pass],
    place: usize,
    link: &mut GateLink<'_, G>,
    request: &Request,
    number: u64,
) -> Tally
    requires inside { place < length passes.old }
    requires passes { EachPass (IsPassOf J.making J.log) passes.old }
    requires sessions { HaveEachSession J.making.settings passes.old }
    ensures passes { EachPass (IsPassOf J.making J.log) passes.new }
    ensures sessions { HaveEachSession J.making.settings passes.new }
    ensures on { SeeOn passes.old passes.new }
    ensures one { result.refused ≤ 1 }
    ensures few { MissesFew K.TELLS (request.now ∷ []) result.refused passes.new }
    ensures none { RefusesNotOf (on_cluster K.TELLS K.state J.making J.log) (place + 1) request.now result passes.new }
{
    ask_by(rt, cluster, &mut passes[place], link, request, number)
}

/// Makes a call of a session. One without a pass is refused.
fn ask<K: Keeper, J: Sharing, R: Wait, G: Gate>(
    rt: &R,
    cluster: &Cluster<'_, K, J>,
    worker: &mut Worker<'_, G, J>,
    session: u32,
    request: &Request,
    number: u64,
) -> Tally
    requires passes { EachPass (IsPassOf J.making J.log) worker.old.passes.items }
    requires sessions { HaveEachSession J.making.settings worker.old.passes.items }
    requires session { IsCallOf session request.now }
    ensures passes { EachPass (IsPassOf J.making J.log) worker.new.passes.items }
    ensures sessions { HaveEachSession J.making.settings worker.new.passes.items }
    ensures on { SeeOn worker.old.passes.items worker.new.passes.items }
    ensures one { result.refused ≤ 1 }
    ensures few { MissesFew K.TELLS (request.now ∷ []) result.refused worker.new.passes.items }
    ensures none { RefusesNoneOf (on_cluster K.TELLS K.state J.making J.log) (request.now ∷ []) result worker.new.passes.items }
    ensures hands { worker.new.hands ≡ worker.old.hands }
{
    let place = session.saturating_sub(1) as usize;
    if place < worker.passes.len() {
        ask_at(
            rt,
            cluster,
            worker.passes.as_mut_slice(),
            place,
            &mut worker.link,
            request,
            number,
        )
    } else {
        one_refusal()
    }
}

/// The node or store that a request moves on, where it is the delivery of a message or a step of a stream.
fn pumped_node(config: &Config, request: &Request) -> Option<NodeName> {
    match request {
        Request::Cache(CacheRequest::Deliver(message)) => config.node(message.node.as_str()),
        Request::Store(StoreRequest::Stream { region, shard, .. }) => {
            let region = config.regions.find(region.as_str())?;
            Some(NodeName::Store(StoreName {
                region,
                shard: *shard,
            }))
        }
        _ => None,
    }
}

/// Pumps a node or store by the thread's hand on it.
fn pump_by<K: Keeper, J: Sharing, R: Wait>(
    rt: &R,
    cluster: &Cluster<'_, K, J>,
    hands: &mut [Hand<J>],
    node: NodeName,
)
    requires { EachHand (IsHandOf J.making cluster.now) hands.old }
    ensures { EachHand (IsHandOf J.making cluster.now) hands.new }
{
    if let Some(place) = hand_place(hands, node) {
        drop(cluster.pump(rt, &mut hands[place]));
    }
}

/// Pumps the node or store that a request moves on.
fn pump<K: Keeper, J: Sharing, R: Wait>(
    rt: &R,
    cluster: &Cluster<'_, K, J>,
    hands: &mut [Hand<J>],
    request: &Request,
)
    requires { EachHand (IsHandOf J.making cluster.now) hands.old }
    ensures { EachHand (IsHandOf J.making cluster.now) hands.new }
{
    if let Some(node) = pumped_node(cluster.config(), request) {
        pump_by(rt, cluster, hands, node);
    }
}

/// Does what a request asks: a call by the pass of its session, and a delivery or a step of a stream by a pump, which nobody refuses.
pub(crate) fn take<K: Keeper, J: Sharing, R: Wait, G: Gate>(
    rt: &R,
    cluster: &Cluster<'_, K, J>,
    worker: &mut Worker<'_, G, J>,
    request: &Request,
    number: u64,
) -> Tally
    requires passes { EachPass (IsPassOf J.making J.log) worker.old.passes.items }
    requires hands { EachHand (IsHandOf J.making cluster.now) worker.old.hands.items }
    requires sessions { HaveEachSession J.making.settings worker.old.passes.items }
    ensures passes { EachPass (IsPassOf J.making J.log) worker.new.passes.items }
    ensures hands { EachHand (IsHandOf J.making cluster.now) worker.new.hands.items }
    ensures sessions { HaveEachSession J.making.settings worker.new.passes.items }
    ensures on { SeeOn worker.old.passes.items worker.new.passes.items }
    ensures one { result.refused ≤ 1 }
    ensures few { MissesFew K.TELLS (request.now ∷ []) result.refused worker.new.passes.items }
    ensures none { RefusesNoneOf (on_cluster K.TELLS K.state J.making J.log) (request.now ∷ []) result worker.new.passes.items }
{
    match request {
        Request::Call(call) => ask(rt, cluster, worker, call.session(), request, number),
        _ => {
            pump(rt, cluster, worker.hands.as_mut_slice(), request);
            no_tally()
        }
    }
}
