//! The threads of a load, and the calls of each.
ghost use Rattle.std.specs.Prelude.{◌≡◌, ◌≤◌, ◌<◌, ◌+◌, ◌^◌, ◌∷◌, ◌||◌, [], IfOk, length};
ghost use Rattle.std.specs.Vec.{vec_len};
ghost use Rattle.shared_tiers.specs.cluster_pumps.Hands.{IsHandOf};
ghost use Rattle.shared_tiers.specs.locked_nodes.Cluster.{on_cluster};
ghost use Rattle.shared_tiers.specs.locked_nodes.Passes.{IsPassOf};
ghost use Rattle.tao_busy.specs.Counting.{AreShares, IsShare, MissesFew};
ghost use Rattle.cluster_hands.specs.Hands.{EachHand};
ghost use Rattle.tao_busy.specs.Refusing.{HaveEachSession, RefusesNoneOf};
ghost use Rattle.load_shares.specs.Seen.{EachPass, SeeOn};
ghost use Rattle.load_shares.specs.Turns.{share_of, taken_of};

use crate::draining::drain;
use crate::gate::Gate;
use crate::link::GateLink;
use crate::sessions::open_passes;
use crate::taking::{Worker, take};
use cluster_hands::take_hands;
use load_shares::{Tally, Turn, no_tally, one_call};
use requests::Request;
use session_pass::Pass;
use shared_stores::Sharing;
use shared_tiers::Cluster;
use std::alloc::Global;
use std::sync::Wait;
use std::thread;
use std::thread::Threads;
use tao_base::OutOfMemory;
use tao_keeper::Keeper;

/// What is left of a thread: its passes, which have seen all that it was told, and what came of its calls.
#[derive(Drop)]
pub(crate) struct Share {
    pub passes: Vec<Pass>,
    pub tally: Tally,
}

/// Does what a request asks, where it is a call of the thread.
fn take_in_turn<K: Keeper, J: Sharing, R: Wait, G: Gate>(
    rt: &R,
    cluster: &Cluster<'_, K, J>,
    worker: &mut Worker<'_, G, J>,
    turn: Turn,
    request: &Request,
    number: u64,
) -> Tally
    requires turn { 0 < turn.threads }
    requires passes { EachPass (IsPassOf J.making J.log) worker.old.passes.items }
    requires hands { EachHand (IsHandOf J.making cluster.now) worker.old.hands.items }
    requires sessions { HaveEachSession J.making.settings worker.old.passes.items }
    ensures passes { EachPass (IsPassOf J.making J.log) worker.new.passes.items }
    ensures hands { EachHand (IsHandOf J.making cluster.now) worker.new.hands.items }
    ensures sessions { HaveEachSession J.making.settings worker.new.passes.items }
    ensures on { SeeOn worker.old.passes.items worker.new.passes.items }
    ensures one { result.refused ≤ 1 }
    ensures few { MissesFew K.TELLS (taken_of turn.threads turn.place number request.now) result.refused worker.new.passes.items }
    ensures none { RefusesNoneOf (on_cluster K.TELLS K.state J.making J.log) (request.now ∷ []) result worker.new.passes.items }
{
    if turn.takes(request, number) {
        take(rt, cluster, worker, request, number)
    } else {
        no_tally()
    }
}

/// What came of calls, and of more of them.
fn add_tally(tally: Tally, came: Tally) -> Tally
    requires { tally.refused + came.refused < 2 ^ 64 }
    ensures refused { result.refused ≡ tally.refused + came.refused }
    ensures short { result.short ≡ (tally.short || came.short) }
{
    Tally {
        refused: tally.refused + came.refused,
        short: tally.short || came.short,
    }
}

/// Makes the calls of a thread among these requests, in order.
fn run_calls<K: Keeper, J: Sharing, R: Wait, G: Gate>(
    rt: &R,
    cluster: &Cluster<'_, K, J>,
    worker: &mut Worker<'_, G, J>,
    turn: Turn,
    requests: &[Request],
) -> Tally
    requires turn { 0 < turn.threads }
    requires passes { EachPass (IsPassOf J.making J.log) worker.old.passes.items }
    requires hands { EachHand (IsHandOf J.making cluster.now) worker.old.hands.items }
    requires sessions { HaveEachSession J.making.settings worker.old.passes.items }
    ensures passes { EachPass (IsPassOf J.making J.log) worker.new.passes.items }
    ensures few { MissesFew K.TELLS (share_of turn.threads turn.place 0 requests.now) result.refused worker.new.passes.items }
    ensures none { RefusesNoneOf (on_cluster K.TELLS K.state J.making J.log) requests.now result worker.new.passes.items }
{
    let mut tally = no_tally();
    let mut number = 0_u64;
    for request in requests {
        number += one_call(request);
        let came = take_in_turn(rt, cluster, worker, turn, request, number);
        tally = add_tally(tally, came);
    }
    tally
}

/// What a thread begins with.
fn begin<'g, K: Keeper, J: Sharing, R: Wait, G: Gate>(
    rt: &R,
    alloc: Global,
    cluster: &Cluster<'_, K, J>,
    gate: &'g G,
) -> Result<Worker<'g, G, J>, OutOfMemory>
    ensures passes { IfOk result (λ worker. EachPass (IsPassOf J.making J.log) worker.passes.items) }
    ensures hands { IfOk result (λ worker. EachHand (IsHandOf J.making cluster.now) worker.hands.items) }
    ensures sessions { IfOk result (λ worker. HaveEachSession J.making.settings worker.passes.items) }
{
    Ok(Worker {
        passes: open_passes(rt, alloc, cluster)?,
        hands: take_hands(alloc, cluster)?,
        link: GateLink::make(gate),
    })
}

/// Makes the calls of a thread, and then pumps out the nodes that are its.
fn run_share<K: Keeper, J: Sharing, R: Wait, G: Gate>(
    rt: &R,
    alloc: Global,
    cluster: &Cluster<'_, K, J>,
    requests: &[Request],
    turn: Turn,
    gate: &G,
) -> Share
    requires { 0 < turn.threads }
    ensures { IsShare (on_cluster K.TELLS K.state J.making J.log) turn.threads turn.place requests.now result }
{
    match begin(rt, alloc, cluster, gate) {
        Ok(mut worker) => {
            let tally = run_calls(rt, cluster, &mut worker, turn, requests);
            let Worker { passes, .. } = worker;
            drain(rt, alloc, cluster, turn);
            Share { passes, tally }
        }
        Err(OutOfMemory) => Share {
            passes: Vec::new(alloc),
            tally: Tally {
                refused: 0,
                short: true,
            },
        },
    }
}

/// Makes the calls of the thread at a place among so many.
fn run_place<K: Keeper, J: Sharing, R: Wait, G: Gate>(
    rt: &R,
    alloc: Global,
    cluster: &Cluster<'_, K, J>,
    requests: &[Request],
    threads: u32,
    place: usize,
    gate: &G,
) -> Share
    requires { 0 < threads }
    ensures { IsShare (on_cluster K.TELLS K.state J.making J.log) threads place requests.now result }
{
    let turn = Turn {
        threads: u64::from(threads),
        place: place as u64,
    };
    run_share(rt, alloc, cluster, requests, turn, gate)
}

/// Makes the calls of a workload's requests on so many threads.
pub(crate) fn run_shares<
    K: Keeper + Send,
    J: Sharing + Send + Sync,
    R: Threads + Wait + Sync,
    G: Gate + Sync,
>(
    rt: &R,
    alloc: Global,
    cluster: &Cluster<'_, K, J>,
    requests: &[Request],
    threads: u32,
    gate: &G,
) -> Result<Vec<Share>, OutOfMemory>
    requires { 0 < threads }
    ensures { IfOk result (λ shares. AreShares (on_cluster K.TELLS K.state J.making J.log) threads requests.now shares.items) }
{
    let shares = thread::map_indices(
        rt,
        alloc,
        threads as usize,
        &|place: usize| -> Share
            requires { 0 < threads }
            ensures { IsShare (on_cluster K.TELLS K.state J.making J.log) threads place requests.entry.now result }
        { run_place(rt, alloc, cluster, requests, threads, place, gate) },
    )?;
    Ok(shares)
}
