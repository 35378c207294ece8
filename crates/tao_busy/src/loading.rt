//! The load.
ghost use Rattle.std.specs.Prelude.{◌≡◌, ◌<◌, IfErr, IfOk, length};
ghost use Rattle.core_model.specs.Stores.{store_count};
ghost use Rattle.graph_model.specs.Told.{WhereTold};
ghost use Rattle.keepers.specs.Shown.{told_in};
ghost use Rattle.load_gen.specs.Requests.{requests_of};
ghost use Rattle.shared_tiers.specs.cluster_opening.Opening.{HaveTheirJobs, IsOpenedOver, logs_of, making_of};
ghost use Rattle.shared_tiers.specs.cluster_opening.locked_nodes.core_nodes.Opening.{IsOpened, MayOpen};
ghost use Rattle.shared_tiers.specs.locked_nodes.Cluster.{on_cluster};
ghost use Rattle.tao_busy.specs.Counting.{AreShares};
ghost use Rattle.tao_busy.specs.Ending.{CountsNone, EndsLoad};
ghost use Rattle.tao_busy.specs.Load.{LeavesLoad, RefusesLoad, faults_in, requests_asked};
ghost use Rattle.tao_busy.specs.Refusing.{cuts_in};

use crate::asked::{BusyRefusal, LoadAsked, LoadSummary};
use crate::ending::{Ran, end_load};
use crate::gate::Gate;
use crate::shares::run_shares;
use core_model::masters_are_regions;
use load_shares::list_requests;
use shared_stores::Sharing;
use shared_tiers::Cluster;
use shared_tiers::cluster_opening::{Opened, faults_of};
use std::alloc::Global;
use std::marker::Brand;
use std::sync::Wait;
use std::thread::Threads;
use tao_base::OutOfMemory;
use tao_keeper::Keeper;

/// Makes the calls of a load on its threads.
fn run_cluster<
    M: Keeper + Send,
    J: Sharing + Send + Sync,
    R: Threads + Wait + Sync,
    G: Gate + Sync,
>(
    rt: &R,
    alloc: Global,
    cluster: &Cluster<'_, M, J>,
    asked: &LoadAsked<'_>,
    gate: &G,
) -> Result<Ran, OutOfMemory>
    requires { 0 < asked.now.threads }
    ensures listed { IfOk result (λ ran. ran.requests.items ≡ requests_asked asked.now) }
    ensures many { IfOk result (λ ran. length ran.shares.items ≡ asked.now.threads) }
    ensures shares { IfOk result (λ ran. AreShares (on_cluster M.TELLS M.state J.making J.log) asked.now.threads ran.requests.items ran.shares.items) }
{
    let requests = list_requests(alloc, asked.config, asked.seed, asked.calls)?;
    let shares = run_shares(rt, alloc, cluster, requests.as_slice(), asked.threads, gate)?;
    Ok(Ran { requests, shares })
}

/// The load of stores that were opened, behind locks that are named.
fn load_shared<
    M: Keeper + Drop + Send,
    J: Sharing + Send + Sync,
    R: Threads + Wait + Sync,
    G: Gate + Sync,
>(
    rt: &R,
    alloc: Global,
    asked: &LoadAsked<'_>,
    opened: Opened<'_, M>,
    gate: &G,
    before: u64,
) -> Result<(LoadSummary, Vec<M>), BusyRefusal<M>>
    requires threads { 0 < asked.now.threads }
    requires config { opened.config.now ≡ asked.now.config.now }
    requires many { length opened.keepers.items ≡ store_count opened.config.now }
    requires opened { IsOpenedOver M.TELLS opened.config.now (told_in M.state opened.config.now.shards opened.keepers.items) opened.fleet
        opened.cuts.items }
    requires log { J.log ≡ logs_of opened.fleet.stores }
    requires making { J.making ≡ making_of opened.config.now opened.fleet.stores opened.cuts.items }
    ensures ends { EndsLoad M.TELLS M.state asked.now opened.entry.keepers.items before result }
{
    let cluster = match Cluster::<'_, M, J>::make(opened) {
        Ok(cluster) => cluster,
        Err(fail) => return Err(BusyRefusal::Open(fail)),
    };
    let ran = run_cluster(rt, alloc, &cluster, asked, gate);
    let closed = cluster.close();
    match ran {
        Ok(ran) => end_load(rt, alloc, asked.config, closed, ran, before),
        Err(OutOfMemory) => Err(BusyRefusal::OutOfMemory {
            keepers: closed.keepers(),
        }),
    }
}

/// The load of stores that were opened.
fn load_opened<M: Keeper + Drop + Send, R: Threads + Wait + Sync, G: Gate + Sync>(
    rt: &R,
    alloc: Global,
    asked: &LoadAsked<'_>,
    opened: Opened<'_, M>,
    gate: &G,
    before: u64,
) -> Result<(LoadSummary, Vec<M>), BusyRefusal<M>>
    requires threads { 0 < asked.now.threads }
    requires config { opened.config.now ≡ asked.now.config.now }
    requires many { length opened.keepers.items ≡ store_count opened.config.now }
    requires opened { IsOpenedOver M.TELLS opened.config.now (told_in M.state opened.config.now.shards opened.keepers.items) opened.fleet
        opened.cuts.items }
    ensures ends { EndsLoad M.TELLS M.state asked.now opened.entry.keepers.items before result }
{
    load_shared::<M, Brand, R, G>(rt, alloc, asked, opened, gate, before)
}

/// Runs the calls of a generated workload on so many threads over one cluster, closes and settles that, and reads its logs.
///
/// The thread at a place, from 0, makes the calls whose numbers leave that place when they are divided by the number of threads, in order. It has a pass of
/// its own for each session, a hand on each node and store, and a link that never fails. A delivery of a message, and a step of a stream, is a pump of the
/// node or store, and is never refused.
///
/// With a summary the tables that the keepers then tell are settled and paired; it has the lengths of the logs and the number of edges that these leave live;
/// each client's entry is of one of the workload's requests; and no more of its additions are in no log than calls were refused. No call was, where keepers of
/// the type never fail, no entry was old at first, as none is in an empty store, and at last no log has as many entries as it may, and no record in one the
/// last number of a stamp. Where there is no summary the keepers come back too, in order of region, then of shard. Takes memory for each request.
pub fn load<M: Keeper + Drop + Send, R: Threads + Wait + Sync, G: Gate + Sync>(
    rt: &R,
    alloc: Global,
    asked: &LoadAsked<'_>,
    keepers: Vec<M>,
    gate: &G,
) -> Result<(LoadSummary, Vec<M>), BusyRefusal<M>>
    requires threads { 0 < asked.now.threads }
    requires many { length keepers.items ≡ store_count asked.now.config.now }
    requires kept { WhereTold M.TELLS (MayOpen asked.now.config.now asked.now.line.now (told_in M.state asked.now.config.now.shards keepers.items)) }
    requires jobs { WhereTold M.TELLS (HaveTheirJobs asked.now.config.now (told_in M.state asked.now.config.now.shards keepers.items)) }
    ensures many { IfOk result (λ r. length r.1.items ≡ store_count asked.now.config.now) }
    ensures leaves { WhereTold M.TELLS (IfOk result (λ r.
        LeavesLoad asked.now.config.now (requests_asked asked.now) (told_in M.state asked.now.config.now.shards r.1.items) r.0)) }
    ensures none { IfOk result (λ r. CountsNone M.TELLS M.state asked.now.config.now
        (cuts_in asked.now.config.now (told_in M.state asked.now.config.now.shards keepers.items)) r.0 r.1.items) }
    ensures refuses { IfErr result (RefusesLoad M.TELLS M.state asked.now keepers.items) }
{
    masters_are_regions(asked.config);
    let before = faults_of(&keepers);
    match Opened::open(alloc, asked.config, asked.line, keepers) {
        Ok(opened) => load_opened(rt, alloc, asked, opened, gate, before),
        Err(fail) => Err(BusyRefusal::Open(fail)),
    }
}
