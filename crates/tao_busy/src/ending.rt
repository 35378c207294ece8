//! The end of a load: its closed cluster is settled, and its logs are read.
ghost use Rattle.std.specs.Prelude.{◌≡◌, ◌≤◌, ◌<◌, List, length};
ghost use Rattle.core_model.specs.Stores.{store_count};
ghost use Rattle.graph_model.specs.Told.{WhereTold};
ghost use Rattle.keepers.specs.Shown.{told_in};
ghost use Rattle.load_audit.specs.Audits.{RefusesAudit, logs_in};
ghost use Rattle.load_audit.specs.Listed.{IsWorkload, missing_adds};
ghost use Rattle.replies.specs.declared.refusals.UnsettledWhy.TheVariants.{LinkFault as LinkFailed, LogFull as Full};
ghost use Rattle.requests.specs.declared.request.Request.{Request as OneRequest};
ghost use Rattle.shared_tiers.specs.cluster_closing.unlocked_nodes.Unlocked.{MaySettle};
ghost use Rattle.shared_tiers.specs.locked_nodes.Cluster.{on_cluster};
ghost use Rattle.tao_busy.specs.Counting.{AreShares, AreWell};
ghost use Rattle.tao_busy.specs.Ending.{ComesToEnd, load_start};
ghost use Rattle.tao_busy.specs.Load.{IsSettledLoad, OwesToFullLog, RefusesRun, SaysCame};
ghost use Rattle.tao_busy.specs.Refusing.{HaveClearWay};
ghost use Rattle.topology.specs.Config.{Settings};

use crate::asked::{BusyRefusal, LoadSummary};
use crate::meeting::{is_any_short, meet_shares};
use crate::shares::Share;
use load_audit::{AuditRefusal, Audited, LoadAudit, audit};
use load_shares::has_choices;
use replies::{Refusal, Reply, StoreRefused, UnsettledWhy};
use requests::Request;
use shared_stores::Sharing;
use shared_tiers::cluster_closing::Closed;
use shared_tiers::cluster_opening::{faults_of, rose};
use std::alloc::Global;
use std::thread::Threads;
use tao_base::OutOfMemory;
use tao_keeper::{KeepFail, Keeper};
use tao_link::SteadyLink;
use topology::Config;

/// What the threads of a load left: the list of their requests, and what came of the calls of each.
#[derive(Drop)]
pub(crate) struct Ran {
    pub requests: Vec<Request>,
    pub shares: Vec<Share>,
}

/// What came of a settle.
#[derive(Clone, Copy)]
pub(crate) enum Came {
    Settled,
    Stuck { shard: u16, why: UnsettledWhy },
    OutOfMemory,
}

/// What the reply to a settle says of it.
fn came_of(said: &Reply) -> Came
    ensures { SaysCame said.now result }
{
    match said {
        Reply::Settled { .. } => Came::Settled,
        Reply::Refused(Refusal::Store(StoreRefused::Unsettled { shard, why })) => Came::Stuck {
            shard: *shard,
            why: *why,
        },
        _ => Came::OutOfMemory,
    }
}

/// Why a load came to no summary, where its settle was stuck. A keeper's fault is said only as their counts, added up, rose: else it is want of memory.
fn stuck<M: Keeper>(shard: u16, why: UnsettledWhy, before: u64, keepers: Vec<M>) -> BusyRefusal<M>
    requires { why ≡ LinkFailed → ⊥ }
    ensures { (s : Settings) (requests : List OneRequest) → length keepers.items ≡ store_count s → shard < s.shards
        → (why ≡ Full → WhereTold M.TELLS (OwesToFullLog s (told_in M.state s.shards keepers.items) shard))
        → RefusesRun M.TELLS M.state s requests before result }
{
    match why {
        UnsettledWhy::KeeperFault => {
            if rose(before, faults_of(&keepers)) {
                BusyRefusal::Stuck {
                    shard,
                    why: UnsettledWhy::KeeperFault,
                    keepers,
                }
            } else {
                BusyRefusal::OutOfMemory { keepers }
            }
        }
        UnsettledWhy::LogFull => BusyRefusal::Stuck {
            shard,
            why: UnsettledWhy::LogFull,
            keepers,
        },
        UnsettledWhy::LinkFault => unreachable!(),
    }
}

/// Why a load came to no summary, where its audit didn't pass. A keeper's fault is said only as their counts, added up, rose: else it is want of memory.
fn unaudited<M: Keeper>(why: AuditRefusal, before: u64, keepers: Vec<M>) -> BusyRefusal<M>
    ensures { (s : Settings) (requests : List OneRequest) → length keepers.items ≡ store_count s
        → WhereTold M.TELLS (RefusesAudit s (told_in M.state s.shards keepers.items) requests why) → RefusesRun M.TELLS M.state s requests before result }
{
    match why {
        AuditRefusal::Stranger { shard, position } => BusyRefusal::Stranger {
            shard,
            position,
            keepers,
        },
        AuditRefusal::Failed(KeepFail::Failed) => {
            if rose(before, faults_of(&keepers)) {
                BusyRefusal::KeeperFault { keepers }
            } else {
                BusyRefusal::OutOfMemory { keepers }
            }
        }
        AuditRefusal::Failed(KeepFail::OutOfMemory) => BusyRefusal::OutOfMemory { keepers },
    }
}

/// The summary of a load that was settled, by the logs that the keepers tell, which are audited on at most so many threads.
fn summed<M: Keeper + Drop + Send, J: Sharing, R: Threads + Sync>(
    rt: &R,
    alloc: Global,
    config: &Config,
    requests: &[Request],
    threads: usize,
    refused: u64,
    before: u64,
    keepers: Vec<M>,
) -> Result<(LoadSummary, Vec<M>), BusyRefusal<M>>
    requires threads { 0 < threads }
    requires config { config.now ≡ J.making.settings }
    requires listed { IsWorkload config.now requests.now }
    requires many { length keepers.items ≡ store_count config.now }
    requires settled { WhereTold M.TELLS (IsSettledLoad config.now (told_in M.state config.now.shards keepers.items)) }
    requires few { WhereTold M.TELLS (missing_adds (logs_in config.now (told_in M.state config.now.shards keepers.items)) requests.now ≤ refused) }
    requires none { WhereTold M.TELLS (HaveClearWay (on_cluster M.TELLS M.state J.making J.log)
        (logs_in config.now (told_in M.state config.now.shards keepers.items)) requests.now → refused ≡ 0) }
    ensures ends { ComesToEnd M.TELLS M.state config.now requests.now (load_start before J.making.cut) result }
{
    has_choices(config);
    let Audited { found, keepers } = audit(rt, alloc, config, requests, threads, keepers);
    match found {
        Ok(LoadAudit { logs, edges }) => Ok((
            LoadSummary {
                edges,
                logs,
                refused,
            },
            keepers,
        )),
        Err(why) => Err(unaudited(why, before, keepers)),
    }
}

/// The end of a load whose cluster was settled.
fn end_settled<M: Keeper + Drop + Send, J: Sharing, R: Threads + Sync>(
    rt: &R,
    alloc: Global,
    config: &Config,
    closed: Closed<'_, M, J>,
    ran: Ran,
    before: u64,
) -> Result<(LoadSummary, Vec<M>), BusyRefusal<M>>
    requires config { config.now ≡ J.making.settings }
    requires ready { MaySettle M.TELLS J.making J.log (told_in M.state J.making.settings.shards closed.keepers.items) closed.unlocked }
    requires many { length closed.keepers.items ≡ store_count J.making.settings }
    requires listed { IsWorkload J.making.settings ran.requests.items }
    requires some { 0 < length ran.shares.items }
    requires shares { AreShares (on_cluster M.TELLS M.state J.making J.log) (length ran.shares.items) ran.requests.items ran.shares.items }
    requires well { AreWell ran.shares.items }
    requires settled { WhereTold M.TELLS (IsSettledLoad J.making.settings (told_in M.state J.making.settings.shards closed.keepers.items)) }
    ensures ends { ComesToEnd M.TELLS M.state J.making.settings ran.requests.items (load_start before J.making.cut) result }
{
    let mut closed = closed;
    let Ran { requests, shares } = ran;
    let threads = shares.len();
    match meet_shares(&mut closed, config.shards, shares, requests.as_slice()) {
        Ok(refused) => {
            let keepers = closed.keepers();
            summed::<M, J, R>(
                rt,
                alloc,
                config,
                requests.as_slice(),
                threads,
                refused,
                before,
                keepers,
            )
        }
        Err(OutOfMemory) => Err(BusyRefusal::OutOfMemory {
            keepers: closed.keepers(),
        }),
    }
}

/// The end of a load: the closed cluster is settled, and its logs are read on as many threads as its calls were made on.
pub(crate) fn end_load<M: Keeper + Drop + Send, J: Sharing, R: Threads + Sync>(
    rt: &R,
    alloc: Global,
    config: &Config,
    closed: Closed<'_, M, J>,
    ran: Ran,
    before: u64,
) -> Result<(LoadSummary, Vec<M>), BusyRefusal<M>>
    requires config { config.now ≡ J.making.settings }
    requires ready { MaySettle M.TELLS J.making J.log (told_in M.state J.making.settings.shards closed.keepers.items) closed.unlocked }
    requires many { length closed.keepers.items ≡ store_count J.making.settings }
    requires listed { IsWorkload J.making.settings ran.requests.items }
    requires some { 0 < length ran.shares.items }
    requires shares { AreShares (on_cluster M.TELLS M.state J.making J.log) (length ran.shares.items) ran.requests.items ran.shares.items }
    ensures ends { ComesToEnd M.TELLS M.state J.making.settings ran.requests.items (load_start before J.making.cut) result }
{
    let mut closed = closed;
    if is_any_short(ran.shares.as_slice()) {
        return Err(BusyRefusal::OutOfMemory {
            keepers: closed.keepers(),
        });
    }
    let mut link = SteadyLink::make();
    let said = closed.settle(&mut link);
    let came = came_of(&said);
    drop(said);
    match came {
        Came::Settled => end_settled(rt, alloc, config, closed, ran, before),
        Came::Stuck { shard, why } => Err(stuck(shard, why, before, closed.keepers())),
        Came::OutOfMemory => Err(BusyRefusal::OutOfMemory {
            keepers: closed.keepers(),
        }),
    }
}
