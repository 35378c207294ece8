//! Keepers, and the logs that are audited of them.
ghost use Rattle.std.specs.Prelude.{◌≡◌, ◌≤◌, ◌<◌, ◌+◌, ◌++◌, ◌∷◌, [], IsErrOf, List, length};
ghost use Rattle.std.specs.Vec.{vec_capacity, vec_len};
ghost use Rattle.core_model.specs.Stores.{master_log};
ghost use Rattle.graph_model.specs.Told.{WhereTold};
ghost use Rattle.keepers.specs.Shown.{told_in};
ghost use Rattle.load_audit.specs.Auditing.{AuditsLog};
ghost use Rattle.load_audit.specs.Kept.{AreAudited, AuditsEach, AuditsKept, HasFailed, HasFault, IsAudited, IsRoomFor, keepers_in};
ghost use Rattle.load_audit.specs.declared.audits.AuditRefusal.TheVariants.{Failed as AuditFailed};
ghost use Rattle.request_check.specs.declared.checked.CheckedWrite.{CheckedWrite};
ghost use Rattle.tao_keeper.specs.KeeperState.{CallsKeeper, KeepsTables};
ghost use Rattle.tao_keeper.specs.declared.keeper.KeepFail.TheVariants.{Failed as KeeperFailed};

use crate::audits::AuditRefusal;
use crate::found::{LogFound, audit_log};
use crate::writes::ListedWrites;
use core_model::{master_of, store_place};
use shard_tables::whole_log;
use std::alloc::Global;
use std::thread;
use std::thread::Threads;
use tao_base::StoreName;
use tao_keeper::{KeepFail, Keeper};
use topology::Config;

/// A keeper, the store whose log is audited of it, if one's is, and what was found of that.
#[derive(Drop)]
pub(crate) struct KeptLog<M> {
    pub(crate) keeper: M,
    pub(crate) at: Option<StoreName>,
    pub(crate) found: Result<LogFound, AuditRefusal>,
}

/// Adds one where there is room for it. Takes no memory.
fn put_last<T>(all: &mut Vec<T>, last: T)
    requires { vec_len all.old < vec_capacity all.old }
    ensures items { all.new.items ≡ all.old.items ++ last ∷ [] }
    ensures len { vec_len all.new ≡ vec_len all.old + 1 }
    ensures room { vec_capacity all.old ≤ vec_capacity all.new }
{
    match all.push(last) {
        Ok(()) => (),
        Err(_) => unreachable!(),
    }
}

/// The store at a place, in order of region, then of shard, where it is its shard's master's.
fn master_at(config: &Config, place: usize) -> Option<StoreName> {
    let shards = usize::from(config.shards);
    let shard = (place % shards) as u16;
    let region = master_of(config, shard);
    if usize::from(region) == place / shards {
        Some(StoreName { region, shard })
    } else {
        None
    }
}

/// A keeper whose log wasn't audited yet.
fn unaudited<M>(keeper: M, at: Option<StoreName>) -> KeptLog<M>
    ensures { result.keeper ≡ keeper }
{
    KeptLog {
        keeper,
        at,
        found: Err(AuditRefusal::Failed(KeepFail::OutOfMemory)),
    }
}

/// Keepers in order of region, then of shard, each with the log to be audited of it: a shard's is that of its master's store. Takes no memory.
pub(crate) fn with_logs<M: Drop>(
    config: &Config,
    keepers: Vec<M>,
    room: Vec<KeptLog<M>>,
) -> Vec<KeptLog<M>>
    requires { IsRoomFor (vec_len keepers) room }
    ensures { keepers_in result.items ≡ keepers.items }
{
    let mut all = room;
    for keeper in keepers {
        let at = master_at(config, all.len());
        put_last(&mut all, unaudited(keeper, at));
    }
    all
}

/// The keepers alone, in their order. Takes no memory.
pub(crate) fn without_logs<M: Drop>(all: Vec<KeptLog<M>>, room: Vec<M>) -> Vec<M>
    requires { IsRoomFor (vec_len all) room }
    ensures { result.items ≡ keepers_in all.items }
{
    let mut keepers = room;
    for kept in all {
        let KeptLog { keeper, .. } = kept;
        put_last(&mut keepers, keeper);
    }
    keepers
}

/// Audits the log that a keeper has of a store.
fn audit_store<M: Keeper>(
    alloc: Global,
    writes: &ListedWrites<'_>,
    at: StoreName,
    keeper: &mut M,
) -> Result<LogFound, AuditRefusal>
    ensures audits { WhereTold M.TELLS (AuditsLog writes.now at.shard ((M.state keeper.new).told at).log result) }
    ensures stays { KeepsTables M.TELLS (M.state keeper.old) (M.state keeper.new) }
    ensures calls { CallsKeeper (AuditFailed KeeperFailed) (M.state keeper.old) (M.state keeper.new) result }
{
    let log = whole_log(alloc, keeper, at)?;
    audit_log(alloc, writes, at.shard, &log)
}

/// Audits the log that is to be audited of a keeper.
#[tactic(auto, using(crate::proofs::KeptLemmas::audits_none, crate::proofs::KeptLemmas::audits_one))]
fn audit_kept<M: Keeper>(alloc: Global, writes: &ListedWrites<'_>, kept: &mut KeptLog<M>)
    ensures { AuditsKept M.TELLS M.state writes.now kept.old kept.new }
{
    if let Some(at) = kept.at {
        kept.found = audit_store(alloc, writes, at, &mut kept.keeper);
    }
}

/// Audits the logs on at most so many threads. Each is read and audited by one of them.
pub(crate) fn audit_all<M: Keeper + Send, R: Threads + Sync>(
    rt: &R,
    alloc: Global,
    writes: &ListedWrites<'_>,
    threads: usize,
    all: &mut [KeptLog<M>],
)
    requires { 0 < threads }
    ensures many { length all.new ≡ length all.old }
    ensures each { AuditsEach M.TELLS M.state writes.now all.old all.new }
{
    thread::for_each_mut(
        rt,
        all,
        threads,
        &|_: usize, kept: &mut KeptLog<M>|
            ensures { AuditsKept M.TELLS M.state writes.entry.now kept.entry.now kept.exit.now }
        { audit_kept(alloc, writes, kept) },
    );
}

/// What was found of a store's log, where it was audited of this keeper.
fn found_at<M: Keeper>(kept: &KeptLog<M>, at: StoreName) -> Result<LogFound, AuditRefusal>
    ensures audits { (writes : List CheckedWrite) → IsAudited M.TELLS M.state writes kept.now
        → WhereTold M.TELLS (AuditsLog writes at.shard ((M.state kept.now.keeper).told at).log result) }
    ensures fault { IsErrOf result (AuditFailed KeeperFailed) → HasFailed kept.now }
{
    if kept.at == Some(at) {
        kept.found
    } else {
        Err(AuditRefusal::Failed(KeepFail::OutOfMemory))
    }
}

/// What was found of the log of a shard. The keeper of its store stands at the store's place, and where it doesn't, this answers want of memory.
pub(crate) fn found_of<M: Keeper>(
    config: &Config,
    all: &[KeptLog<M>],
    shard: u16,
) -> Result<LogFound, AuditRefusal>
    ensures audits { (writes : List CheckedWrite) → AreAudited M.TELLS M.state writes all.now
        → WhereTold M.TELLS (AuditsLog writes shard (master_log config.now (told_in M.state config.now.shards (keepers_in all.now)) shard) result) }
    ensures fault { IsErrOf result (AuditFailed KeeperFailed) → HasFault all.now }
{
    let at = StoreName {
        region: master_of(config, shard),
        shard,
    };
    match all.get(store_place(config, at)) {
        Some(kept) => found_at(kept, at),
        None => Err(AuditRefusal::Failed(KeepFail::OutOfMemory)),
    }
}
