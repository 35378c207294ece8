//! The audit of a load.
ghost use Rattle.std.specs.Prelude.{◌≡◌, ◌<◌, Err, IfErr, IfOk, IsErrOf, List, length};
ghost use Rattle.std.specs.Vec.{vec_len};
ghost use Rattle.graph_model.specs.Told.{WhereTold};
ghost use Rattle.keepers.specs.Shown.{told_in};
ghost use Rattle.load_audit.specs.Auditing.{AuditsLogs};
ghost use Rattle.load_audit.specs.Audits.{IsAuditOf, RefusesAudit};
ghost use Rattle.load_audit.specs.Kept.{AreAudited, AuditsEach, HasFault, IsRoomFor, KeepersStay, OneFailed, keepers_in};
ghost use Rattle.load_audit.specs.Listed.{IsWorkload};
ghost use Rattle.load_audit.specs.declared.audits.AuditRefusal.TheVariants.{Failed as AuditFailed};
ghost use Rattle.request_check.specs.declared.checked.CheckedWrite.{CheckedWrite};
ghost use Rattle.tao_keeper.specs.declared.keeper.KeepFail.TheVariants.{Failed as KeeperFailed, OutOfMemory as NoMemory};

use crate::kept::{KeptLog, audit_all, found_of, with_logs, without_logs};
use crate::tally::Tally;
use crate::writes::ListedWrites;
use replies::Lengths;
use requests::Request;
use std::alloc::Global;
use std::error::Error;
use std::fmt;
use std::thread::Threads;
use tao_base::OutOfMemory;
use tao_keeper::{KeepFail, Keeper};
use topology::Config;

/// What the logs of all shards hold.
#[derive(Drop)]
pub struct LoadAudit {
    /// The lengths of the logs, by shard.
    pub logs: Lengths,
    /// How many edges the logs leave live, added up.
    pub edges: u64,
}

/// Why an audit doesn't pass.
#[derive(Clone, Copy, Debug, PartialEq, Eq)]
pub enum AuditRefusal {
    /// A keeper failed, and counted that, or there was no memory.
    Failed(KeepFail),
    /// The entry at a position of a shard's log is a client's, and of none of the workload's writes. It is the first such entry.
    Stranger { shard: u16, position: u64 },
}

impl fmt::Display for AuditRefusal {
    fn fmt<W: fmt::Write>(&self, f: &mut fmt::Formatter<W>) -> fmt::Result {
        match self {
            AuditRefusal::Failed(fail) => write!(f, "{fail}"),
            AuditRefusal::Stranger { shard, position } => {
                write!(
                    f,
                    "the entry at position {position} of shard {shard} is of no write"
                )
            }
        }
    }
}

impl Error for AuditRefusal {}

impl From<KeepFail> for AuditRefusal {
    ghost use Rattle.std.specs.Prelude.{◌≡◌};
    ghost use Rattle.load_audit.specs.declared.audits.AuditRefusal.TheVariants.{Failed};

    ghost from_gives = { λ fail refusal. refusal ≡ Failed fail };

    fn from(fail: KeepFail) -> AuditRefusal {
        AuditRefusal::Failed(fail)
    }
}

impl From<OutOfMemory> for AuditRefusal {
    ghost use Rattle.std.specs.Prelude.{◌≡◌};
    ghost use Rattle.load_audit.specs.declared.audits.AuditRefusal.TheVariants.{Failed as AuditFailed};
    ghost use Rattle.tao_keeper.specs.declared.keeper.KeepFail.TheVariants.{OutOfMemory as NoMemory};

    ghost from_gives = { λ _ refusal. refusal ≡ AuditFailed NoMemory };

    fn from(error: OutOfMemory) -> AuditRefusal {
        AuditRefusal::Failed(KeepFail::from(error))
    }
}

/// What an audit found, and the keepers, in their order.
#[derive(Drop)]
pub struct Audited<M> {
    pub found: Result<LoadAudit, AuditRefusal>,
    pub keepers: Vec<M>,
}

/// An audit that wants memory.
fn short_of_memory<M>(keepers: Vec<M>) -> Audited<M>
    ensures found { result.found ≡ Err (AuditFailed NoMemory) }
    ensures keepers { result.keepers ≡ keepers }
{
    Audited {
        found: Err(AuditRefusal::Failed(KeepFail::OutOfMemory)),
        keepers,
    }
}

/// Adds up what was found of the logs of all shards, or gives the first reason why one doesn't pass.
fn sum_up<M: Keeper>(
    alloc: Global,
    config: &Config,
    all: &[KeptLog<M>],
) -> Result<LoadAudit, AuditRefusal>
    ensures audits { (writes : List CheckedWrite) → AreAudited M.TELLS M.state writes all.now
        → WhereTold M.TELLS (AuditsLogs config.now (told_in M.state config.now.shards (keepers_in all.now)) writes result) }
    ensures fault { IsErrOf result (AuditFailed KeeperFailed) → HasFault all.now }
{
    let mut tally = Tally::new(alloc);
    for shard in 0..config.shards {
        let found = found_of(config, all, shard)?;
        tally.add(found)?;
    }
    Ok(tally.into_audit())
}

/// Room for keepers with their logs, and for the keepers alone.
#[derive(Drop)]
struct AuditRoom<M> {
    logs: Vec<KeptLog<M>>,
    keepers: Vec<M>,
}

/// Room for so many of each.
fn make_room<M: Drop>(alloc: Global, many: usize) -> Result<AuditRoom<M>, OutOfMemory>
    ensures logs { IfOk result (λ room. IsRoomFor many room.logs) }
    ensures keepers { IfOk result (λ room. IsRoomFor many room.keepers) }
{
    Ok(AuditRoom {
        logs: Vec::with_capacity(alloc, many)?,
        keepers: Vec::with_capacity(alloc, many)?,
    })
}

/// Audits the log of each keeper, on at most so many threads.
fn audit_each<M: Keeper + Send, R: Threads + Sync>(
    rt: &R,
    alloc: Global,
    writes: &ListedWrites<'_>,
    threads: usize,
    all: Vec<KeptLog<M>>,
) -> Vec<KeptLog<M>>
    requires { 0 < threads }
    ensures many { length result.items ≡ length all.items }
    ensures each { AuditsEach M.TELLS M.state writes.now all.items result.items }
{
    let mut all = all;
    audit_all(rt, alloc, writes, threads, all.as_mut_slice());
    all
}

/// Audits the logs of all shards against the writes of a workload, in room that was made for it.
fn audit_in<M: Keeper + Drop + Send, R: Threads + Sync>(
    rt: &R,
    alloc: Global,
    config: &Config,
    writes: &ListedWrites<'_>,
    threads: usize,
    keepers: Vec<M>,
    room: AuditRoom<M>,
) -> Audited<M>
    requires threads { 0 < threads }
    requires logs { IsRoomFor (vec_len keepers) room.logs }
    requires keepers { IsRoomFor (vec_len keepers) room.keepers }
    ensures audits { WhereTold M.TELLS (AuditsLogs config.now (told_in M.state config.now.shards result.keepers.items) writes.now result.found) }
    ensures stay { KeepersStay M.TELLS M.state keepers.items result.keepers.items }
    ensures fault { IsErrOf result.found (AuditFailed KeeperFailed) → OneFailed M.state keepers.items result.keepers.items }
{
    let AuditRoom {
        logs,
        keepers: back,
    } = room;
    let all = audit_each(rt, alloc, writes, threads, with_logs(config, keepers, logs));
    let found = sum_up(alloc, config, all.as_slice());
    Audited {
        found,
        keepers: without_logs(all, back),
    }
}

/// Reads the log of each shard whole, and tells how long they are and how many edges they leave live, where each client's entry has the origin of one
/// of the requests' writes and fits it; else it names the first that doesn't. The requests are those of a workload, and the keepers one for each store, in
/// order of region, then of shard: one that is missing is want of memory.
///
/// `Failed(Failed)` comes only where the count of faults of a keeper rose, and `Failed(OutOfMemory)` where there was no memory. No table changes. Each log is
/// read and audited on one of at most so many threads: that costs two calls of the keeper and one for each entry, memory for the log, and time that grows
/// with the entries. Besides it takes memory for each keeper and the place of each request.
#[tactic(auto, using(crate::proofs::AuditLemmas::ok_so, crate::proofs::AuditLemmas::err_so, crate::proofs::KeptLemmas::same_stay))]
pub fn audit<M: Keeper + Drop + Send, R: Threads + Sync>(
    rt: &R,
    alloc: Global,
    config: &Config,
    requests: &[Request],
    threads: usize,
    keepers: Vec<M>,
) -> Audited<M>
    requires threads { 0 < threads }
    requires listed { IsWorkload config.now requests.now }
    ensures audit { WhereTold M.TELLS (IfOk result.found (IsAuditOf config.now (told_in M.state config.now.shards result.keepers.items) requests.now)) }
    ensures refused { WhereTold M.TELLS (IfErr result.found
        (RefusesAudit config.now (told_in M.state config.now.shards result.keepers.items) requests.now)) }
    ensures stay { KeepersStay M.TELLS M.state keepers.items result.keepers.items }
    ensures fault { IsErrOf result.found (AuditFailed KeeperFailed) → OneFailed M.state keepers.items result.keepers.items }
{
    let Ok(room) = make_room(alloc, keepers.len()) else {
        return short_of_memory(keepers);
    };
    match ListedWrites::of(alloc, config, requests) {
        Ok(writes) => audit_in(rt, alloc, config, &writes, threads, keepers, room),
        Err(OutOfMemory) => short_of_memory(keepers),
    }
}
