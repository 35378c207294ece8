//! What a keeper is: the calls on the tables of the stores, and what they answer and change.
ghost use Rattle.std.specs.Prelude.{◌≡◌, ◌≤◌, ◌<◌, Bool, length, take, drop, IfOk, IfSome};
ghost use Rattle.graph_model.specs.Edges.{edge_list, edge_record, number_of};
ghost use Rattle.graph_model.specs.Log.{object, version, additions};
ghost use Rattle.graph_model.specs.Soundness.{CanFollow, IsSound};
ghost use Rattle.tao_base.specs.declared.id.StoreName.{StoreName as Store};
ghost use Rattle.tao_keeper.specs.Given.{AreGiven, HaveSmallStamps, IsGivenEntry, IsGivenJob, IsGivenRole, IsPosition};
ghost use Rattle.graph_model.specs.Told.{WhereTold};
ghost use Rattle.tao_keeper.specs.KeeperState.{IsCall, KeeperState, KeepsTables};
ghost use Rattle.tao_keeper.specs.Table.{AreOfEntries, Changes, IsCutWithin, IsLeastJob, IsJobAt, OpensAs, ReachesLive, StandsAt};
ghost use Rattle.tao_keeper.specs.Table.{after_commit, after_cut, after_cut_back, after_end, after_job, after_open, after_role, live_entry, old_entry};
ghost use Rattle.tao_keeper.specs.Table.{role_store};

use super::jobs::Job;
use std::alloc::{AllocError, AllocFailed};
use std::error::Error;
use std::fmt;
use tao_base::{AType, EdgeState, Edges, Entry, Id, Key, Object, Origin, OutOfMemory, StoreName};

/// How many entries a log can have.
pub const MOST_ENTRIES: u64 = 65_536;

/// The numbers of the stamps that a keeper takes and gives are below this.
pub const STAMP_LIMIT: u64 = 1 << 62;

/// The greatest epoch: so often can shards be promoted.
pub const EPOCH_LIMIT: u64 = 1_000;

/// The regions of a configuration are below this.
pub const REGION_LIMIT: u16 = 4;

/// The serials of objects are below this.
pub const SERIAL_LIMIT: u64 = 1 << 48;

/// Why a call of a keeper gave no answer. It changed no table.
#[derive(Clone, Copy, Debug, PartialEq, Eq)]
pub enum KeepFail {
    /// The keeper failed, and counted that as a fault.
    Failed,
    /// There was no memory for the call.
    OutOfMemory,
}

impl fmt::Display for KeepFail {
    ghost use Rattle.std.specs.Prelude.{Some};
    ghost use Rattle.tao_keeper.specs.FailText.{fail_text};

    ghost output = { λ fail. Some (fail_text fail) };

    fn fmt<W: fmt::Write>(&self, f: &mut fmt::Formatter<W>) -> fmt::Result {
        match self {
            KeepFail::Failed => write!(f, "the keeper failed"),
            KeepFail::OutOfMemory => write!(f, "out of memory"),
        }
    }
}

impl Error for KeepFail {}

impl From<AllocError> for KeepFail {
    ghost use Rattle.std.specs.Prelude.{◌≡◌};
    ghost use Rattle.tao_keeper.specs.declared.keeper.KeepFail.TheVariants.{OutOfMemory};

    ghost from_gives = { λ _ fail. fail ≡ OutOfMemory };

    fn from(_: AllocError) -> KeepFail {
        KeepFail::OutOfMemory
    }
}

impl From<OutOfMemory> for KeepFail {
    ghost use Rattle.std.specs.Prelude.{◌≡◌};
    ghost use Rattle.tao_keeper.specs.declared.keeper.KeepFail.TheVariants.{OutOfMemory as NoMemory};

    ghost from_gives = { λ _ fail. fail ≡ NoMemory };

    fn from(_: OutOfMemory) -> KeepFail {
        KeepFail::OutOfMemory
    }
}

impl<T: Drop> From<AllocFailed<T>> for KeepFail {
    ghost use Rattle.std.specs.Prelude.{◌≡◌};
    ghost use Rattle.tao_keeper.specs.declared.keeper.KeepFail.TheVariants.{OutOfMemory};

    ghost from_gives = { λ _ fail. fail ≡ OutOfMemory };

    fn from(_: AllocFailed<T>) -> KeepFail {
        KeepFail::OutOfMemory
    }
}

/// How a store took the line that it was opened with.
#[derive(Clone, Copy, Debug, PartialEq, Eq)]
pub enum Opened {
    /// It is opened first, or was first opened with the same bytes.
    Ready,
    /// It was first opened with other bytes, and keeps them.
    OtherLine,
}

/// What one transaction adds to a store.
#[derive(Drop)]
pub struct Commit {
    pub entry: Entry,
    /// What the entry owes to another shard, which is open from then on until it is ended.
    pub job: Option<Job>,
}

/// Keeps the tables of stores: their logs, the open jobs of their entries, the lines that they were first opened with, and of each shard its epoch and
/// its master region, where it was ever promoted. A store that nothing was written to is empty.
///
/// A log has two parts: its old entries, up to the cut, and the live ones. What is read of keys, edges and origins is of both.
///
/// Where a keeper tells its tables, each answer is what the log of the store gives. Each call but the two that read
/// the counts is counted, whatever it answers.
pub trait Keeper {
    /// Whether the keeper tells its tables.
    const TELLS: bool;

    ghost TELLS: { Bool };

    /// What the keeper shows: the tables of each store, which mean nothing where it doesn't tell, and how many calls and
    /// faults there were.
    ghost state: { Self → KeeperState };

    /// Opens a store with a line. It keeps the first line that it was opened with.
    fn open(&mut self, at: StoreName, line: &[u8]) -> Result<Opened, KeepFail>
        ensures answer { WhereTold TELLS (IfOk result (λ opened. OpensAs opened ((state self.old).told at) line.now)) }
        ensures changes { WhereTold TELLS (Changes result (state self.old).told (state self.new).told at (after_open ((state self.old).told at) line.now)) }
        ensures call { IsCall (state self.old) (state self.new) result };

    /// The record of an edge, where it has one.
    fn edge(
        &mut self,
        at: StoreName,
        id1: Id,
        atype: AType,
        id2: Id,
    ) -> Result<Option<EdgeState>, KeepFail>
        ensures answer { WhereTold TELLS (IfOk result (λ found. found ≡ edge_record ((state self.old).told at).log id1 atype id2)) }
        ensures small { IfOk result (λ found. number_of found < STAMP_LIMIT) }
        ensures stays { KeepsTables TELLS (state self.old) (state self.new) }
        ensures call { IsCall (state self.old) (state self.new) result };

    /// The edges of a list at the places from `pos` on, at most `most` of them. Places count from 0.
    fn edges(
        &mut self,
        at: StoreName,
        id1: Id,
        atype: AType,
        pos: u64,
        most: u64,
    ) -> Result<Edges, KeepFail>
        ensures answer { WhereTold TELLS (IfOk result (λ edges. edges ≡ take most (drop pos (edge_list ((state self.old).told at).log id1 atype)))) }
        ensures given { IfOk result (AreGiven most) }
        ensures stays { KeepsTables TELLS (state self.old) (state self.new) }
        ensures call { IsCall (state self.old) (state self.new) result };

    /// The object of the id, where there is one.
    fn object(&mut self, at: StoreName, id: Id) -> Result<Option<Object>, KeepFail>
        ensures answer { WhereTold TELLS (IfOk result (λ found. found ≡ object ((state self.old).told at).log id)) }
        ensures stays { KeepsTables TELLS (state self.old) (state self.new) }
        ensures call { IsCall (state self.old) (state self.new) result };

    /// How many edges the list has.
    fn count(&mut self, at: StoreName, id1: Id, atype: AType) -> Result<u64, KeepFail>
        ensures answer { WhereTold TELLS (IfOk result (λ count. count ≡ length (edge_list ((state self.old).told at).log id1 atype))) }
        ensures few { IfOk result (λ count. count ≤ MOST_ENTRIES) }
        ensures stays { KeepsTables TELLS (state self.old) (state self.new) }
        ensures call { IsCall (state self.old) (state self.new) result };

    /// How many entries touch the key.
    fn version(&mut self, at: StoreName, key: Key) -> Result<u64, KeepFail>
        ensures answer { WhereTold TELLS (IfOk result (λ count. count ≡ version ((state self.old).told at).log key)) }
        ensures few { IfOk result (λ count. count ≤ MOST_ENTRIES) }
        ensures stays { KeepsTables TELLS (state self.old) (state self.new) }
        ensures call { IsCall (state self.old) (state self.new) result };

    /// How many entries the log has, the old ones with the live ones.
    fn length(&mut self, at: StoreName) -> Result<u64, KeepFail>
        ensures answer { WhereTold TELLS (IfOk result (λ count. count ≡ length ((state self.old).told at).log)) }
        ensures few { IfOk result (λ count. count ≤ MOST_ENTRIES) }
        ensures stays { KeepsTables TELLS (state self.old) (state self.new) }
        ensures call { IsCall (state self.old) (state self.new) result };

    /// The live entry at a position, where there is one: none up to the cut and past the end of the log.
    fn entry(&mut self, at: StoreName, position: u64) -> Result<Option<Entry>, KeepFail>
        ensures answer { WhereTold TELLS (IfOk result (λ found. found ≡ live_entry ((state self.old).told at) position)) }
        ensures given { IfOk result (λ found. IfSome found IsGivenEntry) }
        ensures stays { KeepsTables TELLS (state self.old) (state self.new) }
        ensures call { IsCall (state self.old) (state self.new) result };

    /// The old entry at a position, where there is one: none at 0 and past the cut.
    fn old_entry(&mut self, at: StoreName, position: u64) -> Result<Option<Entry>, KeepFail>
        ensures answer { WhereTold TELLS (IfOk result (λ found. found ≡ old_entry ((state self.old).told at) position)) }
        ensures given { IfOk result (λ found. IfSome found IsGivenEntry) }
        ensures stays { KeepsTables TELLS (state self.old) (state self.new) }
        ensures call { IsCall (state self.old) (state self.new) result };

    /// The cut: how many entries of the log are old, 0 at first.
    fn cut_of(&mut self, at: StoreName) -> Result<u64, KeepFail>
        ensures answer { WhereTold TELLS (IfOk result (λ cut. cut ≡ ((state self.old).told at).cut)) }
        ensures few { IfOk result (λ cut. cut ≤ MOST_ENTRIES) }
        ensures stays { KeepsTables TELLS (state self.old) (state self.new) }
        ensures call { IsCall (state self.old) (state self.new) result };

    /// Makes this the cut, in one transaction: the entries up to it become old.
    fn cut(&mut self, at: StoreName, upto: u64) -> Result<(), KeepFail>
        requires may { WhereTold TELLS (ReachesLive ((state self.old).told at) upto) }
        requires few { upto ≤ MOST_ENTRIES }
        ensures changes { WhereTold TELLS (Changes result (state self.old).told (state self.new).told at (after_cut ((state self.old).told at) upto)) }
        ensures call { IsCall (state self.old) (state self.new) result };

    /// The serial of the object that was added last: as many as were added, so 0 before the first.
    fn last_serial(&mut self, at: StoreName) -> Result<u64, KeepFail>
        ensures answer { WhereTold TELLS (IfOk result (λ serial. serial ≡ additions ((state self.old).told at).log)) }
        ensures small { IfOk result (λ serial. serial < SERIAL_LIMIT) }
        ensures stays { KeepsTables TELLS (state self.old) (state self.new) }
        ensures call { IsCall (state self.old) (state self.new) result };

    /// The position of the entry of an origin, where there is one. Positions count from 1.
    fn origin(&mut self, at: StoreName, origin: Origin) -> Result<Option<u64>, KeepFail>
        ensures answer { WhereTold TELLS (IfOk result (StandsAt ((state self.old).told at).log origin)) }
        ensures within { IfOk result (λ found. IfSome found IsPosition) }
        ensures stays { KeepsTables TELLS (state self.old) (state self.new) }
        ensures call { IsCall (state self.old) (state self.new) result };

    /// The open job of the least position, where one is open.
    fn first_job(&mut self, at: StoreName) -> Result<Option<Job>, KeepFail>
        ensures answer { WhereTold TELLS (IfOk result (IsLeastJob ((state self.old).told at).jobs)) }
        ensures given { IfOk result (λ found. IfSome found IsGivenJob) }
        ensures stays { KeepsTables TELLS (state self.old) (state self.new) }
        ensures call { IsCall (state self.old) (state self.new) result };

    /// The open job of the entry at a position; none where none is open.
    fn job(&mut self, at: StoreName, position: u64) -> Result<Option<Job>, KeepFail>
        ensures answer { WhereTold TELLS (IfOk result (IsJobAt ((state self.old).told at).jobs position)) }
        ensures given { IfOk result (λ found. IfSome found IsGivenJob) }
        ensures stays { KeepsTables TELLS (state self.old) (state self.new) }
        ensures call { IsCall (state self.old) (state self.new) result };

    /// Ends the job of the entry at a position. Nothing changes where none is open.
    fn end_job(&mut self, at: StoreName, position: u64) -> Result<(), KeepFail>
        ensures changes { WhereTold TELLS (Changes result (state self.old).told (state self.new).told at (after_end ((state self.old).told at) position)) }
        ensures call { IsCall (state self.old) (state self.new) result };

    /// Adds the entry at the end of the log and opens its job, where it has one, in one transaction.
    fn commit(&mut self, at: StoreName, commit: &Commit) -> Result<(), KeepFail>
        requires stamps { HaveSmallStamps commit.now.entry.touches }
        requires job { IfSome commit.now.job (λ job. job.position ≡ commit.now.entry.position) }
        requires given { IfSome commit.now.job IsGivenJob }
        requires room { WhereTold TELLS (length ((state self.old).told at).log < MOST_ENTRIES) }
        requires follows { WhereTold TELLS (CanFollow ((state self.old).told at).log commit.now.entry) }
        ensures changes { WhereTold TELLS (Changes result (state self.old).told (state self.new).told at
            (after_commit ((state self.old).told at) commit.now.entry commit.now.job)) }
        ensures call { IsCall (state self.old) (state self.new) result };

    /// The epoch and the master region of a shard: none where none was stored, which means the first epoch and the configured master.
    fn role(&mut self, shard: u16) -> Result<Option<(u64, u16)>, KeepFail>
        ensures answer { WhereTold TELLS (IfOk result (λ role. role ≡ ((state self.old).told (role_store shard)).role)) }
        ensures given { IfOk result (λ role. IfSome role IsGivenRole) }
        ensures stays { KeepsTables TELLS (state self.old) (state self.new) }
        ensures call { IsCall (state self.old) (state self.new) result };

    /// Stores the epoch and the master region of a shard.
    fn set_role(&mut self, shard: u16, epoch: u64, region: u16) -> Result<(), KeepFail>
        requires given { IsGivenRole (epoch, region) }
        ensures changes { WhereTold TELLS (Changes result (state self.old).told (state self.new).told (role_store shard)
            (after_role ((state self.old).told (role_store shard)) epoch region)) }
        ensures call { IsCall (state self.old) (state self.new) result };

    /// Opens a job of an entry of the log. Nothing changes where one of that position is open.
    fn open_job(&mut self, at: StoreName, job: &Job) -> Result<(), KeepFail>
        requires given { IsGivenJob job.now }
        requires within { WhereTold TELLS (job.now.position ≤ length ((state self.old).told at).log) }
        ensures changes { WhereTold TELLS (Changes result (state self.old).told (state self.new).told at (after_job ((state self.old).told at) job.now)) }
        ensures call { IsCall (state self.old) (state self.new) result };

    /// Takes away the entries past that length, with their jobs and origins, in one transaction: the tables are then what the rest gives. Where an epoch is
    /// given, a row of what was lost is stored with it: the epoch, the length, and the entries that were taken away.
    fn cut_back(&mut self, at: StoreName, length: u64, row: Option<u64>) -> Result<(), KeepFail>
        requires may { WhereTold TELLS (ReachesLive ((state self.old).told at) length) }
        ensures changes { WhereTold TELLS (Changes result (state self.old).told (state self.new).told at
            (after_cut_back ((state self.old).told at) length row)) }
        ensures call { IsCall (state self.old) (state self.new) result };

    /// How many calls there were.
    fn calls(&self) -> u64
        ensures { result ≡ (state self.now).calls };

    /// How many faults there were. The count never falls.
    fn faults(&self) -> u64
        ensures { result ≡ (state self.now).faults };

    /// Each log that is told is sound.
    ghost sound: { (keeper : Self) (at : Store) → WhereTold TELLS (IsSound ((state keeper).told at).log) };

    /// Each log that is told has the entries that are old.
    ghost cut_within: { (keeper : Self) (at : Store) → WhereTold TELLS (IsCutWithin ((state keeper).told at)) };

    /// Each open job that is told is of an entry of its store's log.
    ghost of_entries: { (keeper : Self) (at : Store) → WhereTold TELLS (AreOfEntries ((state keeper).told at)) };
}
