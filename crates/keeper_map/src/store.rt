//! The tables of one store, in memory.
ghost use Rattle.std.specs.Prelude.{◌≡◌, ◌<◌, ◌≤◌, ◌++◌, ◌∷◌, [], ℕ, All, IfSome, None, Some, if◌then◌else◌, is_ok, length, take};
ghost use Rattle.std.proofs.Props.{props};
ghost use Rattle.graph_model.specs.Soundness.{IsSound};
ghost use Rattle.keeper_map.specs.OpenJobs.{jobs_of};
ghost use Rattle.tao_keeper.specs.Given.{HaveSmallStamps, IsGivenJob, IsGivenRole};
ghost use Rattle.tao_keeper.specs.Table.{jobs_within, with_new_job};
ghost use Rattle.keeper_map.specs.Lost.{lost_from};
ghost use Rattle.tao_keeper.specs.declared.keeper.TheConstants.{MOST_ENTRIES};

use crate::jobs::OpenJobs;
use crate::log::entry_of;
use crate::lost::LostPart;
use log_index::IndexedLog;
use std::alloc::{AllocError, Global};
use tao_base::Entry;
use tao_keeper::{Job, MOST_ENTRIES, Opened};

/// The tables of one store.
#[derive(Drop)]
pub struct StoreTable {
    log: IndexedLog,
    cut: u64,
    jobs: OpenJobs,
    line: Option<Vec<u8>>,
    lost: Vec<LostPart>,
    role: Option<(u64, u16)>,
    ghost sound: { IsSound log } by { Prim.hlevel props },
    ghost short: { length log ≤ MOST_ENTRIES },
    ghost small: { All (λ entry. HaveSmallStamps entry.touches) log },
    ghost of_entries: { (position : ℕ) → length log < position → jobs_of jobs position ≡ None },
    ghost cut_within: { cut ≤ length log },
    ghost role_given: { IfSome role IsGivenRole } by { Prim.hlevel props },
}

impl StoreTable {
    ghost use Rattle.std.specs.Prelude.{IfOk, option_copied};
    ghost use Rattle.graph_model.specs.Soundness.{CanFollow};
    ghost use Rattle.keeper_map.specs.Store.{table_of};
    ghost use Rattle.tao_keeper.specs.Given.{IsGivenEntry};
    ghost use Rattle.tao_keeper.specs.Table.{IsLeastJob, IsJobAt, OpensAs, ReachesLive, empty_table, live_entry, old_entry};
    ghost use Rattle.tao_keeper.specs.Table.{after_commit, after_cut, after_cut_back, after_end, after_job, after_open, after_role};

    /// A store that was not opened yet.
    pub fn new(alloc: Global) -> StoreTable
        ensures { table_of result ≡ empty_table }
    {
        StoreTable {
            log: IndexedLog::new(alloc),
            cut: 0,
            jobs: OpenJobs::new(alloc),
            line: None,
            lost: Vec::new(alloc),
            role: None,
        }
    }

    pub fn log(&self) -> &IndexedLog
        ensures { result.now ≡ (table_of self.now).log }
    {
        &self.log
    }

    /// How many entries are old.
    pub fn cut_of(&self) -> u64
        ensures cut { result ≡ (table_of self.now).cut }
        ensures few { result ≤ MOST_ENTRIES }
    {
        self.cut
    }

    /// Makes this the cut.
    pub fn set_cut(&mut self, upto: u64)
        requires { ReachesLive (table_of self.old) upto }
        ensures { table_of self.new ≡ after_cut (table_of self.old) upto }
    {
        self.cut = upto;
    }

    /// The live entry at a position.
    pub fn entry(&self, position: u64) -> Option<&Entry>
        ensures entry { option_copied result ≡ live_entry (table_of self.now) position }
        ensures given { IfSome (option_copied result) IsGivenEntry }
    {
        if position <= self.cut {
            return None;
        }
        entry_of(self.log.as_slice(), position)
    }

    /// The old entry at a position.
    pub fn old_entry(&self, position: u64) -> Option<&Entry>
        ensures entry { option_copied result ≡ old_entry (table_of self.now) position }
        ensures given { IfSome (option_copied result) IsGivenEntry }
    {
        if position <= self.cut {
            return entry_of(self.log.as_slice(), position);
        }
        None
    }

    /// The epoch and the master region of the shard.
    pub fn role(&self) -> Option<(u64, u16)>
        ensures role { result ≡ (table_of self.now).role }
        ensures given { IfSome result IsGivenRole }
    {
        self.role
    }

    /// Stores the epoch and the master region of the shard.
    pub fn set_role(&mut self, epoch: u64, region: u16)
        requires { IsGivenRole (epoch, region) }
        ensures { table_of self.new ≡ after_role (table_of self.old) epoch region }
    {
        self.role = Some((epoch, region));
    }

    /// The open job of the least position.
    pub fn first_job(&self) -> Option<&Job>
        ensures job { IsLeastJob (table_of self.now).jobs (option_copied result) }
        ensures given { IfSome (option_copied result) IsGivenJob }
    {
        self.jobs.first()
    }

    /// The open job of a position.
    pub fn job(&self, position: u64) -> Option<&Job>
        ensures job { IsJobAt (table_of self.now).jobs position (option_copied result) }
        ensures given { IfSome (option_copied result) IsGivenJob }
    {
        self.jobs.at(position)
    }

    /// Ends the job of a position, where one is open.
    pub fn end_job(&mut self, position: u64)
        ensures { table_of self.new ≡ after_end (table_of self.old) position }
    {
        self.jobs.end(position);
    }

    /// Opens a job, unless one of its position is open.
    pub fn open_job(&mut self, job: Job) -> Result<(), AllocError>
        requires given { IsGivenJob job }
        requires within { job.position ≤ length (table_of self.old).log }
        ensures { table_of self.new ≡ (if is_ok result then after_job (table_of self.old) job else table_of self.old) }
    {
        self.jobs.open(job)
    }

    /// Takes away the entries past a length, with their jobs, and keeps them as a row of what was lost, where an epoch is
    /// given. An error does nothing.
    pub fn cut_back(&mut self, len: u64, row: Option<u64>) -> Result<(), AllocError>
        requires { ReachesLive (table_of self.old) len }
        ensures { table_of self.new ≡ (if is_ok result then after_cut_back (table_of self.old) len row else table_of self.old) }
    {
        lose_both(&mut self.log, &mut self.jobs, &mut self.lost, len, row)
    }

    /// Adds an entry at the end of the log, and opens its job, where it has one. An error does neither.
    pub fn add(&mut self, entry: Entry, job: Option<Job>) -> Result<(), AllocError>
        requires stamps { HaveSmallStamps entry.touches }
        requires job { IfSome job (λ job. job.position ≡ entry.position) }
        requires given { IfSome job IsGivenJob }
        requires room { length (table_of self.old).log < MOST_ENTRIES }
        requires follows { CanFollow (table_of self.old).log entry }
        ensures { table_of self.new ≡ (if is_ok result then after_commit (table_of self.old) entry job else table_of self.old) }
    {
        push_both(&mut self.log, &mut self.jobs, entry, job)
    }

    /// Opens the store with a line. It keeps the first that it was opened with.
    pub fn open(&mut self, alloc: Global, line: &[u8]) -> Result<Opened, AllocError>
        ensures answer { IfOk result (λ opened. OpensAs opened (table_of self.old) line.now) }
        ensures table { table_of self.new ≡ (if is_ok result then after_open (table_of self.old) line.now else table_of self.old) }
    {
        match &self.line {
            Some(first) => {
                if first.as_slice() == line {
                    Ok(Opened::Ready)
                } else {
                    Ok(Opened::OtherLine)
                }
            }
            None => {
                self.line = Some(Vec::from_slice(alloc, line)?);
                Ok(Opened::Ready)
            }
        }
    }
}

/// Adds an entry at the end of a log and opens its job, where it has one, or does neither.
fn push_both(
    log: &mut IndexedLog,
    jobs: &mut OpenJobs,
    entry: Entry,
    job: Option<Job>,
) -> Result<(), AllocError>
    requires given { IfSome job IsGivenJob }
    requires last { IfSome job (λ job. (position : ℕ) → job.position ≤ position → jobs_of jobs.old position ≡ None) }
    ensures log { log.new ≡ (if is_ok result then log.old ++ entry ∷ [] else log.old) }
    ensures jobs { jobs_of jobs.new ≡ (if is_ok result then with_new_job (jobs_of jobs.old) job else jobs_of jobs.old) }
{
    match job {
        Some(job) => push_with_job(log, jobs, entry, job),
        None => log.push(entry),
    }
}

fn push_with_job(
    log: &mut IndexedLog,
    jobs: &mut OpenJobs,
    entry: Entry,
    job: Job,
) -> Result<(), AllocError>
    requires given { IsGivenJob job }
    requires last { (position : ℕ) → job.position ≤ position → jobs_of jobs.old position ≡ None }
    ensures log { log.new ≡ (if is_ok result then log.old ++ entry ∷ [] else log.old) }
    ensures jobs { jobs_of jobs.new ≡ (if is_ok result then with_new_job (jobs_of jobs.old) (Some job) else jobs_of jobs.old) }
{
    let position = job.position;
    jobs.open(job)?;
    let pushed = log.push(entry);
    if pushed.is_err() {
        jobs.end(position);
    }
    pushed
}

/// Takes away the entries past a length, with their jobs, and keeps them as a row where an epoch is given, or does nothing.
fn lose_both(
    log: &mut IndexedLog,
    jobs: &mut OpenJobs,
    lost: &mut Vec<LostPart>,
    len: u64,
    row: Option<u64>,
) -> Result<(), AllocError>
    requires { len ≤ length log.old }
    ensures log { log.new ≡ (if is_ok result then take len log.old else log.old) }
    ensures jobs { jobs_of jobs.new ≡ (if is_ok result then jobs_within (jobs_of jobs.old) len else jobs_of jobs.old) }
    ensures lost { lost.new.items ≡ (if is_ok result then lost_from log.old lost.old.items len row else lost.old.items) }
{
    lose(log, lost, len, row)?;
    jobs.end_past(len);
    Ok(())
}

fn lose(
    log: &mut IndexedLog,
    lost: &mut Vec<LostPart>,
    len: u64,
    row: Option<u64>,
) -> Result<(), AllocError>
    requires { len ≤ length log.old }
    ensures log { log.new ≡ (if is_ok result then take len log.old else log.old) }
    ensures lost { lost.new.items ≡ (if is_ok result then lost_from log.old lost.old.items len row else lost.old.items) }
{
    match row {
        Some(epoch) => lose_to_row(log, lost, len, epoch),
        None => {
            log.truncate(len);
            Ok(())
        }
    }
}

fn lose_to_row(
    log: &mut IndexedLog,
    lost: &mut Vec<LostPart>,
    len: u64,
    epoch: u64,
) -> Result<(), AllocError>
    requires { len ≤ length log.old }
    ensures log { log.new ≡ (if is_ok result then take len log.old else log.old) }
    ensures lost { lost.new.items ≡ (if is_ok result then lost_from log.old lost.old.items len (Some epoch) else lost.old.items) }
{
    lost.reserve(1)?;
    let entries = log.split_off(len)?;
    let part = LostPart {
        epoch,
        length: len,
        entries,
    };
    if lost.push(part).is_err() {
        unreachable!();
    }
    Ok(())
}
