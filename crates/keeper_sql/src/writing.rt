//! What is written to the tables.
use crate::effects::put_effects;
use crate::reading::{length, old_origin, origin_columns, role_place};
use crate::rows::{AtOnce, Tables, place, step};
use crate::spelled::{job_bytes, job_of};
use entry_codec::Spelled;
use sqlite::{Alter, Transaction, params};
use std::alloc::Global;
use tao_base::{Bytes, Entry, StoreName};
use tao_keeper::{Commit, Job, KeepFail};

/// Keeps the line of a store that is opened first.
pub(crate) fn keep_line(tables: &mut Tables, at: StoreName, line: &[u8]) -> Result<(), KeepFail> {
    let (region, shard) = place(at);
    let sql = "INSERT INTO store (region, shard, line, serial) VALUES (?1, ?2, ?3, 0) \
        ON CONFLICT (region, shard) DO UPDATE SET line = ?3";
    tables.run(sql, params![region, shard, line])
}

/// Takes away the job of a position.
pub(crate) fn end_job(tables: &mut Tables, at: StoreName, position: u64) -> Result<(), KeepFail> {
    let (region, shard) = place(at);
    let sql = "DELETE FROM job WHERE region = ?1 AND shard = ?2 AND position = ?3";
    tables.run(sql, params![region, shard, position.cast_signed()])
}

fn add_entry<S: Alter>(
    alloc: Global,
    tx: &mut Transaction<'_, S>,
    at: StoreName,
    entry: &Entry,
) -> Result<(), KeepFail> {
    let (region, shard) = place(at);
    let (tag, a, b) = origin_columns(entry.origin);
    let bytes = entry.encode(alloc)?;
    let sql = "INSERT INTO log (region, shard, position, tag, a, b, entry) \
        VALUES (?1, ?2, ?3, ?4, ?5, ?6, ?7)";
    let position = entry.position.cast_signed();
    step(
        tx,
        sql,
        params![region, shard, position, tag, a, b, bytes.as_slice()],
    )
}

/// The bytes that a job is kept as. One whose bytes don't give it back, as no entry leaves one, is refused.
fn kept_job(alloc: Global, at: StoreName, job: &Job) -> Result<Bytes, KeepFail> {
    let bytes = job_bytes(alloc, at.shard, job)?;
    job_of(alloc, bytes.as_slice())?;
    Ok(bytes)
}

fn add_job<S: Alter>(
    alloc: Global,
    tx: &mut Transaction<'_, S>,
    at: StoreName,
    job: &Job,
) -> Result<(), KeepFail> {
    let (region, shard) = place(at);
    let bytes = kept_job(alloc, at, job)?;
    let sql = "INSERT INTO job (region, shard, position, edges) VALUES (?1, ?2, ?3, ?4)";
    step(
        tx,
        sql,
        params![region, shard, job.position.cast_signed(), bytes.as_slice()],
    )
}

/// An entry, what it leaves, and its job.
#[derive(Drop)]
struct Adding<'a> {
    alloc: Global,
    at: StoreName,
    commit: &'a Commit,
}

impl AtOnce for Adding<'_> {
    fn steps<S: Alter>(&self, tx: &mut Transaction<'_, S>) -> Result<(), KeepFail> {
        let commit = self.commit;
        add_entry(self.alloc, tx, self.at, &commit.entry)?;
        put_effects(self.alloc, tx, self.at, &commit.entry)?;
        match &commit.job {
            Some(job) => add_job(self.alloc, tx, self.at, job),
            None => Ok(()),
        }
    }
}

/// The entry at the end of the log, what it leaves, and its job, in one transaction. The table of the live entries holds no origin twice, and one of an
/// old entry is looked for here.
pub(crate) fn add(
    alloc: Global,
    tables: &mut Tables,
    at: StoreName,
    commit: &Commit,
) -> Result<(), KeepFail> {
    let last = length(tables, at)?;
    if last.wrapping_add(1) != commit.entry.position {
        return Err(KeepFail::Failed);
    }
    if old_origin(tables, at, commit.entry.origin)?.is_some() {
        return Err(KeepFail::Failed);
    }
    tables.at_once(&Adding { alloc, at, commit })
}

/// Opens the job of a position that the log has, where none is open there.
pub(crate) fn open_job(
    alloc: Global,
    tables: &mut Tables,
    at: StoreName,
    job: &Job,
) -> Result<(), KeepFail> {
    if length(tables, at)? < job.position {
        return Err(KeepFail::Failed);
    }
    let (region, shard) = place(at);
    let bytes = kept_job(alloc, at, job)?;
    let sql = "INSERT OR IGNORE INTO job (region, shard, position, edges) VALUES (?1, ?2, ?3, ?4)";
    tables.run(
        sql,
        params![region, shard, job.position.cast_signed(), bytes.as_slice()],
    )
}

/// Stores the epoch and the master region of a shard.
pub(crate) fn set_role(
    tables: &mut Tables,
    of_shard: u16,
    epoch: u64,
    master: u16,
) -> Result<(), KeepFail> {
    let (region, shard) = role_place(of_shard);
    let sql = "INSERT OR REPLACE INTO role (region, shard, epoch, master) \
        VALUES (?1, ?2, ?3, ?4)";
    tables.run(
        sql,
        params![region, shard, epoch.cast_signed(), i64::from(master)],
    )
}
