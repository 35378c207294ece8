//! Logs in two parts, and logs that are cut back.
use crate::ahead::Part;
use crate::columns::fail_of;
use crate::effects::{drop_effects, put_effects};
use crate::reading::{self, cut_of, entry_of};
use crate::rows::{AtOnce, Tables, place, step};
use sqlite::{Alter, Transaction, params};
use std::alloc::Global;
use tao_base::StoreName;
use tao_keeper::KeepFail;

/// A cut: what stands up to it goes over to the old entries.
#[derive(Drop)]
struct Cutting {
    at: StoreName,
    upto: u64,
}

impl AtOnce for Cutting {
    fn steps<S: Alter>(&self, tx: &mut Transaction<'_, S>) -> Result<(), KeepFail> {
        let (region, shard) = place(self.at);
        let upto = self.upto.cast_signed();
        let copied = "INSERT INTO old_log (region, shard, position, tag, a, b, entry) \
            SELECT region, shard, position, tag, a, b, entry FROM log \
            WHERE region = ?1 AND shard = ?2 AND position <= ?3";
        step(tx, copied, params![region, shard, upto])?;
        let gone = "DELETE FROM log WHERE region = ?1 AND shard = ?2 AND position <= ?3";
        step(tx, gone, params![region, shard, upto])?;
        let moved = "INSERT INTO store (region, shard, line, serial, cut) \
            VALUES (?1, ?2, NULL, 0, ?3) ON CONFLICT (region, shard) DO UPDATE SET cut = ?3";
        step(tx, moved, params![region, shard, upto])
    }
}

/// Makes the live entries up to a position old ones, in one transaction. A cut below the one that stands, or past the end of the log, is refused.
///
/// A cut of n entries writes their n rows into one table and deletes them in another. Over a file that takes time, memory and room in the file's log by the
/// bytes of these entries, however long the log is. Over memory, whose tables are rows in their order, each deleted row costs the length of the table.
pub(crate) fn cut(tables: &mut Tables, at: StoreName, upto: u64) -> Result<(), KeepFail> {
    if upto < cut_of(tables, at)? || reading::length(tables, at)? < upto {
        return Err(KeepFail::Failed);
    }
    tables.at_once(&Cutting { at, upto })
}

/// Keeps what is lost at an epoch: how many entries stay, in a row at position 0, and each of those that lie past them.
fn keep_lost<S: Alter>(
    tx: &mut Transaction<'_, S>,
    at: StoreName,
    epoch: u64,
    length: u64,
) -> Result<(), KeepFail> {
    let (region, shard) = place(at);
    let (epoch, length) = (epoch.cast_signed(), length.cast_signed());
    let head = "INSERT INTO lost (region, shard, epoch, position, length, entry) \
        VALUES (?1, ?2, ?3, 0, ?4, NULL)";
    step(tx, head, params![region, shard, epoch, length])?;
    let entries = "INSERT INTO lost (region, shard, epoch, position, length, entry) \
        SELECT region, shard, ?3, position, ?4, entry FROM log \
        WHERE region = ?1 AND shard = ?2 AND position > ?4";
    step(tx, entries, params![region, shard, epoch, length])
}

/// Takes away the entries past a length, and their jobs.
fn drop_past<S: Alter>(
    tx: &mut Transaction<'_, S>,
    at: StoreName,
    length: u64,
) -> Result<(), KeepFail> {
    let (region, shard) = place(at);
    let length = length.cast_signed();
    let entries = "DELETE FROM log WHERE region = ?1 AND shard = ?2 AND position > ?3";
    step(tx, entries, params![region, shard, length])?;
    let jobs = "DELETE FROM job WHERE region = ?1 AND shard = ?2 AND position > ?3";
    step(tx, jobs, params![region, shard, length])
}

/// Puts what the entry at a position leaves, which the query gives the row of.
fn put_again<S: Alter>(
    alloc: Global,
    tx: &mut Transaction<'_, S>,
    at: StoreName,
    position: u64,
    sql: &str,
) -> Result<(), KeepFail> {
    let (region, shard) = place(at);
    match tx.query_row(sql, params![region, shard, position.cast_signed()]) {
        Ok(row) => put_effects(alloc, tx, at, &entry_of(alloc, &row, position)?),
        Err(error) => Err(fail_of(error)),
    }
}

/// What lies past a length goes: of a log of that cut, which ended at the last position. With an epoch it is kept as lost.
#[derive(Drop)]
struct CuttingBack {
    alloc: Global,
    at: StoreName,
    cut: u64,
    length: u64,
    last: u64,
    row: Option<u64>,
}

impl CuttingBack {
    /// Makes what entries leave anew, from those that stay, old and live, in their order.
    fn renew<S: Alter>(&self, tx: &mut Transaction<'_, S>) -> Result<(), KeepFail> {
        drop_effects(tx, self.at)?;
        for before in 0..self.length {
            let position = before + 1;
            let part = if position <= self.cut {
                Part::Old
            } else {
                Part::Live
            };
            put_again(self.alloc, tx, self.at, position, part.one())?;
        }
        Ok(())
    }
}

impl AtOnce for CuttingBack {
    fn steps<S: Alter>(&self, tx: &mut Transaction<'_, S>) -> Result<(), KeepFail> {
        if let Some(epoch) = self.row {
            keep_lost(tx, self.at, epoch, self.length)?;
        }
        if self.length == self.last {
            return Ok(());
        }
        drop_past(tx, self.at, self.length)?;
        self.renew(tx)
    }
}

/// Takes away what lies past a length, in one transaction. A length below the cut, or past the end of the log, is refused.
///
/// Where anything is taken away, what the other entries leave is put anew, one entry after another: in the time of committing them all at once.
pub(crate) fn cut_back(
    alloc: Global,
    tables: &mut Tables,
    at: StoreName,
    length: u64,
    row: Option<u64>,
) -> Result<(), KeepFail> {
    let cut = cut_of(tables, at)?;
    let last = reading::length(tables, at)?;
    if length < cut || last < length {
        return Err(KeepFail::Failed);
    }
    tables.at_once(&CuttingBack {
        alloc,
        at,
        cut,
        length,
        last,
        row,
    })
}
