//! Rows of a log that are read ahead, where entries are asked for one after another.
ghost use Rattle.std.specs.Prelude.{◌≡◌, ◌≢◌, IfSome, IsNone, IsTrue, [], Some};
ghost use Rattle.keeper_sql.specs.ReadAhead.{IsRowAt};

use crate::rows::{Tables, place};
use sqlite::{Row, params};
use std::alloc::Global;
use tao_base::StoreName;
use tao_keeper::KeepFail;

/// How many rows behind the first one statement reads at most.
const BEHIND: u64 = 63;

/// A part of a log.
#[derive(Clone, Copy, PartialEq, Eq)]
pub(crate) enum Part {
    Live,
    Old,
}

impl Part {
    /// The row of the entry at a position.
    pub(crate) fn one(self) -> &'static str {
        match self {
            Part::Live =>
                "SELECT entry FROM log WHERE region = ?1 AND shard = ?2 AND position = ?3",
            Part::Old =>
                "SELECT entry FROM old_log WHERE region = ?1 AND shard = ?2 AND position = ?3",
        }
    }

    /// The rows of the entries from a position up to another, the last one first.
    fn several(self) -> &'static str {
        match self {
            Part::Live => "SELECT entry, position FROM log WHERE region = ?1 AND shard = ?2 \
                    AND position >= ?3 AND position <= ?4 ORDER BY position DESC",
            Part::Old => "SELECT entry, position FROM old_log WHERE region = ?1 AND shard = ?2 \
                    AND position >= ?3 AND position <= ?4 ORDER BY position DESC",
        }
    }
}

/// Where an entry is asked for.
#[derive(Clone, Copy, PartialEq, Eq)]
pub(crate) struct Spot {
    pub at: StoreName,
    pub part: Part,
    pub position: u64,
}

impl Spot {
    /// The one behind it.
    fn next(self) -> Spot {
        Spot {
            position: self.position.wrapping_add(1),
            ..self
        }
    }
}

/// Whether the row is that of the entry at a position.
fn stands_at(row: &Row, position: u64) -> bool
    ensures { IsTrue result → IsRowAt position row.now }
{
    match row.get::<i64>(1) {
        Ok(bits) => bits == position.cast_signed(),
        Err(_) => false,
    }
}

/// Rows that were read ahead. They are those of the tables as long as nothing is written.
#[derive(Drop)]
pub(crate) struct Ahead {
    /// The spot behind the one that was asked for last, where nothing was written since.
    pub next: Option<Spot>,
    /// The rows from there on, the first of them at the end.
    pub rows: Vec<Row>,
}

impl Ahead {
    /// No row.
    pub(crate) fn new(alloc: Global) -> Ahead
        ensures { IsNone result.next }
    {
        Ahead {
            next: None,
            rows: Vec::new(alloc),
        }
    }

    /// Whether a spot is right behind the one that was asked for last.
    fn is_next(&self, spot: Spot) -> bool
        ensures { IsTrue result → self.now.next ≡ Some spot }
    {
        self.next == Some(spot)
    }

    /// Whether a spot is the next one, and its row wasn't read.
    fn is_read_up_to(&self, spot: Spot) -> bool {
        self.rows.is_empty() && self.is_next(spot)
    }

    /// Forgets what was read: the tables are written.
    pub(crate) fn forget(&mut self)
        ensures none { IsNone self.new.next }
        ensures rows { self.new.rows.items ≡ [] }
    {
        self.next = None;
        self.rows.clear();
    }

    /// Keeps the rows that were read for a spot, and no others.
    fn turn_to(&mut self, spot: Spot)
        ensures { self.old.next ≢ Some spot → self.new.rows.items ≡ [] }
    {
        if !self.is_next(spot) {
            self.forget();
        }
    }

    /// Goes past a spot; its row, where it is the next one and was read.
    fn pass(&mut self, spot: Spot) -> Option<Row>
        ensures at { IfSome result (IsRowAt spot.position) }
        ensures others { self.old.next ≢ Some spot → IsNone result }
    {
        self.turn_to(spot);
        self.next = Some(spot.next());
        let row = self.rows.pop()?;
        if stands_at(&row, spot.position) {
            Some(row)
        } else {
            drop(row);
            None
        }
    }
}

/// The rows from a spot on.
fn rows_from(tables: &mut Tables, spot: Spot) -> Result<Vec<Row>, KeepFail> {
    let (region, shard) = place(spot.at);
    let last = spot.position.wrapping_add(BEHIND);
    tables.all(
        spot.part.several(),
        params![
            region,
            shard,
            spot.position.cast_signed(),
            last.cast_signed()
        ],
    )
}

/// Reads rows from a spot on, where it is the next one and none is left. Where that fails, none is.
fn read_ahead(tables: &mut Tables, spot: Spot) {
    if tables.ahead.is_read_up_to(spot) {
        if let Ok(rows) = rows_from(tables, spot) {
            tables.ahead.rows = rows;
        }
    }
}

/// The row of an entry, which is read alone.
fn row_alone(tables: &mut Tables, spot: Spot) -> Result<Option<Row>, KeepFail> {
    let (region, shard) = place(spot.at);
    tables.first(
        spot.part.one(),
        params![region, shard, spot.position.cast_signed()],
    )
}

/// The row of an entry: one that was read ahead, or it is read alone.
pub(crate) fn entry_row(tables: &mut Tables, spot: Spot) -> Result<Option<Row>, KeepFail> {
    read_ahead(tables, spot);
    match tables.ahead.pass(spot) {
        Some(row) => Ok(Some(row)),
        None => row_alone(tables, spot),
    }
}
