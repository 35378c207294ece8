//! What is read of the tables.
ghost use Rattle.std.specs.Prelude.{◌≡◌, ◌<◌, ◌≤◌, IfOk, IfSome};
ghost use Rattle.graph_model.specs.Edges.{number_of};
ghost use Rattle.tao_keeper.specs.Given.{AreGiven, IsGivenEntry, IsGivenJob, IsGivenRole, IsPosition};

use crate::ahead::{Part, Spot, entry_row};
use crate::columns::{bytes, id, maybe_bytes, number, short, word};
use crate::rows::{Tables, place};
use crate::{given, spelled};
use sqlite::{Row, params};
use std::alloc::Global;
use tao_base::{
    AType, Edge, EdgeState, Edges, Entry, Id, Key, OType, Object, Origin, Stamp, StoreName,
};
use tao_keeper::{Job, KeepFail, MOST_ENTRIES, SERIAL_LIMIT, STAMP_LIMIT};

/// The line that a store was first opened with, where it was.
pub(crate) fn first_line(tables: &mut Tables, at: StoreName) -> Result<Option<Vec<u8>>, KeepFail> {
    let (region, shard) = place(at);
    let sql = "SELECT line FROM store WHERE region = ?1 AND shard = ?2";
    match tables.first(sql, params![region, shard])? {
        Some(row) => maybe_bytes(&row, 0),
        None => Ok(None),
    }
}

/// A stamp, in two columns from a place on.
fn stamp(row: &Row, at: usize) -> Result<Stamp, KeepFail>
    requires { at < 64 }
{
    Ok(Stamp {
        number: number(row, at)?,
        shard: short(row, at + 1)?,
    })
}

/// The record of a row: whether it is live, its time, its stamp and its data.
fn record_of(alloc: Global, row: &Row) -> Result<EdgeState, KeepFail> {
    let stamp = stamp(row, 2)?;
    match number(row, 0)? {
        0 => Ok(EdgeState::Cut { stamp }),
        1 => Ok(EdgeState::Live {
            time: word(row, 1)?,
            payload: spelled::data_of(alloc, &bytes(row, 4)?)?,
            stamp,
        }),
        _ => Err(KeepFail::Failed),
    }
}

/// The row of an edge.
fn edge_row(
    tables: &mut Tables,
    at: StoreName,
    id1: Id,
    atype: AType,
    id2: Id,
) -> Result<Option<Row>, KeepFail> {
    let (region, shard) = place(at);
    let (id1, id2) = (id1.number().cast_signed(), id2.number().cast_signed());
    let sql = "SELECT live, time, number, sshard, data FROM edge \
        WHERE region = ?1 AND shard = ?2 AND id1 = ?3 AND atype = ?4 AND id2 = ?5";
    tables.first(sql, params![region, shard, id1, i64::from(atype.0), id2])
}

/// The record of an edge.
pub(crate) fn edge(
    alloc: Global,
    tables: &mut Tables,
    at: StoreName,
    id1: Id,
    atype: AType,
    id2: Id,
) -> Result<Option<EdgeState>, KeepFail>
    ensures { IfOk result (λ found. number_of found < STAMP_LIMIT) }
{
    match edge_row(tables, at, id1, atype, id2)? {
        Some(row) => Ok(Some(given::state(record_of(alloc, &row)?)?)),
        None => Ok(None),
    }
}

/// The rows of a list's live edges at the places from `pos` on, at most `most`.
fn edge_rows(
    tables: &mut Tables,
    at: StoreName,
    id1: Id,
    atype: AType,
    pos: u64,
    most: u64,
) -> Result<Vec<Row>, KeepFail> {
    let (region, shard) = place(at);
    let id1 = id1.number().cast_signed();
    let (pos, most) = (pos.min(MOST_ENTRIES) as i64, most.min(MOST_ENTRIES) as i64);
    let sql = "SELECT id2, time, number, sshard, data FROM edge \
        WHERE region = ?1 AND shard = ?2 AND id1 = ?3 AND atype = ?4 AND live = 1 \
        ORDER BY time DESC, idkey DESC LIMIT ?5 OFFSET ?6";
    tables.all(
        sql,
        params![region, shard, id1, i64::from(atype.0), most, pos],
    )
}

fn edge_of(alloc: Global, row: &Row) -> Result<Edge, KeepFail> {
    Ok(Edge {
        id2: id(row, 0)?,
        time: word(row, 1)?,
        payload: spelled::data_of(alloc, &bytes(row, 4)?)?,
        stamp: stamp(row, 2)?,
    })
}

/// The live edges of a list at the places from `pos` on, at most `most`.
pub(crate) fn edges(
    alloc: Global,
    tables: &mut Tables,
    at: StoreName,
    id1: Id,
    atype: AType,
    pos: u64,
    most: u64,
) -> Result<Edges, KeepFail>
    ensures { IfOk result (AreGiven most) }
{
    let rows = edge_rows(tables, at, id1, atype, pos, most)?;
    let mut edges = Vec::new(alloc);
    for row in &rows {
        edges.push(edge_of(alloc, row)?)?;
    }
    given::edges(edges, most)
}

fn object_of(alloc: Global, row: &Row) -> Result<Object, KeepFail> {
    Ok(Object {
        otype: OType(short(row, 0)?),
        payload: spelled::data_of(alloc, &bytes(row, 1)?)?,
    })
}

/// The object of an id.
pub(crate) fn object(
    alloc: Global,
    tables: &mut Tables,
    at: StoreName,
    id: Id,
) -> Result<Option<Object>, KeepFail> {
    let (region, shard) = place(at);
    let sql = "SELECT otype, data FROM object WHERE region = ?1 AND shard = ?2 AND id = ?3";
    match tables.first(sql, params![region, shard, id.number().cast_signed()])? {
        Some(row) => Ok(Some(object_of(alloc, &row)?)),
        None => Ok(None),
    }
}

/// The number in the first column, 0 where there is no row.
fn number_or_none(row: Option<Row>) -> Result<u64, KeepFail> {
    match row {
        Some(row) => number(&row, 0),
        None => Ok(0),
    }
}

/// The length of a list.
pub(crate) fn count(
    tables: &mut Tables,
    at: StoreName,
    id1: Id,
    atype: AType,
) -> Result<u64, KeepFail>
    ensures { IfOk result (λ count. count ≤ MOST_ENTRIES) }
{
    let (region, shard) = place(at);
    let id1 = id1.number().cast_signed();
    let sql = "SELECT n FROM size WHERE region = ?1 AND shard = ?2 AND id1 = ?3 AND atype = ?4";
    let row = tables.first(sql, params![region, shard, id1, i64::from(atype.0)])?;
    given::few(number_or_none(row)?)
}

/// A key as it stands in rows: its tag, its id and its type.
pub(crate) fn key_columns(key: Key) -> (i64, i64, i64) {
    match key {
        Key::Obj(id) => (1, id.number().cast_signed(), 0),
        Key::List(id, atype) => (2, id.number().cast_signed(), i64::from(atype.0)),
    }
}

/// The version of a key.
pub(crate) fn version(tables: &mut Tables, at: StoreName, key: Key) -> Result<u64, KeepFail>
    ensures { IfOk result (λ count. count ≤ MOST_ENTRIES) }
{
    let (region, shard) = place(at);
    let (tag, id, atype) = key_columns(key);
    let sql = "SELECT n FROM version \
        WHERE region = ?1 AND shard = ?2 AND tag = ?3 AND id = ?4 AND atype = ?5";
    let row = tables.first(sql, params![region, shard, tag, id, atype])?;
    given::few(number_or_none(row)?)
}

/// The greatest position that a query gives, 0 where there is none.
fn last_position(tables: &mut Tables, at: StoreName, sql: &str) -> Result<u64, KeepFail>
    ensures { IfOk result (λ count. count ≤ MOST_ENTRIES) }
{
    let (region, shard) = place(at);
    let row = tables.first(sql, params![region, shard])?;
    given::few(number_or_none(row)?)
}

/// The length of the log: where its last live entry stands, or where none is live its last old one.
pub(crate) fn length(tables: &mut Tables, at: StoreName) -> Result<u64, KeepFail>
    ensures { IfOk result (λ count. count ≤ MOST_ENTRIES) }
{
    let live = "SELECT position FROM log WHERE region = ?1 AND shard = ?2 \
        ORDER BY position DESC LIMIT 1";
    let last = last_position(tables, at, live)?;
    if last > 0 {
        return Ok(last);
    }
    let old = "SELECT position FROM old_log WHERE region = ?1 AND shard = ?2 \
        ORDER BY position DESC LIMIT 1";
    last_position(tables, at, old)
}

/// The cut of the log.
pub(crate) fn cut_of(tables: &mut Tables, at: StoreName) -> Result<u64, KeepFail>
    ensures { IfOk result (λ cut. cut ≤ MOST_ENTRIES) }
{
    let (region, shard) = place(at);
    let sql = "SELECT cut FROM store WHERE region = ?1 AND shard = ?2";
    let row = tables.first(sql, params![region, shard])?;
    given::few(number_or_none(row)?)
}

/// The entry of a row, which has to stand at that position.
pub(crate) fn entry_of(alloc: Global, row: &Row, position: u64) -> Result<Entry, KeepFail>
    ensures given { IfOk result IsGivenEntry }
    ensures at { IfOk result (λ entry. entry.position ≡ position) }
{
    let entry = spelled::entry_of(alloc, &bytes(row, 0)?)?;
    given::entry(entry, position)
}

/// The entry at a position of a part of the log.
fn entry_in(
    alloc: Global,
    tables: &mut Tables,
    at: StoreName,
    position: u64,
    part: Part,
) -> Result<Option<Entry>, KeepFail>
    ensures given { IfOk result (λ found. IfSome found IsGivenEntry) }
    ensures at { IfOk result (λ found. IfSome found (λ entry. entry.position ≡ position)) }
{
    match entry_row(tables, Spot { at, part, position })? {
        Some(row) => Ok(Some(entry_of(alloc, &row, position)?)),
        None => Ok(None),
    }
}

/// The live entry at a position.
pub(crate) fn entry(
    alloc: Global,
    tables: &mut Tables,
    at: StoreName,
    position: u64,
) -> Result<Option<Entry>, KeepFail>
    ensures given { IfOk result (λ found. IfSome found IsGivenEntry) }
    ensures at { IfOk result (λ found. IfSome found (λ entry. entry.position ≡ position)) }
{
    entry_in(alloc, tables, at, position, Part::Live)
}

/// The old entry at a position.
pub(crate) fn old_entry(
    alloc: Global,
    tables: &mut Tables,
    at: StoreName,
    position: u64,
) -> Result<Option<Entry>, KeepFail>
    ensures given { IfOk result (λ found. IfSome found IsGivenEntry) }
    ensures at { IfOk result (λ found. IfSome found (λ entry. entry.position ≡ position)) }
{
    entry_in(alloc, tables, at, position, Part::Old)
}

/// The serial of the last object that was added.
pub(crate) fn last_serial(tables: &mut Tables, at: StoreName) -> Result<u64, KeepFail>
    ensures { IfOk result (λ serial. serial < SERIAL_LIMIT) }
{
    let (region, shard) = place(at);
    let sql = "SELECT serial FROM store WHERE region = ?1 AND shard = ?2";
    let row = tables.first(sql, params![region, shard])?;
    given::serial(number_or_none(row)?)
}

/// An origin as it stands in rows: its tag and its two parts.
pub(crate) fn origin_columns(origin: Origin) -> (i64, i64, i64) {
    match origin {
        Origin::Client { session, seq } => (1, i64::from(session), seq.cast_signed()),
        Origin::Merge { shard, position } => (2, i64::from(shard), position.cast_signed()),
    }
}

/// Where the entry of an origin stands, in that part of the log of which the query gives the row.
fn origin_by(
    tables: &mut Tables,
    at: StoreName,
    origin: Origin,
    sql: &str,
) -> Result<Option<u64>, KeepFail>
    ensures { IfOk result (λ found. IfSome found IsPosition) }
{
    let (region, shard) = place(at);
    let (tag, a, b) = origin_columns(origin);
    match tables.first(sql, params![region, shard, tag, a, b])? {
        Some(row) => Ok(Some(given::position(number(&row, 0)?)?)),
        None => Ok(None),
    }
}

/// Where the old entry of an origin stands.
pub(crate) fn old_origin(
    tables: &mut Tables,
    at: StoreName,
    origin: Origin,
) -> Result<Option<u64>, KeepFail>
    ensures { IfOk result (λ found. IfSome found IsPosition) }
{
    let sql = "SELECT position FROM old_log \
        WHERE region = ?1 AND shard = ?2 AND tag = ?3 AND a = ?4 AND b = ?5";
    origin_by(tables, at, origin, sql)
}

/// Where the entry of an origin stands, live or old.
pub(crate) fn origin(
    tables: &mut Tables,
    at: StoreName,
    origin: Origin,
) -> Result<Option<u64>, KeepFail>
    ensures { IfOk result (λ found. IfSome found IsPosition) }
{
    let sql = "SELECT position FROM log \
        WHERE region = ?1 AND shard = ?2 AND tag = ?3 AND a = ?4 AND b = ?5";
    match origin_by(tables, at, origin, sql)? {
        Some(position) => Ok(Some(position)),
        None => old_origin(tables, at, origin),
    }
}

/// Where the epoch and the master region of a shard are kept: with the first region's store.
pub(crate) fn role_place(shard: u16) -> (i64, i64) {
    place(StoreName { region: 0, shard })
}

/// The epoch and the master region of a shard, where they were stored.
pub(crate) fn role(tables: &mut Tables, of_shard: u16) -> Result<Option<(u64, u16)>, KeepFail>
    ensures { IfOk result (λ role. IfSome role IsGivenRole) }
{
    let (region, shard) = role_place(of_shard);
    let sql = "SELECT epoch, master FROM role WHERE region = ?1 AND shard = ?2";
    match tables.first(sql, params![region, shard])? {
        Some(row) => Ok(Some(given::role(number(&row, 0)?, short(&row, 1)?)?)),
        None => Ok(None),
    }
}

/// The job of a row, where there is one.
fn job_of(alloc: Global, row: Option<Row>) -> Result<Option<Job>, KeepFail>
    ensures { IfOk result (λ found. IfSome found IsGivenJob) }
{
    match row {
        Some(row) => {
            let job = spelled::job_of(alloc, &bytes(&row, 1)?)?;
            Ok(Some(given::job(job, number(&row, 0)?)?))
        }
        None => Ok(None),
    }
}

/// The open job of the least position.
pub(crate) fn first_job(
    alloc: Global,
    tables: &mut Tables,
    at: StoreName,
) -> Result<Option<Job>, KeepFail>
    ensures { IfOk result (λ found. IfSome found IsGivenJob) }
{
    let (region, shard) = place(at);
    let sql = "SELECT position, edges FROM job WHERE region = ?1 AND shard = ?2 \
        ORDER BY position LIMIT 1";
    let row = tables.first(sql, params![region, shard])?;
    job_of(alloc, row)
}

/// The open job of a position.
pub(crate) fn job(
    alloc: Global,
    tables: &mut Tables,
    at: StoreName,
    position: u64,
) -> Result<Option<Job>, KeepFail>
    ensures { IfOk result (λ found. IfSome found IsGivenJob) }
{
    let (region, shard) = place(at);
    let sql = "SELECT position, edges FROM job WHERE region = ?1 AND shard = ?2 AND position = ?3";
    let row = tables.first(sql, params![region, shard, position.cast_signed()])?;
    job_of(alloc, row)
}
