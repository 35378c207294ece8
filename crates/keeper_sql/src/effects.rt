//! What an entry leaves in the tables beside its row.
use crate::reading::key_columns;
use crate::rows::{place, step};
use entry_codec::encode_data;
use sqlite::{Alter, Transaction, params};
use std::alloc::Global;
use tao_base::{AType, Change, Edge, Entry, Id, Key, Kind, Object, Stamp, StoreName, Touch};
use tao_keeper::KeepFail;

fn put_version<S: Alter>(
    tx: &mut Transaction<'_, S>,
    at: StoreName,
    key: Key,
    version: u64,
) -> Result<(), KeepFail> {
    let (region, shard) = place(at);
    let (tag, id, atype) = key_columns(key);
    let sql = "INSERT OR REPLACE INTO version (region, shard, tag, id, atype, n) \
        VALUES (?1, ?2, ?3, ?4, ?5, ?6)";
    step(
        tx,
        sql,
        params![region, shard, tag, id, atype, version.cast_signed()],
    )
}

fn put_object<S: Alter>(
    alloc: Global,
    tx: &mut Transaction<'_, S>,
    at: StoreName,
    id: Id,
    object: &Object,
) -> Result<(), KeepFail> {
    let (region, shard) = place(at);
    let bytes = encode_data(alloc, &object.payload)?;
    let otype = i64::from(object.otype.0);
    let sql = "INSERT OR REPLACE INTO object (region, shard, id, otype, data) \
        VALUES (?1, ?2, ?3, ?4, ?5)";
    step(
        tx,
        sql,
        params![
            region,
            shard,
            id.number().cast_signed(),
            otype,
            bytes.as_slice()
        ],
    )
}

fn drop_object<S: Alter>(
    tx: &mut Transaction<'_, S>,
    at: StoreName,
    id: Id,
) -> Result<(), KeepFail> {
    let (region, shard) = place(at);
    let sql = "DELETE FROM object WHERE region = ?1 AND shard = ?2 AND id = ?3";
    step(tx, sql, params![region, shard, id.number().cast_signed()])
}

/// The serial of an object that is added is the store's last.
fn put_serial<S: Alter>(
    tx: &mut Transaction<'_, S>,
    at: StoreName,
    id: Id,
) -> Result<(), KeepFail> {
    let (region, shard) = place(at);
    let sql = "INSERT INTO store (region, shard, line, serial) VALUES (?1, ?2, NULL, ?3) \
        ON CONFLICT (region, shard) DO UPDATE SET serial = ?3";
    step(tx, sql, params![region, shard, id.serial().cast_signed()])
}

fn put_edge<S: Alter>(
    alloc: Global,
    tx: &mut Transaction<'_, S>,
    at: StoreName,
    id1: Id,
    atype: AType,
    edge: &Edge,
) -> Result<(), KeepFail> {
    let (region, shard) = place(at);
    let id1 = id1.number().cast_signed();
    let bytes = encode_data(alloc, &edge.payload)?;
    let idkey = edge.id2.number().to_be_bytes();
    let sql = "INSERT OR REPLACE INTO edge \
        (region, shard, id1, atype, id2, idkey, live, time, number, sshard, data) \
        VALUES (?1, ?2, ?3, ?4, ?5, ?6, 1, ?7, ?8, ?9, ?10)";
    step(
        tx,
        sql,
        params![
            region,
            shard,
            id1,
            i64::from(atype.0),
            edge.id2.number().cast_signed(),
            idkey.as_slice(),
            i64::from(edge.time),
            edge.stamp.number.cast_signed(),
            i64::from(edge.stamp.shard),
            bytes.as_slice()
        ],
    )
}

fn cut_edge<S: Alter>(
    tx: &mut Transaction<'_, S>,
    at: StoreName,
    id1: Id,
    atype: AType,
    id2: Id,
    stamp: &Stamp,
) -> Result<(), KeepFail> {
    let (region, shard) = place(at);
    let id1 = id1.number().cast_signed();
    let idkey = id2.number().to_be_bytes();
    let sql = "INSERT OR REPLACE INTO edge \
        (region, shard, id1, atype, id2, idkey, live, time, number, sshard, data) \
        VALUES (?1, ?2, ?3, ?4, ?5, ?6, 0, 0, ?7, ?8, x'')";
    step(
        tx,
        sql,
        params![
            region,
            shard,
            id1,
            i64::from(atype.0),
            id2.number().cast_signed(),
            idkey.as_slice(),
            stamp.number.cast_signed(),
            i64::from(stamp.shard)
        ],
    )
}

/// A list has one edge more.
fn grow<S: Alter>(
    tx: &mut Transaction<'_, S>,
    at: StoreName,
    id1: Id,
    atype: AType,
) -> Result<(), KeepFail> {
    let (region, shard) = place(at);
    let sql = "INSERT INTO size (region, shard, id1, atype, n) VALUES (?1, ?2, ?3, ?4, 1) \
        ON CONFLICT (region, shard, id1, atype) DO UPDATE SET n = n + 1";
    let id1 = id1.number().cast_signed();
    step(tx, sql, params![region, shard, id1, i64::from(atype.0)])
}

/// A list has one edge less.
fn shrink<S: Alter>(
    tx: &mut Transaction<'_, S>,
    at: StoreName,
    id1: Id,
    atype: AType,
) -> Result<(), KeepFail> {
    let (region, shard) = place(at);
    let sql = "UPDATE size SET n = n - 1 \
        WHERE region = ?1 AND shard = ?2 AND id1 = ?3 AND atype = ?4";
    let id1 = id1.number().cast_signed();
    step(tx, sql, params![region, shard, id1, i64::from(atype.0)])
}

fn change_object<S: Alter>(
    alloc: Global,
    tx: &mut Transaction<'_, S>,
    at: StoreName,
    id: Id,
    change: &Change,
) -> Result<(), KeepFail> {
    match change {
        Change::PutObject(object) => put_object(alloc, tx, at, id, object),
        Change::DropObject => drop_object(tx, at, id),
        _ => Err(KeepFail::Failed),
    }
}

fn change_list<S: Alter>(
    alloc: Global,
    tx: &mut Transaction<'_, S>,
    at: StoreName,
    id1: Id,
    atype: AType,
    change: &Change,
) -> Result<(), KeepFail> {
    match change {
        Change::SetEdge { edge, was } => {
            put_edge(alloc, tx, at, id1, atype, edge)?;
            if was.is_some() {
                return Ok(());
            }
            grow(tx, at, id1, atype)
        }
        Change::CutEdge { id2, stamp, was } => {
            cut_edge(tx, at, id1, atype, *id2, stamp)?;
            if was.is_none() {
                return Ok(());
            }
            shrink(tx, at, id1, atype)
        }
        _ => Err(KeepFail::Failed),
    }
}

fn add_touch<S: Alter>(
    alloc: Global,
    tx: &mut Transaction<'_, S>,
    at: StoreName,
    touch: &Touch,
) -> Result<(), KeepFail> {
    put_version(tx, at, touch.key, touch.version)?;
    match touch.key {
        Key::Obj(id) => change_object(alloc, tx, at, id, &touch.change),
        Key::List(id1, atype) => change_list(alloc, tx, at, id1, atype, &touch.change),
    }
}

fn add_touches<S: Alter>(
    alloc: Global,
    tx: &mut Transaction<'_, S>,
    at: StoreName,
    entry: &Entry,
) -> Result<(), KeepFail> {
    for touch in entry.touches.as_slice() {
        add_touch(alloc, tx, at, touch)?;
    }
    Ok(())
}

/// An entry that adds an object gives the store its last serial.
fn add_serial<S: Alter>(
    tx: &mut Transaction<'_, S>,
    at: StoreName,
    entry: &Entry,
) -> Result<(), KeepFail> {
    match (entry.kind, entry.touches.as_slice()) {
        (Kind::ObjAdd, [touch, ..]) => match touch.key {
            Key::Obj(id) => put_serial(tx, at, id),
            Key::List(_, _) => Err(KeepFail::Failed),
        },
        _ => Ok(()),
    }
}

/// What an entry leaves: the serial of an object that it adds, and what each of its touches makes of its key.
pub(crate) fn put_effects<S: Alter>(
    alloc: Global,
    tx: &mut Transaction<'_, S>,
    at: StoreName,
    entry: &Entry,
) -> Result<(), KeepFail> {
    add_serial(tx, at, entry)?;
    add_touches(alloc, tx, at, entry)
}

/// What takes away all that the entries of a store have left.
static WITHOUT_EFFECTS: [&str; 5] = [
    "DELETE FROM object WHERE region = ?1 AND shard = ?2",
    "DELETE FROM edge WHERE region = ?1 AND shard = ?2",
    "DELETE FROM size WHERE region = ?1 AND shard = ?2",
    "DELETE FROM version WHERE region = ?1 AND shard = ?2",
    "UPDATE store SET serial = 0 WHERE region = ?1 AND shard = ?2",
];

/// Takes away all that the entries of a store have left.
pub(crate) fn drop_effects<S: Alter>(
    tx: &mut Transaction<'_, S>,
    at: StoreName,
) -> Result<(), KeepFail> {
    let (region, shard) = place(at);
    for sql in WITHOUT_EFFECTS.as_slice() {
        step(tx, sql, params![region, shard])?;
    }
    Ok(())
}
