//! A file that an earlier program wrote opens as it is.
use crate::asking::{Call, answered};
use crate::files::{FOUND, LINE, ROWS, alter_all, number_in, opens, remove};
use std::test::Fail;
use tao_keeper::Opened;

/// The tables as they were made before logs were cut and shards promoted.
const TABLES: [&str; 8] = [
    "CREATE TABLE IF NOT EXISTS store (\
        region INTEGER NOT NULL, shard INTEGER NOT NULL, line BLOB, serial INTEGER NOT NULL, \
        PRIMARY KEY (region, shard)) STRICT",
    "CREATE TABLE IF NOT EXISTS object (\
        region INTEGER NOT NULL, shard INTEGER NOT NULL, id INTEGER NOT NULL, \
        otype INTEGER NOT NULL, data BLOB NOT NULL, \
        PRIMARY KEY (region, shard, id)) STRICT",
    "CREATE TABLE IF NOT EXISTS edge (\
        region INTEGER NOT NULL, shard INTEGER NOT NULL, id1 INTEGER NOT NULL, \
        atype INTEGER NOT NULL, id2 INTEGER NOT NULL, idkey BLOB NOT NULL, \
        live INTEGER NOT NULL, time INTEGER NOT NULL, number INTEGER NOT NULL, \
        sshard INTEGER NOT NULL, data BLOB NOT NULL, \
        PRIMARY KEY (region, shard, id1, atype, id2)) STRICT",
    "CREATE INDEX IF NOT EXISTS edge_order ON edge (region, shard, id1, atype, live, time, idkey)",
    "CREATE TABLE IF NOT EXISTS size (\
        region INTEGER NOT NULL, shard INTEGER NOT NULL, id1 INTEGER NOT NULL, \
        atype INTEGER NOT NULL, n INTEGER NOT NULL, \
        PRIMARY KEY (region, shard, id1, atype)) STRICT",
    "CREATE TABLE IF NOT EXISTS version (\
        region INTEGER NOT NULL, shard INTEGER NOT NULL, tag INTEGER NOT NULL, \
        id INTEGER NOT NULL, atype INTEGER NOT NULL, n INTEGER NOT NULL, \
        PRIMARY KEY (region, shard, tag, id, atype)) STRICT",
    "CREATE TABLE IF NOT EXISTS log (\
        region INTEGER NOT NULL, shard INTEGER NOT NULL, position INTEGER NOT NULL, \
        tag INTEGER NOT NULL, a INTEGER NOT NULL, b INTEGER NOT NULL, entry BLOB NOT NULL, \
        PRIMARY KEY (region, shard, position), UNIQUE (region, shard, tag, a, b)) STRICT",
    "CREATE TABLE IF NOT EXISTS job (\
        region INTEGER NOT NULL, shard INTEGER NOT NULL, position INTEGER NOT NULL, \
        edges BLOB NOT NULL, \
        PRIMARY KEY (region, shard, position)) STRICT",
];

/// The lines of two stores, the first of which has `LINE`.
const LINES: [&str; 2] = [
    "INSERT INTO store (region, shard, line, serial) VALUES (0, 0, x'61', 0)",
    "INSERT INTO store (region, shard, line, serial) VALUES (0, 1, NULL, 7)",
];

#[test]
fn a_file_of_an_earlier_program_opens(rt: HostRuntime) -> Result<(), Fail> {
    let path = "earlier.test.db";
    remove(&rt, path)?;
    assert!(rt; alter_all(&rt, path, &TABLES) && alter_all(&rt, path, &LINES));
    assert!(rt; alter_all(&rt, path, &ROWS));
    assert!(rt; opens(&rt, path, LINE, Opened::Ready));
    assert!(rt; opens(&rt, path, b"b", Opened::OtherLine));
    assert_eq!(rt; answered(&rt, path, &FOUND), FOUND.len());
    let sql = "SELECT count(*) FROM store WHERE cut = 0 AND serial = 1";
    assert_eq!(rt; number_in(&rt, path, sql), Some(2));
    remove(&rt, path)
}
