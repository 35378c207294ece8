//! The tables.
use crate::rows::{AtOnce, Tables, step};
use sqlite::{Alter, Transaction};
use tao_keeper::KeepFail;

/// The lines of the stores, their last serials and the cuts of their logs.
const STORE: &str = "CREATE TABLE IF NOT EXISTS store (\
    region INTEGER NOT NULL, shard INTEGER NOT NULL, line BLOB, serial INTEGER NOT NULL, \
    cut INTEGER NOT NULL DEFAULT 0, \
    PRIMARY KEY (region, shard)) STRICT";

/// The tables of the stores. Each row names its store, by region and shard, and its key is these and what stands behind
/// them in the key. A number of 64 bits stands as the signed number of the same bits; where the order of ids counts, the
/// column `idkey` holds the id's eight bytes, the greatest first. A data is spelled as it is in an entry.
///
/// The live entries of a log stand in `log`, those up to its cut in `old_log`. An origin stands once in both. `role` has its rows under the first region;
/// what a cut back took away stands in `lost`, behind a row at position 0 without an entry, which is there also where nothing was taken.
static TABLES: [&str; 11] = [
    STORE,
    "CREATE TABLE IF NOT EXISTS object (\
        region INTEGER NOT NULL, shard INTEGER NOT NULL, id INTEGER NOT NULL, \
        otype INTEGER NOT NULL, data BLOB NOT NULL, \
        PRIMARY KEY (region, shard, id)) STRICT",
    "CREATE TABLE IF NOT EXISTS edge (\
        region INTEGER NOT NULL, shard INTEGER NOT NULL, id1 INTEGER NOT NULL, \
        atype INTEGER NOT NULL, id2 INTEGER NOT NULL, idkey BLOB NOT NULL, \
        live INTEGER NOT NULL, time INTEGER NOT NULL, number INTEGER NOT NULL, \
        sshard INTEGER NOT NULL, data BLOB NOT NULL, \
        PRIMARY KEY (region, shard, id1, atype, id2)) STRICT",
    "CREATE INDEX IF NOT EXISTS edge_order ON edge (region, shard, id1, atype, live, time, idkey)",
    "CREATE TABLE IF NOT EXISTS size (\
        region INTEGER NOT NULL, shard INTEGER NOT NULL, id1 INTEGER NOT NULL, \
        atype INTEGER NOT NULL, n INTEGER NOT NULL, \
        PRIMARY KEY (region, shard, id1, atype)) STRICT",
    "CREATE TABLE IF NOT EXISTS version (\
        region INTEGER NOT NULL, shard INTEGER NOT NULL, tag INTEGER NOT NULL, \
        id INTEGER NOT NULL, atype INTEGER NOT NULL, n INTEGER NOT NULL, \
        PRIMARY KEY (region, shard, tag, id, atype)) STRICT",
    "CREATE TABLE IF NOT EXISTS log (\
        region INTEGER NOT NULL, shard INTEGER NOT NULL, position INTEGER NOT NULL, \
        tag INTEGER NOT NULL, a INTEGER NOT NULL, b INTEGER NOT NULL, entry BLOB NOT NULL, \
        PRIMARY KEY (region, shard, position), UNIQUE (region, shard, tag, a, b)) STRICT",
    "CREATE TABLE IF NOT EXISTS job (\
        region INTEGER NOT NULL, shard INTEGER NOT NULL, position INTEGER NOT NULL, \
        edges BLOB NOT NULL, \
        PRIMARY KEY (region, shard, position)) STRICT",
    "CREATE TABLE IF NOT EXISTS old_log (\
        region INTEGER NOT NULL, shard INTEGER NOT NULL, position INTEGER NOT NULL, \
        tag INTEGER NOT NULL, a INTEGER NOT NULL, b INTEGER NOT NULL, entry BLOB NOT NULL, \
        PRIMARY KEY (region, shard, position), UNIQUE (region, shard, tag, a, b)) STRICT",
    "CREATE TABLE IF NOT EXISTS role (\
        region INTEGER NOT NULL, shard INTEGER NOT NULL, \
        epoch INTEGER NOT NULL, master INTEGER NOT NULL, \
        PRIMARY KEY (region, shard)) STRICT",
    "CREATE TABLE IF NOT EXISTS lost (\
        region INTEGER NOT NULL, shard INTEGER NOT NULL, epoch INTEGER NOT NULL, \
        position INTEGER NOT NULL, length INTEGER NOT NULL, entry BLOB, \
        PRIMARY KEY (region, shard, epoch, position)) STRICT",
];

/// What makes the table of stores anew where it lacks the column `cut`: no log is cut. A column can't be added to a table that is there, and a file whose
/// rows are from before a column with a default isn't opened.
static WITH_CUTS: [&str; 6] = [
    "CREATE TABLE store_before (\
        region INTEGER NOT NULL, shard INTEGER NOT NULL, line BLOB, serial INTEGER NOT NULL) \
        STRICT",
    "INSERT INTO store_before (region, shard, line, serial) \
        SELECT region, shard, line, serial FROM store",
    "DROP TABLE store",
    STORE,
    "INSERT INTO store (region, shard, line, serial) \
        SELECT region, shard, line, serial FROM store_before",
    "DROP TABLE store_before",
];

/// The step from the tables of an earlier program to these.
struct AddsCuts;

impl AtOnce for AddsCuts {
    fn steps<S: Alter>(&self, tx: &mut Transaction<'_, S>) -> Result<(), KeepFail> {
        for sql in WITH_CUTS.as_slice() {
            step(tx, sql, &[])?;
        }
        Ok(())
    }
}

/// Makes the tables that aren't there, and adds what those of an earlier program lack. Their rows stay.
pub(crate) fn make_tables(tables: &mut Tables) -> Result<(), KeepFail> {
    for table in TABLES.as_slice() {
        tables.run(table, &[])?;
    }
    if tables.have_columns("SELECT cut FROM store LIMIT 1")? {
        return Ok(());
    }
    tables.at_once(&AddsCuts)
}
