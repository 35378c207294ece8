//! Tables in a file are found again.
ghost use Rattle.std.specs.Prelude.{◌≡◌, IfOk, IfSome};
ghost use Rattle.tao_keeper.specs.Given.{HaveSmallStamps, IsGivenJob};

use crate::asking::{AT, Call, answered};
use keeper_sql::SqlKeeper;
use sqlite::{Connection, File, FileStore};
use std::alloc::{AllocError, Global};
use std::fs;
use std::test::Fail;
use tao_base::{AType, Change, EdgeState, Entry, Id, Key, Kind, Origin, Stamp, Touch, Touches};
use tao_keeper::{Commit, Job, JobEdges, KeepFail, Keeper, Opened};

/// The line that the store is opened with first.
pub const LINE: &[u8] = b"a";

/// The rows of the store, as any program may write them: an object, its edges to 2 and to 3, and the job that the second of these left.
pub const ROWS: [&str; 10] = [
    "UPDATE store SET serial = 1",
    "INSERT INTO object (region, shard, id, otype, data) VALUES (0, 0, 1, 515, x'010001610000')",
    "INSERT INTO edge (region, shard, id1, atype, id2, idkey, live, time, number, sshard, data) \
        VALUES (0, 0, 1, 0, 2, x'0000000000000002', 1, 5, 2, 0, x'00')",
    "INSERT INTO edge (region, shard, id1, atype, id2, idkey, live, time, number, sshard, data) \
        VALUES (0, 0, 1, 0, 3, x'0000000000000003', 1, 5, 3, 0, x'00')",
    "INSERT INTO size (region, shard, id1, atype, n) VALUES (0, 0, 1, 0, 2)",
    "INSERT INTO version (region, shard, tag, id, atype, n) VALUES (0, 0, 2, 1, 0, 2)",
    "INSERT INTO log (region, shard, position, tag, a, b, entry) VALUES (0, 0, 1, 1, 1, 1, \
        x'000000000000000101000000010000000000000001010100000000000000010000000000000001010203010001610000')",
    "INSERT INTO log (region, shard, position, tag, a, b, entry) VALUES (0, 0, 2, 1, 1, 2, \
        x'000000000000000204000000010000000000000002010200000000000000010000000000000000000103000000000000\
        000200000005000000000000000200000000')",
    "INSERT INTO log (region, shard, position, tag, a, b, entry) VALUES (0, 0, 3, 1, 1, 3, \
        x'000000000000000304000000010000000000000003010200000000000000010000000000000000000203000000000000\
        000300000005000000000000000300000000')",
    "INSERT INTO job (region, shard, position, edges) VALUES (0, 0, 3, \
        x'000000000000000307000000000000000000000003010200000000000000030001000000000000000103000000000000\
        000100000005000000000000000300000000')",
];

/// What is answered of these rows.
pub const FOUND: [(Call, u64); 19] = [
    (Call::Length, 3),
    (Call::LastSerial, 1),
    (Call::Entry(1), 1),
    (Call::Entry(2), 2),
    (Call::Entry(3), 3),
    (Call::Entry(4), 0),
    (Call::Origin(2), 2),
    (Call::FirstJob, 3),
    (Call::Job(3), 3),
    (Call::Object, 515),
    (Call::Edge(2), 5),
    (Call::Edge(4), 0),
    (Call::Edges, 32),
    (Call::Count, 2),
    (Call::Version, 2),
    (Call::CutOf, 0),
    (Call::OldEntry(1), 0),
    (Call::Role, 0),
    (Call::Length, 3),
];

/// What is answered once the edge to 3 was deleted, and its job ended.
const FOUND_LATER: [(Call, u64); 11] = [
    (Call::Length, 4),
    (Call::LastSerial, 1),
    (Call::Entry(4), 4),
    (Call::Origin(4), 4),
    (Call::FirstJob, 4),
    (Call::Job(3), 0),
    (Call::Object, 515),
    (Call::Edge(3), 0),
    (Call::Edges, 2),
    (Call::Count, 1),
    (Call::Version, 3),
];

/// Takes a file away, with what stands beside it. That there is none is no fault.
pub fn remove(rt: &HostRuntime, path: &str) -> Result<(), Fail> {
    let log = format!(in rt.alloc(); "{path}-wal")?;
    let _ = fs::remove_file(rt, path);
    let _ = fs::remove_file(rt, log.as_str());
    Ok(())
}

/// Whether a statement over the file was done.
pub fn alter(rt: &HostRuntime, path: &str, sql: &str) -> bool {
    match Connection::open(rt, path) {
        Ok(conn) => {
            let mut conn = conn;
            let done = conn.execute(sql, &[]).is_ok();
            conn.close().is_ok() && done
        }
        Err(_) => false,
    }
}

/// Whether the statements were done, over one connection.
fn are_done(conn: &mut Connection<FileStore<File>>, texts: &[&str]) -> bool {
    for sql in texts {
        if conn.execute(sql, &[]).is_err() {
            return false;
        }
    }
    true
}

/// Whether the statements over the file were done.
pub fn alter_all(rt: &HostRuntime, path: &str, texts: &[&str]) -> bool {
    match Connection::open(rt, path) {
        Ok(conn) => {
            let mut conn = conn;
            let done = are_done(&mut conn, texts);
            conn.close().is_ok() && done
        }
        Err(_) => false,
    }
}

/// The number that a query of the file gives.
pub fn number_in(rt: &HostRuntime, path: &str, sql: &str) -> Option<i64> {
    match Connection::open(rt, path) {
        Ok(conn) => {
            let mut conn = conn;
            let found = conn.query_row(sql, &[]).and_then(|row| row.get(0));
            let closed = conn.close();
            found.ok().filter(|_| closed.is_ok())
        }
        Err(_) => None,
    }
}

/// Whether a store of the file takes this line.
pub fn opens(rt: &HostRuntime, path: &str, line: &[u8], wanted: Opened) -> bool {
    match SqlKeeper::open_file(rt, path) {
        Ok(keepers) => {
            let mut keepers = keepers;
            let opened = keepers.open(AT, line);
            keepers.close();
            opened == Ok(wanted)
        }
        Err(_) => false,
    }
}

/// Makes a file, whose store was opened with `LINE` and has the rows.
pub fn make_file(rt: &HostRuntime, path: &str) -> Result<bool, Fail> {
    remove(rt, path)?;
    Ok(opens(rt, path, LINE, Opened::Ready) && alter_all(rt, path, &ROWS))
}

/// The write that deletes the edge to 3, and what it leaves to do at the other end.
fn later(alloc: Global, id1: Id, id2: Id) -> Result<Commit, AllocError>
    ensures stamps { IfOk result (λ commit. HaveSmallStamps commit.entry.touches) }
    ensures job { IfOk result (λ commit. IfSome commit.job (λ job. job.position ≡ commit.entry.position)) }
    ensures given { IfOk result (λ commit. IfSome commit.job IsGivenJob) }
{
    let stamp = Stamp {
        number: 4,
        shard: 0,
    };
    let change = Change::CutEdge {
        id2,
        stamp,
        was: Some(5),
    };
    let touch = Touch {
        key: Key::List(id1, AType(0)),
        change,
        version: 3,
    };
    let record = (id2, AType(1), id1, EdgeState::Cut { stamp });
    Ok(Commit {
        entry: Entry {
            position: 4,
            kind: Kind::AssocDelete,
            origin: Origin::Client { session: 1, seq: 4 },
            touches: Touches::of(vec![in alloc; touch]?),
        },
        job: Some(Job {
            position: 4,
            edges: JobEdges::of(vec![in alloc; record]?),
        }),
    })
}

/// Commits that write, and ends the job of the one before it.
fn go_on(keepers: &mut SqlKeeper, commit: &Commit) -> Result<(), KeepFail>
    requires stamps { HaveSmallStamps commit.now.entry.touches }
    requires job { IfSome commit.now.job (λ job. job.position ≡ commit.now.entry.position) }
    requires given { IfSome commit.now.job IsGivenJob }
{
    keepers.commit(AT, commit)?;
    keepers.end_job(AT, 3)
}

/// Whether a keeper of the file goes on.
fn goes_on(rt: &HostRuntime, path: &str) -> Result<bool, Fail> {
    let commit = later(
        rt.alloc(),
        Id::read(1).ok_or("an id")?,
        Id::read(3).ok_or("an id")?,
    )?;
    match SqlKeeper::open_file(rt, path) {
        Ok(keepers) => {
            let mut keepers = keepers;
            let done = go_on(&mut keepers, &commit).is_ok();
            keepers.close();
            Ok(done)
        }
        Err(_) => Ok(false),
    }
}

#[test]
fn a_file_keeps_what_was_written(rt: HostRuntime) -> Result<(), Fail> {
    let path = "kept.test.db";
    assert!(rt; make_file(&rt, path)?);
    assert!(rt; opens(&rt, path, LINE, Opened::Ready));
    assert!(rt; opens(&rt, path, b"b", Opened::OtherLine));
    assert_eq!(rt; answered(&rt, path, &FOUND), FOUND.len());
    assert!(rt; goes_on(&rt, path)?);
    assert_eq!(rt; answered(&rt, path, &FOUND_LATER), FOUND_LATER.len());
    remove(&rt, path)
}
