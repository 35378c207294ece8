//! Rows that were damaged by hand are counted faults, and no wrong answers.
use crate::asking::{Call, answers};
use crate::files::{alter, make_file, remove};
use std::fs;
use std::test::Fail;

/// What is done to the tables, and what then fails.
const ROWS: [(&str, Call); 20] = [
    ("UPDATE log SET entry = x'00'", Call::Entry(1)),
    (
        "UPDATE log SET position = 70000 WHERE position = 1",
        Call::Origin(1),
    ),
    (
        "UPDATE log SET position = 70000 WHERE position = 3",
        Call::Length,
    ),
    ("UPDATE edge SET live = 2", Call::Edge(2)),
    (
        "UPDATE edge SET number = 4611686018427387904",
        Call::Edge(2),
    ),
    ("UPDATE edge SET data = x'01'", Call::Edge(2)),
    ("UPDATE edge SET time = 4294967296", Call::Edges),
    ("UPDATE edge SET time = 0 - 1", Call::Edges),
    (
        "UPDATE edge SET idkey = x'0000000000000001' WHERE id2 = 3",
        Call::Edges,
    ),
    ("UPDATE object SET otype = 65536", Call::Object),
    ("UPDATE size SET n = 65537", Call::Count),
    ("UPDATE version SET n = 0 - 1", Call::Version),
    (
        "UPDATE store SET serial = 281474976710656",
        Call::LastSerial,
    ),
    ("UPDATE job SET edges = x''", Call::FirstJob),
    ("UPDATE job SET position = 2", Call::Job(2)),
    ("UPDATE store SET cut = 65537", Call::CutOf),
    (
        "INSERT INTO old_log (region, shard, position, tag, a, b, entry) VALUES (0, 0, 1, 1, 1, 9, x'00')",
        Call::OldEntry(1),
    ),
    (
        "INSERT INTO old_log (region, shard, position, tag, a, b, entry) VALUES (0, 0, 70000, 1, 1, 9, x'00')",
        Call::Origin(9),
    ),
    (
        "INSERT INTO role (region, shard, epoch, master) VALUES (0, 0, 1001, 1)",
        Call::Role,
    ),
    (
        "INSERT INTO role (region, shard, epoch, master) VALUES (0, 0, 1, 4)",
        Call::Role,
    ),
];

/// Whether the call fails over a copy of the file on which this was done.
fn fails(rt: &HostRuntime, from: &str, damage: &str, call: Call) -> Result<bool, Fail> {
    let path = "spoilt.test.db";
    let _ = fs::copy(rt, from, path)?;
    let found = alter(rt, path, damage) && answers(rt, path, call, None);
    remove(rt, path)?;
    Ok(found)
}

#[test]
fn damaged_rows_are_counted_faults(rt: HostRuntime) -> Result<(), Fail> {
    let path = "damaged.test.db";
    assert!(rt; make_file(&rt, path)?);
    for (damage, call) in ROWS {
        assert!(rt; fails(&rt, path, damage, call)?, "{damage}");
    }
    remove(&rt, path)
}
