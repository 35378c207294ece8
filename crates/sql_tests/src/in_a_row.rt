//! A long log that is read entry by entry, by statements that read many at once.
ghost use Rattle.std.specs.Prelude.{◌≡◌, IfOk, IfSome};
ghost use Rattle.tao_keeper.specs.Given.{HaveSmallStamps, IsGivenJob};

use crate::asking::{AT, Call, ask};
use crate::files::{make_file, remove};
use keeper_sql::SqlKeeper;
use std::alloc::Global;
use std::test::Fail;
use tao_base::{AType, Change, Entry, Id, Key, Kind, Origin, Stamp, Touch, Touches};
use tao_keeper::{Commit, KeepFail, Keeper};

/// How many entries the log has: one that is read alone, two times 64 that one statement reads, and one.
const ENTRIES: u64 = 130;

/// The entry of a position: it takes away an edge that isn't there.
fn entry_at(alloc: Global, position: u64) -> Result<Commit, KeepFail>
    ensures stamps { IfOk result (λ commit. HaveSmallStamps commit.entry.touches) }
    ensures job { IfOk result (λ commit. IfSome commit.job (λ job. job.position ≡ commit.entry.position)) }
    ensures given { IfOk result (λ commit. IfSome commit.job IsGivenJob) }
{
    let id1 = Id::read(1).ok_or(KeepFail::Failed)?;
    let id2 = Id::read(4).ok_or(KeepFail::Failed)?;
    let stamp = Stamp {
        number: 4,
        shard: 0,
    };
    let touch = Touch {
        key: Key::List(id1, AType(0)),
        change: Change::CutEdge {
            id2,
            stamp,
            was: None,
        },
        version: position,
    };
    Ok(Commit {
        entry: Entry {
            position,
            kind: Kind::AssocDelete,
            origin: Origin::Client {
                session: 1,
                seq: position,
            },
            touches: Touches::of(vec![in alloc; touch]?),
        },
        job: None,
    })
}

/// Commits the entries that the log lacks.
fn fill(alloc: Global, keepers: &mut SqlKeeper) -> Result<(), KeepFail> {
    for before in 3..ENTRIES {
        let commit = entry_at(alloc, before + 1)?;
        keepers.commit(AT, &commit)?;
    }
    Ok(())
}

/// The call for a live entry, or for an old one.
fn call_for(is_old: bool, position: u64) -> Call {
    if is_old {
        Call::OldEntry(position)
    } else {
        Call::Entry(position)
    }
}

/// How many entries are answered, from the first one up to one that isn't.
fn count_in_a_row(keepers: &mut SqlKeeper, is_old: bool) -> u64 {
    for before in 0..ENTRIES {
        let position = before + 1;
        if ask(keepers, call_for(is_old, position)) != Ok(position) {
            return before;
        }
    }
    ENTRIES
}

/// How many live entries are answered, and how many old ones once all are old.
fn count_both(alloc: Global, keepers: &mut SqlKeeper) -> Result<(u64, u64), KeepFail> {
    fill(alloc, keepers)?;
    let live = count_in_a_row(keepers, false);
    keepers.cut(AT, ENTRIES)?;
    Ok((live, count_in_a_row(keepers, true)))
}

/// What a keeper of the file answers.
fn answered_of(rt: &HostRuntime, path: &str) -> Option<(u64, u64)> {
    match SqlKeeper::open_file(rt, path) {
        Ok(keepers) => {
            let mut keepers = keepers;
            let counts = count_both(rt.alloc(), &mut keepers);
            keepers.close();
            counts.ok()
        }
        Err(_) => None,
    }
}

#[test]
fn a_long_log_is_read_in_a_row(rt: HostRuntime) -> Result<(), Fail> {
    let path = "long.test.db";
    assert!(rt; make_file(&rt, path)?);
    assert_eq!(rt; answered_of(&rt, path), Some((ENTRIES, ENTRIES)));
    remove(&rt, path)
}
