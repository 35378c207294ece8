//! Calls of the keeper in memory that no line asks for by itself: its log is cut in two parts and cut back, a job of it is opened once more, and its shard
//! gets another master. Each is asked for in turn, and then fails where that is planned.
ghost use Rattle.std.specs.Prelude.{IfOk, IsTrue};
ghost use Rattle.keeper_map.specs.MapKeeper.{told_by};
ghost use Rattle.tao_keeper.specs.Given.{IsGivenJob};
ghost use Rattle.tao_keeper.specs.Table.{ReachesLive};

use crate::jobs::{cut_end, is_of_there, job_of};
use crate::opening::write_log;
use crate::rig::{HERE, keeper_failing_at, schema};
use keeper_map::MapKeeper;
use std::alloc::Global;
use std::test::Fail;
use tao_base::{Entry, Origin};
use tao_keeper::{EPOCH_LIMIT, Job, KeepFail, Keeper, REGION_LIMIT};

/// A call, of the store whose log has three objects.
#[derive(Clone, Copy, Debug)]
enum Call {
    Length,
    LastSerial,
    Entry(u64),
    OldEntry(u64),
    /// Of the write of this number.
    Origin(u64),
    CutOf,
    Cut(u64),
    Job(u64),
    /// Of the entry 3.
    OpenJob,
    Role,
    SetRole(u64, u16),
    CutBack(u64, Option<u64>),
}

/// What is asked, and what is answered, as a number: a count, the position of an entry or of a job, an epoch and a region; else 0.
const ROWS: [(Call, u64); 32] = [
    // All entries are live at first.
    (Call::CutOf, 0),
    (Call::Entry(1), 1),
    (Call::OldEntry(1), 0),
    // The first becomes old, and stays in the log.
    (Call::Cut(1), 0),
    (Call::CutOf, 1),
    (Call::Entry(1), 0),
    (Call::OldEntry(1), 1),
    (Call::Entry(2), 2),
    (Call::OldEntry(2), 0),
    (Call::OldEntry(0), 0),
    (Call::Length, 3),
    (Call::Origin(1), 1),
    // The shard has its configured master until another is stored.
    (Call::Role, 0),
    (Call::SetRole(2, 3), 0),
    (Call::Role, 23),
    (Call::SetRole(3, 1), 0),
    (Call::Role, 31),
    // A job is opened once.
    (Call::Job(3), 0),
    (Call::OpenJob, 0),
    (Call::Job(3), 3),
    (Call::OpenJob, 0),
    // The last entry is taken away, with its job and its origin.
    (Call::CutBack(2, Some(3)), 0),
    (Call::Length, 2),
    (Call::LastSerial, 2),
    (Call::Entry(3), 0),
    (Call::Job(3), 0),
    (Call::Origin(3), 0),
    (Call::Origin(2), 2),
    // And then all live ones, without a row of them.
    (Call::CutBack(1, None), 0),
    (Call::Length, 1),
    (Call::Entry(2), 0),
    (Call::OldEntry(1), 1),
];

/// A job that may be opened.
#[derive(Drop)]
struct Due {
    job: Job,
    ghost given: { IsGivenJob job },
}

/// The job of the entry 3.
fn job_of_last(alloc: Global) -> Result<Due, Fail> {
    let end = cut_end()?;
    if !is_of_there(&end) {
        return Err("a record of another shard")?;
    }
    let job = job_of(alloc, end)?;
    Ok(Due { job })
}

/// A keeper that has a log of three objects, of whose calls the one with this number fails.
fn keeper_of(alloc: Global, failing: Option<u64>) -> Result<MapKeeper, Fail> {
    let schema = schema(alloc)?;
    let mut keeper = keeper_failing_at(alloc, failing)?;
    write_log(alloc, &mut keeper, &schema, HERE, &[1, 2, 3])?;
    Ok(keeper)
}

/// The position of an entry.
fn place_of(found: Option<Entry>) -> u64 {
    match &found {
        Some(entry) => entry.position,
        None => 0,
    }
}

/// The position of a job.
fn job_place(found: Option<Job>) -> u64 {
    match &found {
        Some(job) => job.position,
        None => 0,
    }
}

/// Whether so many entries reach into the live part of the log.
fn reaches_live(keeper: &mut MapKeeper, count: u64) -> Result<bool, KeepFail>
    ensures { IfOk result (λ reaches. IsTrue reaches → ReachesLive (told_by keeper.new HERE) count) }
{
    let cut = keeper.cut_of(HERE)?;
    let length = keeper.length(HERE)?;
    Ok(cut <= count && count <= length)
}

fn cut(keeper: &mut MapKeeper, upto: u64) -> Result<(), KeepFail> {
    if reaches_live(keeper, upto)? {
        return keeper.cut(HERE, upto);
    }
    Err(KeepFail::OutOfMemory)
}

fn cut_back(keeper: &mut MapKeeper, length: u64, row: Option<u64>) -> Result<(), KeepFail> {
    if reaches_live(keeper, length)? {
        return keeper.cut_back(HERE, length, row);
    }
    Err(KeepFail::OutOfMemory)
}

fn open_job(keeper: &mut MapKeeper, due: &Due) -> Result<(), KeepFail> {
    let length = keeper.length(HERE)?;
    if due.job.position <= length {
        return keeper.open_job(HERE, &due.job);
    }
    Err(KeepFail::OutOfMemory)
}

fn set_role(keeper: &mut MapKeeper, epoch: u64, region: u16) -> Result<(), KeepFail> {
    if epoch <= EPOCH_LIMIT && region < REGION_LIMIT {
        return keeper.set_role(HERE.shard, epoch, region);
    }
    Err(KeepFail::OutOfMemory)
}

fn role(keeper: &mut MapKeeper) -> Result<u64, KeepFail> {
    match keeper.role(HERE.shard)? {
        Some((epoch, region)) => Ok(10 * epoch + u64::from(region)),
        None => Ok(0),
    }
}

/// Makes a call that changes something.
fn change(keeper: &mut MapKeeper, due: &Due, call: Call) -> Result<(), KeepFail> {
    match call {
        Call::Cut(upto) => cut(keeper, upto),
        Call::OpenJob => open_job(keeper, due),
        Call::SetRole(epoch, region) => set_role(keeper, epoch, region),
        Call::CutBack(length, row) => cut_back(keeper, length, row),
        _ => Err(KeepFail::OutOfMemory),
    }
}

/// What is answered. The call itself is the last that the keeper gets.
fn ask(keeper: &mut MapKeeper, due: &Due, call: Call) -> Result<u64, KeepFail> {
    match call {
        Call::Length => keeper.length(HERE),
        Call::LastSerial => keeper.last_serial(HERE),
        Call::Entry(position) => Ok(place_of(keeper.entry(HERE, position)?)),
        Call::OldEntry(position) => Ok(place_of(keeper.old_entry(HERE, position)?)),
        Call::Origin(seq) => {
            let found = keeper.origin(HERE, Origin::Client { session: 1, seq })?;
            Ok(found.unwrap_or(0))
        }
        Call::CutOf => keeper.cut_of(HERE),
        Call::Job(position) => Ok(job_place(keeper.job(HERE, position)?)),
        Call::Role => role(keeper),
        other => {
            change(keeper, due, other)?;
            Ok(0)
        }
    }
}

/// Whether the rows before a place are answered so.
fn answers_up_to(keeper: &mut MapKeeper, due: &Due, place: usize) -> bool {
    ROWS.iter()
        .take(place)
        .all(|row| ask(keeper, due, row.0) == Ok(row.1))
}

/// Whether the call at a place fails once where that is planned, and then answers as if it hadn't.
fn fails_once(alloc: Global, due: &Due, place: usize, row: (Call, u64)) -> Result<bool, Fail> {
    let mut told = keeper_of(alloc, None)?;
    let before = answers_up_to(&mut told, due, place) && ask(&mut told, due, row.0) == Ok(row.1);
    let mut keeper = keeper_of(alloc, Some(told.calls()))?;
    let again = answers_up_to(&mut keeper, due, place);
    let failed = ask(&mut keeper, due, row.0);
    let counted = keeper.faults() == 1 && failed == Err(KeepFail::Failed);
    Ok(before && again && counted && ask(&mut keeper, due, row.0) == Ok(row.1))
}

#[test]
fn each_call_answers(rt: HostRuntime) -> Result<(), Fail> {
    let due = job_of_last(rt.alloc())?;
    let mut keeper = keeper_of(rt.alloc(), None)?;
    for (call, answer) in ROWS {
        assert_eq!(rt; ask(&mut keeper, &due, call)?, answer, "{call:?}");
    }
    Ok(())
}

#[test]
fn each_call_fails_where_that_is_planned(rt: HostRuntime) -> Result<(), Fail> {
    let due = job_of_last(rt.alloc())?;
    for (place, row) in ROWS.iter().enumerate() {
        assert!(rt; fails_once(rt.alloc(), &due, place, *row)?, "{row:?}");
    }
    Ok(())
}
