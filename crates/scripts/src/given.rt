//! Logs that stores have before any run.
ghost use Rattle.std.specs.Prelude.{◌≡◌, IfOk, IfSome};
ghost use Rattle.tao_keeper.specs.Given.{HaveSmallStamps, IsGivenJob};

use keeper_sql::SqlKeeper;
use script_text::{GivenLog, Run};
use std::alloc::{AllocError, Global};
use tao_base::{
    Change, Data, Entry, Id, Key, Kind, OType, Object, Origin, StoreName, Touch, Touches,
};
use tao_keeper::{Commit, Keeper};

/// The entry by which session 1 added this object.
fn object_entry(alloc: Global, id: Id, position: u64, seq: u64) -> Result<Commit, AllocError>
    ensures stamps { IfOk result (λ commit. HaveSmallStamps commit.entry.touches) }
    ensures job { IfOk result (λ commit. IfSome commit.job (λ job. job.position ≡ commit.entry.position)) }
    ensures given { IfOk result (λ commit. IfSome commit.job IsGivenJob) }
{
    let object = Object {
        otype: OType(0),
        payload: Data::empty(alloc),
    };
    let touch = Touch {
        key: Key::Obj(id),
        change: Change::PutObject(object),
        version: 1,
    };
    Ok(Commit {
        entry: Entry {
            position,
            kind: Kind::ObjAdd,
            origin: Origin::Client { session: 1, seq },
            touches: Touches::of(vec![in alloc; touch]?),
        },
        job: None,
    })
}

/// Adds an object at a position of a store's log. Says whether it was.
fn add(
    alloc: Global,
    keeper: &mut SqlKeeper,
    at: StoreName,
    position: u64,
    seq: u64,
) -> Result<bool, AllocError> {
    let Some(id) = Id::read((u64::from(at.shard) << 48) | position) else {
        return Ok(false);
    };
    let commit = object_entry(alloc, id, position, seq)?;
    Ok(keeper.commit(at, &commit).is_ok())
}

/// Gives a store its log, once it was opened with the line. Says whether it was.
fn give_log(
    alloc: Global,
    keeper: &mut SqlKeeper,
    line: &str,
    log: &GivenLog,
) -> Result<bool, AllocError> {
    let at = StoreName {
        region: log.region,
        shard: log.shard,
    };
    let mut is_given = keeper.open(at, line.as_bytes()).is_ok();
    let mut position: u64 = 0;
    for seq in &log.seqs {
        position = position.saturating_add(1);
        is_given = add(alloc, keeper, at, position, *seq)? && is_given;
    }
    Ok(is_given)
}

/// Gives the stores what they have before the run. Says whether it was.
pub fn give_logs(alloc: Global, keeper: &mut SqlKeeper, run: &Run) -> Result<bool, AllocError> {
    let line = run.input.lines().next().unwrap_or("");
    let mut is_given = true;
    for log in &run.logs {
        is_given = give_log(alloc, keeper, line, log)? && is_given;
    }
    Ok(is_given)
}
