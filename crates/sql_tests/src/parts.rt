//! Logs in two parts, logs that are cut back, and what is kept of promotions.
ghost use Rattle.std.specs.Prelude.{◌≡◌, IfOk, IfSome};
ghost use Rattle.tao_keeper.specs.Given.{HaveSmallStamps, IsGivenJob};

use crate::asking::{AT, Call, ask, is_wanted};
use crate::files::{alter, make_file, number_in, remove};
use keeper_sql::SqlKeeper;
use std::alloc::Global;
use std::test::Fail;
use tao_base::{AType, Change, EdgeState, Entry, Id, Key, Kind, Origin, Stamp, Touch, Touches};
use tao_keeper::{Commit, Job, JobEdges, KeepFail, Keeper};

/// What is done to the keeper, or asked of it.
#[derive(Clone, Copy)]
enum Step {
    Ask(Call),
    /// Cuts the log at this position.
    Cut(u16),
    /// Takes away what lies past this length, and keeps it under this epoch.
    CutBack(u64, Option<u64>),
    /// Stores this epoch, and the second region as the master.
    SetRole(u8),
    /// Opens a job of the second entry.
    OpenJob,
    /// Commits a third entry, with the origin of this write: it takes the edge to 2 away.
    Add(u64),
}

/// The steps, and what is answered: 0 of a step that is done, nothing where it fails.
const STEPS: [(Step, Option<u64>); 46] = [
    (Step::Ask(Call::Role), Some(0)),
    (Step::SetRole(7), Some(0)),
    (Step::SetRole(8), Some(0)),
    (Step::Ask(Call::Role), Some(81)),
    (Step::Ask(Call::Job(2)), Some(0)),
    (Step::OpenJob, Some(0)),
    (Step::OpenJob, Some(0)),
    (Step::Ask(Call::Job(2)), Some(2)),
    (Step::Cut(1), Some(0)),
    (Step::Ask(Call::CutOf), Some(1)),
    (Step::Ask(Call::Length), Some(3)),
    (Step::Ask(Call::Entry(1)), Some(0)),
    (Step::Ask(Call::Entry(2)), Some(2)),
    (Step::Ask(Call::OldEntry(0)), Some(0)),
    (Step::Ask(Call::OldEntry(1)), Some(1)),
    (Step::Ask(Call::OldEntry(2)), Some(0)),
    (Step::Ask(Call::Origin(1)), Some(1)),
    (Step::Ask(Call::Edges), Some(32)),
    (Step::Cut(0), None),
    (Step::Cut(4), None),
    (Step::CutBack(0, None), None),
    (Step::CutBack(4, None), None),
    (Step::Ask(Call::Entry(1)), Some(0)),
    (Step::Ask(Call::Entry(2)), Some(2)),
    (Step::CutBack(2, Some(9)), Some(0)),
    (Step::Ask(Call::Length), Some(2)),
    (Step::Ask(Call::Entry(3)), Some(0)),
    (Step::Ask(Call::Origin(3)), Some(0)),
    (Step::Ask(Call::FirstJob), Some(2)),
    (Step::Ask(Call::Job(3)), Some(0)),
    (Step::Ask(Call::Edge(2)), Some(5)),
    (Step::Ask(Call::Edge(3)), Some(0)),
    (Step::Ask(Call::Edges), Some(2)),
    (Step::Ask(Call::Count), Some(1)),
    (Step::Ask(Call::Version), Some(1)),
    (Step::Ask(Call::Object), Some(515)),
    (Step::Ask(Call::LastSerial), Some(1)),
    (Step::Add(1), None),
    (Step::Add(2), None),
    (Step::Add(3), Some(0)),
    (Step::Ask(Call::Count), Some(0)),
    (Step::CutBack(3, Some(10)), Some(0)),
    (Step::Cut(3), Some(0)),
    (Step::Ask(Call::Length), Some(3)),
    (Step::Ask(Call::Origin(3)), Some(3)),
    (Step::Add(4), None),
];

/// The rows of what was lost: one entry at the epoch 9, and none at 10.
const LOST: [&str; 3] = [
    "SELECT count(*) FROM lost WHERE position = 0 AND length = epoch - 7 AND entry IS NULL",
    "SELECT 1 + count(*) FROM lost WHERE epoch = 9 AND position = 3 AND length(entry) = 66",
    "SELECT count(*) - 1 FROM lost",
];

/// A job that the second entry may have left.
fn second_job(alloc: Global) -> Result<Job, KeepFail>
    ensures { IfOk result IsGivenJob }
{
    let id1 = Id::read(1).ok_or(KeepFail::Failed)?;
    let id2 = Id::read(2).ok_or(KeepFail::Failed)?;
    let stamp = Stamp {
        number: 2,
        shard: 0,
    };
    let record = (id2, AType(1), id1, EdgeState::Cut { stamp });
    Ok(Job {
        position: 2,
        edges: JobEdges::of(vec![in alloc; record]?),
    })
}

/// A third entry, of that write.
fn third(alloc: Global, seq: u64) -> Result<Commit, KeepFail>
    ensures stamps { IfOk result (λ commit. HaveSmallStamps commit.entry.touches) }
    ensures job { IfOk result (λ commit. IfSome commit.job (λ job. job.position ≡ commit.entry.position)) }
    ensures given { IfOk result (λ commit. IfSome commit.job IsGivenJob) }
{
    let id1 = Id::read(1).ok_or(KeepFail::Failed)?;
    let id2 = Id::read(2).ok_or(KeepFail::Failed)?;
    let stamp = Stamp {
        number: 4,
        shard: 0,
    };
    let touch = Touch {
        key: Key::List(id1, AType(0)),
        change: Change::CutEdge {
            id2,
            stamp,
            was: Some(5),
        },
        version: 2,
    };
    Ok(Commit {
        entry: Entry {
            position: 3,
            kind: Kind::AssocDelete,
            origin: Origin::Client { session: 1, seq },
            touches: Touches::of(vec![in alloc; touch]?),
        },
        job: None,
    })
}

/// Commits the third entry.
fn add_third(alloc: Global, keepers: &mut SqlKeeper, seq: u64) -> Result<(), KeepFail> {
    let commit = third(alloc, seq)?;
    keepers.commit(AT, &commit)
}

/// Opens the job of the second entry.
fn open_second(alloc: Global, keepers: &mut SqlKeeper) -> Result<(), KeepFail> {
    let job = second_job(alloc)?;
    keepers.open_job(AT, &job)
}

/// What is done, and then answered.
fn answer_of(alloc: Global, keepers: &mut SqlKeeper, step: Step) -> Result<u64, KeepFail> {
    match step {
        Step::Ask(call) => return ask(keepers, call),
        Step::Cut(upto) => keepers.cut(AT, u64::from(upto))?,
        Step::CutBack(length, row) => keepers.cut_back(AT, length, row)?,
        Step::SetRole(epoch) => keepers.set_role(0, u64::from(epoch), 1)?,
        Step::OpenJob => open_second(alloc, keepers)?,
        Step::Add(seq) => add_third(alloc, keepers, seq)?,
    }
    Ok(0)
}

/// Whether that is answered.
fn is_taken(alloc: Global, keepers: &mut SqlKeeper, step: Step, wanted: Option<u64>) -> bool {
    let before = keepers.faults();
    let told = answer_of(alloc, keepers, step);
    is_wanted(told, keepers.faults().wrapping_sub(before), wanted)
}

/// How many of the steps are taken as they should be, up to the first that isn't.
fn count_taken(alloc: Global, keepers: &mut SqlKeeper, steps: &[(Step, Option<u64>)]) -> usize {
    for (place, (step, wanted)) in steps.iter().enumerate() {
        if !is_taken(alloc, keepers, *step, *wanted) {
            return place;
        }
    }
    steps.len()
}

/// How many of the steps a keeper of the file takes as it should.
fn taken(rt: &HostRuntime, path: &str, steps: &[(Step, Option<u64>)]) -> usize {
    match SqlKeeper::open_file(rt, path) {
        Ok(keepers) => {
            let mut keepers = keepers;
            let count = count_taken(rt.alloc(), &mut keepers, steps);
            keepers.close();
            count
        }
        Err(_) => 0,
    }
}

#[test]
fn a_log_is_cut_and_cut_back(rt: HostRuntime) -> Result<(), Fail> {
    let path = "parts.test.db";
    assert!(rt; make_file(&rt, path)?);
    assert_eq!(rt; taken(&rt, path, &STEPS), STEPS.len());
    for sql in LOST {
        assert_eq!(rt; number_in(&rt, path, sql), Some(2), "{sql}");
    }
    remove(&rt, path)
}

/// The steps over a log whose second entry is no entry: the second step fails behind its first statements, and nothing is changed. What doesn't read that
/// entry is done.
const UNDONE: [(Step, Option<u64>); 17] = [
    (Step::Ask(Call::Entry(2)), None),
    (Step::CutBack(2, Some(9)), None),
    (Step::Ask(Call::Length), Some(3)),
    (Step::Ask(Call::Job(3)), Some(3)),
    (Step::Ask(Call::Edges), Some(32)),
    (Step::Ask(Call::Count), Some(2)),
    (Step::Ask(Call::Version), Some(2)),
    (Step::Ask(Call::LastSerial), Some(1)),
    (Step::CutBack(1, None), Some(0)),
    (Step::Ask(Call::Edges), Some(0)),
    (Step::Ask(Call::Count), Some(0)),
    (Step::Ask(Call::Version), Some(0)),
    (Step::Ask(Call::Object), Some(515)),
    (Step::CutBack(0, None), Some(0)),
    (Step::Ask(Call::Object), Some(0)),
    (Step::Ask(Call::LastSerial), Some(0)),
    (Step::Ask(Call::Length), Some(0)),
];

#[test]
fn a_damaged_log_is_not_cut_back(rt: HostRuntime) -> Result<(), Fail> {
    let path = "undone.test.db";
    assert!(rt; make_file(&rt, path)?);
    assert!(rt; alter(&rt, path, "UPDATE log SET entry = x'00' WHERE position = 2"));
    assert_eq!(rt; taken(&rt, path, &UNDONE), UNDONE.len());
    assert_eq!(rt; number_in(&rt, path, "SELECT count(*) FROM lost"), Some(0));
    remove(&rt, path)
}
