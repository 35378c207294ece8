//! What a keeper answers, as a number.
use keeper_sql::SqlKeeper;
use tao_base::{AType, EdgeState, Edges, Entry, Id, Key, Object, Origin, StoreName};
use tao_keeper::{Job, KeepFail, Keeper};

/// The store that is asked.
pub const AT: StoreName = StoreName {
    region: 0,
    shard: 0,
};

/// What is asked: of a log and its jobs, by position, or by the number of a write of session 1; of the object 1; and of its list of the
/// type 0.
#[derive(Clone, Copy)]
pub enum Call {
    Length,
    LastSerial,
    Entry(u64),
    Origin(u64),
    FirstJob,
    Job(u64),
    Object,
    /// The edge to this id.
    Edge(u64),
    Edges,
    Count,
    Version,
    OldEntry(u64),
    CutOf,
    Role,
}

/// The position of an entry.
fn place_of_entry(found: Option<Entry>) -> u64 {
    match &found {
        Some(entry) => entry.position,
        None => 0,
    }
}

/// The position of a job.
fn place_of_job(found: Option<Job>) -> u64 {
    match &found {
        Some(job) => job.position,
        None => 0,
    }
}

/// The type of an object.
fn type_of(found: Option<Object>) -> u64 {
    match &found {
        Some(object) => u64::from(object.otype.0),
        None => 0,
    }
}

/// The time of a live edge.
fn time_of(found: Option<EdgeState>) -> u64 {
    match &found {
        Some(EdgeState::Live { time, .. }) => u64::from(*time),
        _ => 0,
    }
}

/// An epoch and a master region, the region as the last digit.
fn digits_of(role: Option<(u64, u16)>) -> u64 {
    match role {
        Some((epoch, region)) => epoch.wrapping_mul(10).wrapping_add(u64::from(region)),
        None => 0,
    }
}

/// The ids of edges in their order, as digits.
fn ids_of(edges: Edges) -> u64 {
    let ids = edges.as_slice().iter().map(|edge| edge.id2.number());
    ids.fold(0, |sum: u64, id| sum.wrapping_mul(10).wrapping_add(id))
}

/// What is answered of a log or its jobs.
fn ask_of_log<K: Keeper>(keepers: &mut K, call: Call) -> Result<u64, KeepFail> {
    match call {
        Call::Length => keepers.length(AT),
        Call::Entry(position) => Ok(place_of_entry(keepers.entry(AT, position)?)),
        Call::Origin(seq) => {
            let found = keepers.origin(AT, Origin::Client { session: 1, seq })?;
            Ok(found.unwrap_or(0))
        }
        Call::FirstJob => Ok(place_of_job(keepers.first_job(AT)?)),
        Call::Job(position) => Ok(place_of_job(keepers.job(AT, position)?)),
        Call::OldEntry(position) => Ok(place_of_entry(keepers.old_entry(AT, position)?)),
        Call::CutOf => keepers.cut_of(AT),
        _ => keepers.last_serial(AT),
    }
}

/// What is answered.
pub fn ask<K: Keeper>(keepers: &mut K, call: Call) -> Result<u64, KeepFail> {
    let id = Id::read(1).ok_or(KeepFail::Failed)?;
    let list = AType(0);
    match call {
        Call::Object => Ok(type_of(keepers.object(AT, id)?)),
        Call::Edge(number) => {
            let to = Id::read(number).ok_or(KeepFail::Failed)?;
            Ok(time_of(keepers.edge(AT, id, list, to)?))
        }
        Call::Edges => Ok(ids_of(keepers.edges(AT, id, list, 0, 10)?)),
        Call::Count => keepers.count(AT, id, list),
        Call::Version => keepers.version(AT, Key::List(id, list)),
        Call::Role => Ok(digits_of(keepers.role(0)?)),
        other => ask_of_log(keepers, other),
    }
}

/// Whether that is what a keeper answered that counted so many faults more: or where no answer is wanted, whether it failed, and counted that once.
pub fn is_wanted(told: Result<u64, KeepFail>, faults: u64, wanted: Option<u64>) -> bool {
    match told {
        Ok(number) => wanted == Some(number) && faults == 0,
        Err(fail) => wanted.is_none() && fail == KeepFail::Failed && faults == 1,
    }
}

/// Whether a keeper of the file answers so, and counts no fault; or where no answer is wanted, whether it fails, and counts that.
pub fn answers(rt: &HostRuntime, path: &str, call: Call, wanted: Option<u64>) -> bool {
    match SqlKeeper::open_file(rt, path) {
        Ok(keepers) => {
            let mut keepers = keepers;
            let told = ask(&mut keepers, call);
            let faults = keepers.faults();
            keepers.close();
            is_wanted(told, faults, wanted)
        }
        Err(_) => false,
    }
}

/// How many of the calls are answered so, up to the first that isn't.
fn count_answered(keepers: &mut SqlKeeper, calls: &[(Call, u64)]) -> usize {
    for (place, (call, number)) in calls.iter().enumerate() {
        if ask(keepers, *call) != Ok(*number) {
            return place;
        }
    }
    calls.len()
}

/// How many of the calls a keeper of the file answers so, up to the first that it doesn't.
pub fn answered(rt: &HostRuntime, path: &str, calls: &[(Call, u64)]) -> usize {
    match SqlKeeper::open_file(rt, path) {
        Ok(keepers) => {
            let mut keepers = keepers;
            let count = count_answered(&mut keepers, calls);
            keepers.close();
            count
        }
        Err(_) => 0,
    }
}
