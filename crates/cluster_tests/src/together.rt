//! Two threads write to one list and count it, each by a session of its own, in two regions. What each is told never goes back, whatever the schedule.
use crate::clients::Client;
use crate::playing::HOMES;
use crate::replying::{added, counted};
use cluster_plays::{Ask, ListOf, Steady};
use shared_stores::Sharing;
use std::alloc::Global;
use std::sync::Wait;
use std::thread::{Threads, join};

/// The list that both write to.
const SHARED: ListOf = ListOf(1, "likes");

/// What a session was told last: the position of its write, and the version of the list.
#[derive(Clone, Copy)]
struct Told {
    position: u64,
    version: u64,
}

/// Adds an edge and counts the list. What is then told, if it doesn't go back, and every write of the list is counted: None where it isn't so, or for want of
/// memory.
fn write_and_count<J: Sharing, R: Wait>(
    rt: &R,
    alloc: Global,
    cluster: &Steady<'_, J>,
    client: &mut Client<J>,
    add: Ask,
    told: Told,
) -> Option<Told> {
    let wrote = client.ask(rt, alloc, cluster, add)?;
    let position = added(&wrote);
    drop(wrote);
    let position = position?;
    let read = client.ask(rt, alloc, cluster, Ask::Count(SHARED))?;
    let found = counted(&read);
    drop(read);
    let (count, version) = found?;
    let goes_on = told.position < position && told.version < version && position <= version;
    if goes_on && count == version {
        Some(Told { position, version })
    } else {
        None
    }
}

/// Writes so often, each time to another id from the first one on, and counts after each. How often what was told went on.
fn write_on<J: Sharing, R: Wait>(
    rt: &R,
    alloc: Global,
    cluster: &Steady<'_, J>,
    client: &mut Client<J>,
    first: u64,
    times: u64,
) -> u64 {
    let mut told = Told {
        position: 0,
        version: 0,
    };
    for turn in 0..times {
        let seq = turn.saturating_add(1);
        let add = Ask::Add(SHARED, first.saturating_add(turn), 1, seq);
        match write_and_count(rt, alloc, cluster, client, add, told) {
            Some(next) => told = next,
            None => return turn,
        }
    }
    times
}

/// The count of the list that misses nothing.
fn counted_last<J: Sharing, R: Wait>(
    rt: &R,
    alloc: Global,
    cluster: &Steady<'_, J>,
    client: &mut Client<J>,
) -> Option<(u64, u64)> {
    let reply = client.ask(rt, alloc, cluster, Ask::CriticalCount(SHARED))?;
    let found = counted(&reply);
    drop(reply);
    found
}

/// Two threads each write so often. What is said: how often what each was told went on, and the list's length and version at the end, as each session counts it.
pub(crate) fn write_together<J: Sharing + Send + Sync, R: Threads + Wait + Sync>(
    rt: &R,
    alloc: Global,
    cluster: &Steady<'_, J>,
    times: u64,
) -> Option<String> {
    let mut east = Client::open(rt, cluster, 1, HOMES[0])?;
    let mut west = Client::open(rt, cluster, 3, HOMES[2])?;
    let (one, two) = join(
        rt,
        || write_on(rt, alloc, cluster, &mut east, 1_000, times),
        || write_on(rt, alloc, cluster, &mut west, 2_000, times),
    );
    let (count, version) = counted_last(rt, alloc, cluster, &mut east)?;
    let (other_count, other_version) = counted_last(rt, alloc, cluster, &mut west)?;
    format!(in alloc; "{one} {two}, {count} {version}, {other_count} {other_version}").ok()
}
