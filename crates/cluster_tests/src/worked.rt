//! What clusters of three configurations say, line by line.
use crate::playing::{Closing, Play, Step, played};
use cluster_plays::{Ask, ListOf, SMALL, WIDE};
use std::alloc::AllocGlobal;
use std::process::Abort;
use std::random::RandomSource;
use std::sync::Wait;
use std::test::Fail;
use std::thread::Threads;

/// The same, where each node holds one item.
const NARROW: &str =
    "{\"assocs\":[{\"name\":\"likes\"},{\"inverse\":\"friend\",\"name\":\"friend\"},{\"inverse\":\"followed_by\",\"name\":\"follows\"},{\"inverse\":\"follows\",\"name\":\"followed_by\"}],\"cache_items\":1,\"objects\":[\"user\"],\"regions\":[{\"leaders\":2,\"name\":\"east\",\"tiers\":[{\"name\":\"t1\"},{\"name\":\"t2\"}]},{\"name\":\"west\",\"tiers\":[{\"name\":\"t1\"}]}],\"shards\":2}";

/// The list of most rows.
const LIKES: ListOf = ListOf(1, "likes");

/// The first id of the second shard.
const FAR: u64 = 281_474_976_710_657;

/// The reply to an add that takes two hops, and stands first in its shard's log.
const ADDED: &str =
    "{\"changed\":true,\"hops\":2,\"inverse\":\"none\",\"ok\":\"assoc_add\",\"position\":1,\"retry\":false}";

/// What is said to the steps and then of the closed cluster: the reply to a settle, what notes see, the marks of the nodes, and what the stores keep.
const CLOSED: [&str; 17] = [
    "{\"changed\":true,\"hops\":4,\"inverse\":\"written\",\"ok\":\"assoc_add\",\"position\":1,\"retry\":false}",
    "{\"changed\":true,\"hops\":6,\"inverse\":\"written\",\"ok\":\"assoc_add\",\"position\":2,\"retry\":false}",
    "{\"changed\":true,\"hops\":2,\"inverse\":\"none\",\"ok\":\"assoc_add\",\"position\":3,\"retry\":false}",
    "shard 1 position 1 dropped 0, shard 1 position 2 dropped 0, empty",
    "{\"logs\":[3,2],\"ok\":\"settle\"}",
    "notes see 3 2",
    "east/leader/0 marks 3 0",
    "east/leader/1 marks 0 2",
    "east/t1/0 marks 3 2",
    "east/t2/0 marks 3 2",
    "west/leader/0 marks 3 2",
    "west/t1/0 marks 3 2",
    "east/store/0 keeps 3",
    "east/store/1 keeps 2",
    "west/store/0 keeps 3",
    "west/store/1 keeps 2",
    "keepers 4 faults 0",
];

/// A play on a cluster of a configuration, with what is to be said.
#[derive(Clone, Copy)]
struct Row<'r> {
    line: &'r str,
    play: Play<'r>,
    want: &'r [&'r str],
}

/// Plays and compares.
fn compare<R: Threads + Wait + RandomSource + AllocGlobal + Sync + Abort>(
    rt: &R,
    row: &Row<'_>,
) -> Result<(), Fail> {
    let Some(said) = played(rt, row.line, &row.play) else {
        return Err("memory")?;
    };
    assert_eq!(rt; said.len(), row.want.len());
    for (came, want) in said.iter().zip(row.want.iter()) {
        assert_eq!(rt; came.as_str(), *want);
    }
    Ok(())
}

#[test]
fn an_edge_is_read_back_and_kept(rt: HostRuntime) -> Result<(), Fail> {
    let row = Row {
        line: SMALL,
        play: Play::Steps(&[
            Step::By(1, Ask::Add(LIKES, 2, 5, 1)),
            Step::By(1, Ask::Range(LIKES)),
            Step::By(1, Ask::Range(LIKES)),
        ]),
        want: &[
            ADDED,
            "{\"edges\":[{\"data\":{},\"id2\":2,\"time\":5}],\"hops\":2,\"kept\":true,\"ok\":\"assoc_range\",\"store\":true,\"version\":1}",
            "{\"edges\":[{\"data\":{},\"id2\":2,\"time\":5}],\"hops\":0,\"kept\":true,\"ok\":\"assoc_range\",\"store\":false,\"version\":1}",
        ],
    };
    compare(&rt, &row)
}

/// An ask ends with its read: else no more than 256 could be kept.
#[test]
fn the_counts_of_300_lists_are_kept(rt: HostRuntime) -> Result<(), Fail> {
    let row = Row {
        line: SMALL,
        play: Play::Counts(300),
        want: &["300"],
    };
    compare(&rt, &row)
}

/// The region's own store doesn't have the edge yet. What the session read of the master it is told once more, though its follower let go of it.
#[test]
fn a_read_never_goes_back(rt: HostRuntime) -> Result<(), Fail> {
    let row = Row {
        line: NARROW,
        play: Play::Steps(&[
            Step::By(1, Ask::Add(LIKES, 2, 5, 1)),
            Step::By(3, Ask::CriticalRange(LIKES)),
            Step::By(3, Ask::Count(ListOf(2, "likes"))),
            Step::By(3, Ask::Range(LIKES)),
        ]),
        want: &[
            ADDED,
            "{\"edges\":[{\"data\":{},\"id2\":2,\"time\":5}],\"hops\":2,\"kept\":true,\"ok\":\"assoc_range\",\"store\":true,\"version\":1}",
            "{\"count\":0,\"hops\":2,\"kept\":true,\"ok\":\"assoc_count\",\"store\":true,\"version\":0}",
            "{\"edges\":[{\"data\":{},\"id2\":2,\"time\":5}],\"hops\":4,\"kept\":true,\"ok\":\"assoc_range\",\"store\":true,\"version\":1}",
        ],
    };
    compare(&rt, &row)
}

/// A slave region's leader and follower get their messages once its store has the entry.
#[test]
fn a_pumped_node_processes_what_waits_for_it(rt: HostRuntime) -> Result<(), Fail> {
    let row = Row {
        line: WIDE,
        play: Play::Steps(&[
            Step::By(1, Ask::Add(LIKES, 2, 5, 1)),
            Step::Pump("east/t1/0"),
            Step::Pump("west/leader/0"),
            Step::Pump("west/store/0"),
            Step::Pump("west/leader/0"),
            Step::Pump("west/t1/0"),
            Step::Pump("east/store/0"),
            Step::Pump("west/store/1"),
        ]),
        want: &[
            ADDED,
            "shard 0 position 1 dropped 0, empty, empty",
            "empty, empty, empty",
            "shard 0 position 1 dropped 0, empty, empty",
            "shard 0 position 1 dropped 0, empty, empty",
            "shard 0 position 1 dropped 0, empty, empty",
            "empty, empty, empty",
            "empty, empty, empty",
        ],
    };
    compare(&rt, &row)
}

/// What a message drops is read anew, from the leader's item, which took the change.
#[test]
fn a_pumped_follower_drops_what_is_behind(rt: HostRuntime) -> Result<(), Fail> {
    let row = Row {
        line: WIDE,
        play: Play::Steps(&[
            Step::By(2, Ask::Add(LIKES, 2, 5, 1)),
            Step::By(1, Ask::Range(LIKES)),
            Step::By(2, Ask::Add(LIKES, 3, 6, 2)),
            Step::Pump("east/t1/0"),
            Step::By(1, Ask::Range(LIKES)),
        ]),
        want: &[
            ADDED,
            "{\"edges\":[{\"data\":{},\"id2\":2,\"time\":5}],\"hops\":2,\"kept\":true,\"ok\":\"assoc_range\",\"store\":true,\"version\":1}",
            "{\"changed\":true,\"hops\":2,\"inverse\":\"none\",\"ok\":\"assoc_add\",\"position\":2,\"retry\":false}",
            "shard 0 position 1 dropped 0, shard 0 position 2 dropped 1, empty",
            "{\"edges\":[{\"data\":{},\"id2\":3,\"time\":6},{\"data\":{},\"id2\":2,\"time\":5}],\"hops\":2,\"kept\":true,\"ok\":\"assoc_range\",\"store\":false,\"version\":2}",
        ],
    };
    compare(&rt, &row)
}

/// The other end of an edge lies on another shard, or on the same.
#[test]
fn both_ends_are_written(rt: HostRuntime) -> Result<(), Fail> {
    let row = Row {
        line: WIDE,
        play: Play::Steps(&[
            Step::By(1, Ask::Add(ListOf(1, "friend"), FAR, 5, 1)),
            Step::By(1, Ask::Count(ListOf(1, "friend"))),
            Step::By(2, Ask::Count(ListOf(FAR, "friend"))),
            Step::By(1, Ask::Add(ListOf(1, "friend"), 1, 4, 2)),
        ]),
        want: &[
            "{\"changed\":true,\"hops\":4,\"inverse\":\"written\",\"ok\":\"assoc_add\",\"position\":1,\"retry\":false}",
            "{\"count\":1,\"hops\":2,\"kept\":true,\"ok\":\"assoc_count\",\"store\":true,\"version\":1}",
            "{\"count\":1,\"hops\":2,\"kept\":true,\"ok\":\"assoc_count\",\"store\":true,\"version\":1}",
            "{\"changed\":true,\"hops\":2,\"inverse\":\"written\",\"ok\":\"assoc_add\",\"position\":2,\"retry\":false}",
        ],
    };
    compare(&rt, &row)
}

/// Each session writes 200 edges of one list: each count has all of what the session was told before and what it wrote, and in the end there are 400.
#[test]
fn what_two_threads_are_told_never_goes_back(rt: HostRuntime) -> Result<(), Fail> {
    let row = Row {
        line: WIDE,
        play: Play::Together(200),
        want: &["200 200, 400 400, 400 400"],
    };
    compare(&rt, &row)
}

/// What the other region's stores and nodes were behind with is there once the closed cluster is settled, and each keeper has its store's whole log.
#[test]
fn a_closed_cluster_settles(rt: HostRuntime) -> Result<(), Fail> {
    let row = Row {
        line: WIDE,
        play: Play::Closing(&Closing {
            steps: &[
                Step::By(1, Ask::Add(ListOf(1, "friend"), FAR, 5, 1)),
                Step::By(3, Ask::Add(ListOf(FAR, "follows"), 1, 6, 1)),
                Step::By(2, Ask::Add(LIKES, 2, 7, 1)),
                Step::Pump("west/store/1"),
            ],
            nodes: &[
                "east/leader/0",
                "east/leader/1",
                "east/t1/0",
                "east/t2/0",
                "west/leader/0",
                "west/t1/0",
            ],
            stores: &[
                "east/store/0",
                "east/store/1",
                "west/store/0",
                "west/store/1",
            ],
        }),
        want: &CLOSED,
    };
    compare(&rt, &row)
}
