//! The nodes of a core: leaders and followers before the stores of their regions, when they are consistent, and what each
//! stage of a read or a write does to them.
//!
//! The definitions stand in `specs`; the laws, each the contract of a function that does nothing, say what follows of them.
//!
//! What it promises. What is consistent of a core's nodes: each leader and follower serves the shards of its
//! turn, has seen beginnings of their logs, is true of these, and holds no list past the bound of its type, and
//! each refill of a follower can be asked for; the stores' logs are sound, and what is missing at an edge's other
//! end is owed by an open job (`AreKeptIn`); and what each stage of a read or a write, and each message, does to
//! the node that acts. Each of them and each growth of the logs leaves a node so, also where what it has seen is
//! known by the names of its logs alone; no node marks what its region's store hasn't; hits, and what a note
//! answers, are legal; asks go on, and no low-water mark falls; an item stays but where its key is the stage's;
//! a message stays one for its node; who is chosen for a shard serves it; a store is found by its name and role,
//! and its log begins its shard's log; what is settled stays so until a log grows; a job stays owed, and one that
//! was merged stays merged, as long as logs grow (`jobs_stay_owed`); no node falls behind a cut of its region's
//! stores until a log is cut, and one that has processed all that these have is past them; a node is found by its
//! name; the names of a configuration, the places of its stores, and the shards of each turn, exactly.
//!
//! The contracts that say so: `named_place`, `find_node`, `leader_names`, `follower_names`, `served_by`,
//! `store_place`, `role_in`; the laws `nodes_stay`, `named_nodes_stay`, `followers_stay`, `messages_stay`,
//! `nodes_stay_seen`, `nodes_reach`, `reads_are_legal`, `nodes_ask_on`, `nodes_mark_on`, `items_stay`, `asks_stay_on`,
//! `nodes_serve`, `choices_serve`, `stores_found`, `stores_go_on`, `logs_follow`, `settled_stays`,
//! `nodes_stay_past_cuts`, `at_stores_is_past`.
#![tactic(auto)]

mod asked;
mod jobs;
pub mod laws;
mod named;
mod names;

pub use asked::{Around, AuthoredWrite, ShardJob, Wanted};
pub use follower_cache;
pub use jobs::far_shard;
pub use leader_tier;
pub use named::{Named, find_node, named_place};
pub use names::{
    follower_names, leader_names, master_of, masters_are_regions, region_of, role_in, served_by,
    serves_in_turn, serving_follower, store_place, tier_count,
};
