//! The stages of reads, writes and deliveries at the nodes and stores that act: each function is lent one or two of them, with their
//! keeper, and says what it does to these.
//!
//! A core lends them by name out of its lists; whoever holds a node under a lock lends the value that it guards. A leader and a follower are
//! one kind of node (`Cache`) where a stage is the same for both. What a store does alone (a read, the end of a job, the first open job, a
//! note) are calls of `StoreNode`.
//!
//! What it promises. Each stage does to the node just what its relation says, and leaves it what every node is: true of what it has seen. A
//! follower that looks answers of its own items what it has seen of their log, or opens an ask; a leader that is asked gives an answer that is
//! legal, and the store still fits its keeper; a fill that is kept answers as its note does; a write and a merge leave the store over its
//! keeper's log, sound; a node that catches up with a store has processed just what follows its mark in that store's log.
//!
//! The contracts that say so: `look_first`, `open_true`, `ask_leader`, `keep_fill`, `end_open_ask`, `commit_of`, `merge_of`, `apply_of`,
//! `relay_of`, `deliver_to`, `take_refill`, `evict_from`, `empty_out`, `measure_store`, `stand_of`, `catch_up_with`.
#![tactic(auto)]

mod cache;
mod catching;
mod deliveries;
mod dropping;
mod reads;
mod relays;
mod standing;
mod writes;

pub use cache::Cache;
pub use catching::catch_up_with;
pub use core_model;
pub use core_model::leader_tier;
pub use deliveries::{deliver_to, take_refill};
pub use dropping::{empty_out, evict_from};
pub use reads::{FirstLook, ask_leader, end_open_ask, keep_fill, look_first, open_true};
pub use relays::relay_of;
pub use standing::{Measure, Stand, measure_store, stand_of};
pub use writes::{apply_of, commit_of, merge_of};
