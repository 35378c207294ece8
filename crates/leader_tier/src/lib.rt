//! A leader: the cache node of a region that stands before its store.
//!
//! It answers reads of followers of an item of its own, or else of its store, and keeps what it read there. Writes and merges
//! go through it to the store, and where it is the one that its region prefers for the shard its items take what was written.
//! Contracts see its node alone; each call of a node's name does what the node's call does.
//!
//! What it promises. A node before its region's store: an item of its own that serves is handed on with no call
//! of the keeper; else the store's version is below the floor, or what the store reads is handed on and kept by
//! the node's rule; what is handed on is exact at a version of at least the floor. Through the preferred leader a
//! write or merge leaves all changesets of its entry taken and its position marked; a stand-in stays as it is. An
//! entry that it applies has its changesets taken and nothing marked.
//!
//! The contracts that say so: `Leader::answer`, `write`, `merge`, `apply_entry`; `at_floor`.
#![tactic(auto)]

mod leader;
mod reading;
mod writing;

pub use cache_node::{Delivered, DroppedList, DroppedLists, Item};
pub use leader::{Leader, leaders_are_true};
pub use reading::at_floor;
pub use shard_tables;
