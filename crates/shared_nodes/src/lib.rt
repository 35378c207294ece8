//! The cache nodes of a cluster as the values of their locks: the core's own leader or follower, and its name. Whenever a lock is free, all that is
//! known of its value is what its type keeps.
//!
//! Each method is one hold of the lock, and lends the node to one stage (`node_stages`). A leader's hold may have the lock of its shard's store
//! within it.
//!
//! What it promises. A node under its lock serves the shards of its name's turn, has seen beginnings of their logs, is true of these, and holds no list
//! past the bound of its type. A hit is legal in the note that is answered with it; what a leader gives is right for the read, and of its shard's log;
//! what a follower answers from a fill is legal in the fill's note, and no ask is lost without a word; an entry that is committed or merged stands in
//! its note, and a merged job is done there; each stage does to the node just what its relation says.
//!
//! The contracts that say so: `SharedFollower::look`, `ask_at_once`, `keep`, `end_ask`, `apply`, `deliver`; `SharedLeader::ask`, `commit`, `merge`,
//! `relay`, `deliver`.
#![tactic(auto)]

mod follower;
mod leader;

pub use follower::{SharedFollower, SharedKept, SharedLook};
pub use leader::{SharedLeader, SharedMerge};
pub use shared_stores;
