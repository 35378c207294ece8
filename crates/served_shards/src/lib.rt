//! The shards that a cache node serves: of each what was processed of its log, and what was seen of it.
//!
//! Each call says exactly what it does with these. A note that is met has to be of the shard's own log;
//! what was seen before and what the note has seen then both begin what is seen after.
//!
//! What it promises. The shards that a node serves: their marks, and what was seen of each log.
//!
//! The contracts that say so: the functions of its module `shards`.
#![tactic(auto)]

mod served;
mod shards;

pub use served::ServedShards;
pub use shard_log;
