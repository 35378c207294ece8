//! Clones of hot shards: which followers serve a shard beside the preferred one of their tier, and which of them a
//! session reads at.
//!
//! Contracts see the table as the numbers of the configuration's nodes, how many shards there are, and a flag for each
//! follower and shard.
//!
//! What it promises. Which followers serve a shard, and which of these a session reads at: in its tier, or in the next
//! round about that has one, the one whose turn it is among those that are up and serve the shard. Without clones it
//! is the one that the topology gives.
//!
//! The contracts that say so: `CloneTable::set`, `serves`, `pick`; the law `without_clones`.
#![tactic(auto)]

mod counts;
mod flags;
pub mod laws;
mod pick;
mod table;
#[cfg(test)]
mod tests;

pub use table::CloneTable;
