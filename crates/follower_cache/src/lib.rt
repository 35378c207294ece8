//! A follower: a cache node that queues, for each list that a message dropped, a refill of it.
//!
//! Contracts see the node and the queue. Each call does with the node what the node's call of that name
//! does, so all that a node keeps true of its logs a follower keeps too.
//!
//! What it promises. A cache node, besides which each list that a message dropped is queued to be asked for
//! again: its limit and its floor, 256 rows at most, in their order.
//!
//! The contracts that say so: the calls of `Follower`; `Queues`.
#![tactic(auto)]

mod follower;
mod queue;

pub use cache_node::{Item, Kept, Look};
pub use follower::{Follower, followers_are_true};
pub use queue::Refill;
