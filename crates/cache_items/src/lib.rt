//! What a cache node holds: objects and first edges of lists by key, its open asks, and what it has
//! processed and seen of the logs of the shards that it serves.
//!
//! Each call says exactly what it does with these, and nothing of the logs. That all of it stays true
//! of the logs is said one crate up, by `cache_node`, whose calls these are.
//!
//! What it promises. What a cache node does with what it holds: which items, asks, marks and views each call
//! leaves, and what it answers.
//!
//! The contracts that say so: the calls of `Holdings`.
#![tactic(auto)]

mod delivered;
mod holdings;
mod item;
mod look;
mod unsealed;

pub use changeset;
pub use delivered::{Delivered, DroppedList, DroppedLists};
pub use holdings::Holdings;
pub use item::Item;
pub use look::{Kept, Look};
pub use maint_msg;
pub use sealed_item;
pub use unsealed::Unsealed;
