//! The nodes of a cluster behind locks, which many threads call.
//!
//! Each node and store lies under a lock of its own, and each cache node has an inbox that threads share. Each stage of a call is one hold of a lock, or of
//! a leader's and then its store's, and nothing is held over a carry. What is known of a value under a lock is what its type keeps; facts leave a lock by
//! notes, which the session's pass sees.
//!
//! What it promises. What a hold answers is right in a note that it hands out, or in the caller's, which has then seen all that the store has; where an
//! answer is one past the bound, no front of the list within it decides the query. A refusal of a read has its cause: the link failed in that carry, keepers
//! may fail, or there was no memory. In a configured tier a follower can always be chosen. A pass has a note of each shard's log; what it sees goes on. The
//! nodes keep the configuration and the cuts that they were made with, and room for all that lies behind their locks. Which inbox is a node's is known; a
//! message that finds no memory is lost.
//!
//! The contracts that say so: `LockedNodes::of`, `into_parts`, `config`, `cut_of`, `pass`, `follower_for`, `leader_for`, `inbox`; `look`, `keep`, `ask`,
//! `read_store`; `tell`, `notify`; `prepare`, `see`, `learn`; `carry_over`.
#![tactic(auto)]

mod holds;
mod locks;
mod messages;
mod nodes;
mod pairs;
mod passes;
mod passing;
mod refusals;
mod room;

pub use core_nodes;
pub use holds::{Asked, Mastered};
pub use nodes::{LockedNodes, LockedParts, Tiered};
pub use passes::{learn, prepare, see};
pub use refusals::carry_over;
pub use room::{Room, RoomParts, put_last};
pub use shared_nodes;
