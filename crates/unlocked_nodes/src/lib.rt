//! Nodes and stores that came out of their locks, settled as a core's.
//!
//! Of a value that comes out of a lock is known what its type kept, and no more. So a settle first looks: what stores and nodes have seen meets the
//! masters' logs, whose beginnings it then is; and what no lock can keep is compared, with the names. From then on they are a core's nodes, and are
//! settled by the core's own stages. While jobs are run and streams are moved, empty nodes stand in for the others, since of these it isn't known that
//! their regions' stores have come to all that they have marked; once every store has its shard's whole log, they have.
//!
//! What it promises. An Ok settle leaves no job open, each edge whose type has an inverse paired, every store with its shard's whole log, and each leader
//! and follower at the ends of its region's stores, with just those of its items that are of their keys' last versions; it tells the lengths of the
//! logs. One that comes to no end has its cause: a fault's count rose, or an entry would be written to a full log; or there was no memory. Logs only grow,
//! and only by what merges the open jobs. What was known before may be relied on after, so it may be settled again.
//!
//! The contracts that say so: `settle_unlocked`, `meet_master`; `MaySettle`, `ComesTo`.
#![tactic(auto)]

mod looking;
mod meeting;
mod moving;
mod numbers;
mod settling;
mod unlocked;

pub use core_repairs;
pub use meeting::meet_master;
pub use settling::{Settled, settle_unlocked};
pub use unlocked::{Unlocked, no_nodes};
