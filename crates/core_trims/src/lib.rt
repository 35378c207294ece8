//! Trimming: a store's log is cut, and the nodes that lie behind the cut begin anew.
//!
//! What it promises. The cut comes to the least of a position and of the lengths of all stores of the shard, and never goes back; no entry, job or
//! line changes. Each leader and follower of the store's region that lies behind begins anew at its region's stores, without items, asks, refills
//! and messages, and no other node changes; none lies behind a cut then. All that may fail does so before the cut, and then nothing has changed.
//!
//! The contracts that say so: `trim_over`; `TrimsOver`, `TrimsOn`.
#![tactic(auto)]

mod trims;

pub use trims::trim_over;
