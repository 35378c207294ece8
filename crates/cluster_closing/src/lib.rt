//! The closing of a cluster: its nodes, stores and keepers are taken out of their locks, and settled.
//!
//! What it promises. A closed cluster has all keepers, in their order, and what the locks kept is so of its nodes and stores. Its settle is that of
//! `unlocked_nodes`, over its keepers as one: an Ok leaves it settled and paired, with each node at the ends of its region's stores, and one that comes to
//! no end has its cause, of which a keeper's fault is said only as the keepers' own counts, added up, rose. A note that meets a closed master's store has
//! seen all of the log that the store's keeper tells, and what it had seen before begins that. None of these calls waits for a lock.
//!
//! The contracts that say so: `close`; `Closed::settle`, `meet`, `mark`, `faults`, `keepers`.
#![tactic(auto)]

mod closed;
mod counting;
mod freeing;
mod settling;

pub use closed::Closed;
pub use cluster_opening;
pub use cluster_opening::locked_nodes;
pub use freeing::close;
