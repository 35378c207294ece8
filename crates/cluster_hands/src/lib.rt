//! The hands of a thread on all nodes and stores of a cluster, and what it has them take.
//!
//! What it promises. Each hand that is taken is of the cluster's own nodes, and stays so. A node that is pumped takes no more than it may, and fewer only where
//! its last pump took nothing: as none waited, or its store refused.
//!
//! Not said by any contract: that what waits for a node is taken in the end.
//!
//! The contracts that say so: `take_hands`, `hand_place`, `pump_out`, `pump_at`, `pump_round`.
#![tactic(auto)]

mod hands;
mod pumping;

pub use hands::{hand_place, region_count, take_hands};
pub use pumping::{pump_at, pump_out, pump_round};
