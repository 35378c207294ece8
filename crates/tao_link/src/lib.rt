//! Links: what carries calls from node to node, with a count of the carries that failed.
//!
//! What it promises. A carry is counted, whether it fails or not; it fails only where the count of faults rose,
//! and the link then names it; a link in memory fails exactly at the listed carries, one that can be cut exactly
//! where it is cut, a steady one never.
//!
//! The contracts that say so: `trait Link`, `SteadyLink`, `PlannedLink`, `SwitchLink`.
#![tactic(auto)]

mod link;
mod planned;
mod steady;
mod switch;

pub use link::{Carry, Link, LinkFailed};
pub use planned::PlannedLink;
pub use steady::SteadyLink;
pub use switch::SwitchLink;
