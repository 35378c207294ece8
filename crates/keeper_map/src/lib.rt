//! The keeper in memory, which fails exactly where its plan says so.
//!
//! What it promises. The keeper in memory tells everything, logs in two parts, open jobs, what promotions took away and
//! who is master, and fails exactly at the planned calls and commits.
//!
//! The contracts that say so: `MapKeeper`.
#![tactic(auto)]

mod jobs;
mod log;
mod lost;
mod map;
mod plan;
mod store;
mod stores;

pub use map::MapKeeper;
pub use plan::Fails;
