//! Keepers: what holds the tables of the stores.
//!
//! What it promises. What each call answers over the logs that a keeper tells, that an error changes no table and
//! a commit adds one entry to one log, with its job, that told logs stay sound, the bounds of what is handed out,
//! and why a call fails. A log is its old entries followed by its live ones, and only `cut` makes live ones old; logs
//! only grow, by every call but `cut_back`.
//!
//! The contracts that say so: `trait Keeper`; `logs_are_in_two_parts`, `cuts_stay`, `logs_only_grow`.
#![tactic(auto)]

mod jobs;
mod keeper;
mod laws;

pub use jobs::{Job, JobEdge, JobEdges};
pub use keeper::{
    Commit, EPOCH_LIMIT, KeepFail, Keeper, MOST_ENTRIES, Opened, REGION_LIMIT, SERIAL_LIMIT,
    STAMP_LIMIT,
};
pub use laws::{cuts_stay, logs_are_in_two_parts, logs_only_grow};
