//! Repairs of edges whose ends lie on two shards: what a store owes to another one is merged there, and only then ended.
//!
//! What it promises. A repair merges a job at the other store exactly, and only then ends it at its own, with two
//! carries; each refusal leaves the job open, and its cause says what else it left; as steps of the stores of all
//! shards it is a merge and then an end, and keeps them sound and covered.
//!
//! The contracts that say so: `run_first`, `merge_far`, `end_here`, `run_between`; `repairs_are_steps`.
#![tactic(auto)]

mod laws;
mod refusal;
mod repairs;

pub use laws::repairs_are_steps;
pub use refusal::RepairRefusal;
pub use repairs::{RepairOutcome, end_here, merge_far, passed_on, run_between, run_first};
