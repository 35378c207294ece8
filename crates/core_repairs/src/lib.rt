//! Repairs and streams: the jobs of other ends are merged from store to store and then ended, a shard's first one, or all of them for a settle;
//! and then a settle moves every stream to its end.
//!
//! Each call says which jobs were run, stage by stage, who is notified of what they wrote, which steps streams made, and what a refusal left; what was
//! consistent stays so.
//!
//! What it promises. A shard's first open job is merged from store to store with two carries, then ended, and
//! then those who see its records are notified as after a write, or it stays open, at most merged, with its cause. The
//! note of the log that is sent to them is taken before the merge: where there is no memory for it nothing is done. All
//! open jobs are run so, shard by shard, each shard's in order, which is the plain machine's settle; one that stops at a
//! shard has left no job open on a lower one.
//!
//! Every stream is moved to its end, region by region, and in each region shard by shard: each step carries the entry that a slave's store takes
//! next, with one carry, and nothing else is done but that keepers are read. Then every store has all of its shard's log; the shards' own logs and
//! open jobs are as they were. One that stops at a store has moved the streams before it to their ends.
//!
//! The contracts that say so: `repair_first`, `run_jobs`, `run_streams`, `unsettled_as`; `RepairsFirst`, `RunsJobs`, `RunsStreams`.
#![tactic(auto)]

mod repairs;
mod runs;
mod stops;
mod streams;

pub use core_steps;
pub use repairs::{Ran, repair_first};
pub use runs::run_jobs;
pub use stops::unsettled_as;
pub use streams::run_streams;
