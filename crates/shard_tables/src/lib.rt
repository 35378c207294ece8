//! The tables of one shard at its store, and what a client's write makes of them.
//!
//! The store stands on a keeper, which holds the shard's log, and has the pen of the log that threads share, or a slave a
//! note of it. Where the keeper tells its tables, its log is the pen's view, and begins the note's. A write that was made
//! before is answered with its entry while that is live, and one that finds nothing to change with none. Any other adds the
//! one entry that the graph's definition gives for it, or is refused and adds nothing.
//!
//! What it promises. A client's write at a shard's master commits exactly its forward entry with its job, to the
//! keeper's log and to the shared log or to neither, or answers the entry that fits it as a retry, or writes
//! nothing where nothing is there to change; each refusal exactly, in a fixed order; the log stays sound, and the
//! keeper's log stays the store's. A write whose entry is old is refused with the cut and its position. A retry has
//! the job that is still open. A merge adds exactly the records that are later than what stands there, or nothing,
//! keeps the log sound whatever the schema, and leaves all of them there. A read hands out a fill as of the log's
//! length, of a list the shortest front that decides the query, and the answer exactly where no front within the
//! bound decides it; it fails for a counted fault or out of memory alone. A write that was answered is a step of
//! the stores of all shards.
//!
//! The contracts that say so: `StoreNode::open_master`, `write`, `merge`, `first_job`, `end_job`, `read`, `note`,
//! `length`, `entry`; `ReadOut::found`, `object_added`; `writes_are_steps`.
#![tactic(auto)]

mod added;
mod laws;
mod leader_answer;
mod merges;
mod open_jobs;
mod opening;
mod read_out;
mod reads;
mod refusal;
mod slaves;
mod store;
mod writes;

pub use added::object_added;
pub use laws::writes_are_steps;
pub use leader_answer::LeaderAnswer;
pub use opening::{any_entry, whole_log};
pub use read_out::{ReadOut, answer_of_fill};
pub use reads::Found;
pub use refusal::StoreRefusal;
pub use store::{StoreNode, StoreRole};
pub use writes::{Wrote, inverses_match};
