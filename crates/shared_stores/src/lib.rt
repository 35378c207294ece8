//! The stores of a cluster as the values of their locks, each with its keeper and a note of every other shard's log. Whenever a lock is free,
//! all that is known of its value is what its type keeps.
//!
//! What it promises. A store under its lock is one of the cluster's, in the role of its name, and has seen the log of its shard; where its keeper's
//! tables are told, a master's log is its keeper's, all that it has seen of any log is sound, and over that it is covered: what is missing at the other
//! end of an edge is owed by an open job. All locks of the masters together so give sound and covered stores (`locked_model`). A slave's log begins its
//! master's, is sound, and its jobs are those of its entries. A read answers, at each floor that the caller's note had reached, what the store's whole log
//! does, and one past the bound of a type only where no front within it decides the query; the job that a write answers with is owed, where its records lie
//! on another shard; a job is ended only where all its records were seen there; two stores see each other's whole logs only while both locks are held; a
//! slave's log gains its master's next entry, and none exactly where both are equally long.
//!
//! The contracts that say so: the fact `kept` of `SharedStore`; `SharedStore::read`, `end`, `meet`; `ask_at`, `commit_at`, `merge_at`;
//! `see_each_other`, `see_gained`; `follow`.
#![tactic(auto)]

mod counted;
mod jobs;
mod leading;
mod meeting;
mod owed;
mod sharing;
mod store;
mod streams;

pub use counted::CountedNote;
pub use leading::{ask_at, commit_at, merge_at};
pub use meeting::{Spares, see_each_other, see_gained};
pub use node_stages;
pub use owed::OwedJob;
pub use sharing::Sharing;
pub use store::SharedStore;
pub use streams::follow;
