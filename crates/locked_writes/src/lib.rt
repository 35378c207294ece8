//! The stages of a write on nodes that lie behind locks.
//!
//! Each stage is one hold: of a leader's lock and then its store's, of the locks of a leader and of both stores between which a job is merged, or of one
//! node's lock. Whom a commit or a merge notifies gets a message in its inbox, or loses it for want of memory.
//!
//! What it promises. A commit is answered as the write is on a beginning of the shard's log that is no shorter than what the caller had seen; its note has
//! seen the entry, which fits the write and is the only one of its origin; a job that it answers is owed, and without one nothing is owed. A refusal has
//! its cause in what the caller's note has then seen, or the keeper may fail, or there was no memory; no other comes. A job that is merged is done in the
//! note that is answered, which what the caller had seen of the log there begins; its merge wrote what there was to write on a beginning of that log that is
//! no shorter than what the caller had seen. Why a job stays open has its cause.
//!
//! The contracts that say so: `commit`, `merge`, `end`, `relay`, `apply`, `notify`.
#![tactic(auto)]

mod locks;
mod writing;

pub use locks::{apply, commit, end, merge, notify, relay};
pub use writing::{CommitPlace, CommittedThere, MergePlace, NotMerged};
