//! What a write or a merge changes, read off a keeper: the touches of their entries, and what an entry owes to another
//! shard. Nothing is written here, and no table changes.
//!
//! What it promises. The touches of a write, read off a keeper, are those of its forward entry, or it has no
//! serial or no stamp; those of a merge are exactly the later records'; the far job of an entry.
//!
//! The contracts that say so: `touches_of`, `news_touches`, `far_job`.
#![tactic(auto)]

mod edge_writes;
mod far_jobs;
mod near_ends;
mod news;
mod object_writes;
mod own_records;
mod refusal;
mod touches;

pub use far_jobs::far_job;
pub use news::news_touches;
pub use own_records::LAST_EPOCH;
pub use refusal::TouchRefusal;
pub use touches::touches_of;
