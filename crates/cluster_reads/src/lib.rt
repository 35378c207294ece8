//! The reads of sessions on a cluster whose nodes lie behind locks.
//!
//! A read goes by the core's own plan: each of its stages is one hold of a lock, or of a leader's and then its store's, and nothing is held over a carry.
//!
//! What it promises. An answer is legal in what the session's pass has then seen of the shard's log, at the floor of its pass, and for a critical read at
//! the key's version in what the pass had seen before. The session learns the version that it is told, and of a refusal nothing. No ask is lost; where an
//! answer isn't kept, the pass has seen why: past the bound, the list's length at the answer's version, and that no front within the bound decides the query.
//! The hops are the carries that the link counted. A read is refused only where its link failed in this call, keepers of the type may fail, or there was no
//! memory: a follower can always be chosen.
//!
//! The contracts that say so: `read`, `begin_read`.
#![tactic(auto)]

mod learning;
mod reads;
mod taking;

pub use reads::{begin_read, read};
