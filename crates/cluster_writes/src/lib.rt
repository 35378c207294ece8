//! The writes of sessions on a cluster whose nodes lie behind locks.
//!
//! A write goes by the core's own plan: each of its stages is one hold of a leader's lock and its store's, or of both stores between which a job is merged,
//! and nothing is held over a carry. Whom the stages notify gets a message in its inbox, or loses it for want of memory.
//!
//! What it promises. An acknowledged write's entry stands in what the session's pass has then seen of the shard's log, once under its origin, and fits the
//! write; a new one stands past what the pass had seen before. Where nothing was changed, there was nothing to change at a beginning of that log which what
//! the pass had seen before begins. Where a new entry's inverse is said to be written, what the pass has then seen of the other shard has it, or a later
//! record. A refusal, and an inverse that is only scheduled, have their cause; no other refusal comes, and never one for want of a server. The session learns
//! what the entry touches and what was merged at its other end, and nothing else: of a refusal nothing. The hops are the carries that the link counted.
//!
//! The contracts that say so: `write`.
#![tactic(auto)]

mod committing;
mod learning;
mod merging;
mod open;
mod running;
mod way_back;
mod writes;

pub use writes::write;
