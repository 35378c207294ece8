//! The pass of a session: how far its reads must have come at each key, and what it has seen of each shard's log.
//!
//! What it promises. A pass's floors never fall, and where the logs are told each is at most the version that its
//! key has in what the pass has seen; an entry that is learnt makes the floor at each key that it touches the
//! greater of the touch's version and what it was, and no other floor changes; after `reserve` two entries, or
//! sixteen calls of `learn`, need nothing more.
//!
//! The contracts that say so: `Pass::learn_entry`, `learn`, `see`, `reserve`, `floor`, `name`, `note`;
//! `floors_are_reached`.
#![tactic(auto)]

mod floors;
pub mod laws;
mod notes;
mod pass;

pub use pass::Pass;
