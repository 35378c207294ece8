//! The plan of a read: its stages, one at a time, and the reply that they end with.
//!
//! A read goes from its follower, which looks among its items, to a leader of the region, to the master's store where that
//! leader's store is behind, and back to the follower, which keeps what was given. The plan says which stage follows, and
//! holds what the stages found; who carries out a stage is not said here. So a read may be held between two stages.
//!
//! What it promises. The plan of a read: which stage follows what came of the last one, and the reply at the end:
//! the answer that was found or given, at its version, the hops of all stages, whether one of them called a
//! keeper, and why the answer isn't kept. A read has at most four stages; a critical one asks no leader of its
//! region.
//!
//! The contracts that say so: `ReadPlan::take`, `finish`; the laws `reads_end`, `answers_are_given`,
//! `reads_go_on`, `reads_are_given`, `given_is_legal`.
#![tactic(auto)]

mod end;
mod keeping;
pub mod laws;
mod plan;
mod stages;
mod standing;

pub use keeping::{kept_or_not, past_bound};
pub use plan::ReadPlan;
pub use stages::{ReadResult, ReadStage};
