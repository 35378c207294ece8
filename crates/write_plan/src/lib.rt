//! The plan of a write: which stage follows, from the commit at the master's leader to the follower that was asked, and the
//! reply that comes of it. A plan does no stage itself. Who has the nodes does the stage that is next and tells the plan what
//! came of it, so a plan may be held between two stages.
//!
//! What it promises. The plan of a write: commit, then the job's merge and end where there is one, the relay
//! where a leader was passed, the follower's changesets; what is left open leaves the job and goes on, a refusal ends
//! it. An Ok reply names the entry that the commit answered.
//!
//! The contracts that say so: `WritePlan::take`, `finish`; the law `plans_end`.
#![tactic(auto)]

mod committed;
pub mod laws;
mod plan;
mod progress;
mod results;
mod stage;
mod way_back;

pub use committed::{Committed, kind_said};
pub use plan::{EndedWrite, WritePlan};
pub use progress::{OtherEnd, WayBack};
pub use results::{CommitAnswer, LeftOpen, WriteResult};
pub use stage::WriteStage;
pub use way_back::{committer, last_before, last_leader, passed_of, relay_note_of, spare_note_of};
