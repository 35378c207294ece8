//! What comes of the stages of a write.
ghost use Rattle.std.specs.Prelude.{◌≡◌};
ghost use Rattle.write_plan.specs.Stages.{result_stage};

use crate::committed::Committed;
use crate::stage::WriteStage;
use replies::{Reply, ScheduledWhy};
use shard_log::Note;
use shard_tables::Wrote;

/// Why a job was not merged, or not removed.
#[derive(Drop)]
pub enum LeftOpen {
    /// The job stays open, and the write goes on. The merge may have been written all the same, as where its answer was lost
    /// on the way back.
    Scheduled {
        why: ScheduledWhy,
        wrote: Option<Wrote>,
    },
    /// The write is refused, and ends.
    Refused(Reply),
}

/// What a commit answered, with notes of the log in which it stands, for its way back.
#[derive(Drop)]
pub struct CommitAnswer {
    pub committed: Committed,
    /// For the leader that was passed; none is needed where none was.
    pub relay: Option<Note>,
    /// For the follower.
    pub spare: Note,
}

/// What came of a stage. A reply in place of an answer is the one that refuses the write.
#[derive(Drop)]
pub enum WriteResult {
    /// What was committed, with the notes for its way back.
    Commit(Result<CommitAnswer, Reply>),
    /// What the merge wrote at the other end.
    Inverse(Result<Wrote, LeftOpen>),
    End(Result<(), LeftOpen>),
    Relay(Result<(), Reply>),
    Apply(Result<(), Reply>),
}

impl WriteResult {
    /// The stage that it came of.
    pub fn stage(&self) -> WriteStage
        ensures { result ≡ result_stage self.now }
    {
        match self {
            WriteResult::Commit(_) => WriteStage::Commit,
            WriteResult::Inverse(_) => WriteStage::Inverse,
            WriteResult::End(_) => WriteStage::End,
            WriteResult::Relay(_) => WriteStage::Relay,
            WriteResult::Apply(_) => WriteStage::Apply,
        }
    }
}
