//! The stages of a write.
ghost use Rattle.std.specs.Prelude.{◌≡◌};
ghost use Rattle.write_plan.specs.Stages.{stage_said, write_refused};

use crate::results::{LeftOpen, WriteResult};
use replies::{Reply, Stage};

/// A stage of a write, in the order in which they follow.
#[derive(Clone, Copy, PartialEq, Eq)]
pub enum WriteStage {
    /// The master's leader writes.
    Commit,
    /// The leader of the other end's shard merges the job.
    Inverse,
    /// The leader that wrote removes the job.
    End,
    /// The leader of a slave region that was passed takes the changes.
    Relay,
    /// The follower takes the changes.
    Apply,
    /// Nothing is left to be done.
    Done,
}

impl WriteStage {
    /// How a reply names the stage; none where nothing is left.
    pub fn said(self) -> Option<Stage>
        ensures { result ≡ stage_said self }
    {
        match self {
            WriteStage::Commit => Some(Stage::Commit),
            WriteStage::Inverse => Some(Stage::Inverse),
            WriteStage::End => Some(Stage::End),
            WriteStage::Relay => Some(Stage::Relay),
            WriteStage::Apply => Some(Stage::Apply),
            WriteStage::Done => None,
        }
    }

    /// What the stage comes to where the write is refused with that reply; one that is done takes it as of its last stage.
    pub fn refused(self, reply: Reply) -> WriteResult
        ensures { result ≡ write_refused self reply }
    {
        match self {
            WriteStage::Commit => WriteResult::Commit(Err(reply)),
            WriteStage::Inverse => WriteResult::Inverse(Err(LeftOpen::Refused(reply))),
            WriteStage::End => WriteResult::End(Err(LeftOpen::Refused(reply))),
            WriteStage::Relay => WriteResult::Relay(Err(reply)),
            WriteStage::Apply | WriteStage::Done => WriteResult::Apply(Err(reply)),
        }
    }
}
