//! The stages of a read, and what comes of them.
use cache_items::{Kept, Look};
use replies::{Reply, Stage};
use shard_tables::{LeaderAnswer, ReadOut};
use tao_base::Answer;

/// The stage that a read does next.
#[derive(Clone, Copy, PartialEq, Eq)]
pub enum ReadStage {
    /// The follower looks for the key among its items. Where it doesn't answer, an ask is opened.
    Look,
    /// The region's leader, or its store, answers.
    Ask,
    /// The master's store answers.
    Master,
    /// The follower keeps what was given, or not.
    Keep,
    /// The read has its reply.
    Done,
}

impl ReadStage {
    ghost use Rattle.std.specs.Prelude.{◌≡◌};
    ghost use Rattle.read_plan.specs.Standings.{read_refused, stage_named};

    /// The stage's name in replies; none exactly where no stage is left.
    pub fn name(self) -> Option<Stage>
        ensures { result ≡ stage_named self }
    {
        match self {
            ReadStage::Look => Some(Stage::Look),
            ReadStage::Ask => Some(Stage::Ask),
            ReadStage::Master => Some(Stage::Master),
            ReadStage::Keep => Some(Stage::Keep),
            ReadStage::Done => None,
        }
    }

    /// What the stage comes to where the read is refused with that reply; one that is over takes it as of its last stage.
    pub fn refused(self, reply: Reply) -> ReadResult
        ensures { result ≡ read_refused self reply }
    {
        match self {
            ReadStage::Look => ReadResult::Look(Err(reply)),
            ReadStage::Ask => ReadResult::Ask(Err(reply)),
            ReadStage::Master => ReadResult::Master(Err(reply)),
            ReadStage::Keep | ReadStage::Done => ReadResult::Keep(Err(reply)),
        }
    }
}

/// What a stage came to, or the reply that refuses the read.
#[derive(Drop)]
pub enum ReadResult {
    Look(Result<Look, Reply>),
    Ask(Result<LeaderAnswer, Reply>),
    Master(Result<ReadOut, Reply>),
    /// The answer that the follower read off the fill, and whether it kept it. None exactly where no fill was given.
    Keep(Result<Option<(Answer, Kept)>, Reply>),
}
