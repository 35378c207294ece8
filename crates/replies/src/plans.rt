//! The replies about plans: calls that are carried out stage by stage.
use super::calls::CallReply;
use words::PlanWord;

/// The reply to a request that took a plan one stage further.
#[derive(Drop)]
pub enum PlanReply {
    /// The plan is held before this stage.
    Next {
        word: PlanWord,
        plan: u32,
        next: Stage,
    },
    /// The plan came to its end: the reply to its call.
    Ended {
        plan: u32,
        reply: CallReply,
    },
}

/// A stage of a read or a write.
#[derive(Clone, Copy, PartialEq, Eq)]
pub enum Stage {
    /// The follower looks for the key among its items.
    Look,
    /// The region's leader, or its store, answers.
    Ask,
    /// The master's store answers.
    Master,
    /// The follower keeps the answer.
    Keep,
    /// The master's leader writes.
    Commit,
    /// The leader of the other shard writes the edge's inverse.
    Inverse,
    /// The first leader removes the job.
    End,
    /// The leader of the follower's region takes the changes.
    Relay,
    /// The follower takes the changes.
    Apply,
}
