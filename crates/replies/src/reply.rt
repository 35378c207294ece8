//! The reply to a line.
use super::calls::CallReply;
use super::lists::Lengths;
use super::nodes::NodeReply;
use super::plans::PlanReply;
use super::refusals::Refusal;
use tao_base::{Answer, StoreName, Text};

/// The reply to a line.
#[derive(Drop)]
pub enum Reply {
    /// The first line was taken as the configuration.
    Configured,
    /// The first line was refused: its first bad field, the empty text for the line as a whole.
    BadConfiguration { field: Text },
    /// A store's log is none of its master's: the first position at which they differ.
    BadStores { store: StoreName, position: u64 },
    /// A session was opened.
    Opened { session: u32 },
    /// A write or a read was carried out.
    Called(CallReply),
    Plan(PlanReply),
    Node(NodeReply),
    /// All jobs, streams and inboxes are done: the lengths of the masters' logs, by shard.
    Settled { logs: Lengths },
    /// What the master's store has now, and the length of its log.
    Audited { answer: Answer, position: u64 },
    /// The request was refused.
    Refused(Refusal),
}
