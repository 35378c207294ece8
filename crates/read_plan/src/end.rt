//! What a read ends with.
use replies::{KeptOrNot, Reply};
use tao_base::Answer;

/// What a read ends with.
#[derive(Drop)]
pub enum ReadEnd {
    /// The answer, at this version of the key, and whether the follower keeps it. A read that the follower answered off an
    /// item that it held counts as kept.
    Answered {
        answer: Answer,
        version: u64,
        kept: KeptOrNot,
    },
    /// The reply that refuses the read.
    Refused(Reply),
}
