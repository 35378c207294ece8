//! What the leader of a shard answers to a follower.

use sealed_item::Fill;
use shard_log::Note;
use tao_base::Answer;

/// What a leader answers to a read with a floor. It stands beside what a store hands out, so that those who hold it need no
/// leader.
#[derive(Drop)]
pub enum LeaderAnswer {
    /// The object, or the shortest front of the list that decides the query.
    Filled(Fill),
    /// No front of the list within its bound decides the query. The answer, the list's version and
    /// its length, and a note of the log.
    Past {
        answer: Answer,
        version: u64,
        total: u64,
        note: Note,
    },
    /// The leader's store has not come to the floor: the version that it has.
    Behind {
        version: u64,
    },
}
