//! What the tests see of replies.
use replies::{CallReply, InverseEnd, ReadReply, Reply, WriteReply, Written};
use tao_base::Answer;

/// How many edges a list has, and the list's version, of a count's reply.
pub(crate) fn counted(reply: &Reply) -> Option<(u64, u64)> {
    match reply {
        Reply::Called(
            CallReply::Read(
                ReadReply {
                    answer: Answer::Count(count),
                    version,
                    ..
                },
            ),
        ) => Some((*count, *version)),
        _ => None,
    }
}

/// At which position a write added its entry.
pub(crate) fn added(reply: &Reply) -> Option<u64> {
    match reply {
        Reply::Called(
            CallReply::Write(
                WriteReply {
                    written: Written {
                        changed: true,
                        inverse: InverseEnd::None,
                        position,
                        retry: false,
                    },
                    ..
                },
            ),
        ) => Some(*position),
        _ => None,
    }
}
