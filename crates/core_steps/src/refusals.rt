//! What is replied to the read of a refill.
ghost use Rattle.std.specs.Prelude.{◌≡◌};
ghost use Rattle.core_steps.specs.Replies.{refilled_as};

use replies::{CacheReply, CallReply, NodeReply, Refilled, Reply};

/// The reply to a refill, of the reply to its read.
pub fn refilled_as(reply: Reply) -> Reply
    ensures { result ≡ refilled_as reply }
{
    match reply {
        Reply::Called(CallReply::Read(read)) => {
            Reply::Node(NodeReply::Cache(CacheReply::Refilled(Refilled {
                hops: read.hops,
                store: read.store,
                version: read.version,
                kept: read.kept,
            })))
        }
        other => other,
    }
}
