//! What a line of a connection is replied.
ghost use Rattle.std.specs.Prelude.{◌≡◌, IfOk};
ghost use Rattle.cluster_talks.specs.TalkTexts.{talk_text};
ghost use Rattle.reply_json.specs.OneLine.{IsOneLine};

use read_batch::Replies;
use replies::Reply;
use reply_json::reply_text;
use std::alloc::Global;
use talk_lines::batch_text;
use tao_base::{Bytes, OutOfMemory};
use topology::Config;

/// What a line of a connection is replied.
#[derive(Drop)]
pub enum TalkReply {
    /// The reply to a request, or to a line that is refused.
    One(Reply),
    /// The replies to a batch's reads, in their order.
    Batch(Replies),
}

impl TalkReply {
    /// The text of it, on one line, whose names the configuration tells.
    pub(crate) fn text(&self, alloc: Global, config: &Config) -> Result<Bytes, OutOfMemory>
        ensures text { IfOk result (λ bytes. bytes ≡ talk_text config.now self.now) }
        ensures one_line { IfOk result IsOneLine }
    {
        match self {
            TalkReply::One(reply) => reply_text(alloc, config, reply),
            TalkReply::Batch(replies) => batch_text(alloc, config, replies.as_slice()),
        }
    }
}
