//! `Replies`, the replies to a batch.
use replies::Reply;
use std::alloc::Global;
use std::marker::Model;
use std::mem;

/// The replies to the requests of a batch, in their order.
#[derive(Drop)]
pub struct Replies {
    replies: Vec<Reply>,
}

impl Model for Replies {
    ghost use Rattle.std.specs.Prelude.{List};
    ghost use Rattle.replies.specs.declared.reply.Reply.{Reply};

    ghost Value = { List Reply };

    ghost view = { λ r. r.replies.items };
}

impl Replies {
    ghost use Rattle.std.specs.Prelude.{◌≡◌};

    /// The replies of a vector, which is taken over. Takes no memory.
    pub fn of(replies: Vec<Reply>) -> Replies
        ensures { result ≡ replies.items }
    {
        Replies { replies }
    }

    /// The replies of a vector, which is left empty. Takes no memory.
    pub(crate) fn taken(alloc: Global, replies: &mut Vec<Reply>) -> Replies
        ensures { result ≡ replies.old.items }
    {
        Replies::of(mem::replace(replies, Vec::new(alloc)))
    }

    /// The replies, in the order of their requests.
    pub fn as_slice(&self) -> &[Reply]
        ensures { result.now ≡ self.now }
    {
        self.replies.as_slice()
    }

    /// The vector of the replies. Takes no memory.
    pub fn into_vec(self) -> Vec<Reply>
        ensures { result.items ≡ self }
    {
        self.replies
    }
}
