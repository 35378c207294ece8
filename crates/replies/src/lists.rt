//! Lists that replies have.
use std::marker::Model;

/// The lengths of logs, by shard. Contracts see their list.
#[derive(Drop)]
pub struct Lengths {
    lengths: Vec<u64>,
}

impl Model for Lengths {
    ghost use Rattle.std.specs.Prelude.{List, ℕ};

    ghost Value = { List ℕ };

    ghost view = { λ l. l.lengths.items };
}

impl Lengths {
    ghost use Rattle.std.specs.Prelude.{◌≡◌};

    /// The lengths of a vector, which is taken over. Takes no memory.
    pub fn of(lengths: Vec<u64>) -> Lengths
        ensures { result ≡ lengths.items }
    {
        Lengths { lengths }
    }

    /// The lengths, in the order of the shards.
    pub fn as_slice(&self) -> &[u64]
        ensures { result.now ≡ self.now }
    {
        self.lengths.as_slice()
    }
}

/// A message of a node's inbox: the shard and the position of the entry that it is about.
#[derive(Clone, Copy, PartialEq, Eq)]
pub struct Message {
    pub shard: u16,
    pub position: u64,
}

/// Messages, in the order in which they were sent. Contracts see their list.
#[derive(Drop)]
pub struct Messages {
    messages: Vec<Message>,
}

impl Model for Messages {
    ghost use Rattle.std.specs.Prelude.{List};
    ghost use Rattle.replies.specs.declared.lists.Message.{Message};

    ghost Value = { List Message };

    ghost view = { λ m. m.messages.items };
}

impl Messages {
    ghost use Rattle.std.specs.Prelude.{◌≡◌};

    /// The messages of a vector, which is taken over. Takes no memory.
    pub fn of(messages: Vec<Message>) -> Messages
        ensures { result ≡ messages.items }
    {
        Messages { messages }
    }

    /// The messages, the one that was sent first in front.
    pub fn as_slice(&self) -> &[Message]
        ensures { result.now ≡ self.now }
    {
        self.messages.as_slice()
    }
}
