//! What is asked of nodes that hold items: leaders and followers, their inboxes and their queues of refills.
ghost use Rattle.std.specs.Prelude.{◌≡◌};
ghost use Rattle.requests.specs.CacheWords.{cache_word};

use super::calls::ListName;
use tao_base::{Id, Text};
use words::{DeliveryWord, Word};

/// What a cache node holds an item of.
#[derive(Drop)]
pub enum KeyName {
    Object(Id),
    List(ListName),
}

/// A node, and the place of a message in its inbox.
#[derive(Drop)]
pub struct MessageName {
    pub node: Text,
    pub message: u32,
}

/// What is asked of a cache node.
#[derive(Drop)]
pub enum CacheRequest {
    Deliver(MessageName),
    Again(MessageName),
    Drop(MessageName),
    Refill { node: Text },
    /// Without a key the item that was used least recently.
    Evict { node: Text, key: Option<KeyName> },
    Show { node: Text, key: KeyName },
    Inbox { node: Text },
}

impl CacheRequest {
    /// The word of the request.
    pub fn word(&self) -> Word
        ensures { result ≡ cache_word self.now }
    {
        match self {
            CacheRequest::Deliver(_) => Word::Delivery(DeliveryWord::Deliver),
            CacheRequest::Again(_) => Word::Delivery(DeliveryWord::Again),
            CacheRequest::Drop(_) => Word::Drop,
            CacheRequest::Refill { .. } => Word::Refill,
            CacheRequest::Evict { .. } => Word::Evict,
            CacheRequest::Show { .. } => Word::Show,
            CacheRequest::Inbox { .. } => Word::Inbox,
        }
    }
}
