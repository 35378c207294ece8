//! The replies about nodes: caches, stores and the links between them. Hops count the carries over
//! links that a request took.
use super::lists::{Message, Messages};
use tao_base::{Edges, Object};
use words::{DeliveryWord, HealthWord, LinkWord};

/// The reply about a node.
#[derive(Drop)]
pub enum NodeReply {
    Cache(CacheReply),
    Streamed(Streamed),
    Trimmed(Trimmed),
    Repaired(Repaired),
    /// A node was put down or up, or a tier changed its trust in a leader.
    Health { word: HealthWord, changed: bool },
    /// A link was cut or mended.
    Link { word: LinkWord },
}

/// A store took the next entry of its master's log, if there was one. `next` is the position that it
/// takes next.
#[derive(Clone, Copy, PartialEq, Eq)]
pub struct Streamed {
    pub hops: u64,
    pub next: u64,
    pub verdict: StreamVerdict,
}

/// The first entries of a store's log, so many, are old now; how many nodes began anew for it.
#[derive(Clone, Copy, PartialEq, Eq)]
pub struct Trimmed {
    pub cut: u64,
    pub reset: u64,
}

/// The first open job of a shard was run: the position of the entry that left it, 0 where no job was
/// open, and whether an entry was written at the other end.
#[derive(Clone, Copy, PartialEq, Eq)]
pub struct Repaired {
    pub hops: u64,
    pub job: u64,
    pub wrote: bool,
}

/// The reply about a cache node.
#[derive(Drop)]
pub enum CacheReply {
    Delivered(DeliveredReply),
    /// A message was taken out of the inbox and dropped.
    Lost(Message),
    Refilled(Refilled),
    /// Whether the node held an item to be evicted.
    Evicted { evicted: bool },
    /// What the node holds of a key, and its mark for the key's shard.
    Shown { mark: u64, item: Shown },
    /// The messages of an inbox.
    Inbox { messages: Messages },
}

/// A message was delivered: how many items it dropped, and the node's mark for the shard, up to which it
/// has seen all entries.
#[derive(Clone, Copy, PartialEq, Eq)]
pub struct DeliveredReply {
    pub word: DeliveryWord,
    pub dropped: u64,
    pub mark: u64,
    pub message: Message,
}

/// The first list of the refill queue was filled again, by a keeper's call where `store`.
#[derive(Clone, Copy, PartialEq, Eq)]
pub struct Refilled {
    pub hops: u64,
    pub store: bool,
    pub version: u64,
    pub kept: KeptOrNot,
}

/// Whether a node kept a fill.
#[derive(Clone, Copy, PartialEq, Eq)]
pub enum KeptOrNot {
    Kept,
    Not(NotKept),
}

/// Why a fill was not kept: what it had, and what it needed.
#[derive(Clone, Copy, PartialEq, Eq)]
pub struct NotKept {
    pub why: NotKeptWhy,
    pub have: u64,
    pub need: u64,
}

/// Why a fill was not kept.
#[derive(Clone, Copy, PartialEq, Eq)]
pub enum NotKeptWhy {
    /// The most edges that a node keeps of the list don't decide the query.
    Bound,
    /// As many asks were open as a node may have.
    Asks,
    /// The node went down or was reset since the ask began.
    Lost,
    /// The fill's source had seen less than the ask's mark.
    Mark,
    /// The fill's version is below the ask's floor.
    Floor,
    /// There was no memory for the item.
    Memory,
}

/// What a node holds of a key.
#[derive(Drop)]
pub enum Shown {
    Nothing,
    Held { version: u64, item: ShownItem },
}

/// The item of a key: an object, or the first edges of a list and the list's length.
#[derive(Drop)]
pub enum ShownItem {
    Object(Option<Object>),
    List { edges: Edges, total: u64 },
}

/// What a store did with the entry that was streamed to it.
#[derive(Clone, Copy, PartialEq, Eq)]
pub enum StreamVerdict {
    /// It took the entry.
    Applied,
    /// It had taken it before.
    Old,
    /// It lacks the entry before.
    Gap,
    /// There was no entry that it lacks.
    None,
}
