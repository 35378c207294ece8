//! The replies to writes and reads.
ghost use Rattle.std.specs.Prelude.{◌≡◌};
ghost use Rattle.replies.specs.Kinds.{kind_word, query_word};

use super::nodes::KeptOrNot;
use tao_base::{Answer, Id, Query};
use words::{ReadWord, WriteWord};

/// The reply to a write or a read that was carried out.
#[derive(Drop)]
pub enum CallReply {
    Write(WriteReply),
    Read(ReadReply),
}

/// The reply to a write.
#[derive(Clone, Copy, PartialEq, Eq)]
pub struct WriteReply {
    pub kind: WriteKind,
    pub written: Written,
    /// How many carries over links the write took.
    pub hops: u64,
}

/// Which write was asked.
#[derive(Clone, Copy, PartialEq, Eq)]
pub enum WriteKind {
    /// An object was added under this id.
    ObjAdd { id: Id },
    ObjUpdate,
    ObjDelete,
    AssocAdd,
    AssocDelete,
    AssocChangeType,
}

/// What a write did.
#[derive(Clone, Copy, PartialEq, Eq)]
pub struct Written {
    /// Whether there was something to write; on a retry, whether the first try wrote something.
    pub changed: bool,
    /// What became of the edge's inverse.
    pub inverse: InverseEnd,
    /// The position of the write's entry in the log of its shard; 0 where nothing is written.
    pub position: u64,
    /// Whether the entry stood there before.
    pub retry: bool,
}

/// What became of the inverse of an edge that was written.
#[derive(Clone, Copy, PartialEq, Eq)]
pub enum InverseEnd {
    /// There is none to be written.
    None,
    /// It is written.
    Written,
    /// A job that stays open is to write it.
    Scheduled { why: ScheduledWhy },
}

/// Why an inverse is not yet written.
#[derive(Clone, Copy, PartialEq, Eq)]
pub enum ScheduledWhy {
    /// A carry over a link failed.
    LinkFault,
    /// A call of a keeper failed.
    KeeperFault,
    /// The other shard's log is full.
    LogFull,
    /// No leader could be chosen.
    NoServer,
    /// There was no memory.
    Memory,
}

/// The reply to a read: what was found, and the version of its key.
#[derive(Drop)]
pub struct ReadReply {
    pub word: ReadWord,
    pub answer: Answer,
    pub version: u64,
    /// How many carries over links the read took.
    pub hops: u64,
    /// Whether a keeper was called for it.
    pub store: bool,
    /// Whether the follower that replied holds what it answered from.
    pub kept: KeptOrNot,
}

/// The word of the read that asks a query.
pub fn query_word(query: &Query) -> ReadWord
    ensures { result ≡ query_word query.now }
{
    match query {
        Query::ObjGet { .. } => ReadWord::ObjGet,
        Query::AssocGet { .. } => ReadWord::AssocGet,
        Query::AssocCount { .. } => ReadWord::AssocCount,
        Query::AssocRange { .. } => ReadWord::AssocRange,
        Query::AssocTimeRange { .. } => ReadWord::AssocTimeRange,
    }
}

impl WriteKind {
    /// The word of the write.
    pub fn word(self) -> WriteWord
        ensures { result ≡ kind_word self }
    {
        match self {
            WriteKind::ObjAdd { .. } => WriteWord::ObjAdd,
            WriteKind::ObjUpdate => WriteWord::ObjUpdate,
            WriteKind::ObjDelete => WriteWord::ObjDelete,
            WriteKind::AssocAdd => WriteWord::AssocAdd,
            WriteKind::AssocDelete => WriteWord::AssocDelete,
            WriteKind::AssocChangeType => WriteWord::AssocChangeType,
        }
    }
}
