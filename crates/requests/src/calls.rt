//! The calls on objects and associations.
ghost use Rattle.std.specs.Prelude.{◌≡◌};
ghost use Rattle.requests.specs.CallWords.{asking_session, call_word, read_word, write_word};

use tao_base::{Data, Id, IdSet, Text, Time};
use words::{ReadWord, Word, WriteWord};

/// An association list: the associations of one type that go out from an id.
#[derive(Drop)]
pub struct ListName {
    pub id1: Id,
    pub atype: Text,
}

/// An association: its list and its other end.
#[derive(Drop)]
pub struct EdgeName {
    pub list: ListName,
    pub id2: Id,
}

/// What a session asks to be written: `tao_base::Write` with names in place of types.
#[derive(Drop)]
pub enum WriteText {
    ObjAdd {
        shard: u16,
        otype: Text,
        payload: Data,
    },
    ObjUpdate {
        id: Id,
        payload: Data,
    },
    ObjDelete {
        id: Id,
    },
    AssocAdd {
        edge: EdgeName,
        time: Time,
        payload: Data,
    },
    AssocDelete {
        edge: EdgeName,
    },
    AssocChangeType {
        edge: EdgeName,
        newtype: Text,
    },
}

/// What a session asks to be read: `tao_base::Query` with names in place of types.
#[derive(Drop)]
pub enum QueryText {
    ObjGet {
        id: Id,
    },
    AssocGet {
        list: ListName,
        ids: IdSet,
        high: Option<Time>,
        low: Option<Time>,
    },
    AssocCount {
        list: ListName,
    },
    AssocRange {
        list: ListName,
        pos: u32,
        limit: u32,
    },
    AssocTimeRange {
        list: ListName,
        high: Time,
        low: Time,
        limit: u32,
    },
}

/// A session's write, by its number.
#[derive(Drop)]
pub struct WriteCall {
    pub session: u32,
    pub seq: u64,
    pub write: WriteText,
}

/// A session's read. A critical one is answered by the master's leader.
#[derive(Drop)]
pub struct ReadCall {
    pub session: u32,
    pub query: QueryText,
    pub critical: bool,
}

/// One of the eleven calls on objects and associations.
#[derive(Drop)]
pub enum Call {
    Write(WriteCall),
    Read(ReadCall),
}

impl WriteText {
    /// Which write it is.
    pub fn word(&self) -> WriteWord
        ensures { result ≡ write_word self.now }
    {
        match self {
            WriteText::ObjAdd { .. } => WriteWord::ObjAdd,
            WriteText::ObjUpdate { .. } => WriteWord::ObjUpdate,
            WriteText::ObjDelete { .. } => WriteWord::ObjDelete,
            WriteText::AssocAdd { .. } => WriteWord::AssocAdd,
            WriteText::AssocDelete { .. } => WriteWord::AssocDelete,
            WriteText::AssocChangeType { .. } => WriteWord::AssocChangeType,
        }
    }
}

impl QueryText {
    /// Which read it is.
    pub fn word(&self) -> ReadWord
        ensures { result ≡ read_word self.now }
    {
        match self {
            QueryText::ObjGet { .. } => ReadWord::ObjGet,
            QueryText::AssocGet { .. } => ReadWord::AssocGet,
            QueryText::AssocCount { .. } => ReadWord::AssocCount,
            QueryText::AssocRange { .. } => ReadWord::AssocRange,
            QueryText::AssocTimeRange { .. } => ReadWord::AssocTimeRange,
        }
    }
}

impl Call {
    /// The word of the call.
    pub fn word(&self) -> Word
        ensures { result ≡ call_word self.now }
    {
        match self {
            Call::Write(call) => Word::Write(call.write.word()),
            Call::Read(call) => Word::Read(call.query.word()),
        }
    }

    /// The number of the session that asks it.
    pub fn session(&self) -> u32
        ensures { result ≡ asking_session self.now }
    {
        match self {
            Call::Write(write) => write.session,
            Call::Read(read) => read.session,
        }
    }
}
