//! Refusals.
use node_name::NodeName;
use tao_base::{StoreName, Text};
use words::Word;

/// Why a request was refused.
#[derive(Drop)]
pub enum Refusal {
    Line(LineRefused),
    Plan(PlanRefused),
    Session(SessionRefused),
    Name(NameRefused),
    Node(NodeRefused),
    Store(StoreRefused),
    /// There was no memory. The position is that of the write's entry, 0 where none was committed.
    Memory { position: u64 },
}

/// What of a line was refused.
#[derive(Drop)]
pub enum LineRefused {
    /// The line says no request: its first bad field, the empty text for the line as a whole.
    BadLine { field: Text },
    /// The data has more pairs, or is spelled in more bytes, than data may.
    TooLarge { bytes: u64, pairs: u64 },
    /// The word is none that a cluster of threads takes.
    NotHere { word: Word },
}

/// Why a plan was not taken further.
#[derive(Clone, Copy, PartialEq, Eq)]
pub enum PlanRefused {
    /// No plan of that number is held.
    NoPlan { plan: u32 },
    /// The plan is held already.
    PlanThere { plan: u32 },
    /// As many plans are held as may be.
    PlanFull { plans: u64 },
}

/// What is wrong with a session.
#[derive(Clone, Copy, PartialEq, Eq)]
pub enum SessionRefused {
    /// No session of that number is open.
    NoSession { session: u32 },
    /// The session is open already.
    SessionThere { session: u32 },
    /// As many sessions are open as may be.
    SessionFull { sessions: u64 },
}

/// What is wrong with a name that a request gave.
#[derive(Drop)]
pub enum NameRefused {
    /// No such region, as `east`, or no such tier, as `east/t9`.
    NoTier { name: Text },
    /// No node has the name.
    NoNode { name: Text },
    /// No type has the name.
    UnknownType { name: Text },
    /// There is no shard of that number.
    NoShard { shard: u16 },
    /// The type that an edge is to have is the one that it has.
    SameType { name: Text },
    /// More ids are asked than edges of the type are kept: the bound, and how many ids.
    Limit { bound: u64, count: u64 },
}

/// Why a node could not do what was asked.
#[derive(Clone, Copy, PartialEq, Eq)]
pub enum NodeRefused {
    /// The inbox has no message at that place.
    NoMessage { message: u32 },
    /// The refill queue is empty.
    NoRefill { node: NodeName },
    /// The store is the master, which no stream goes into.
    IsMaster { store: StoreName },
    /// The master's log, of that length, has no entry at the position.
    NoEntry { length: u64, position: u64 },
    /// No follower or leader of the region can be chosen.
    NoServer { region: u16 },
    /// A node that a held plan needs is down.
    NodeDown { node: NodeName, when: When },
}

/// Whether a plan ended before its entry was committed, or after, and at which position it stands.
#[derive(Clone, Copy, PartialEq, Eq)]
pub enum When {
    Before,
    After { position: u64 },
}

/// Why a store could not do what was asked.
#[derive(Clone, Copy, PartialEq, Eq)]
pub enum StoreRefused {
    /// The entry of the session's write of that number is old: it stands at the position, at or below the cut, and what it was
    /// isn't told any more.
    TooOld { cut: u64, position: u64 },
    /// The session's write of that number stands at the position, and is another one.
    SeqReused { position: u64 },
    /// The shard has its last serial.
    ShardFull { serial: u64 },
    /// The edge's stamp has the last number.
    StampFull { number: u64 },
    /// The log has as many entries as it may.
    LogFull { length: u64 },
    /// A keeper's call failed: how many have.
    KeeperFault { count: u64 },
    /// A carry failed: how many have.
    LinkFault { count: u64, when: When },
    /// `settle` ended at this shard.
    Unsettled { shard: u16, why: UnsettledWhy },
}

/// Why `settle` came to no end.
#[derive(Clone, Copy, PartialEq, Eq)]
pub enum UnsettledWhy {
    /// A carry over a link failed.
    LinkFault,
    /// A call of a keeper failed.
    KeeperFault,
    /// A log was full.
    LogFull,
}
