//! What a load is asked, and what it answers.
use replies::{Lengths, UnsettledWhy};
use shared_tiers::cluster_opening::OpenFail;
use topology::Config;

/// What a load is asked: the calls of a seed, so many, on so many threads, over stores that are opened with the configuration's line.
#[derive(Clone, Copy)]
pub struct LoadAsked<'a> {
    pub config: &'a Config,
    pub line: &'a [u8],
    pub threads: u32,
    pub seed: u64,
    pub calls: u64,
}

/// What came of a load, once its cluster is closed and settled.
#[derive(Drop)]
pub struct LoadSummary {
    /// How many edges the logs of all shards leave live.
    pub edges: u64,
    /// The lengths of the logs, by shard.
    pub logs: Lengths,
    /// How many calls the threads were refused. As any count it stands still at its last value.
    pub refused: u64,
}

/// Why a load came to no summary, with the keepers, in their order.
#[derive(Drop)]
pub enum BusyRefusal<M> {
    /// The cluster wasn't made.
    Open(OpenFail<M>),
    OutOfMemory {
        keepers: Vec<M>,
    },
    /// The settle of the closed cluster ended at this shard.
    Stuck {
        shard: u16,
        why: UnsettledWhy,
        keepers: Vec<M>,
    },
    /// A keeper failed as the logs were read at the end.
    KeeperFault {
        keepers: Vec<M>,
    },
    /// The entry at a position of a shard's log is a client's, and of none of the workload's writes. It is the first such entry.
    Stranger {
        shard: u16,
        position: u64,
        keepers: Vec<M>,
    },
}
