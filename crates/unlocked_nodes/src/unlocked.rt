//! `Unlocked`, what lay behind the locks of a cluster.
use core_nodes::{Fleet, FleetParts};
use shared_stores::CountedNote;
use std::alloc::Global;

/// What lay behind the locks of a cluster, but for its keepers.
#[derive(Drop)]
pub struct Unlocked {
    /// The leaders, the followers and the stores. No refill waits.
    pub fleet: Fleet,
    /// The notes of each store, in the order of the stores: of a master one of each shard's log, in order, of a slave none.
    pub noted: Vec<Vec<CountedNote>>,
    /// Whether all that was seen of the shards' logs was found to begin these. A settle looks once.
    pub met: bool,
}

/// No nodes at all. Takes no memory.
pub fn no_nodes(alloc: Global) -> Fleet {
    Fleet::of_parts(FleetParts {
        leaders: Vec::new(alloc),
        followers: Vec::new(alloc),
        stores: Vec::new(alloc),
    })
}
