//! The nodes of the store, as places of the configuration.
//!
//! What it promises. The names of nodes, as places.
//!
//! The contracts that say so: the type `NodeName`.
#![tactic(auto)]

use tao_base::StoreName;

/// A node: a region's store of a shard, one of a region's leaders, or one of a tier's followers. Regions
/// and tiers stand as their places in the configuration, leaders and followers as their numbers among
/// their like, from 0.
#[derive(Clone, Copy, PartialEq, Eq)]
pub enum NodeName {
    Store(StoreName),
    Leader { region: u16, index: u16 },
    Follower { region: u16, tier: u16, index: u16 },
}
