//! All nodes of a core in one value: its leaders, its followers and its stores.
ghost use Rattle.std.specs.Prelude.{◌≡◌};

use core_model::Named;
use core_model::leader_tier::Leader;
use follower_cache::Follower;
use shard_tables::StoreNode;
use std::marker::Model;

/// The nodes of a core: the leaders of each region, the followers of each tier, and the master's store of each shard. What the
/// stores hold lies with the keepers that a call is given.
///
/// A node is found by its name among at most 16 leaders or 64 followers, a store by its shard.
#[derive(Drop)]
pub struct Fleet {
    pub(crate) leaders: Vec<Named<Leader>>,
    pub(crate) followers: Vec<Named<Follower>>,
    pub(crate) stores: Vec<StoreNode>,
}

impl Model for Fleet {
    ghost use Rattle.core_model.specs.Fleet.{Fleet};
    ghost use Rattle.core_nodes.specs.FleetView.{fleet_seen};

    ghost Value = { Fleet };

    ghost view = { fleet_seen };
}

/// The nodes of a core, each on its own.
#[derive(Drop)]
pub struct FleetParts {
    pub leaders: Vec<Named<Leader>>,
    pub followers: Vec<Named<Follower>>,
    pub stores: Vec<StoreNode>,
}

impl Fleet {
    /// A core's nodes of these, in their order. Takes no memory.
    pub fn of_parts(parts: FleetParts) -> Fleet
        ensures leaders { result.leaders ≡ parts.leaders.items }
        ensures followers { result.followers ≡ parts.followers.items }
        ensures stores { result.stores ≡ parts.stores.items }
    {
        let FleetParts {
            leaders,
            followers,
            stores,
        } = parts;
        Fleet {
            leaders,
            followers,
            stores,
        }
    }

    /// Takes the nodes of a core apart, in their order, for who puts each behind a lock of its own. Takes no memory.
    pub fn into_parts(self) -> FleetParts
        ensures leaders { result.leaders.items ≡ self.leaders }
        ensures followers { result.followers.items ≡ self.followers }
        ensures stores { result.stores.items ≡ self.stores }
    {
        let Fleet {
            leaders,
            followers,
            stores,
        } = self;
        FleetParts {
            leaders,
            followers,
            stores,
        }
    }
}
