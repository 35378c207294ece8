//! `LockedNodes`, the nodes of a configuration, each under a lock of its own.
ghost use Rattle.std.specs.Prelude.{◌≡◌, ◌≤◌, ◌<◌, IfNone, IfSome, length, map, option_copied};
ghost use Rattle.std.specs.Vec.{vec_len};
ghost use Rattle.core_model.specs.Fleet.{IsNodeOfName, named, regions_of};
ghost use Rattle.core_model.specs.Serving.{IsFollowerFor, IsLeaderFor};
ghost use Rattle.locked_nodes.specs.Nodes.{AreCutsOf, HasNoInbox, HasTier, IsInboxOf};
ghost use Rattle.locked_nodes.specs.Room.{AreMany};
ghost use Rattle.topology.specs.Counts.{follower_count};
ghost use Rattle.topology.specs.States.{all_up};

use crate::room::Room;
use core_model::{Named, find_node, store_place};
use node_name::NodeName;
use shared_inbox::SharedInbox;
use shared_nodes::shared_stores::{SharedStore, Sharing};
use shared_nodes::{SharedFollower, SharedLeader};
use std::alloc::Global;
use std::marker::Model;
use std::sync::Mutex;
use tao_base::StoreName;
use tao_keeper::Keeper;
use tao_schema::Schema;
use topology::{Config, Topology};

/// A cache node behind its lock, and the inbox in which messages wait for it.
#[derive(Drop)]
pub struct Tiered<N, J: Sharing> {
    pub node: Mutex<N>,
    pub inbox: SharedInbox<J>,
}

/// The nodes of a configuration, which many threads call. A node is found by its name, a store by its place: region by region, and shard by shard.
///
/// Locks are taken in the order leader, then store; of two stores that of the lower region first, and in one region that of the lower shard.
#[derive(Drop)]
pub struct LockedNodes<'c, K: Keeper, J: Sharing> {
    pub(crate) alloc: Global,
    pub(crate) config: &'c Config,
    pub(crate) topology: Topology,
    pub(crate) leaders: Vec<Named<Tiered<SharedLeader<J>, J>>>,
    pub(crate) followers: Vec<Named<Tiered<SharedFollower<J>, J>>>,
    pub(crate) stores: Vec<Mutex<SharedStore<K, J>>>,
    pub(crate) cuts: Vec<u64>,
    room: Mutex<Room<K, J>>,
}

/// All that the nodes are made of. The nodes have their names, in the order of the configuration, and the stores are in the order of their places.
pub struct LockedParts<'c, K: Keeper, J: Sharing> {
    pub alloc: Global,
    pub config: &'c Config,
    pub topology: Topology,
    pub leaders: Vec<Named<Tiered<SharedLeader<J>, J>>>,
    pub followers: Vec<Named<Tiered<SharedFollower<J>, J>>>,
    pub stores: Vec<Mutex<SharedStore<K, J>>>,
    pub cuts: Vec<u64>,
    /// Room for all that lies behind the locks. Nobody takes this lock: it lets threads share what holds keepers that only one of them may use.
    pub room: Mutex<Room<K, J>>,
}

/// A configured tier has a follower.
fn tiers_have_followers(config: &Config, region: u16, tier: u16)
    requires { HasTier config.now region tier }
    ensures { 0 < follower_count (regions_of config.now) region tier }
{
    match config.regions.as_slice().get(usize::from(region)) {
        Some(region) => {
            let _ = region.tiers.as_slice();
        }
        None => {}
    }
}

/// The inbox of the node of that name, the first of them.
fn inbox_in<N, J: Sharing>(nodes: &[Named<Tiered<N, J>>], name: NodeName) -> Option<&SharedInbox<J>>
    ensures { IsNodeOfName name (map (λ n. named n.name n.node.inbox) nodes.now) (option_copied result) }
{
    match find_node(nodes, name) {
        Some(tiered) => Some(&tiered.inbox),
        None => None,
    }
}

impl<'c, K: Keeper, J: Sharing> Model for LockedNodes<'c, K, J> {
    ghost use Rattle.std.specs.Prelude.{◌≡◌, map};
    ghost use Rattle.std.specs.Vec.{vec_len};
    ghost use Rattle.core_model.specs.Fleet.{named};
    ghost use Rattle.locked_nodes.specs.Nodes.{AreCutsOf, SeenNodes, seen_nodes};
    ghost use Rattle.locked_nodes.specs.Room.{AreMany};
    ghost use Rattle.topology.specs.States.{all_up};

    ghost Value = { SeenNodes };

    ghost view = { λ c. seen_nodes c.config.now (map (λ n. named n.name n.node.inbox) c.leaders.items)
        (map (λ n. named n.name n.node.inbox) c.followers.items) };

    ghost invariant = { λ c. (c.config.now ≡ J.making.settings) × (c.topology ≡ all_up J.making.settings) × AreCutsOf J.making c.cuts.items
        × AreMany J.making.settings (vec_len c.leaders) (vec_len c.followers) (vec_len c.stores) };
}

impl<'c, K: Keeper, J: Sharing> LockedNodes<'c, K, J> {
    /// The nodes of these parts, all of which are up. Takes no memory.
    pub fn of(parts: LockedParts<'c, K, J>) -> LockedNodes<'c, K, J>
        requires config { parts.config.now ≡ J.making.settings }
        requires topology { parts.topology ≡ all_up J.making.settings }
        requires cuts { AreCutsOf J.making parts.cuts.items }
        requires many { AreMany J.making.settings (vec_len parts.leaders) (vec_len parts.followers) (vec_len parts.stores) }
        ensures { result.settings ≡ parts.entry.config.now }
    {
        let LockedParts {
            alloc,
            config,
            topology,
            leaders,
            followers,
            stores,
            cuts,
            room,
        } = parts;
        LockedNodes {
            alloc,
            config,
            topology,
            leaders,
            followers,
            stores,
            cuts,
            room,
        }
    }

    /// All that the nodes were made of, still behind their locks. Takes no memory.
    pub fn into_parts(self) -> LockedParts<'c, K, J>
        ensures config { result.config.now ≡ J.making.settings }
        ensures topology { result.topology ≡ all_up J.making.settings }
        ensures many { AreMany J.making.settings (vec_len result.leaders) (vec_len result.followers) (vec_len result.stores) }
    {
        let LockedNodes {
            alloc,
            config,
            topology,
            leaders,
            followers,
            stores,
            cuts,
            room,
        } = self;
        LockedParts {
            alloc,
            config,
            topology,
            leaders,
            followers,
            stores,
            cuts,
            room,
        }
    }

    /// The configuration that they were made with. Takes no memory.
    pub fn config(&self) -> &Config
        ensures { result.now ≡ J.making.settings }
    {
        self.config
    }

    /// How many entries of a shard's log were old when the nodes were made, which no call changes. None exactly where the shard isn't configured.
    pub fn cut_of(&self, shard: u16) -> Option<u64>
        ensures some { IfSome result (λ cut. (shard < J.making.settings.shards) × (cut ≡ J.making.cut shard)) }
        ensures none { IfNone result (J.making.settings.shards ≤ shard) }
    {
        self.cuts.get(usize::from(shard)).copied()
    }

    /// The schema of the configuration.
    pub fn schema(&self) -> &Schema
        ensures { result.now ≡ J.making.settings.schema }
    {
        let config = self.config;
        &config.schema
    }

    /// The follower that is chosen for a shard, for the sessions of a configured tier. All nodes are up, so one can be.
    pub fn follower_for(&self, region: u16, tier: u16, shard: u16) -> NodeName
        requires tier { HasTier J.making.settings region tier }
        requires here { shard < J.making.settings.shards }
        ensures serves { IsFollowerFor J.making.settings shard result }
    {
        tiers_have_followers(self.config, region, tier);
        match self.topology.follower(region, tier, shard) {
            Some(name) => name,
            None => unreachable!(),
        }
    }

    /// The leader that a region prefers for a shard.
    pub fn leader_for(&self, region: u16, shard: u16) -> NodeName
        requires home { region < length J.making.settings.regions }
        requires here { shard < J.making.settings.shards }
        ensures serves { IsLeaderFor J.making.settings shard result }
    {
        self.topology.preferred(region, shard)
    }

    /// A follower behind its lock, by its name.
    pub fn follower(&self, name: NodeName) -> Option<&Mutex<SharedFollower<J>>> {
        match find_node(&self.followers, name) {
            Some(tiered) => Some(&tiered.node),
            None => None,
        }
    }

    /// The inbox of a leader or a follower, by its name. None exactly where none of the nodes has the name.
    pub fn inbox(&self, name: NodeName) -> Option<&SharedInbox<J>>
        ensures some { IfSome result (λ inbox. IsInboxOf self.now name inbox.now) }
        ensures none { IfNone result (HasNoInbox self.now name) }
    {
        match name {
            NodeName::Leader { .. } => inbox_in(&self.leaders, name),
            NodeName::Follower { .. } => inbox_in(&self.followers, name),
            NodeName::Store(_) => None,
        }
    }

    /// A leader behind its lock, by its name.
    pub fn leader(&self, name: NodeName) -> Option<&Mutex<SharedLeader<J>>> {
        match find_node(&self.leaders, name) {
            Some(tiered) => Some(&tiered.node),
            None => None,
        }
    }

    /// A store behind its lock, by its name.
    pub fn store(&self, at: StoreName) -> Option<&Mutex<SharedStore<K, J>>> {
        self.stores.get(store_place(self.config, at))
    }
}
