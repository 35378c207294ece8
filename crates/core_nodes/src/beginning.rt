//! The nodes that a core begins with, before its stores.
ghost use Rattle.std.specs.Prelude.{◌≡◌, ◌<◌, All, IfErr, IfOk, length};
ghost use Rattle.core_model.specs.Fleet.{node_names, region_of};
ghost use Rattle.core_model.specs.Stores.{AreStores, HaveSeen, store_count};
ghost use Rattle.core_nodes.specs.Beginning.{AreBegun, AreLengths, AreMeasured, IsBegun, IsTurn, MayStand, length_at};
ghost use Rattle.core_nodes.specs.Beginning.{begun_node, note_at};
ghost use Rattle.core_nodes.specs.Opening.{IsUnmade};
ghost use Rattle.core_nodes.specs.Settling.{StopsLengths, StopsReads, unmade_for};
ghost use Rattle.graph_model.specs.Told.{WhereTold};
ghost use Rattle.node_stages.specs.Caches.{BeginsAs};
ghost use Rattle.shard_tables.specs.Stores.{IsStoreOf};
ghost use Rattle.tao_keeper.specs.KeeperState.{IsLater, KeepsTables};

use crate::notes::note_at;
use crate::settling::{SettleStop, stop_at};
use crate::stores::region_store;
use core_model::leader_tier::Leader;
use core_model::{Named, follower_names, leader_names, region_of, served_by, store_place};
use follower_cache::Follower;
use node_name::NodeName;
use node_stages::{Cache, Stand};
use replies::OpenRefusal;
use shard_tables::StoreNode;
use std::alloc::Global;
use tao_base::OutOfMemory;
use tao_keeper::Keeper;
use topology::Config;

/// The leaders and followers of a core.
#[derive(Drop)]
pub struct Caches {
    pub leaders: Vec<Named<Leader>>,
    pub followers: Vec<Named<Follower>>,
}

/// The length of a store's log. One call of the keeper.
fn log_length<K: Keeper>(store: &mut StoreNode, keepers: &mut K) -> Result<u64, SettleStop>
    requires seen { IsStoreOf K.TELLS (K.state keepers.old).told store.old }
    ensures length { IfOk result (λ count. WhereTold K.TELLS (count ≡ length ((K.state keepers.old).told store.old.name).log)) }
    ensures same { store.new ≡ store.old }
    ensures stop { IfErr result (StopsReads store.old.name.shard (K.state keepers.old) (K.state keepers.new)) }
    ensures stays { KeepsTables K.TELLS (K.state keepers.old) (K.state keepers.new) }
    ensures later { IsLater (K.state keepers.old) (K.state keepers.new) }
{
    let shard = store.name().shard;
    match store.length(keepers) {
        Ok(length) => Ok(length),
        Err(refusal) => Err(stop_at(shard, refusal)),
    }
}

/// The lengths of all stores' logs, in order: region by region, and in each of them shard by shard. One call of the keeper for each.
pub(crate) fn log_lengths<K: Keeper>(
    alloc: Global,
    config: &Config,
    stores: &mut [StoreNode],
    keepers: &mut K,
) -> Result<Vec<u64>, SettleStop>
    requires stores { AreStores config.now (store_count config.now) stores.old }
    requires seen { HaveSeen K.TELLS (K.state keepers.old).told stores.old }
    ensures lengths { IfOk result (λ lengths. AreLengths K.TELLS config.now (K.state keepers.old).told lengths.items) }
    ensures measured { IfOk result (λ lengths. AreMeasured config.now stores.old lengths.items) }
    ensures same { stores.new ≡ stores.old }
    ensures stop { IfErr result (StopsLengths config.now (K.state keepers.old) (K.state keepers.new)) }
    ensures stays { KeepsTables K.TELLS (K.state keepers.old) (K.state keepers.new) }
    ensures later { IsLater (K.state keepers.old) (K.state keepers.new) }
{
    let _ = config;
    let mut lengths = Vec::new(alloc);
    for place in 0..stores.len() {
        let length = log_length(&mut stores[place], keepers)?;
        if lengths.push(length).is_err() {
            return Err(SettleStop::OutOfMemory);
        }
    }
    Ok(lengths)
}

/// Why the nodes aren't made, where the lengths aren't known.
fn unmade_for(stop: SettleStop) -> OpenRefusal
    ensures { result ≡ unmade_for stop }
{
    match stop {
        SettleStop::Unsettled { .. } | SettleStop::NoServer { .. } => OpenRefusal::KeeperFault,
        SettleStop::OutOfMemory => OpenRefusal::OutOfMemory,
    }
}

/// The length of the log at a place, of the lengths of all.
pub(crate) fn length_at(lengths: &[u64], place: usize) -> u64
    ensures { result ≡ length_at lengths.now place }
{
    match lengths.get(place) {
        Some(length) => *length,
        None => 0,
    }
}

/// What a node of the region begins with that serves these shards.
fn turn_at(
    alloc: Global,
    config: &Config,
    stores: &mut [StoreNode],
    lengths: &[u64],
    region: u16,
    shards: &[u16],
) -> Result<Stand, OutOfMemory>
    requires measured { AreMeasured config.now stores.old lengths.now }
    requires region { region < length config.now.regions }
    requires within { All (λ shard. shard < config.now.shards) shards.now }
    ensures turn { IfOk result (IsTurn config.now stores.old lengths.now region shards.now) }
    ensures same { stores.new ≡ stores.old }
{
    let mut lows = Vec::new(alloc);
    let mut notes = Vec::new(alloc);
    for shard in shards {
        let place = store_place(config, region_store(region, *shard));
        let note = note_at(stores, place)?;
        lows.push(length_at(lengths, place))?;
        notes.push(note)?;
    }
    Ok(Stand { lows, notes })
}

/// The node of that name, which holds nothing yet.
fn make_cache<C: Cache>(
    alloc: Global,
    config: &Config,
    stores: &mut [StoreNode],
    lengths: &[u64],
    name: NodeName,
) -> Result<C, OutOfMemory>
    requires measured { AreMeasured config.now stores.old lengths.now }
    requires region { region_of name < length config.now.regions }
    ensures begun { IfOk result (BeginsAs C.node C.refills (begun_node config.now stores.old lengths.now name)) }
    ensures same { stores.new ≡ stores.old }
{
    let shards = served_by(alloc, config, name)?;
    let Stand { lows, notes } = turn_at(alloc, config, stores, lengths, region_of(name), &shards)?;
    C::make(alloc, config.cache_items, &shards, &lows, notes)
}

/// The nodes of these names.
fn make_nodes<C: Cache + Drop>(
    alloc: Global,
    config: &Config,
    stores: &mut [StoreNode],
    lengths: &[u64],
    names: &[NodeName],
) -> Result<Vec<Named<C>>, OutOfMemory>
    requires measured { AreMeasured config.now stores.old lengths.now }
    requires regions { All (λ name. region_of name < length config.now.regions) names.now }
    ensures names { IfOk result (λ nodes. node_names nodes.items ≡ names.now) }
    ensures begun { IfOk result (λ nodes. All (IsBegun C.node C.refills config.now stores.old lengths.now) nodes.items) }
    ensures same { stores.new ≡ stores.old }
{
    let mut nodes = Vec::new(alloc);
    for name in names {
        let node = make_cache(alloc, config, stores, lengths, *name)?;
        nodes.push(Named { name: *name, node })?;
    }
    Ok(nodes)
}

/// The leaders and followers of a configuration, which hold nothing yet.
fn make_caches(
    alloc: Global,
    config: &Config,
    stores: &mut [StoreNode],
    lengths: &[u64],
) -> Result<Caches, OutOfMemory>
    requires measured { AreMeasured config.now stores.old lengths.now }
    ensures begun { IfOk result (λ caches. AreBegun config.now stores.old lengths.now caches.leaders.items caches.followers.items) }
    ensures same { stores.new ≡ stores.old }
{
    let leaders = leader_names(alloc, config)?;
    let leaders = make_nodes(alloc, config, stores, lengths, &leaders)?;
    let followers = follower_names(alloc, config)?;
    let followers = make_nodes(alloc, config, stores, lengths, &followers)?;
    Ok(Caches { leaders, followers })
}

/// The leaders and followers of a configuration, which hold nothing yet: each has processed all that its region's stores have.
/// One call of the keeper for each store.
pub fn begin<K: Keeper>(
    alloc: Global,
    config: &Config,
    stores: &mut [StoreNode],
    keepers: &mut K,
) -> Result<Caches, OpenRefusal>
    requires stores { AreStores config.now (store_count config.now) stores.old }
    requires seen { HaveSeen K.TELLS (K.state keepers.old).told stores.old }
    ensures begun { IfOk result (λ caches.
        MayStand K.TELLS config.now (K.state keepers.old).told stores.old caches.leaders.items caches.followers.items) }
    ensures same { stores.new ≡ stores.old }
    ensures unmade { IfErr result (IsUnmade (K.state keepers.old).faults (K.state keepers.new).faults) }
    ensures stays { KeepsTables K.TELLS (K.state keepers.old) (K.state keepers.new) }
    ensures later { IsLater (K.state keepers.old) (K.state keepers.new) }
{
    let lengths = log_lengths(alloc, config, stores, keepers).map_err(unmade_for)?;
    match make_caches(alloc, config, stores, &lengths) {
        Ok(caches) => Ok(caches),
        Err(OutOfMemory) => Err(OpenRefusal::OutOfMemory),
    }
}
