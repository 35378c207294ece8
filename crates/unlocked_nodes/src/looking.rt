//! What is looked at before nodes that came out of locks are settled: all that no lock can keep. In no run of a cluster is it otherwise; where it were, a settle would
//! answer want of memory, and change nothing.
ghost use Rattle.std.specs.Prelude.{◌≡◌, ◌<◌, All, IfErr, IfOk, IsTrue, OnOk, length};
ghost use Rattle.unlocked_nodes.specs.Unlocked.{IsMet, IsUnlocked, fleet_of, fleet_with, notes_of};
ghost use Rattle.unlocked_nodes.specs.Looking.{TablesFit};
ghost use Rattle.unlocked_nodes.specs.Looking.{AllHaveMet, AreBounds, AreConfigured, AreInPlace, AreOfCluster, BoundsCuts, IsPastBounds};
ghost use Rattle.core_model.specs.Asked.{settings};
ghost use Rattle.core_model.specs.Fleet.{node_names};
ghost use Rattle.core_model.specs.Stores.{region_store, store_length};
ghost use Rattle.core_nodes.specs.Beginning.{length_at};
ghost use Rattle.core_nodes.specs.Settling.{StopsLengths};
ghost use Rattle.graph_model.specs.Told.{WhereTold};
ghost use Rattle.tao_keeper.specs.KeeperState.{IsLater, KeepsTables};

use crate::meeting::{meet_caches, meet_noted, meet_stores};
use crate::numbers::{numbers_fit, stop_for};
use core_model::{
    Around, Named, follower_names, leader_names, masters_are_regions, serves_in_turn, store_place,
};
use core_nodes::{FleetParts, SettleStop, region_store};
use follower_cache::Follower;
use leader_tier::Leader;
use locked_model::locks_cover;
use node_name::NodeName;
use node_stages::Cache;
use shard_tables::{StoreNode, inverses_match};
use shared_stores::{CountedNote, Sharing};
use std::alloc::Global;
use tao_base::OutOfMemory;
use tao_keeper::Keeper;
use topology::Config;

/// Whether each store stands at its place.
fn are_in_place(config: &Config, stores: &[StoreNode]) -> bool
    ensures { IsTrue result → AreInPlace config.now stores.now }
{
    for place in 0..stores.len() {
        if store_place(config, stores[place].name()) != place {
            return false;
        }
    }
    true
}

/// Whether the nodes have these names.
fn are_named<C>(names: &[NodeName], caches: &[Named<C>]) -> bool
    ensures { IsTrue result → node_names caches.now ≡ names.now }
{
    if names.len() != caches.len() {
        return false;
    }
    for place in 0..names.len() {
        if names[place] != caches[place].name {
            return false;
        }
    }
    true
}

/// Whether leaders, followers and stores are those of the configuration, in order.
fn are_configured(
    around: &Around<'_>,
    leaders: &[Named<Leader>],
    followers: &[Named<Follower>],
    stores: &[StoreNode],
) -> Result<bool, OutOfMemory>
    ensures { IfOk result (λ so. IsTrue so → AreConfigured (settings around.now) (fleet_with leaders.now followers.now stores.now)) }
{
    let config = around.config;
    let leader_names = leader_names(around.alloc, config)?;
    let follower_names = follower_names(around.alloc, config)?;
    Ok(
        are_in_place(config, stores)
            && are_named(&leader_names, leaders)
            && are_named(&follower_names, followers),
    )
}

/// Finds that leaders, followers and stores are those of the configuration, and that all that they and their notes have seen begins the shards' logs.
fn meet_all<J: Sharing>(
    around: &Around<'_>,
    leaders: &mut [Named<Leader>],
    followers: &mut [Named<Follower>],
    stores: &mut [StoreNode],
    noted: &mut [Vec<CountedNote>],
) -> Result<(), OutOfMemory>
    requires made { settings around.now ≡ J.making.settings }
    requires cluster { AreOfCluster J.making J.log (fleet_with leaders.old followers.old stores.old) (notes_of noted.old) }
    ensures met { OnOk result (AllHaveMet (settings around.now) (fleet_with leaders.old followers.old stores.old) (notes_of noted.old)) }
    ensures leaders { leaders.new ≡ leaders.old }
    ensures followers { followers.new ≡ followers.old }
    ensures stores { stores.new ≡ stores.old }
    ensures noted { notes_of noted.new ≡ notes_of noted.old }
{
    let config = around.config;
    masters_are_regions(config);
    if !are_configured(around, leaders, followers, stores)? {
        return Err(OutOfMemory);
    }
    meet_stores(config, stores)?;
    meet_noted(config, stores, noted)?;
    meet_caches(config, stores, leaders)?;
    meet_caches(config, stores, followers)
}

/// The length and the cut of a region's store of a shard.
#[derive(Drop)]
struct Extent {
    length: u64,
    cut: u64,
}

/// Two calls of a keeper.
fn extent_of<K: Keeper>(
    config: &Config,
    keepers: &mut K,
    region: u16,
    shard: u16,
) -> Result<Extent, SettleStop>
    requires here { shard < config.now.shards }
    ensures length { WhereTold K.TELLS (IfOk result (λ e. e.length ≡ store_length (K.state keepers.old).told region shard)) }
    ensures cut { WhereTold K.TELLS (IfOk result (λ e. e.cut ≡ ((K.state keepers.old).told (region_store region shard)).cut)) }
    ensures stop { IfErr result (StopsLengths config.now (K.state keepers.old) (K.state keepers.new)) }
    ensures stays { KeepsTables K.TELLS (K.state keepers.old) (K.state keepers.new) }
    ensures later { IsLater (K.state keepers.old) (K.state keepers.new) }
{
    let _ = config;
    let at = region_store(region, shard);
    let length = match keepers.length(at) {
        Ok(length) => length,
        Err(fail) => return Err(stop_for(shard, fail)),
    };
    match keepers.cut_of(at) {
        Ok(cut) => Ok(Extent { length, cut }),
        Err(fail) => Err(stop_for(shard, fail)),
    }
}

/// The greatest cut of a shard's logs, to which each store of the shard has come. Two calls of a keeper for each region.
fn bound_of<K: Keeper>(config: &Config, keepers: &mut K, shard: u16) -> Result<u64, SettleStop>
    requires here { shard < config.now.shards }
    ensures bounds { WhereTold K.TELLS (IfOk result (BoundsCuts config.now (K.state keepers.old).told shard)) }
    ensures stop { IfErr result (StopsLengths config.now (K.state keepers.old) (K.state keepers.new)) }
    ensures stays { KeepsTables K.TELLS (K.state keepers.old) (K.state keepers.new) }
    ensures later { IsLater (K.state keepers.old) (K.state keepers.new) }
{
    let mut greatest = 0u64;
    let mut least = u64::MAX;
    for region in 0..region_count(config) {
        let extent = extent_of(config, keepers, region, shard)?;
        greatest = greatest.max(extent.cut);
        least = least.min(extent.length);
    }
    if least < greatest {
        return Err(SettleStop::OutOfMemory);
    }
    Ok(greatest)
}

/// How many regions there are.
fn region_count(config: &Config) -> u16
    ensures { result ≡ length config.now.regions }
{
    config.regions.as_slice().len() as u16
}

/// Of each shard, in order, the greatest cut of its logs, to which each store of the shard has come.
fn bounds_of<K: Keeper>(around: &Around<'_>, keepers: &mut K) -> Result<Vec<u64>, SettleStop>
    ensures bounds { IfOk result (λ bounds.
        AreBounds K.TELLS (settings around.now) (K.state keepers.old).told (settings around.now).shards bounds.items) }
    ensures stop { IfErr result (StopsLengths (settings around.now) (K.state keepers.old) (K.state keepers.new)) }
    ensures stays { KeepsTables K.TELLS (K.state keepers.old) (K.state keepers.new) }
    ensures later { IsLater (K.state keepers.old) (K.state keepers.new) }
{
    let config = around.config;
    let mut bounds = Vec::new(around.alloc);
    for shard in 0..config.shards {
        let bound = bound_of(config, keepers, shard)?;
        if bounds.push(bound).is_err() {
            return Err(SettleStop::OutOfMemory);
        }
    }
    Ok(bounds)
}

/// Whether the node has processed what is old of the shards that it serves.
fn is_past<C: Cache>(config: &Config, bounds: &[u64], name: NodeName, cache: &C) -> bool
    ensures { IsTrue result → IsPastBounds config.now bounds.now name (C.node cache.now) }
{
    for shard in 0..config.shards {
        if serves_in_turn(config, name, shard) && cache.mark(shard) < bound_at(bounds, shard) {
            return false;
        }
    }
    true
}

/// The bound of a shard.
fn bound_at(bounds: &[u64], shard: u16) -> u64
    ensures { result ≡ length_at bounds.now shard }
{
    match bounds.get(usize::from(shard)) {
        Some(bound) => *bound,
        None => 0,
    }
}

/// Whether each node has processed what is old of the shards that it serves.
fn are_past<C: Cache>(config: &Config, bounds: &[u64], caches: &[Named<C>]) -> bool
    ensures { IsTrue result → All (λ cache. IsPastBounds config.now bounds.now cache.name (C.node cache.node)) caches.now }
{
    for cache in caches {
        if !is_past(config, bounds, cache.name, &cache.node) {
            return false;
        }
    }
    true
}

/// Finds that each store has come to the cuts of its shard, each node to those of its shards, and that no stamp's number is above that of all entries.
/// Reads the logs of all shards.
fn look_at_tables<K: Keeper>(
    around: &Around<'_>,
    parts: &FleetParts,
    keepers: &mut K,
) -> Result<(), SettleStop>
    ensures fit { WhereTold K.TELLS (OnOk result (TablesFit (settings around.now) (K.state keepers.old).told (fleet_of parts.now))) }
    ensures stop { IfErr result (StopsLengths (settings around.now) (K.state keepers.old) (K.state keepers.new)) }
    ensures stays { KeepsTables K.TELLS (K.state keepers.old) (K.state keepers.new) }
    ensures later { IsLater (K.state keepers.old) (K.state keepers.new) }
{
    let config = around.config;
    let bounds = bounds_of(around, keepers)?;
    if !are_past(config, &bounds, &parts.leaders) || !are_past(config, &bounds, &parts.followers) {
        return Err(SettleStop::OutOfMemory);
    }
    numbers_fit(around, keepers)
}

/// Finds that the nodes, stores and notes that came out of their locks are those of a core before it is settled. Nothing changes.
///
/// It stops as `Unsettled` where a keeper failed, and its count rose, and as `OutOfMemory`. Costs a note for each that stores and nodes have, and reads the logs of
/// all shards.
pub(crate) fn look_through<K: Keeper, J: Sharing>(
    around: &Around<'_>,
    parts: &mut FleetParts,
    noted: &mut [Vec<CountedNote>],
    keepers: &mut K,
) -> Result<(), SettleStop>
    requires made { settings around.now ≡ J.making.settings }
    requires unlocked { IsUnlocked K.TELLS J.making J.log (K.state keepers.old).told (fleet_of parts.old) (notes_of noted.old) }
    ensures met { OnOk result (IsMet K.TELLS J.making J.log (K.state keepers.new).told (fleet_of parts.old)) }
    ensures stop { IfErr result (StopsLengths (settings around.now) (K.state keepers.old) (K.state keepers.new)) }
    ensures parts { fleet_of parts.new ≡ fleet_of parts.old }
    ensures noted { notes_of noted.new ≡ notes_of noted.old }
    ensures stays { KeepsTables K.TELLS (K.state keepers.old) (K.state keepers.new) }
    ensures later { IsLater (K.state keepers.old) (K.state keepers.new) }
{
    let config = around.config;
    inverses_match(&config.schema);
    locks_cover();
    masters_are_regions(config);
    let met = meet_all::<J>(
        around,
        parts.leaders.as_mut_slice(),
        parts.followers.as_mut_slice(),
        parts.stores.as_mut_slice(),
        noted,
    );
    match met {
        Ok(()) => look_at_tables(around, parts, keepers),
        Err(OutOfMemory) => Err(SettleStop::OutOfMemory),
    }
}
