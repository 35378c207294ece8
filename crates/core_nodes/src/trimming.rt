//! Where a store's log may be cut, the cut, and the nodes that lie behind.
ghost use Rattle.std.specs.Prelude.{◌≡◌, ◌<◌, ◌++◌, ◌∷◌, [], IfErr, IfOk, OnOk, length};
ghost use Rattle.core_model.specs.Consistent.{IsConsistent};
ghost use Rattle.core_model.specs.Growing.{TablesGoOn};
ghost use Rattle.core_model.specs.Stores.{AreStoresOf, IsConfiguredStore};
ghost use Rattle.core_nodes.specs.Trimming.{HaveComeTo, behind_of, cut_to, is_behind, least_mark, names_behind};
ghost use Rattle.graph_model.specs.Told.{WhereTold};
ghost use Rattle.log_trim.specs.Trimming.{cut_by};
ghost use Rattle.shard_tables.specs.Refusals.{IsOfReads};
ghost use Rattle.tao_keeper.specs.Growing.{LogsGrow};
ghost use Rattle.tao_keeper.specs.KeeperState.{CallsKeeper, KeepsTables};
ghost use Rattle.tao_keeper.specs.Table.{Changes, after_cut};

use crate::catching::lies_behind;
use crate::fleet::Fleet;
use crate::stores::region_store;
use crate::streams::stored_length;
use core_model::{Named, region_of, store_place};
use log_trim::trim;
use node_name::NodeName;
use node_stages::Cache;
use shard_tables::{StoreNode, StoreRefusal};
use std::alloc::{AllocError, Global};
use tao_base::{OutOfMemory, StoreName};
use tao_keeper::Keeper;
use topology::Config;

/// How many regions there are.
fn region_count(config: &Config) -> u16
    ensures { result ≡ length config.now.regions }
{
    config.regions.as_slice().len() as u16
}

/// The least of the position and of the lengths of all stores of the shard. One call of the keeper for each region.
fn least_among<K: Keeper>(
    stores: &mut [StoreNode],
    keepers: &mut K,
    config: &Config,
    shard: u16,
    position: u64,
) -> Result<u64, StoreRefusal>
    requires stores { AreStoresOf K.TELLS config.now (K.state keepers.old).told stores.old }
    requires here { shard < config.now.shards }
    ensures least { WhereTold K.TELLS (IfOk result (λ least. least ≡ least_mark config.now (K.state keepers.old).told shard position)) }
    ensures same { stores.new ≡ stores.old }
    ensures refused { IfErr result IsOfReads }
    ensures tables { KeepsTables K.TELLS (K.state keepers.old) (K.state keepers.new) }
    ensures calls { CallsKeeper StoreRefusal.KeeperFault (K.state keepers.old) (K.state keepers.new) result }
{
    let mut least = position;
    for region in 0..region_count(config) {
        let length = stored_length(stores, keepers, config, region_store(region, shard))?;
        least = least.min(length);
    }
    Ok(least)
}

/// Cuts the log of a store at the position, or at its end where it hasn't come so far. It never goes back. Gives the cut that then stands. At most three
/// calls of the keeper.
fn cut_at<K: Keeper>(
    stores: &mut [StoreNode],
    keepers: &mut K,
    config: &Config,
    at: StoreName,
    position: u64,
) -> Result<u64, StoreRefusal>
    requires stores { AreStoresOf K.TELLS config.now (K.state keepers.old).told stores.old }
    requires here { IsConfiguredStore config.now at }
    ensures cut { WhereTold K.TELLS (IfOk result (λ cut. cut ≡ cut_by ((K.state keepers.old).told at) (position ∷ []))) }
    ensures changes { WhereTold K.TELLS (Changes result (K.state keepers.old).told (K.state keepers.new).told at
        (after_cut ((K.state keepers.old).told at) (cut_by ((K.state keepers.old).told at) (position ∷ [])))) }
    ensures logs { LogsGrow K.TELLS (K.state keepers.old).told (K.state keepers.new).told }
    ensures same { stores.new ≡ stores.old }
    ensures refused { IfErr result IsOfReads }
    ensures calls { CallsKeeper StoreRefusal.KeeperFault (K.state keepers.old) (K.state keepers.new) result }
{
    let place = store_place(config, at);
    trim(&mut stores[place], keepers, &[position])
}

/// Whether the node of that name and low-water mark is one of the store's region, serves its shard, and has not processed the log up to the position.
fn is_behind(config: &Config, at: StoreName, position: u64, name: NodeName, low: u64) -> bool
    ensures { result ≡ is_behind config.now at position name low }
{
    region_of(name) == at.region && lies_behind(config, name, at.shard, low, position)
}

/// Puts the names of those of these nodes that lie behind after the names.
fn name_behind<C: Cache>(
    config: &Config,
    at: StoreName,
    position: u64,
    caches: &[Named<C>],
    names: &mut Vec<NodeName>,
) -> Result<(), AllocError>
    ensures { OnOk result (names.new.items ≡ names.old.items ++ behind_of C.node config.now at position caches.now) }
{
    for cache in caches {
        let low = cache.node.mark(at.shard);
        if is_behind(config, at, position, cache.name, low) {
            names.push(cache.name)?;
        }
    }
    Ok(())
}

impl Fleet {
    /// The least of the position and of the lengths of all stores of the shard: up to there a log of the shard may be cut.
    ///
    /// `KeeperFault` comes only where the keepers' count of faults rose, and `OutOfMemory` where there was no memory. One call of the keeper for
    /// each region.
    pub fn least_mark<K: Keeper>(
        &mut self,
        config: &Config,
        keepers: &mut K,
        shard: u16,
        position: u64,
    ) -> Result<u64, StoreRefusal>
        requires consistent { IsConsistent K.TELLS config.now (K.state keepers.old).told self.old }
        requires here { shard < config.now.shards }
        ensures least { WhereTold K.TELLS (IfOk result (λ least. least ≡ least_mark config.now (K.state keepers.old).told shard position)) }
        ensures come { WhereTold K.TELLS (IfOk result (HaveComeTo config.now (K.state keepers.old).told shard)) }
        ensures same { self.new ≡ self.old }
        ensures consistent { IsConsistent K.TELLS config.now (K.state keepers.new).told self.new }
        ensures refused { IfErr result IsOfReads }
        ensures tables { KeepsTables K.TELLS (K.state keepers.old) (K.state keepers.new) }
        ensures calls { CallsKeeper StoreRefusal.KeeperFault (K.state keepers.old) (K.state keepers.new) result }
    {
        least_among(&mut self.stores, keepers, config, shard, position)
    }

    /// The names of the leaders and followers of the store's region that serve its shard, and have not processed its log up to the position, in their
    /// order. Calls no keeper; the one error is out of memory.
    pub fn names_behind(
        &self,
        alloc: Global,
        config: &Config,
        at: StoreName,
        position: u64,
    ) -> Result<Vec<NodeName>, OutOfMemory>
        ensures { IfOk result (λ names. names.items ≡ names_behind config.now self.now at position) }
    {
        let mut names = Vec::new(alloc);
        name_behind(config, at, position, &self.leaders, &mut names)?;
        name_behind(config, at, position, &self.followers, &mut names)?;
        Ok(names)
    }

    /// Cuts the log of a store at a position to which each store of its shard has come. It never goes back. Gives the cut that then stands.
    ///
    /// `KeeperFault` comes only where the keepers' count of faults rose, and `OutOfMemory` where there was no memory; nothing has changed then. At most
    /// three calls of the keeper.
    pub fn cut_log<K: Keeper>(
        &mut self,
        config: &Config,
        keepers: &mut K,
        at: StoreName,
        position: u64,
    ) -> Result<u64, StoreRefusal>
        requires consistent { IsConsistent K.TELLS config.now (K.state keepers.old).told self.old }
        requires here { IsConfiguredStore config.now at }
        requires come { WhereTold K.TELLS (HaveComeTo config.now (K.state keepers.old).told at.shard position) }
        ensures cut { WhereTold K.TELLS (IfOk result (λ cut. cut ≡ cut_to (K.state keepers.old).told at position)) }
        ensures changes { WhereTold K.TELLS (Changes result (K.state keepers.old).told (K.state keepers.new).told at
            (after_cut ((K.state keepers.old).told at) (cut_to (K.state keepers.old).told at position))) }
        ensures same { self.new ≡ self.old }
        ensures consistent { IsConsistent K.TELLS config.now (K.state keepers.new).told self.new }
        ensures on { TablesGoOn K.TELLS config.now (K.state keepers.old).told (K.state keepers.new).told }
        ensures refused { IfErr result IsOfReads }
        ensures calls { CallsKeeper StoreRefusal.KeeperFault (K.state keepers.old) (K.state keepers.new) result }
    {
        cut_at(&mut self.stores, keepers, config, at, position)
    }
}
