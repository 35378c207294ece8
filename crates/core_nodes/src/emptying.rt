//! Nodes that lose all that they hold, and begin anew.
ghost use Rattle.std.specs.Prelude.{◌≡◌, ◌<◌, All, IfErr, IfOk, OnErr, length};
ghost use Rattle.core_model.specs.Consistent.{GoesOn, IsConsistent, IsFleetOf};
ghost use Rattle.core_model.specs.Emptied.{Anew, EmptiesCache, at_stores, region_tables};
ghost use Rattle.core_model.specs.Evictions.{IsCacheOf};
ghost use Rattle.core_model.specs.Fleet.{ChangesNode, HasNode, region_of, served_by};
ghost use Rattle.core_model.specs.Pens.{pens_of};
ghost use Rattle.core_model.specs.Stores.{AreStoresOf, IsConfiguredStore};
ghost use Rattle.core_nodes.specs.Emptying.{BeginFor, BeginsFor, CacheIs, EmptiesThere, IsRestart, MayEmpty};
ghost use Rattle.core_nodes.specs.Stages.{NodeIs};
ghost use Rattle.node_stages.specs.Caches.{IsEmptiedAs};
ghost use Rattle.node_stages.specs.Stages.{CacheDoes};
ghost use Rattle.served_shards.specs.Begun.{AreNotesOf, AreReached};
ghost use Rattle.shard_tables.specs.Refusals.{IsOfReads};
ghost use Rattle.tao_keeper.specs.KeeperState.{CallsKeeper, KeepsTables};

use crate::fleet::Fleet;
use crate::places::place_of;
use crate::stores::region_store;
use core_model::{Named, region_of, served_by, store_place};
use node_name::NodeName;
use node_stages::{Cache, Measure, Stand, empty_out, measure_store};
use shard_log::Note;
use shard_tables::{StoreNode, StoreRefusal};
use std::alloc::Global;
use tao_base::StoreName;
use tao_keeper::Keeper;
use topology::Config;

/// One call of the keeper.
fn measure_at<K: Keeper>(
    config: &Config,
    stores: &mut [StoreNode],
    keepers: &mut K,
    at: StoreName,
) -> Result<Measure, StoreRefusal>
    requires stores { AreStoresOf K.TELLS config.now (K.state keepers.old).told stores.old }
    requires here { IsConfiguredStore config.now at }
    ensures begins { IfOk result (λ m. BeginsFor (pens_of stores.old) (region_tables K.TELLS (K.state keepers.old).told at.region) at.shard m.low m.note) }
    ensures same { stores.new ≡ stores.old }
    ensures refused { IfErr result IsOfReads }
    ensures tables { KeepsTables K.TELLS (K.state keepers.old) (K.state keepers.new) }
    ensures calls { CallsKeeper StoreRefusal.KeeperFault (K.state keepers.old) (K.state keepers.new) result }
{
    let place = store_place(config, at);
    measure_store(&mut stores[place], keepers)
}

/// What a node of the region begins with that serves these shards. One call of the keeper for each.
fn restart_of<K: Keeper>(
    alloc: Global,
    config: &Config,
    stores: &mut [StoreNode],
    keepers: &mut K,
    region: u16,
    shards: &[u16],
) -> Result<Stand, StoreRefusal>
    requires stores { AreStoresOf K.TELLS config.now (K.state keepers.old).told stores.old }
    requires region { region < length config.now.regions }
    requires within { All (λ shard. shard < config.now.shards) shards.now }
    ensures restart { IfOk result (λ restart. BeginFor (pens_of stores.old) (region_tables K.TELLS (K.state keepers.old).told region) shards.now
        restart.lows.items restart.notes.items) }
    ensures same { stores.new ≡ stores.old }
    ensures refused { IfErr result IsOfReads }
    ensures tables { KeepsTables K.TELLS (K.state keepers.old) (K.state keepers.new) }
    ensures calls { CallsKeeper StoreRefusal.KeeperFault (K.state keepers.old) (K.state keepers.new) result }
{
    let mut lows = Vec::new(alloc);
    let mut notes = Vec::new(alloc);
    for shard in shards {
        let Measure { low, note } = measure_at(
            config,
            stores,
            keepers,
            region_store(region, *shard),
        )?;
        if lows.push(low).is_err() {
            return Err(StoreRefusal::OutOfMemory);
        }
        if notes.push(note).is_err() {
            return Err(StoreRefusal::OutOfMemory);
        }
    }
    Ok(Stand { lows, notes })
}

/// What the node of that name begins with.
fn restart_for<K: Keeper>(
    alloc: Global,
    config: &Config,
    stores: &mut [StoreNode],
    keepers: &mut K,
    name: NodeName,
) -> Result<Stand, StoreRefusal>
    requires stores { AreStoresOf K.TELLS config.now (K.state keepers.old).told stores.old }
    requires region { region_of name < length config.now.regions }
    ensures restart { IfOk result (λ restart. BeginFor (pens_of stores.old) (region_tables K.TELLS (K.state keepers.old).told (region_of name))
        (served_by config.now name) restart.lows.items restart.notes.items) }
    ensures same { stores.new ≡ stores.old }
    ensures refused { IfErr result IsOfReads }
    ensures tables { KeepsTables K.TELLS (K.state keepers.old) (K.state keepers.new) }
    ensures calls { CallsKeeper StoreRefusal.KeeperFault (K.state keepers.old) (K.state keepers.new) result }
{
    let shards = served_by(alloc, config, name)?;
    let region = region_of(name);
    restart_of(alloc, config, stores, keepers, region, &shards)
}

/// The node of that name loses all that it holds, and begins anew at these marks, with these notes of its logs.
fn empty_at<C: Cache>(caches: &mut [Named<C>], name: NodeName, lows: &[u64], notes: Vec<Note>)
    requires there { HasNode name caches.old }
    requires logs { NodeIs name (λ cache. AreNotesOf (C.node cache).served notes.items) caches.old }
    requires reached { AreReached lows.now notes.items }
    ensures { ChangesNode name (CacheDoes C.node (IsEmptiedAs C.node C.refills lows.now notes.items)) caches.old caches.new }
{
    let place = place_of(caches, name);
    empty_out(&mut caches[place].node, lows, notes);
}

impl Fleet {
    /// The leader or follower loses all that it holds, and begins anew at these marks, with these notes of its logs. Takes no memory.
    pub fn empty(&mut self, config: &Config, node: NodeName, lows: &[u64], notes: Vec<Note>)
        requires fleet { IsFleetOf config.now self.old }
        requires node { IsCacheOf config.now node }
        requires logs { CacheIs node (λ n. AreNotesOf n.served notes.items) self.old }
        requires reached { AreReached lows.now notes.items }
        ensures { (at : Anew) → CacheIs node (MayEmpty (pens_of self.old.stores) at lows.now notes.items) self.old
            → EmptiesThere config.now node at self.old self.new }
    {
        match node {
            NodeName::Leader { .. } => empty_at(&mut self.leaders, node, lows, notes),
            NodeName::Follower { .. } => empty_at(&mut self.followers, node, lows, notes),
            NodeName::Store(_) => unreachable!(),
        }
    }

    /// What the leader or follower is to begin with where it begins anew at the lengths of its region's stores. Nothing changes.
    ///
    /// `KeeperFault` comes only where the keepers' count of faults rose, and `OutOfMemory` where there was no memory. One call of the keeper
    /// for each shard that the node serves.
    pub fn restart<K: Keeper>(
        &mut self,
        alloc: Global,
        config: &Config,
        keepers: &mut K,
        node: NodeName,
    ) -> Result<Stand, StoreRefusal>
        requires consistent { IsConsistent K.TELLS config.now (K.state keepers.old).told self.old }
        requires region { region_of node < length config.now.regions }
        ensures restart { IfOk result (λ stand. IsRestart config.now (pens_of self.old.stores)
            (region_tables K.TELLS (K.state keepers.old).told (region_of node)) node stand) }
        ensures same { self.new ≡ self.old }
        ensures consistent { IsConsistent K.TELLS config.now (K.state keepers.new).told self.new }
        ensures refused { IfErr result IsOfReads }
        ensures tables { KeepsTables K.TELLS (K.state keepers.old) (K.state keepers.new) }
        ensures calls { CallsKeeper StoreRefusal.KeeperFault (K.state keepers.old) (K.state keepers.new) result }
    {
        restart_for(alloc, config, &mut self.stores, keepers, node)
    }

    /// The leader or follower comes up: it holds nothing, and begins anew at the lengths of its region's stores. Where it can't, nothing
    /// changes.
    ///
    /// `KeeperFault` comes only where the keepers' count of faults rose, and `OutOfMemory` where there was no memory. One call of the keeper
    /// for each shard that the node serves.
    pub fn come_up<K: Keeper>(
        &mut self,
        alloc: Global,
        config: &Config,
        keepers: &mut K,
        node: NodeName,
    ) -> Result<(), StoreRefusal>
        requires consistent { IsConsistent K.TELLS config.now (K.state keepers.old).told self.old }
        requires node { IsCacheOf config.now node }
        requires region { region_of node < length config.now.regions }
        ensures begins { IfOk result (λ up. EmptiesCache node (pens_of self.old.stores)
            (at_stores (region_tables K.TELLS (K.state keepers.old).told (region_of node))) self.old self.new) }
        ensures same { OnErr result (self.new ≡ self.old) }
        ensures consistent { IsConsistent K.TELLS config.now (K.state keepers.new).told self.new }
        ensures goes { GoesOn self.old self.new }
        ensures refused { IfErr result IsOfReads }
        ensures tables { KeepsTables K.TELLS (K.state keepers.old) (K.state keepers.new) }
        ensures calls { CallsKeeper StoreRefusal.KeeperFault (K.state keepers.old) (K.state keepers.new) result }
    {
        let Stand { lows, notes } = self.restart(alloc, config, keepers, node)?;
        self.empty(config, node, &lows, notes);
        Ok(())
    }
}
