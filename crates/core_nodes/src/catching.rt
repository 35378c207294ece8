//! A leader or a follower processes the rest of the logs that it serves.
ghost use Rattle.std.specs.Prelude.{◌≡◌, ◌≤◌, ◌<◌, ◌∷◌, [], IfErr, OnErr, OnOk, Some, length, true};
ghost use Rattle.core_model.specs.Fleet.{region_of, regions_of, serves_in_turn};
ghost use Rattle.core_model.specs.Pens.{pens_of};
ghost use Rattle.core_model.specs.Stores.{AreStoresOf, IsConfiguredStore};
ghost use Rattle.core_nodes.specs.Beginning.{AreLengths};
ghost use Rattle.core_nodes.specs.Dues.{EachKeepsBut, KeepsBut, KeepsOthers, LeavesDues, MeetsDue, MeetsDues, all_caches, due_at};
ghost use Rattle.core_nodes.specs.Dues.{dues_at, dues_in, dues_in_region, dues_in_turn, dues_of, dues_of_all, log_ends};
ghost use Rattle.core_nodes.specs.Outside.{outside};
ghost use Rattle.core_nodes.specs.Settling.{AreCaches, CacheGoesOn, CachesGoOn, CatchesInTurn, CatchesUp, GoesInTurn, HaveCaughtUp};
ghost use Rattle.core_nodes.specs.Settling.{IsLaterLink, MayCatchUp, OnlyReads, ReachesStore, StopsCarry, StopsCatchUp};
ghost use Rattle.core_nodes.specs.Settling.{StopsReads, is_turn, lies_behind, seen_logs};
ghost use Rattle.graph_model.specs.Told.{WhereTold};
ghost use Rattle.node_stages.specs.Caches.{follower_node, follower_refills, leader_node, leader_refills};
ghost use Rattle.node_stages.specs.Catching.{ProcessesRest, TouchShard};
ghost use Rattle.served_shards.specs.Served.{log_at, low_at};
ghost use Rattle.shard_tables.specs.Stores.{IsStoreOf};
ghost use Rattle.tao_keeper.specs.KeeperState.{IsLater, KeepsTables};
ghost use Rattle.tao_link.specs.Shown.{after_carry};
ghost use Rattle.topology.specs.States.{is_up};

use crate::beginning::length_at;
use crate::settling::{SettleStop, stop_at};
use crate::stores::region_store;
use core_model::leader_tier::Leader;
use core_model::{Named, region_of, serves_in_turn, store_place};
use follower_cache::Follower;
use node_name::NodeName;
use node_stages::{Cache, catch_up_with};
use replies::UnsettledWhy;
use shard_tables::StoreNode;
use std::alloc::Global;
use tao_base::StoreName;
use tao_keeper::Keeper;
use tao_link::{Link, LinkFailed};
use topology::{Config, Topology};

/// How far nodes are to come: to these lengths of the stores' logs.
#[derive(Clone, Copy)]
pub struct Ends<'a> {
    /// Whence the entries that are read take memory.
    pub alloc: Global,
    pub config: &'a Config,
    /// Which nodes are up.
    pub topology: &'a Topology,
    /// The lengths of the logs of all stores, region by region and in each shard by shard.
    pub lengths: &'a [u64],
}

/// The turn of the nodes of a region, while nodes come to the ends of the logs.
#[derive(Clone, Copy)]
struct Turn<'a> {
    alloc: Global,
    config: &'a Config,
    topology: &'a Topology,
    lengths: &'a [u64],
    region: u16,
}

/// Carries from a shard's store to a node.
fn carry_to<L: Link>(
    store: &StoreNode,
    link: &mut L,
    name: NodeName,
    shard: u16,
) -> Result<(), SettleStop>
    ensures ok { OnOk result (L.shown link.new ≡ after_carry (L.shown link.old)) }
    ensures stop { IfErr result (StopsCarry shard store.now.name name (L.shown link.old) (L.shown link.new)) }
    ensures later { IsLaterLink (L.shown link.old) (L.shown link.new) }
{
    match link.carry(NodeName::Store(store.name()), name) {
        Ok(()) => Ok(()),
        Err(LinkFailed) => Err(SettleStop::Unsettled {
            shard,
            why: UnsettledWhy::LinkFault,
        }),
    }
}

/// A node processes the rest of the log of a store of a shard that it serves, up to this length.
fn process_rest<C: Cache, K: Keeper>(
    alloc: Global,
    cache: &mut C,
    store: &mut StoreNode,
    keepers: &mut K,
    until: u64,
) -> Result<(), SettleStop>
    requires log { log_at store.old.name.shard (C.node cache.old).served ≡ Some store.old.view.log }
    requires keeper { IsStoreOf K.TELLS (K.state keepers.old).told store.old }
    requires all { WhereTold K.TELLS (until ≡ length ((K.state keepers.old).told store.old.name).log) }
    requires here { WhereTold K.TELLS (TouchShard store.old.name.shard ((K.state keepers.old).told store.old.name).log) }
    requires live { WhereTold K.TELLS (((K.state keepers.old).told store.old.name).cut ≤ low_at store.old.name.shard (C.node cache.old).served) }
    ensures does { OnOk result (ProcessesRest C.node C.refills K.TELLS ((K.state keepers.old).told store.old.name).log store.old cache.old cache.new) }
    ensures err { OnErr result (cache.new ≡ cache.old) }
    ensures same { store.new ≡ store.old }
    ensures stop { IfErr result (StopsReads store.old.name.shard (K.state keepers.old) (K.state keepers.new)) }
    ensures tables { KeepsTables K.TELLS (K.state keepers.old) (K.state keepers.new) }
    ensures later { IsLater (K.state keepers.old) (K.state keepers.new) }
{
    let shard = store.name().shard;
    match catch_up_with(alloc, cache, store, keepers, until) {
        Ok(()) => Ok(()),
        Err(refusal) => Err(stop_at(shard, refusal)),
    }
}

/// Whether the node serves the shard, and has not processed its log up to this length.
pub(crate) fn lies_behind(config: &Config, name: NodeName, shard: u16, low: u64, until: u64) -> bool
    ensures { result ≡ lies_behind config.now name shard low until }
{
    serves_in_turn(config, name, shard) && low < until
}

/// Whether it is the node's turn, while those of this region catch up: it is one of these, and up.
fn is_turn(topology: &Topology, region: u16, name: NodeName) -> bool
    ensures { result ≡ is_turn topology.now region name }
{
    region_of(name) == region && topology.is_up(name)
}

impl Turn<'_> {
    /// A node processes the rest of the log of its region's store of a shard that it serves: one carry from the store to the node.
    fn catch_up_behind<C: Cache, K: Keeper, L: Link>(
        &self,
        cache: &mut Named<C>,
        stores: &mut [StoreNode],
        keepers: &mut K,
        link: &mut L,
        at: StoreName,
    ) -> Result<(), SettleStop>
        requires stores { AreStoresOf K.TELLS self.now.config.now (K.state keepers.old).told stores.old }
        requires may { MayCatchUp (seen_logs K.TELLS self.now.config.now (K.state keepers.old).told (pens_of stores.old)) cache.old.name
            (C.node cache.old.node) }
        requires here { IsConfiguredStore self.now.config.now at }
        requires region { region_of cache.old.name ≡ at.region }
        requires serves { serves_in_turn (regions_of self.now.config.now) cache.old.name at.shard ≡ true }
        requires lengths { AreLengths K.TELLS self.now.config.now (K.state keepers.old).told self.now.lengths.now }
        ensures goes { CacheGoesOn C.node C.refills
            (seen_logs K.TELLS self.now.config.now (K.state keepers.old).told (pens_of stores.old)) cache.old cache.new }
        ensures reaches { WhereTold K.TELLS (OnOk result
            (ReachesStore (K.state keepers.old).told at (C.node cache.old.node) (C.node cache.new.node))) }
        ensures meets { MeetsDue (due_at cache.old.name at.shard) result (L.shown link.old) (L.shown link.new) }
        ensures others { KeepsOthers at.shard (C.node cache.old.node) (C.node cache.new.node) }
        ensures rests { OnErr result (cache.new ≡ cache.old) }
        ensures same { stores.new ≡ stores.old }
        ensures stop { IfErr result (StopsCatchUp self.now.config.now
            (outside (K.state keepers.old) (L.shown link.old)) (outside (K.state keepers.new) (L.shown link.new))) }
        ensures reads { OnlyReads K.TELLS
            (outside (K.state keepers.old) (L.shown link.old)) (outside (K.state keepers.new) (L.shown link.new)) }
    {
        let alloc = self.alloc;
        let name = cache.name;
        let place = store_place(self.config, at);
        let until = length_at(self.lengths, place);
        let store = &mut stores[place];
        carry_to(store, link, name, at.shard)?;
        process_rest(alloc, &mut cache.node, store, keepers, until)
    }

    /// A node processes the rest of the log of its region's store of a shard, where it serves the shard and lies behind.
    fn catch_up_at<C: Cache, K: Keeper, L: Link>(
        &self,
        cache: &mut Named<C>,
        stores: &mut [StoreNode],
        keepers: &mut K,
        link: &mut L,
        at: StoreName,
    ) -> Result<(), SettleStop>
        requires stores { AreStoresOf K.TELLS self.now.config.now (K.state keepers.old).told stores.old }
        requires may { MayCatchUp (seen_logs K.TELLS self.now.config.now (K.state keepers.old).told (pens_of stores.old)) cache.old.name
            (C.node cache.old.node) }
        requires here { IsConfiguredStore self.now.config.now at }
        requires region { region_of cache.old.name ≡ at.region }
        requires lengths { AreLengths K.TELLS self.now.config.now (K.state keepers.old).told self.now.lengths.now }
        ensures goes { CacheGoesOn C.node C.refills
            (seen_logs K.TELLS self.now.config.now (K.state keepers.old).told (pens_of stores.old)) cache.old cache.new }
        ensures reaches { WhereTold K.TELLS (OnOk result
            (ReachesStore (K.state keepers.old).told at (C.node cache.old.node) (C.node cache.new.node))) }
        ensures meets { MeetsDues (dues_at C.node (log_ends K.TELLS self.now.config.now self.now.lengths.now) (at.shard ∷ []) cache.old) result
            (L.shown link.old) (L.shown link.new) (λ met left. KeepsBut C.node met cache.old cache.new
            × WhereTold K.TELLS (dues_at C.node (log_ends K.TELLS self.now.config.now self.now.lengths.now) (at.shard ∷ []) cache.new ≡ left)) }
        ensures rests { OnErr result (cache.new ≡ cache.old) }
        ensures same { stores.new ≡ stores.old }
        ensures stop { IfErr result (StopsCatchUp self.now.config.now
            (outside (K.state keepers.old) (L.shown link.old)) (outside (K.state keepers.new) (L.shown link.new))) }
        ensures reads { OnlyReads K.TELLS
            (outside (K.state keepers.old) (L.shown link.old)) (outside (K.state keepers.new) (L.shown link.new)) }
    {
        let low = cache.node.mark(at.shard);
        let until = length_at(self.lengths, store_place(self.config, at));
        if !lies_behind(self.config, cache.name, at.shard, low, until) {
            return Ok(());
        }
        self.catch_up_behind(cache, stores, keepers, link, at)
    }

    /// A node of the region processes the rest of the logs that it serves, shard by shard, up to the lengths of the region's stores.
    fn catch_up_node<C: Cache, K: Keeper, L: Link>(
        &self,
        cache: &mut Named<C>,
        stores: &mut [StoreNode],
        keepers: &mut K,
        link: &mut L,
    ) -> Result<(), SettleStop>
        requires stores { AreStoresOf K.TELLS self.now.config.now (K.state keepers.old).told stores.old }
        requires may { MayCatchUp (seen_logs K.TELLS self.now.config.now (K.state keepers.old).told (pens_of stores.old)) cache.old.name
            (C.node cache.old.node) }
        requires here { self.now.region < length self.now.config.now.regions }
        requires region { region_of cache.old.name ≡ self.now.region }
        requires lengths { AreLengths K.TELLS self.now.config.now (K.state keepers.old).told self.now.lengths.now }
        ensures goes { CacheGoesOn C.node C.refills
            (seen_logs K.TELLS self.now.config.now (K.state keepers.old).told (pens_of stores.old)) cache.old cache.new }
        ensures caught { WhereTold K.TELLS (OnOk result
            (CatchesUp self.now.config.now (K.state keepers.old).told self.now.region (C.node cache.old.node) (C.node cache.new.node))) }
        ensures meets { MeetsDues (dues_of C.node (log_ends K.TELLS self.now.config.now self.now.lengths.now) cache.old) result
            (L.shown link.old) (L.shown link.new) (λ met left. KeepsBut C.node met cache.old cache.new
            × WhereTold K.TELLS (dues_of C.node (log_ends K.TELLS self.now.config.now self.now.lengths.now) cache.new ≡ left)) }
        ensures same { stores.new ≡ stores.old }
        ensures stop { IfErr result (StopsCatchUp self.now.config.now
            (outside (K.state keepers.old) (L.shown link.old)) (outside (K.state keepers.new) (L.shown link.new))) }
        ensures reads { OnlyReads K.TELLS
            (outside (K.state keepers.old) (L.shown link.old)) (outside (K.state keepers.new) (L.shown link.new)) }
    {
        let config = self.config;
        for shard in 0..config.shards {
            let at = region_store(self.region, shard);
            self.catch_up_at(cache, stores, keepers, link, at)?;
        }
        cache.node.is_true();
        Ok(())
    }

    /// A node catches up, where it is one of the region, and up.
    fn catch_up_turn<C: Cache, K: Keeper, L: Link>(
        &self,
        cache: &mut Named<C>,
        stores: &mut [StoreNode],
        keepers: &mut K,
        link: &mut L,
    ) -> Result<(), SettleStop>
        requires stores { AreStoresOf K.TELLS self.now.config.now (K.state keepers.old).told stores.old }
        requires may { MayCatchUp (seen_logs K.TELLS self.now.config.now (K.state keepers.old).told (pens_of stores.old)) cache.old.name
            (C.node cache.old.node) }
        requires here { self.now.region < length self.now.config.now.regions }
        requires lengths { AreLengths K.TELLS self.now.config.now (K.state keepers.old).told self.now.lengths.now }
        ensures goes { GoesInTurn C.node C.refills (seen_logs K.TELLS self.now.config.now (K.state keepers.old).told (pens_of stores.old))
            (is_turn self.now.topology.now self.now.region cache.old.name) cache.old cache.new }
        ensures caught { WhereTold K.TELLS (OnOk result (CatchesInTurn C.node self.now.config.now (K.state keepers.old).told
            (is_turn self.now.topology.now self.now.region cache.old.name) cache.old cache.new)) }
        ensures meets { MeetsDues (dues_in_turn C.node
            (log_ends K.TELLS self.now.config.now self.now.lengths.now) (is_turn self.now.topology.now self.now.region) cache.old) result
            (L.shown link.old) (L.shown link.new)
            (λ met left. KeepsBut C.node met cache.old cache.new × WhereTold K.TELLS (dues_in_turn C.node
            (log_ends K.TELLS self.now.config.now self.now.lengths.now) (is_turn self.now.topology.now self.now.region) cache.new ≡ left)) }
        ensures same { stores.new ≡ stores.old }
        ensures stop { IfErr result (StopsCatchUp self.now.config.now
            (outside (K.state keepers.old) (L.shown link.old)) (outside (K.state keepers.new) (L.shown link.new))) }
        ensures reads { OnlyReads K.TELLS
            (outside (K.state keepers.old) (L.shown link.old)) (outside (K.state keepers.new) (L.shown link.new)) }
    {
        if !is_turn(self.topology, self.region, cache.name) {
            return Ok(());
        }
        self.catch_up_node(cache, stores, keepers, link)
    }

    /// Each of the nodes that is one of the region, and up, processes the rest of the logs that it serves, one after another.
    fn catch_up_all<C: Cache, K: Keeper, L: Link>(
        &self,
        caches: &mut [Named<C>],
        stores: &mut [StoreNode],
        keepers: &mut K,
        link: &mut L,
    ) -> Result<(), SettleStop>
        requires stores { AreStoresOf K.TELLS self.now.config.now (K.state keepers.old).told stores.old }
        requires caches { AreCaches C.node (seen_logs K.TELLS self.now.config.now (K.state keepers.old).told (pens_of stores.old)) caches.old }
        requires here { self.now.region < length self.now.config.now.regions }
        requires lengths { AreLengths K.TELLS self.now.config.now (K.state keepers.old).told self.now.lengths.now }
        ensures on { CachesGoOn C.node C.refills (seen_logs K.TELLS self.now.config.now (K.state keepers.old).told (pens_of stores.old))
            (is_turn self.now.topology.now self.now.region) caches.old caches.new }
        ensures caught { WhereTold K.TELLS (OnOk result (HaveCaughtUp C.node self.now.config.now (K.state keepers.old).told
            (is_turn self.now.topology.now self.now.region) caches.old caches.new)) }
        ensures meets { MeetsDues (dues_in C.node
            (log_ends K.TELLS self.now.config.now self.now.lengths.now) (is_turn self.now.topology.now self.now.region) caches.old) result
            (L.shown link.old) (L.shown link.new)
            (λ met left. EachKeepsBut C.node met caches.old caches.new × WhereTold K.TELLS (dues_in C.node
            (log_ends K.TELLS self.now.config.now self.now.lengths.now) (is_turn self.now.topology.now self.now.region) caches.new ≡ left)) }
        ensures same { stores.new ≡ stores.old }
        ensures stop { IfErr result (StopsCatchUp self.now.config.now
            (outside (K.state keepers.old) (L.shown link.old)) (outside (K.state keepers.new) (L.shown link.new))) }
        ensures reads { OnlyReads K.TELLS
            (outside (K.state keepers.old) (L.shown link.old)) (outside (K.state keepers.new) (L.shown link.new)) }
    {
        for cache in caches.iter_mut() {
            self.catch_up_turn(cache, stores, keepers, link)?;
        }
        Ok(())
    }

    /// The leaders of the region that are up, and then its followers that are, process the rest of the logs that they serve.
    fn catch_up_region<K: Keeper, L: Link>(
        &self,
        leaders: &mut [Named<Leader>],
        followers: &mut [Named<Follower>],
        stores: &mut [StoreNode],
        keepers: &mut K,
        link: &mut L,
    ) -> Result<(), SettleStop>
        requires stores { AreStoresOf K.TELLS self.now.config.now (K.state keepers.old).told stores.old }
        requires leaders { AreCaches leader_node (seen_logs K.TELLS self.now.config.now (K.state keepers.old).told (pens_of stores.old)) leaders.old }
        requires followers { AreCaches follower_node (seen_logs K.TELLS self.now.config.now (K.state keepers.old).told (pens_of stores.old)) followers.old }
        requires here { self.now.region < length self.now.config.now.regions }
        requires lengths { AreLengths K.TELLS self.now.config.now (K.state keepers.old).told self.now.lengths.now }
        ensures leaders { CachesGoOn leader_node leader_refills (seen_logs K.TELLS self.now.config.now (K.state keepers.old).told (pens_of stores.old))
            (is_turn self.now.topology.now self.now.region) leaders.old leaders.new }
        ensures followers { CachesGoOn follower_node follower_refills (seen_logs K.TELLS self.now.config.now (K.state keepers.old).told (pens_of stores.old))
            (is_turn self.now.topology.now self.now.region) followers.old followers.new }
        ensures caught { WhereTold K.TELLS (OnOk result (HaveCaughtUp leader_node self.now.config.now (K.state keepers.old).told
            (is_turn self.now.topology.now self.now.region) leaders.old leaders.new)) }
        ensures also { WhereTold K.TELLS (OnOk result (HaveCaughtUp follower_node self.now.config.now (K.state keepers.old).told
            (is_turn self.now.topology.now self.now.region) followers.old followers.new)) }
        ensures meets { MeetsDues (dues_in_region (log_ends K.TELLS self.now.config.now self.now.lengths.now) self.now.topology.now self.now.region
            (all_caches leaders.old followers.old)) result (L.shown link.old) (L.shown link.new)
            (LeavesDues K.TELLS (dues_in_region (log_ends K.TELLS self.now.config.now self.now.lengths.now) self.now.topology.now self.now.region)
            (all_caches leaders.old followers.old) (all_caches leaders.new followers.new)) }
        ensures same { stores.new ≡ stores.old }
        ensures stop { IfErr result (StopsCatchUp self.now.config.now
            (outside (K.state keepers.old) (L.shown link.old)) (outside (K.state keepers.new) (L.shown link.new))) }
        ensures reads { OnlyReads K.TELLS
            (outside (K.state keepers.old) (L.shown link.old)) (outside (K.state keepers.new) (L.shown link.new)) }
    {
        self.catch_up_all(leaders, stores, keepers, link)?;
        self.catch_up_all(followers, stores, keepers, link)
    }
}

/// How many regions there are.
fn region_count(config: &Config) -> u16
    ensures { result ≡ length config.now.regions }
{
    config.regions.as_slice().len() as u16
}

impl Ends<'_> {
    /// Region by region, all leaders that are up, and then all followers that are, process the rest of the logs that they serve, up to these
    /// lengths of the stores.
    pub(crate) fn catch_up_caches<K: Keeper, L: Link>(
        &self,
        leaders: &mut [Named<Leader>],
        followers: &mut [Named<Follower>],
        stores: &mut [StoreNode],
        keepers: &mut K,
        link: &mut L,
    ) -> Result<(), SettleStop>
        requires stores { AreStoresOf K.TELLS self.now.config.now (K.state keepers.old).told stores.old }
        requires leaders { AreCaches leader_node (seen_logs K.TELLS self.now.config.now (K.state keepers.old).told (pens_of stores.old)) leaders.old }
        requires followers { AreCaches follower_node (seen_logs K.TELLS self.now.config.now (K.state keepers.old).told (pens_of stores.old)) followers.old }
        requires lengths { AreLengths K.TELLS self.now.config.now (K.state keepers.old).told self.now.lengths.now }
        ensures leaders { CachesGoOn leader_node leader_refills (seen_logs K.TELLS self.now.config.now (K.state keepers.old).told (pens_of stores.old))
            (is_up self.now.topology.now) leaders.old leaders.new }
        ensures followers { CachesGoOn follower_node follower_refills (seen_logs K.TELLS self.now.config.now (K.state keepers.old).told (pens_of stores.old))
            (is_up self.now.topology.now) followers.old followers.new }
        ensures caught { WhereTold K.TELLS (OnOk result (HaveCaughtUp leader_node self.now.config.now (K.state keepers.old).told
            (is_up self.now.topology.now) leaders.old leaders.new)) }
        ensures also { WhereTold K.TELLS (OnOk result (HaveCaughtUp follower_node self.now.config.now (K.state keepers.old).told
            (is_up self.now.topology.now) followers.old followers.new)) }
        ensures meets { MeetsDues (dues_of_all
            (log_ends K.TELLS self.now.config.now self.now.lengths.now) self.now.topology.now (all_caches leaders.old followers.old)) result
            (L.shown link.old) (L.shown link.new)
            (LeavesDues K.TELLS (dues_of_all (log_ends K.TELLS self.now.config.now self.now.lengths.now) self.now.topology.now)
            (all_caches leaders.old followers.old) (all_caches leaders.new followers.new)) }
        ensures same { stores.new ≡ stores.old }
        ensures stop { IfErr result (StopsCatchUp self.now.config.now
            (outside (K.state keepers.old) (L.shown link.old)) (outside (K.state keepers.new) (L.shown link.new))) }
        ensures reads { OnlyReads K.TELLS
            (outside (K.state keepers.old) (L.shown link.old)) (outside (K.state keepers.new) (L.shown link.new)) }
    {
        for region in 0..region_count(self.config) {
            let turn = Turn {
                alloc: self.alloc,
                config: self.config,
                topology: self.topology,
                lengths: self.lengths,
                region,
            };
            turn.catch_up_region(leaders, followers, stores, keepers, link)?;
        }
        Ok(())
    }
}
