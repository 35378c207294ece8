//! What a settle does to the nodes: each leader and follower that is up processes the rest of its region's logs of the shards that it serves.
ghost use Rattle.std.specs.Prelude.{◌≡◌, Bool, IfErr, IfOk, OnOk, map};
ghost use Rattle.std.specs.List.{range_with_len};
ghost use Rattle.core_model.specs.Consistent.{GoesOn, IsConsistent};
ghost use Rattle.core_model.specs.Cuts.{ArePastCuts};
ghost use Rattle.core_model.specs.Stores.{master_store, store_place};
ghost use Rattle.core_nodes.specs.Beginning.{AreLengths, length_at};
ghost use Rattle.core_nodes.specs.Dues.{LeavesFleet, MeetsDues, dues_of_fleet, log_ends};
ghost use Rattle.core_nodes.specs.Outside.{outside};
ghost use Rattle.core_nodes.specs.Settling.{AllCatchUp, AllProcessOn, OnlyReads, StopsAs, StopsCatchUp, StopsLengths, log_lengths};
ghost use Rattle.graph_model.specs.Told.{WhereTold};
ghost use Rattle.shard_tables.specs.Refusals.{IsOfReads};
ghost use Rattle.tao_keeper.specs.Growing.{LogsGrow};
ghost use Rattle.tao_keeper.specs.KeeperState.{IsLater, KeepsTables};
ghost use Rattle.tao_keeper.specs.Table.{Tables};

use crate::beginning::{length_at, log_lengths};
use crate::catching::Ends;
use crate::fleet::Fleet;
use crate::stores::master_store;
use core_model::{masters_are_regions, store_place};
use replies::UnsettledWhy;
use shard_tables::StoreRefusal;
use std::alloc::Global;
use tao_base::OutOfMemory;
use tao_keeper::Keeper;
use tao_link::Link;
use topology::Config;

/// Why a settle came to no end. What was done before stays.
#[derive(Clone, Copy, PartialEq, Eq)]
pub enum SettleStop {
    /// At this shard a carry or the keepers failed, or a log was full.
    Unsettled { shard: u16, why: UnsettledWhy },
    /// What is owed to this shard can't be merged: it isn't configured.
    NoServer { shard: u16 },
    /// There was no memory. The settle may be made again.
    OutOfMemory,
}

/// What a store's refusal to read stops a settle with.
pub(crate) fn stop_at(shard: u16, refusal: StoreRefusal) -> SettleStop
    requires { IsOfReads refusal }
    ensures { StopsAs shard refusal result }
{
    match refusal {
        StoreRefusal::KeeperFault => SettleStop::Unsettled {
            shard,
            why: UnsettledWhy::KeeperFault,
        },
        StoreRefusal::OutOfMemory => SettleStop::OutOfMemory,
        _ => unreachable!(),
    }
}

impl Fleet {
    /// The length of each store's log, region by region and in each shard by shard. One call of the keeper for each; the one stop at a shard is that
    /// the keeper failed.
    pub fn lengths<K: Keeper>(
        &mut self,
        alloc: Global,
        config: &Config,
        keepers: &mut K,
    ) -> Result<Vec<u64>, SettleStop>
        requires consistent { IsConsistent K.TELLS config.now (K.state keepers.old).told self.old }
        ensures lengths { IfOk result (λ lengths. AreLengths K.TELLS config.now (K.state keepers.new).told lengths.items) }
        ensures stop { IfErr result (StopsLengths config.now (K.state keepers.old) (K.state keepers.new)) }
        ensures same { self.new ≡ self.old }
        ensures consistent { IsConsistent K.TELLS config.now (K.state keepers.new).told self.new }
        ensures tables { KeepsTables K.TELLS (K.state keepers.old) (K.state keepers.new) }
        ensures logs { LogsGrow K.TELLS (K.state keepers.old).told (K.state keepers.new).told }
        ensures later { IsLater (K.state keepers.old) (K.state keepers.new) }
    {
        log_lengths(alloc, config, &mut self.stores, keepers)
    }

    /// Region by region, each leader that is up, and then each follower that is, processes the rest of the logs that it serves, shard by shard, up to
    /// these lengths of its region's stores: one carry from the region's store of the shard to the node for each at which it lies behind, and none for
    /// the others. What it holds that is behind the region's store is dropped, and all else stays in its order; no refill is queued. A node that is
    /// down stays as it is.
    ///
    /// The first fault ends it, with no carry more, and what was done stays: each node then has dropped nothing of a last version, and whoever comes
    /// after the node and shard at which it stopped is as it was. Costs a call of the keeper for each entry that a node has yet to process; takes the
    /// memory of these entries for one shard at a time.
    pub fn catch_up<K: Keeper, L: Link>(
        &mut self,
        ends: &Ends,
        keepers: &mut K,
        link: &mut L,
    ) -> Result<(), SettleStop>
        requires consistent { IsConsistent K.TELLS ends.now.config.now (K.state keepers.old).told self.old }
        requires lengths { AreLengths K.TELLS ends.now.config.now (K.state keepers.old).told ends.now.lengths.now }
        requires past { WhereTold K.TELLS (ArePastCuts (K.state keepers.old).told self.old) }
        ensures caught { WhereTold K.TELLS (OnOk result
            (AllCatchUp ends.now.config.now ends.now.topology.now (K.state keepers.new).told self.old self.new)) }
        ensures on { AllProcessOn K.TELLS ends.now.config.now ends.now.topology.now (K.state keepers.new).told self.old self.new }
        ensures meets { MeetsDues
            (dues_of_fleet (log_ends K.TELLS ends.now.config.now ends.now.lengths.now) ends.now.topology.now self.old) result
            (L.shown link.old) (L.shown link.new)
            (LeavesFleet (log_ends K.TELLS ends.now.config.now ends.now.lengths.now) ends.now.topology.now self.old self.new) }
        ensures stop { IfErr result (StopsCatchUp ends.now.config.now
            (outside (K.state keepers.old) (L.shown link.old)) (outside (K.state keepers.new) (L.shown link.new))) }
        ensures stores { self.new.stores ≡ self.old.stores }
        ensures consistent { IsConsistent K.TELLS ends.now.config.now (K.state keepers.new).told self.new }
        ensures goes { GoesOn self.old self.new }
        ensures reads { OnlyReads K.TELLS (outside (K.state keepers.old) (L.shown link.old)) (outside (K.state keepers.new) (L.shown link.new)) }
        ensures logs { LogsGrow K.TELLS (K.state keepers.old).told (K.state keepers.new).told }
    {
        ends.catch_up_caches(
            &mut self.leaders,
            &mut self.followers,
            &mut self.stores,
            keepers,
            link,
        )
    }
}

/// Of the lengths of all stores' logs those of the masters' stores, shard by shard.
fn master_lengths(alloc: Global, config: &Config, lengths: &[u64]) -> Result<Vec<u64>, OutOfMemory>
    ensures { IfOk result (λ found. found.items ≡ map (λ shard. length_at lengths.now (store_place config.now (master_store config.now shard)))
        (range_with_len 0 config.now.shards)) }
{
    Ok(
        (0..config.shards)
            .map(|shard| length_at(lengths, store_place(config, master_store(config, shard))))
            .collect(alloc)?,
    )
}

/// Of the lengths of all stores' logs those of the shards' own logs, in order: a shard's log is that of its master's store.
pub fn shard_lengths(
    alloc: Global,
    config: &Config,
    lengths: &[u64],
) -> Result<Vec<u64>, OutOfMemory>
    ensures { IfOk result (λ found. (tells : Bool) (tables : Tables) → AreLengths tells config.now tables lengths.now
        → WhereTold tells (found.items ≡ log_lengths config.now tables)) }
{
    masters_are_regions(config);
    master_lengths(alloc, config, lengths)
}
