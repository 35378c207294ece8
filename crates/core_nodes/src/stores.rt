//! The stores by their names, and the stage of a read at one of them.
ghost use Rattle.std.specs.Prelude.{ℕ, ◌≡◌, ◌≤◌, ◌<◌, IfErr, IfOk};
ghost use Rattle.core_model.specs.Consistent.{IsConsistent};
ghost use Rattle.core_model.specs.Pens.{pens_of};
ghost use Rattle.core_model.specs.Reads.{IsGivenAnswer, StoreReads, given_of, store_calls, wanted};
ghost use Rattle.core_model.specs.Stores.{AreStoresOf, IsConfiguredStore, master_store, region_store};
ghost use Rattle.graph_model.specs.Log.{version as version_of};
ghost use Rattle.graph_model.specs.Told.{WhereTold};
ghost use Rattle.shard_tables.specs.Refusals.{IsOfReads};
ghost use Rattle.tao_base.specs.Queries.{query_key, query_shard};
ghost use Rattle.tao_keeper.specs.Growing.{LogsGrow};
ghost use Rattle.tao_keeper.specs.KeeperState.{CallsKeeper, KeepsTables};
ghost use Rattle.tao_schema.specs.Schema.{types_of};

use crate::fleet::Fleet;
use core_model::{master_of, store_place};
use shard_tables::{ReadOut, StoreNode, StoreRefusal};
use std::alloc::Global;
use tao_base::{Query, StoreName};
use tao_keeper::Keeper;
use topology::Config;

/// The name of a region's store of a shard.
pub fn region_store(region: u16, shard: u16) -> StoreName
    ensures { result ≡ region_store region shard }
{
    StoreName { region, shard }
}

/// The name of a shard's master store.
pub fn master_store(config: &Config, shard: u16) -> StoreName
    ensures { result ≡ master_store config.now shard }
{
    region_store(master_of(config, shard), shard)
}

/// Reads a region's store of the query's shard.
pub(crate) fn read_at<K: Keeper>(
    alloc: Global,
    stores: &mut [StoreNode],
    keepers: &mut K,
    config: &Config,
    region: u16,
    query: &Query,
) -> Result<ReadOut, StoreRefusal>
    requires stores { AreStoresOf K.TELLS config.now (K.state keepers.old).told stores.old }
    requires here { IsConfiguredStore config.now (region_store region (query_shard query.now)) }
    ensures reads { IfOk result (λ out.
        StoreReads (types_of config.now.schema) query.now out (store_calls region stores.old (K.state keepers.old) (K.state keepers.new))) }
    ensures given { IfOk result (λ out. (floor : ℕ)
        → WhereTold K.TELLS (floor ≤ version_of ((K.state keepers.old).told (region_store region (query_shard query.now))).log (query_key query.now))
        → IsGivenAnswer (types_of config.now.schema) (pens_of stores.old) (wanted query.now floor) (given_of out)) }
    ensures same { stores.new ≡ stores.old }
    ensures refused { IfErr result IsOfReads }
    ensures tables { KeepsTables K.TELLS (K.state keepers.old) (K.state keepers.new) }
    ensures logs { LogsGrow K.TELLS (K.state keepers.old).told (K.state keepers.new).told }
    ensures calls { CallsKeeper StoreRefusal.KeeperFault (K.state keepers.old) (K.state keepers.new) result }
{
    let at = region_store(region, query.shard());
    let place = store_place(config, at);
    let store = &mut stores[place];
    store.read(alloc, keepers, &config.schema, query)
}

impl Fleet {
    /// A region's store of the query's shard answers from all that it has: the master's at the stage `master`, and where no leader may be
    /// asked the one of the reader's region. Where its log is told, what it gives has each floor that the store has come to.
    ///
    /// `KeeperFault` comes only where the keepers' count of faults rose, and `OutOfMemory` where there was no memory. Costs what
    /// `StoreNode::read` does.
    pub fn read_store<K: Keeper>(
        &mut self,
        alloc: Global,
        config: &Config,
        keepers: &mut K,
        region: u16,
        query: &Query,
    ) -> Result<ReadOut, StoreRefusal>
        requires consistent { IsConsistent K.TELLS config.now (K.state keepers.old).told self.old }
        requires here { IsConfiguredStore config.now (region_store region (query_shard query.now)) }
        ensures reads { IfOk result (λ out.
            StoreReads (types_of config.now.schema) query.now out (store_calls region self.old.stores (K.state keepers.old) (K.state keepers.new))) }
        ensures given { IfOk result (λ out. (floor : ℕ)
            → WhereTold K.TELLS (floor ≤ version_of ((K.state keepers.old).told (region_store region (query_shard query.now))).log (query_key query.now))
            → IsGivenAnswer (types_of config.now.schema) (pens_of self.new.stores) (wanted query.now floor) (given_of out)) }
        ensures same { self.new ≡ self.old }
        ensures consistent { IsConsistent K.TELLS config.now (K.state keepers.new).told self.new }
        ensures refused { IfErr result IsOfReads }
        ensures tables { KeepsTables K.TELLS (K.state keepers.old) (K.state keepers.new) }
        ensures logs { LogsGrow K.TELLS (K.state keepers.old).told (K.state keepers.new).told }
        ensures calls { CallsKeeper StoreRefusal.KeeperFault (K.state keepers.old) (K.state keepers.new) result }
    {
        read_at(alloc, &mut self.stores, keepers, config, region, query)
    }
}
