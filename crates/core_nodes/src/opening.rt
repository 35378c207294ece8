//! The opening: the stores of a configuration, region by region and shard by shard, and the nodes before them.
ghost use Rattle.std.specs.Prelude.{◌≡◌, ◌∷◌, ◌++◌, ◌<◌, All, IfErr, IfOk, map};
ghost use Rattle.std.specs.List.Sorted.{IsNonDecreasingBy, IsPermutation};
ghost use Rattle.core_model.specs.Consistent.{IsConsistent};
ghost use Rattle.core_model.specs.Stores.{AreStores, FollowMasters, HaveSeen, IsConfiguredStore, master_log, store_count, store_place};
ghost use Rattle.core_nodes.specs.Beginning.{AreAtStores, HaveBegun, IsEmptyFleet, MayHold};
ghost use Rattle.core_nodes.specs.Opening.{AreMade, HasOpenCause, IsOpened, IsUnmade, MayOpen, OpensOne, RefusesMaking, RefusesOpening};
ghost use Rattle.core_nodes.specs.Opening.{open_refusal, shard_refusal, slave_names};
ghost use Rattle.core_model.specs.Stores.{master_store};
ghost use Rattle.graph_model.specs.Told.{WhereTold};
ghost use Rattle.region_stream.specs.Opening.{AgreesAs, IsOpenedMaster, NamesOneOf, slave_of};
ghost use Rattle.region_stream.specs.declared.opening.ShardRefusal.TheVariants.{KeeperFault as Faulted};
ghost use Rattle.shard_tables.specs.Stores.{IsStoreOf};
ghost use Rattle.tao_keeper.specs.Growing.{LogsGrow};
ghost use Rattle.tao_keeper.specs.KeeperState.{CallsKeeper, IsLater, KeepsTables};

use crate::beginning::begin;
use crate::fleet::Fleet;
use crate::stores::{master_store, region_store};
use core_model::{master_of, masters_are_regions, store_place};
use region_stream::{ShardRefusal, ShardStores, open_shard};
use replies::OpenRefusal;
use shard_tables::StoreNode;
use std::alloc::Global;
use tao_base::{OutOfMemory, StoreName};
use tao_keeper::{KeepFail, Keeper, Opened};
use topology::Config;

fn open_refusal(fail: KeepFail) -> OpenRefusal
    ensures { result ≡ open_refusal fail }
{
    match fail {
        KeepFail::Failed => OpenRefusal::KeeperFault,
        KeepFail::OutOfMemory => OpenRefusal::OutOfMemory,
    }
}

/// How many stores there are.
fn store_count(config: &Config) -> usize
    ensures { result ≡ store_count config.now }
{
    config.regions.as_slice().len() * usize::from(config.shards)
}

/// The name of the store at a place.
fn store_at(config: &Config, place: usize) -> StoreName
    requires { place < store_count config.now }
    ensures here { IsConfiguredStore config.now result }
    ensures place { store_place config.now result ≡ place }
{
    // Who reads the regions knows that there are few, so that their numbers fit.
    let _ = config.regions.as_slice();
    let shards = usize::from(config.shards);
    region_store((place / shards) as u16, (place % shards) as u16)
}

/// Opens a store with the line. One call of the keeper.
fn open_line<K: Keeper>(line: &[u8], keepers: &mut K, at: StoreName) -> Result<(), OpenRefusal>
    ensures opens { WhereTold K.TELLS (OpensOne line.now at (K.state keepers.old).told (K.state keepers.new).told result) }
    ensures cause { IfErr result (HasOpenCause (K.state keepers.old).faults (K.state keepers.new).faults) }
    ensures later { IsLater (K.state keepers.old) (K.state keepers.new) }
{
    match keepers.open(at, line) {
        Ok(Opened::Ready) => Ok(()),
        Ok(Opened::OtherLine) => Err(OpenRefusal::OtherLine),
        Err(fail) => Err(open_refusal(fail)),
    }
}

/// Opens all stores with the line, in order. One call of the keeper for each.
fn open_lines<K: Keeper>(config: &Config, line: &[u8], keepers: &mut K) -> Result<(), OpenRefusal>
    ensures opened { WhereTold K.TELLS (IfOk result (λ _. IsOpened config.now line.now (K.state keepers.old).told (K.state keepers.new).told)) }
    ensures refused { IfErr result (RefusesOpening K.TELLS config.now line.now (K.state keepers.old) (K.state keepers.new)) }
    ensures later { IsLater (K.state keepers.old) (K.state keepers.new) }
{
    for place in 0..store_count(config) {
        open_line(line, keepers, store_at(config, place))?;
    }
    Ok(())
}

/// The names of a shard's slaves, region by region.
fn slave_names(alloc: Global, config: &Config, shard: u16) -> Result<Vec<StoreName>, OutOfMemory>
    ensures { IfOk result (λ names. names.items ≡ slave_names config.now shard) }
{
    let master = master_of(config, shard);
    let regions = config.regions.as_slice().len() as u16;
    Ok(
        (0..regions)
            .filter(|region| *region != master)
            .map(|region| region_store(region, shard))
            .collect(alloc)?,
    )
}

/// Makes the stores of a shard: its master and its slaves, whose logs must begin its own. Costs what `open_shard` does.
fn make_shard<K: Keeper>(
    alloc: Global,
    config: &Config,
    keepers: &mut K,
    shard: u16,
) -> Result<ShardStores, ShardRefusal>
    ensures agree { WhereTold K.TELLS
        (AgreesAs (K.state keepers.old).told (master_log config.now (K.state keepers.old).told shard) (slave_names config.now shard) result) }
    ensures named { IfErr result (NamesOneOf (slave_names config.now shard)) }
    ensures master { IfOk result (λ made.
        IsOpenedMaster K.TELLS (K.state keepers.new).told (master_store config.now shard) config.now.log_max made.master) }
    ensures slaves { IfOk result (λ made. made.slaves.items ≡ map (slave_of made.master) (slave_names config.now shard)) }
    ensures kept { IfOk result (λ made. All (IsStoreOf K.TELLS (K.state keepers.new).told)
        (map (slave_of made.master) (slave_names config.now shard))) }
    ensures stays { KeepsTables K.TELLS (K.state keepers.old) (K.state keepers.new) }
    ensures calls { CallsKeeper Faulted (K.state keepers.old) (K.state keepers.new) result }
{
    let names = slave_names(alloc, config, shard)?;
    open_shard(
        alloc,
        keepers,
        master_store(config, shard),
        &names,
        config.log_max,
    )
}

/// Adds the stores of a shard, its master's first.
fn add_shard(stores: &mut Vec<StoreNode>, made: ShardStores) -> Result<(), OutOfMemory>
    ensures { IfOk result (λ _. stores.new.items ≡ stores.old.items ++ made.master ∷ made.slaves.items) }
{
    let ShardStores { master, slaves } = made;
    stores.push(master)?;
    for slave in slaves {
        stores.push(slave)?;
    }
    Ok(())
}

/// Makes the stores of all shards, shard by shard. Costs what `open_shard` does for each.
fn make_shards<K: Keeper>(
    alloc: Global,
    config: &Config,
    keepers: &mut K,
) -> Result<Vec<StoreNode>, ShardRefusal>
    ensures made { IfOk result (λ stores. AreMade K.TELLS config.now (K.state keepers.new).told config.now.shards stores.items) }
    ensures refused { IfErr result (λ refusal. RefusesMaking K.TELLS config.now (K.state keepers.old) (K.state keepers.new) (shard_refusal refusal)) }
    ensures stays { KeepsTables K.TELLS (K.state keepers.old) (K.state keepers.new) }
    ensures later { IsLater (K.state keepers.old) (K.state keepers.new) }
{
    masters_are_regions(config);
    let mut stores = Vec::new(alloc);
    for shard in 0..config.shards {
        let made = make_shard(alloc, config, keepers, shard)?;
        add_shard(&mut stores, made)?;
    }
    Ok(stores)
}

/// The stores in the order of their places.
fn in_order(config: &Config, stores: Vec<StoreNode>) -> Vec<StoreNode>
    ensures moved { IsPermutation stores.items result.items }
    ensures sorted { IsNonDecreasingBy (λ store. store_place config.now store.name) result.items }
{
    let mut stores = stores;
    stores.sort_unstable_by_key(|store| store_place(config, store.name()));
    stores
}

fn shard_refusal(refusal: ShardRefusal) -> OpenRefusal
    ensures { result ≡ shard_refusal refusal }
{
    match refusal {
        ShardRefusal::KeeperFault => OpenRefusal::KeeperFault,
        ShardRefusal::Disagree { store, position } => OpenRefusal::Disagree { store, position },
        ShardRefusal::OutOfMemory => OpenRefusal::OutOfMemory,
    }
}

/// Makes all stores, in order, which changes no table. Costs what `open_shard` does for each shard.
fn make_stores<K: Keeper>(
    alloc: Global,
    config: &Config,
    keepers: &mut K,
) -> Result<Vec<StoreNode>, OpenRefusal>
    ensures stores { IfOk result (λ stores. AreStores config.now (store_count config.now) stores.items) }
    ensures seen { IfOk result (λ stores. HaveSeen K.TELLS (K.state keepers.new).told stores.items) }
    ensures follow { IfOk result (λ stores. FollowMasters stores.items) }
    ensures refused { IfErr result (RefusesMaking K.TELLS config.now (K.state keepers.old) (K.state keepers.new)) }
    ensures stays { KeepsTables K.TELLS (K.state keepers.old) (K.state keepers.new) }
    ensures later { IsLater (K.state keepers.old) (K.state keepers.new) }
{
    masters_are_regions(config);
    match make_shards(alloc, config, keepers) {
        Ok(stores) => Ok(in_order(config, stores)),
        Err(refusal) => Err(shard_refusal(refusal)),
    }
}

/// Opens all stores with the line, region by region and shard by shard, and then makes them. Costs one call of the keeper for each,
/// and what `open_shard` does for each shard.
fn open_stores<K: Keeper>(
    alloc: Global,
    config: &Config,
    line: &[u8],
    keepers: &mut K,
) -> Result<Vec<StoreNode>, OpenRefusal>
    ensures stores { IfOk result (λ stores. AreStores config.now (store_count config.now) stores.items) }
    ensures seen { IfOk result (λ stores. HaveSeen K.TELLS (K.state keepers.new).told stores.items) }
    ensures follow { IfOk result (λ stores. FollowMasters stores.items) }
    ensures opened { WhereTold K.TELLS (IfOk result (λ _. IsOpened config.now line.now (K.state keepers.old).told (K.state keepers.new).told)) }
    ensures refused { IfErr result (RefusesOpening K.TELLS config.now line.now (K.state keepers.old) (K.state keepers.new)) }
    ensures later { IsLater (K.state keepers.old) (K.state keepers.new) }
{
    open_lines(config, line, keepers)?;
    make_stores(alloc, config, keepers)
}

/// The nodes of a configuration before its stores: each leader and follower holds nothing, and has processed all that its region's
/// stores have. One call of the keeper for each store.
fn fleet_before<K: Keeper>(
    alloc: Global,
    config: &Config,
    keepers: &mut K,
    stores: Vec<StoreNode>,
) -> Result<Fleet, OpenRefusal>
    requires stores { AreStores config.now (store_count config.now) stores.items }
    requires seen { HaveSeen K.TELLS (K.state keepers.old).told stores.items }
    ensures begun { IfOk result (λ fleet. HaveBegun K.TELLS config.now (K.state keepers.old).told stores.items fleet) }
    ensures unmade { IfErr result (IsUnmade (K.state keepers.old).faults (K.state keepers.new).faults) }
    ensures stays { KeepsTables K.TELLS (K.state keepers.old) (K.state keepers.new) }
    ensures later { IsLater (K.state keepers.old) (K.state keepers.new) }
{
    let mut stores = stores;
    let caches = begin(alloc, config, &mut stores, keepers)?;
    Ok(Fleet {
        leaders: caches.leaders,
        followers: caches.followers,
        stores,
    })
}

impl Fleet {
    /// Opens all stores with the line, region by region and shard by shard, and makes the nodes of the configuration before them. Each
    /// leader and follower holds nothing, up to as many items as are configured, and has processed all that its region's stores have.
    ///
    /// `OtherLine` comes exactly where a store was first opened with another line: the stores before it are open then. `Disagree` comes
    /// exactly where a slave's log doesn't begin its master's, with the first such slave, shard by shard and of a shard region by region,
    /// and the first position at which its log isn't the master's: all stores are open then. `KeeperFault` comes only where the keepers'
    /// count of faults rose, and `OutOfMemory` where there was no memory; some of the first stores are open then. Costs two calls of the
    /// keeper for each store, and what `open_shard` does for each shard.
    pub fn open<K: Keeper>(
        alloc: Global,
        config: &Config,
        line: &[u8],
        keepers: &mut K,
    ) -> Result<Fleet, OpenRefusal>
        requires kept { WhereTold K.TELLS (MayOpen config.now line.now (K.state keepers.old).told) }
        ensures opened { WhereTold K.TELLS (IfOk result (λ _. IsOpened config.now line.now (K.state keepers.old).told (K.state keepers.new).told)) }
        ensures consistent { IfOk result (IsConsistent K.TELLS config.now (K.state keepers.new).told) }
        ensures empty { IfOk result IsEmptyFleet }
        ensures bounds { IfOk result (MayHold config.now.cache_items) }
        ensures ends { WhereTold K.TELLS (IfOk result (AreAtStores (K.state keepers.new).told)) }
        ensures refused { IfErr result (RefusesOpening K.TELLS config.now line.now (K.state keepers.old) (K.state keepers.new)) }
        ensures grows { LogsGrow K.TELLS (K.state keepers.old).told (K.state keepers.new).told }
        ensures later { IsLater (K.state keepers.old) (K.state keepers.new) }
    {
        let stores = open_stores(alloc, config, line, keepers)?;
        fleet_before(alloc, config, keepers, stores)
    }
}
