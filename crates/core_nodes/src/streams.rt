//! A step of a stream: what is to be carried from a shard's master store to a slave's, and what that takes of it.
ghost use Rattle.std.specs.Prelude.{◌≡◌, ◌≤◌, ◌<◌, ◌+◌, IfErr, IfOk, IfSome, None, length};
ghost use Rattle.core_model.specs.Consistent.{GoesOn, IsConsistent};
ghost use Rattle.core_model.specs.Growing.{StoresGrow};
ghost use Rattle.core_model.specs.Pens.{pens_of};
ghost use Rattle.core_model.specs.Stores.{AreStoresOf, IsConfiguredStore, master_store};
ghost use Rattle.core_model.specs.Writes.{IsSeenEntry};
ghost use Rattle.core_nodes.specs.Opening.{IsSlaveStore};
ghost use Rattle.core_nodes.specs.Streams.{FindsNext, IsNothingAt, IsOfAsked, StreamsTo, UnlessApplied, entry_found, position_found, streamed_as};
ghost use Rattle.graph_model.specs.Told.{WhereTold};
ghost use Rattle.shard_tables.specs.Refusals.{IsOfReads};
ghost use Rattle.shard_tables.specs.Written.{LiesOn, StandsIn};
ghost use Rattle.tao_keeper.specs.Given.{HaveSmallStamps, IsGivenEntry};
ghost use Rattle.tao_keeper.specs.Growing.{LogsGrow};
ghost use Rattle.tao_keeper.specs.KeeperState.{CallsKeeper, KeepsTables};
ghost use Rattle.tao_keeper.specs.Table.{live_entry};

use crate::fleet::Fleet;
use crate::stores::master_store;
use core_model::{masters_are_regions, store_place};
use region_stream::{Applied, apply};
use replies::StreamVerdict;
use shard_log::Note;
use shard_tables::{StoreNode, StoreRefusal};
use tao_base::{Entry, StoreName};
use tao_keeper::{Keeper, MOST_ENTRIES};
use topology::Config;

/// What a stream into a slave's store finds, before anything is carried.
#[derive(Drop)]
pub enum NextEntry {
    /// The entry that is to be carried, and the position that the store takes next.
    Found { entry: Entry, next: u64 },
    /// The entry at the position is an old one, which the store has taken: it takes this position next.
    Old { next: u64 },
    /// The store has all of its shard's log: it takes this position next.
    Nothing { next: u64 },
    /// The shard's log, of that length, has no entry at the position.
    Past { length: u64, position: u64 },
}

/// The length of a store's log. One call of the keeper.
pub(crate) fn stored_length<K: Keeper>(
    stores: &mut [StoreNode],
    keepers: &mut K,
    config: &Config,
    at: StoreName,
) -> Result<u64, StoreRefusal>
    requires stores { AreStoresOf K.TELLS config.now (K.state keepers.old).told stores.old }
    requires here { IsConfiguredStore config.now at }
    ensures length { WhereTold K.TELLS (IfOk result (λ count. count ≡ length ((K.state keepers.old).told at).log)) }
    ensures few { IfOk result (λ count. count ≤ MOST_ENTRIES) }
    ensures same { stores.new ≡ stores.old }
    ensures refused { IfErr result IsOfReads }
    ensures tables { KeepsTables K.TELLS (K.state keepers.old) (K.state keepers.new) }
    ensures calls { CallsKeeper StoreRefusal.KeeperFault (K.state keepers.old) (K.state keepers.new) result }
{
    let place = store_place(config, at);
    let store = &mut stores[place];
    store.length(keepers)
}

/// The live entry at a position of a shard's log. One call of the keeper.
fn stored_entry<K: Keeper>(
    stores: &mut [StoreNode],
    keepers: &mut K,
    config: &Config,
    shard: u16,
    position: u64,
) -> Result<Option<Entry>, StoreRefusal>
    requires stores { AreStoresOf K.TELLS config.now (K.state keepers.old).told stores.old }
    requires here { shard < config.now.shards }
    ensures entry { WhereTold K.TELLS (IfOk result (λ found. found ≡ live_entry ((K.state keepers.old).told (master_store config.now shard)) position)) }
    ensures given { IfOk result (λ found. IfSome found IsGivenEntry) }
    ensures same { stores.new ≡ stores.old }
    ensures refused { IfErr result IsOfReads }
    ensures tables { KeepsTables K.TELLS (K.state keepers.old) (K.state keepers.new) }
    ensures calls { CallsKeeper StoreRefusal.KeeperFault (K.state keepers.old) (K.state keepers.new) result }
{
    masters_are_regions(config);
    let place = store_place(config, master_store(config, shard));
    let store = &mut stores[place];
    store.entry(keepers, position)
}

/// What there is where a shard's log has no live entry at the position that is asked for, or, where none is asked for, at the one that comes next.
fn nothing_at<K: Keeper>(
    stores: &mut [StoreNode],
    keepers: &mut K,
    config: &Config,
    shard: u16,
    position: Option<u64>,
    next: u64,
) -> Result<NextEntry, StoreRefusal>
    requires stores { AreStoresOf K.TELLS config.now (K.state keepers.old).told stores.old }
    requires here { shard < config.now.shards }
    requires few { next ≤ MOST_ENTRIES + 1 }
    ensures nothing { WhereTold K.TELLS (IfOk result (IsNothingAt config.now (K.state keepers.old).told shard position next)) }
    ensures few { IfOk result (λ found. position_found found ≤ MOST_ENTRIES + 1) }
    ensures none { IfOk result (λ found. entry_found found ≡ None) }
    ensures asked { IfOk result (IsOfAsked position) }
    ensures same { stores.new ≡ stores.old }
    ensures refused { IfErr result IsOfReads }
    ensures tables { KeepsTables K.TELLS (K.state keepers.old) (K.state keepers.new) }
    ensures calls { CallsKeeper StoreRefusal.KeeperFault (K.state keepers.old) (K.state keepers.new) result }
{
    let Some(position) = position else {
        return Ok(NextEntry::Nothing { next });
    };
    masters_are_regions(config);
    let length = stored_length(stores, keepers, config, master_store(config, shard))?;
    if position <= length {
        return Ok(NextEntry::Old { next });
    }
    Ok(NextEntry::Past { length, position })
}

/// What is to be carried to a store.
fn next_at<K: Keeper>(
    stores: &mut [StoreNode],
    keepers: &mut K,
    config: &Config,
    at: StoreName,
    position: Option<u64>,
) -> Result<NextEntry, StoreRefusal>
    requires stores { AreStoresOf K.TELLS config.now (K.state keepers.old).told stores.old }
    requires here { IsConfiguredStore config.now at }
    ensures finds { WhereTold K.TELLS (IfOk result (FindsNext config.now (K.state keepers.old).told at position)) }
    ensures asked { IfOk result (IsOfAsked position) }
    ensures few { IfOk result (λ found. position_found found ≤ MOST_ENTRIES + 1) }
    ensures given { IfOk result (λ found. IfSome (entry_found found) IsGivenEntry) }
    ensures same { stores.new ≡ stores.old }
    ensures refused { IfErr result IsOfReads }
    ensures tables { KeepsTables K.TELLS (K.state keepers.old) (K.state keepers.new) }
    ensures calls { CallsKeeper StoreRefusal.KeeperFault (K.state keepers.old) (K.state keepers.new) result }
{
    masters_are_regions(config);
    let next = stored_length(stores, keepers, config, at)? + 1;
    let asked = position.unwrap_or(next);
    let found = stored_entry(stores, keepers, config, at.shard, asked)?;
    match found {
        Some(entry) => Ok(NextEntry::Found { entry, next }),
        None => nothing_at(stores, keepers, config, at.shard, position, next),
    }
}

/// What a store says of an entry.
fn streamed_as(applied: Result<Applied, StoreRefusal>) -> Result<StreamVerdict, StoreRefusal>
    ensures { result ≡ streamed_as applied }
{
    match applied {
        Ok(Applied::Applied) => Ok(StreamVerdict::Applied),
        Ok(Applied::Old) => Ok(StreamVerdict::Old),
        Ok(Applied::Gap { .. }) => Ok(StreamVerdict::Gap),
        Err(refusal) => Err(refusal),
    }
}

/// Lets a slave's store take the entry, where it comes next.
fn take_at<K: Keeper>(
    stores: &mut [StoreNode],
    keepers: &mut K,
    config: &Config,
    at: StoreName,
    entry: &Entry,
    note: Note,
) -> Result<StreamVerdict, StoreRefusal>
    requires stores { AreStoresOf K.TELLS config.now (K.state keepers.old).told stores.old }
    requires slave { IsSlaveStore config.now at }
    requires seen { IsSeenEntry (pens_of stores.old) at.shard note entry.now }
    requires stamps { HaveSmallStamps entry.now.touches }
    ensures streams { WhereTold K.TELLS (StreamsTo config.now at entry.now result (K.state keepers.old).told (K.state keepers.new).told) }
    ensures pens { pens_of stores.new ≡ pens_of stores.old }
    ensures rests { UnlessApplied result (stores.new ≡ stores.old) }
    ensures stores { AreStoresOf K.TELLS config.now (K.state keepers.new).told stores.new }
    ensures grows { StoresGrow K.TELLS config.now (K.state keepers.old).told (K.state keepers.new).told }
    ensures refused { IfErr result IsOfReads }
    ensures calls { CallsKeeper StoreRefusal.KeeperFault (K.state keepers.old) (K.state keepers.new) result }
{
    let place = store_place(config, at);
    let store = &mut stores[place];
    streamed_as(apply(store, keepers, entry, note))
}

impl Fleet {
    /// What a stream into a region's store finds: the live entry of the shard's log at the position that is given, or else the one that the store
    /// takes next. Nothing is carried so far, and no node changes.
    ///
    /// `KeeperFault` comes only where the keepers' count of faults rose, and `OutOfMemory` where there was no memory. Two calls of the keeper, and a
    /// third where no entry is found at a position that is given.
    pub fn next_entry<K: Keeper>(
        &mut self,
        config: &Config,
        keepers: &mut K,
        at: StoreName,
        position: Option<u64>,
    ) -> Result<NextEntry, StoreRefusal>
        requires consistent { IsConsistent K.TELLS config.now (K.state keepers.old).told self.old }
        requires here { IsConfiguredStore config.now at }
        ensures finds { WhereTold K.TELLS (IfOk result (FindsNext config.now (K.state keepers.old).told at position)) }
        ensures asked { IfOk result (IsOfAsked position) }
        ensures few { IfOk result (λ found. position_found found ≤ MOST_ENTRIES + 1) }
        ensures given { IfOk result (λ found. IfSome (entry_found found) IsGivenEntry) }
        ensures stands { IfOk result (λ found. IfSome (entry_found found) (StandsIn (pens_of self.new.stores at.shard))) }
        ensures lies { IfOk result (λ found. IfSome (entry_found found) (LiesOn (pens_of self.new.stores at.shard) at.shard)) }
        ensures same { self.new ≡ self.old }
        ensures consistent { IsConsistent K.TELLS config.now (K.state keepers.new).told self.new }
        ensures refused { IfErr result IsOfReads }
        ensures tables { KeepsTables K.TELLS (K.state keepers.old) (K.state keepers.new) }
        ensures logs { LogsGrow K.TELLS (K.state keepers.old).told (K.state keepers.new).told }
        ensures calls { CallsKeeper StoreRefusal.KeeperFault (K.state keepers.old) (K.state keepers.new) result }
    {
        masters_are_regions(config);
        next_at(&mut self.stores, keepers, config, at, position)
    }

    /// A slave's store takes an entry of its shard's log exactly where it comes next. Where it was taken before, or others come before it, nothing
    /// changes, nor where the call is refused. No other node changes, and the shard's log neither.
    ///
    /// `KeeperFault` comes only where the keepers' count of faults rose, and `OutOfMemory` where there was no memory. One call of the keeper, and a
    /// second one with a copy of the entry where it is taken.
    pub fn take_streamed<K: Keeper>(
        &mut self,
        config: &Config,
        keepers: &mut K,
        at: StoreName,
        entry: &Entry,
        note: Note,
    ) -> Result<StreamVerdict, StoreRefusal>
        requires consistent { IsConsistent K.TELLS config.now (K.state keepers.old).told self.old }
        requires slave { IsSlaveStore config.now at }
        requires seen { IsSeenEntry (pens_of self.old.stores) at.shard note entry.now }
        requires stamps { HaveSmallStamps entry.now.touches }
        ensures streams { WhereTold K.TELLS (StreamsTo config.now at entry.now result (K.state keepers.old).told (K.state keepers.new).told) }
        ensures pens { pens_of self.new.stores ≡ pens_of self.old.stores }
        ensures rests { UnlessApplied result (self.new ≡ self.old) }
        ensures rest { self.new ≡ record self.old { stores = self.new.stores } }
        ensures consistent { IsConsistent K.TELLS config.now (K.state keepers.new).told self.new }
        ensures goes { GoesOn self.old self.new }
        ensures grows { StoresGrow K.TELLS config.now (K.state keepers.old).told (K.state keepers.new).told }
        ensures refused { IfErr result IsOfReads }
        ensures calls { CallsKeeper StoreRefusal.KeeperFault (K.state keepers.old) (K.state keepers.new) result }
    {
        take_at(&mut self.stores, keepers, config, at, entry, note)
    }
}
