//! A master store over the log that its keeper has, and what a store asks of that log.
ghost use Rattle.std.specs.Prelude.{◌≡◌, ◌≤◌, IfErr, IfOk, IfSome, length};
ghost use Rattle.graph_model.specs.Log.{entry_at};
ghost use Rattle.graph_model.specs.Soundness.{IsSound};
ghost use Rattle.graph_model.specs.Told.{WhereTold};
ghost use Rattle.shard_tables.specs.Refusals.{IsOfReads};
ghost use Rattle.shard_tables.specs.Stores.{IsStoreOf};
ghost use Rattle.shard_tables.specs.declared.store.StoreRole.TheVariants.{Master};
ghost use Rattle.tao_keeper.specs.Growing.{LogsGrow};
ghost use Rattle.tao_keeper.specs.KeeperState.{CallsKeeper, IsCall, KeepsTables};
ghost use Rattle.tao_keeper.specs.Table.{live_entry};
ghost use Rattle.tao_keeper.specs.Given.{IsGivenEntry};

use super::refusal::StoreRefusal;
use super::store::StoreNode;
use shard_log::ShardLog;
use std::alloc::Global;
use tao_base::{Entry, OutOfMemory, StoreName};
use tao_keeper::{KeepFail, Keeper, MOST_ENTRIES};

/// The entry at a position of the log that a keeper has under the name, be it old or live, where that is its cut. One call of the keeper.
pub fn any_entry<M: Keeper>(
    keeper: &mut M,
    at: StoreName,
    cut: u64,
    position: u64,
) -> Result<Option<Entry>, KeepFail>
    requires cut { WhereTold M.TELLS (cut ≡ ((M.state keeper.old).told at).cut) }
    ensures answer { WhereTold M.TELLS (IfOk result (λ found. found ≡ entry_at ((M.state keeper.old).told at).log position)) }
    ensures given { IfOk result (λ found. IfSome found IsGivenEntry) }
    ensures stays { KeepsTables M.TELLS (M.state keeper.old) (M.state keeper.new) }
    ensures call { IsCall (M.state keeper.old) (M.state keeper.new) result }
{
    if position <= cut {
        keeper.old_entry(at, position)
    } else {
        keeper.entry(at, position)
    }
}

/// The first entries of the keeper's log, so many, where that is its cut. A keeper that gives no entry at one of these positions
/// tells nothing: then the entries before it are all that there are.
fn first_entries<M: Keeper>(
    alloc: Global,
    keeper: &mut M,
    at: StoreName,
    cut: u64,
    count: u64,
) -> Result<Vec<Entry>, KeepFail>
    requires cut { WhereTold M.TELLS (cut ≡ ((M.state keeper.old).told at).cut) }
    requires few { count ≤ MOST_ENTRIES }
    requires all { WhereTold M.TELLS (count ≡ length ((M.state keeper.old).told at).log) }
    ensures entries { WhereTold M.TELLS (IfOk result (λ entries. entries.items ≡ ((M.state keeper.old).told at).log)) }
    ensures few { IfOk result (λ entries. length entries.items ≤ MOST_ENTRIES) }
    ensures stays { KeepsTables M.TELLS (M.state keeper.old) (M.state keeper.new) }
    ensures calls { CallsKeeper KeepFail.Failed (M.state keeper.old) (M.state keeper.new) result }
{
    let mut entries = Vec::new(alloc);
    for place in 0..count {
        let found = any_entry(keeper, at, cut, place + 1)?;
        match found {
            Some(entry) => entries.push(entry)?,
            None => return Ok(entries),
        }
    }
    Ok(entries)
}

/// All entries of the log that a keeper has under the name, in order, the old ones and the live ones. `Failed` comes only where
/// the keeper's count of faults rose, and `OutOfMemory` where there was no memory. No table changes. Costs two calls of the
/// keeper for the length and the cut, and one for each entry.
pub fn whole_log<M: Keeper>(
    alloc: Global,
    keeper: &mut M,
    at: StoreName,
) -> Result<Vec<Entry>, KeepFail>
    ensures entries { WhereTold M.TELLS (IfOk result (λ entries. entries.items ≡ ((M.state keeper.old).told at).log)) }
    ensures few { IfOk result (λ entries. length entries.items ≤ MOST_ENTRIES) }
    ensures stays { KeepsTables M.TELLS (M.state keeper.old) (M.state keeper.new) }
    ensures calls { CallsKeeper KeepFail.Failed (M.state keeper.old) (M.state keeper.new) result }
{
    let count = keeper.length(at)?;
    let cut = keeper.cut_of(at)?;
    first_entries(alloc, keeper, at, cut, count)
}

impl StoreNode {
    /// The master store of that name, in the first epoch, over a new shared log that begins with these entries, and is told or not.
    /// The log may have `log_max` entries, at most 65,536.
    pub fn over_log(
        alloc: Global,
        name: StoreName,
        log: Vec<Entry>,
        told: bool,
        log_max: u64,
    ) -> Result<StoreNode, OutOfMemory>
        requires limit { log_max ≤ 65536 }
        requires few { length log.items ≤ MOST_ENTRIES }
        requires sound { WhereTold told (IsSound log.items) }
        ensures named { IfOk result (λ store. store.name ≡ name) }
        ensures limit { IfOk result (λ store. store.log_max ≡ log_max) }
        ensures first { IfOk result (λ store. store.epoch ≡ 0) }
        ensures master { IfOk result (λ store. store.role ≡ Master) }
        ensures told { IfOk result (λ store. store.view.log.told ≡ told) }
        ensures entries { IfOk result (λ store. store.view.entries ≡ log.items) }
    {
        let pen = ShardLog::make(alloc, log, told)?;
        Ok(StoreNode::master(name, pen, log_max))
    }

    /// The master store of that name, over a new shared log that begins with the entries that the keeper has under it. The
    /// log may have `log_max` entries, at most 65,536.
    ///
    /// `KeeperFault` comes only where the keeper's count of faults rose, and `OutOfMemory` where there was no memory. No
    /// table changes. Costs two calls of the keeper for the length and the cut, and one for each entry.
    pub fn open_master<M: Keeper>(
        alloc: Global,
        keeper: &mut M,
        name: StoreName,
        log_max: u64,
    ) -> Result<StoreNode, StoreRefusal>
        requires { log_max ≤ 65536 }
        ensures named { IfOk result (λ store. store.name ≡ name) }
        ensures limit { IfOk result (λ store. store.log_max ≡ log_max) }
        ensures first { IfOk result (λ store. store.epoch ≡ 0) }
        ensures master { IfOk result (λ store. store.role ≡ Master) }
        ensures keeper { IfOk result (λ store. IsStoreOf M.TELLS (M.state keeper.new).told store) }
        ensures refused { IfErr result IsOfReads }
        ensures tables { KeepsTables M.TELLS (M.state keeper.old) (M.state keeper.new) }
        ensures logs { LogsGrow M.TELLS (M.state keeper.old).told (M.state keeper.new).told }
        ensures calls { CallsKeeper StoreRefusal.KeeperFault (M.state keeper.old) (M.state keeper.new) result }
    {
        let log = whole_log(alloc, keeper, name)?;
        let store = StoreNode::over_log(alloc, name, log, M::TELLS, log_max)?;
        Ok(store)
    }

    /// How many entries the keeper's log has. `KeeperFault` comes only where the keeper's count of faults rose, and
    /// `OutOfMemory` where there was no memory. One call of the keeper.
    pub fn length<M: Keeper>(&mut self, keeper: &mut M) -> Result<u64, StoreRefusal>
        requires keeper { IsStoreOf M.TELLS (M.state keeper.old).told self.old }
        ensures answer { WhereTold M.TELLS (IfOk result (λ count. count ≡ length ((M.state keeper.old).told self.old.name).log)) }
        ensures few { IfOk result (λ count. count ≤ MOST_ENTRIES) }
        ensures refused { IfErr result IsOfReads }
        ensures tables { KeepsTables M.TELLS (M.state keeper.old) (M.state keeper.new) }
        ensures logs { LogsGrow M.TELLS (M.state keeper.old).told (M.state keeper.new).told }
        ensures same { self.new ≡ self.old }
        ensures keeper { IsStoreOf M.TELLS (M.state keeper.new).told self.new }
        ensures calls { CallsKeeper StoreRefusal.KeeperFault (M.state keeper.old) (M.state keeper.new) result }
    {
        Ok(keeper.length(self.name())?)
    }

    /// The live entry at a position of the keeper's log, where there is one: none up to the cut and past the end.
    /// `KeeperFault` comes only where the keeper's count of faults rose, and `OutOfMemory` where there was no memory. One
    /// call of the keeper.
    pub fn entry<M: Keeper>(
        &mut self,
        keeper: &mut M,
        position: u64,
    ) -> Result<Option<Entry>, StoreRefusal>
        requires keeper { IsStoreOf M.TELLS (M.state keeper.old).told self.old }
        ensures answer { WhereTold M.TELLS (IfOk result (λ found. found ≡ live_entry ((M.state keeper.old).told self.old.name) position)) }
        ensures given { IfOk result (λ found. IfSome found IsGivenEntry) }
        ensures refused { IfErr result IsOfReads }
        ensures tables { KeepsTables M.TELLS (M.state keeper.old) (M.state keeper.new) }
        ensures logs { LogsGrow M.TELLS (M.state keeper.old).told (M.state keeper.new).told }
        ensures same { self.new ≡ self.old }
        ensures keeper { IsStoreOf M.TELLS (M.state keeper.new).told self.new }
        ensures calls { CallsKeeper StoreRefusal.KeeperFault (M.state keeper.old) (M.state keeper.new) result }
    {
        Ok(keeper.entry(self.name(), position)?)
    }
}
