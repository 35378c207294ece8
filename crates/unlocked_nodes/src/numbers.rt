//! The numbers of stamps, none of which is above the number of all entries.
ghost use Rattle.std.specs.Prelude.{◌≡◌, ◌≤◌, ◌<◌, All, IfErr, IfOk, IsTrue, OnOk, length};
ghost use Rattle.unlocked_nodes.specs.Looking.{AreNumbersWithin, IsNumberWithin, LogsFit, number_in, stop_for};
ghost use Rattle.core_model.specs.Asked.{settings};
ghost use Rattle.core_model.specs.Stores.{master_log, stores_in};
ghost use Rattle.core_nodes.specs.Settling.{StopsLengths};
ghost use Rattle.graph_model.specs.Told.{WhereTold};
ghost use Rattle.tao_keeper.specs.KeeperState.{IsLater, KeepsTables};
ghost use Rattle.write_model.specs.Merges.{entries_ever};

use core_model::Around;
use core_nodes::{SettleStop, master_store};
use replies::UnsettledWhy;
use shard_tables::whole_log;
use tao_base::{Change, Entry, Touch};
use tao_keeper::{KeepFail, Keeper};
use topology::Config;

/// What a settle stops with where a keeper doesn't tell of a shard's log.
pub(crate) fn stop_for(shard: u16, fail: KeepFail) -> SettleStop
    ensures { result ≡ stop_for shard fail }
{
    match fail {
        KeepFail::Failed => SettleStop::Unsettled {
            shard,
            why: UnsettledWhy::KeeperFault,
        },
        KeepFail::OutOfMemory => SettleStop::OutOfMemory,
    }
}

/// The number of the stamp that a change gives; 0 where it gives none.
fn number_in(change: &Change) -> u64
    ensures { result ≡ number_in change.now }
{
    match change {
        Change::PutObject(_) | Change::DropObject => 0,
        Change::SetEdge { edge, .. } => edge.stamp.number,
        Change::CutEdge { stamp, .. } => stamp.number,
    }
}

fn touches_fit(touches: &[Touch], limit: u64) -> bool
    ensures { IsTrue result → All (IsNumberWithin limit) touches.now }
{
    for touch in touches {
        if limit < number_in(&touch.change) {
            return false;
        }
    }
    true
}

/// Whether no stamp of the entries has a number above this one.
fn entries_fit(entries: &[Entry], limit: u64) -> bool
    ensures { IsTrue result → All (AreNumbersWithin limit) entries.now }
{
    for entry in entries {
        if !touches_fit(entry.touches.as_slice(), limit) {
            return false;
        }
    }
    true
}

/// The length of a shard's log. One call of a keeper.
fn length_of<K: Keeper>(config: &Config, keepers: &mut K, shard: u16) -> Result<u64, SettleStop>
    requires here { shard < config.now.shards }
    ensures length { WhereTold K.TELLS (IfOk result (λ count. count ≡ length (master_log config.now (K.state keepers.old).told shard))) }
    ensures stop { IfErr result (StopsLengths config.now (K.state keepers.old) (K.state keepers.new)) }
    ensures stays { KeepsTables K.TELLS (K.state keepers.old) (K.state keepers.new) }
    ensures later { IsLater (K.state keepers.old) (K.state keepers.new) }
{
    match keepers.length(master_store(config, shard)) {
        Ok(count) => Ok(count),
        Err(fail) => Err(stop_for(shard, fail)),
    }
}

/// How many entries the logs of all shards have. One call of a keeper for each.
fn entries_in_all<K: Keeper>(config: &Config, keepers: &mut K) -> Result<u64, SettleStop>
    ensures sum { WhereTold K.TELLS (IfOk result (λ sum. sum ≤ entries_ever (stores_in config.now (K.state keepers.old).told))) }
    ensures stop { IfErr result (StopsLengths config.now (K.state keepers.old) (K.state keepers.new)) }
    ensures stays { KeepsTables K.TELLS (K.state keepers.old) (K.state keepers.new) }
    ensures later { IsLater (K.state keepers.old) (K.state keepers.new) }
{
    let mut sum = 0u64;
    for shard in 0..config.shards {
        let length = length_of(config, keepers, shard)?;
        sum = sum.saturating_add(length);
    }
    Ok(sum)
}

/// Whether no stamp in a shard's log has a number above this one. Reads the whole log.
fn log_fits<K: Keeper>(
    around: &Around<'_>,
    keepers: &mut K,
    shard: u16,
    limit: u64,
) -> Result<bool, SettleStop>
    requires here { shard < (settings around.now).shards }
    ensures fits { WhereTold K.TELLS (IfOk result (λ so. IsTrue so
        → All (AreNumbersWithin limit) (master_log (settings around.now) (K.state keepers.old).told shard))) }
    ensures stop { IfErr result (StopsLengths (settings around.now) (K.state keepers.old) (K.state keepers.new)) }
    ensures stays { KeepsTables K.TELLS (K.state keepers.old) (K.state keepers.new) }
    ensures later { IsLater (K.state keepers.old) (K.state keepers.new) }
{
    match whole_log(around.alloc, keepers, master_store(around.config, shard)) {
        Ok(entries) => Ok(entries_fit(&entries, limit)),
        Err(fail) => Err(stop_for(shard, fail)),
    }
}

/// Finds that no stamp in any shard's log has a number above the number of all entries. Reads all logs.
pub(crate) fn numbers_fit<K: Keeper>(around: &Around<'_>, keepers: &mut K) -> Result<(), SettleStop>
    ensures fits { WhereTold K.TELLS (OnOk result (LogsFit (settings around.now) (K.state keepers.old).told)) }
    ensures stop { IfErr result (StopsLengths (settings around.now) (K.state keepers.old) (K.state keepers.new)) }
    ensures stays { KeepsTables K.TELLS (K.state keepers.old) (K.state keepers.new) }
    ensures later { IsLater (K.state keepers.old) (K.state keepers.new) }
{
    let config = around.config;
    let limit = entries_in_all(config, keepers)?;
    for shard in 0..config.shards {
        if !log_fits(around, keepers, shard, limit)? {
            return Err(SettleStop::OutOfMemory);
        }
    }
    Ok(())
}
