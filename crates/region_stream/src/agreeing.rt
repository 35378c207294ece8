//! Whether what a slave's store has begins its master's log.
ghost use Rattle.std.specs.Prelude.{◌≡◌, ◌≤◌, ◌↔◌, IfOk, IsTrue, Some, slice_get};
ghost use Rattle.graph_model.specs.Told.{WhereTold};
ghost use Rattle.region_stream.specs.Agreeing.{IsFirstDifference};
ghost use Rattle.tao_keeper.specs.KeeperState.{CallsKeeper, KeepsTables};

use entry_match::is_same_entry;
use shard_tables::any_entry;
use tao_base::{Entry, StoreName};
use tao_keeper::{KeepFail, Keeper, MOST_ENTRIES};

/// Whether the entry stands at a place of the log.
fn stands_at(log: &[Entry], place: u64, entry: &Entry) -> bool
    requires { place ≤ MOST_ENTRIES }
    ensures { IsTrue result ↔ (slice_get log.now place ≡ Some entry.now) }
{
    match log.get(place as usize) {
        Some(other) => is_same_entry(other, entry),
        None => false,
    }
}

/// The first position at which the log that the keeper has under the name isn't the master's: its entry there is another one,
/// or the master's log has ended. None where it begins the master's log.
///
/// `Failed` comes only where the keeper's count of faults rose, and `OutOfMemory` where there was no memory. No table changes.
/// Costs two calls of the keeper for the length and the cut, and one for each entry up to that position.
pub fn first_difference<M: Keeper>(
    keeper: &mut M,
    at: StoreName,
    master: &[Entry],
) -> Result<Option<u64>, KeepFail>
    ensures found { WhereTold M.TELLS (IfOk result (IsFirstDifference ((M.state keeper.old).told at).log master.now)) }
    ensures stays { KeepsTables M.TELLS (M.state keeper.old) (M.state keeper.new) }
    ensures calls { CallsKeeper KeepFail.Failed (M.state keeper.old) (M.state keeper.new) result }
{
    let count = keeper.length(at)?;
    let cut = keeper.cut_of(at)?;
    for place in 0..count {
        let found = any_entry(keeper, at, cut, place + 1)?;
        match found {
            Some(entry) => {
                if !stands_at(master, place, &entry) {
                    return Ok(Some(place + 1));
                }
            }
            // Not of a keeper that tells its tables: its log is shorter than it says.
            None => return Ok(None),
        }
    }
    Ok(None)
}
