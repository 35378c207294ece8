//! Trimming.
ghost use Rattle.std.specs.Prelude.{◌≡◌, ◌≤◌, IfErr, IfOk};
ghost use Rattle.graph_model.specs.Told.{WhereTold};
ghost use Rattle.log_trim.specs.Trimming.{cut_by, least_of};
ghost use Rattle.shard_tables.specs.Refusals.{IsOfReads};
ghost use Rattle.shard_tables.specs.Stores.{IsStoreOf};
ghost use Rattle.tao_keeper.specs.Growing.{LogsGrow};
ghost use Rattle.tao_keeper.specs.KeeperState.{CallsKeeper};
ghost use Rattle.tao_keeper.specs.Table.{Changes, after_cut};

use shard_tables::{StoreNode, StoreRefusal};
use tao_keeper::{Keeper, MOST_ENTRIES};

/// The least of a number and of these.
pub fn least_of(number: u64, marks: &[u64]) -> u64
    ensures value { result ≡ least_of number marks.now }
    ensures within { result ≤ number }
{
    let mut least = number;
    for mark in marks {
        least = least.min(*mark);
    }
    least
}

/// Cuts the store's log at the least of the marks and of its length: the entries up to there become old. Where that isn't past the cut, nothing
/// changes. Gives the cut that then stands.
///
/// `KeeperFault` comes only where the keeper's count of faults rose, and `OutOfMemory` where there was no memory; nothing has changed then. Costs two
/// calls of the keeper, and one more where the cut rises.
pub fn trim<M: Keeper>(
    store: &mut StoreNode,
    keeper: &mut M,
    marks: &[u64],
) -> Result<u64, StoreRefusal>
    requires keeper { IsStoreOf M.TELLS (M.state keeper.old).told store.old }
    ensures cut { WhereTold M.TELLS (IfOk result (λ cut. cut ≡ cut_by ((M.state keeper.old).told store.old.name) marks.now)) }
    ensures few { IfOk result (λ cut. cut ≤ MOST_ENTRIES) }
    ensures tables { WhereTold M.TELLS (Changes result (M.state keeper.old).told (M.state keeper.new).told store.old.name
        (after_cut ((M.state keeper.old).told store.old.name) (cut_by ((M.state keeper.old).told store.old.name) marks.now))) }
    ensures logs { LogsGrow M.TELLS (M.state keeper.old).told (M.state keeper.new).told }
    ensures same { store.new ≡ store.old }
    ensures keeper { IsStoreOf M.TELLS (M.state keeper.new).told store.new }
    ensures refused { IfErr result IsOfReads }
    ensures calls { CallsKeeper StoreRefusal.KeeperFault (M.state keeper.old) (M.state keeper.new) result }
{
    let at = store.name();
    let length = keeper.length(at)?;
    let cut = keeper.cut_of(at)?;
    let upto = least_of(length, marks);
    if upto <= cut {
        return Ok(cut);
    }
    keeper.cut(at, upto)?;
    Ok(upto)
}
