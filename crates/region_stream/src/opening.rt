//! The stores of a shard, once their logs are known to agree.
ghost use Rattle.std.specs.Prelude.{◌≡◌, ◌≤◌, All, IfErr, IfOk, map};
ghost use Rattle.graph_model.specs.Told.{WhereTold};
ghost use Rattle.region_stream.specs.Opening.{AgreesAs, IsOpenedMaster, NamesOneOf, slave_of};
ghost use Rattle.region_stream.specs.declared.opening.ShardRefusal.TheVariants.{KeeperFault as Faulted};
ghost use Rattle.shard_tables.specs.Stores.{IsStoreOf};
ghost use Rattle.shard_tables.specs.declared.store.StoreRole.TheVariants.{Master};
ghost use Rattle.tao_keeper.specs.KeeperState.{CallsKeeper, KeepsTables};

use crate::agreeing::first_difference;
use shard_tables::{StoreNode, whole_log};
use std::alloc::Global;
use tao_base::{Entry, OutOfMemory, StoreName};
use tao_keeper::{KeepFail, Keeper};

/// The stores of a shard: its master, and the slaves in order of their names.
#[derive(Drop)]
pub struct ShardStores {
    pub master: StoreNode,
    pub slaves: Vec<StoreNode>,
}

/// Why the stores of a shard aren't opened.
#[derive(Clone, Copy, Debug, PartialEq, Eq)]
pub enum ShardRefusal {
    /// A call of the keeper failed, and its count of faults rose.
    KeeperFault,
    /// At this position, and at none before, the slave's log isn't its master's.
    Disagree { store: StoreName, position: u64 },
    /// There was no memory for the call, which may be made again.
    OutOfMemory,
}

impl From<KeepFail> for ShardRefusal {
    ghost use Rattle.std.specs.Prelude.{◌≡◌};
    ghost use Rattle.region_stream.specs.Opening.{keeper_refusal};

    ghost from_gives = { λ fail refusal. refusal ≡ keeper_refusal fail };

    fn from(fail: KeepFail) -> ShardRefusal {
        match fail {
            KeepFail::Failed => ShardRefusal::KeeperFault,
            KeepFail::OutOfMemory => ShardRefusal::OutOfMemory,
        }
    }
}

impl From<OutOfMemory> for ShardRefusal {
    ghost use Rattle.std.specs.Prelude.{◌≡◌};
    ghost use Rattle.region_stream.specs.declared.opening.ShardRefusal.TheVariants.{OutOfMemory as NoMemory};

    ghost from_gives = { λ _ refusal. refusal ≡ NoMemory };

    fn from(_: OutOfMemory) -> ShardRefusal {
        ShardRefusal::OutOfMemory
    }
}

/// Compares what the keeper has under each name with the master's log, in order. Costs what `first_difference` does for each.
fn all_agree<M: Keeper>(
    keeper: &mut M,
    log: &[Entry],
    names: &[StoreName],
) -> Result<(), ShardRefusal>
    ensures agree { WhereTold M.TELLS (AgreesAs (M.state keeper.old).told log.now names.now result) }
    ensures named { IfErr result (NamesOneOf names.now) }
    ensures stays { KeepsTables M.TELLS (M.state keeper.old) (M.state keeper.new) }
    ensures calls { CallsKeeper Faulted (M.state keeper.old) (M.state keeper.new) result }
{
    for name in names {
        let difference = first_difference(keeper, *name, log)?;
        if let Some(position) = difference {
            return Err(ShardRefusal::Disagree {
                store: *name,
                position,
            });
        }
    }
    Ok(())
}

/// A slave's store for each name, which has seen all that the master has.
fn make_slaves(
    alloc: Global,
    master: &mut StoreNode,
    names: &[StoreName],
) -> Result<Vec<StoreNode>, OutOfMemory>
    ensures slaves { IfOk result (λ slaves. slaves.items ≡ map (slave_of master.old) names.now) }
    ensures same { master.new ≡ master.old }
{
    let mut slaves = Vec::new(alloc);
    for name in names {
        let log_max = master.log_max();
        let note = master.note()?;
        slaves.push(StoreNode::slave(*name, note, log_max))?;
    }
    Ok(slaves)
}

/// Opens the stores of a shard over one shared log, which begins with the entries that the keeper has under the master's name:
/// its log may have `log_max` entries, at most 65,536. What the keeper has under each slave's name must begin that.
///
/// `Disagree` comes exactly where that of a slave doesn't: with the first such slave, and the first position at which its log
/// isn't the master's, also where it is longer. `KeeperFault` comes only where the keeper's count of faults rose, and
/// `OutOfMemory` where there was no memory. No table changes. Costs two calls of the keeper for each store, its length and
/// its cut, and one for each of their entries.
pub fn open_shard<M: Keeper>(
    alloc: Global,
    keeper: &mut M,
    master: StoreName,
    slaves: &[StoreName],
    log_max: u64,
) -> Result<ShardStores, ShardRefusal>
    requires { log_max ≤ 65536 }
    ensures agree { WhereTold M.TELLS (AgreesAs (M.state keeper.old).told ((M.state keeper.old).told master).log slaves.now result) }
    ensures named { IfErr result (NamesOneOf slaves.now) }
    ensures master { IfOk result (λ stores. IsOpenedMaster M.TELLS (M.state keeper.new).told master log_max stores.master) }
    ensures slaves { IfOk result (λ stores. stores.slaves.items ≡ map (slave_of stores.master) slaves.now) }
    ensures keeper { IfOk result (λ stores. All (IsStoreOf M.TELLS (M.state keeper.new).told) (map (slave_of stores.master) slaves.now)) }
    ensures stays { KeepsTables M.TELLS (M.state keeper.old) (M.state keeper.new) }
    ensures calls { CallsKeeper Faulted (M.state keeper.old) (M.state keeper.new) result }
{
    let log = whole_log(alloc, keeper, master)?;
    all_agree(keeper, &log, slaves)?;
    let mut store = StoreNode::over_log(alloc, master, log, M::TELLS, log_max)?;
    let slaves = make_slaves(alloc, &mut store, slaves)?;
    Ok(ShardStores {
        master: store,
        slaves,
    })
}
