//! An entry of the master's log at a slave's store.
ghost use Rattle.std.specs.Prelude.{◌≡◌, ◌≤◌, IfErr, IfOk, None, length};
ghost use Rattle.graph_model.specs.Told.{WhereTold};
ghost use Rattle.region_stream.specs.Applying.{IsVerdict, entry_applied, store_applied};
ghost use Rattle.shard_log.specs.View.{Grows, View};
ghost use Rattle.shard_tables.specs.Refusals.{IsOfReads};
ghost use Rattle.shard_tables.specs.Stores.{IsStoreOf};
ghost use Rattle.shard_tables.specs.Written.{StandsIn, TableGains};
ghost use Rattle.shard_tables.specs.declared.store.StoreRole.TheVariants.{Slave};
ghost use Rattle.tao_keeper.specs.Given.{HaveSmallStamps};
ghost use Rattle.tao_keeper.specs.Growing.{LogsGrow};
ghost use Rattle.tao_keeper.specs.KeeperState.{CallsKeeper};

use shard_log::Note;
use shard_tables::{StoreNode, StoreRefusal};
use tao_base::Entry;
use tao_keeper::{Keeper, MOST_ENTRIES};

/// What became of an entry at a slave's store.
#[derive(Clone, Copy, Debug, PartialEq, Eq)]
pub enum Applied {
    /// It came next, and was added.
    Applied,
    /// It was added before.
    Old,
    /// Others come before it: the next one is that of this position.
    Gap { next: u64 },
}

/// What is to become of the entry of a position, where the log has so many entries.
fn verdict_on(count: u64, position: u64) -> Applied
    requires { count ≤ MOST_ENTRIES }
    ensures { IsVerdict count position result }
{
    let next = count + 1;
    if position < next {
        Applied::Old
    } else if position == next {
        Applied::Applied
    } else {
        Applied::Gap { next }
    }
}

/// Applies an entry of the master's log to a slave's store: adds it exactly where it comes next. The store has then seen what
/// the note has of the master's log. One that was added before, or that others come before, changes nothing, and so does a
/// refusal.
///
/// `KeeperFault` comes only where the keeper's count of faults rose, and `OutOfMemory` where there was no memory. Costs a call of
/// the keeper for the length and, where the entry is added, a copy of it and a second call.
pub fn apply<M: Keeper>(
    store: &mut StoreNode,
    keeper: &mut M,
    entry: &Entry,
    note: Note,
) -> Result<Applied, StoreRefusal>
    requires slave { store.old.role ≡ Slave }
    requires keeper { IsStoreOf M.TELLS (M.state keeper.old).told store.old }
    requires one_log { store.old.view.log ≡ note.log }
    requires stamps { HaveSmallStamps entry.now.touches }
    requires stands { StandsIn note entry.now }
    ensures verdict { WhereTold M.TELLS (IfOk result (IsVerdict (length ((M.state keeper.old).told store.old.name).log) entry.now.position)) }
    ensures tables { WhereTold M.TELLS (TableGains (M.state keeper.old).told (M.state keeper.new).told store.old.name
        (entry_applied entry.now result) None) }
    ensures store { store.new ≡ store_applied note result store.old }
    ensures follows { (whole : View) → Grows store.old.view whole → Grows note whole → Grows store.new.view whole }
    ensures grows { Grows store.old.view store.new.view }
    ensures logs { LogsGrow M.TELLS (M.state keeper.old).told (M.state keeper.new).told }
    ensures refused { IfErr result IsOfReads }
    ensures keeper { IsStoreOf M.TELLS (M.state keeper.new).told store.new }
    ensures calls { CallsKeeper StoreRefusal.KeeperFault (M.state keeper.old) (M.state keeper.new) result }
{
    let count = store.length(keeper)?;
    let verdict = verdict_on(count, entry.position);
    match verdict {
        Applied::Applied => {
            let copy = entry.clone()?;
            store.take_next(keeper, copy, note)?;
            Ok(Applied::Applied)
        }
        Applied::Old | Applied::Gap { .. } => Ok(verdict),
    }
}
