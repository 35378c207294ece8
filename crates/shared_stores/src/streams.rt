//! Streams between the stores of a shard.
ghost use Rattle.std.specs.Prelude.{◌≡◌, IfErr, IfOk, IfSome, None};
ghost use Rattle.graph_model.specs.Told.{WhereTold};
ghost use Rattle.region_stream.specs.Following.{CallsBoth, CountsEmpties, IsNextOf, StepsTo, entry_moved};
ghost use Rattle.shard_tables.specs.Refusals.{IsOfReads};
ghost use Rattle.shard_tables.specs.Written.{StandsIn, TableGains};
ghost use Rattle.shard_tables.specs.declared.store.StoreRole.TheVariants.{Master, Slave};
ghost use Rattle.tao_keeper.specs.KeeperState.{KeepsTables};

use crate::sharing::Sharing;
use crate::store::SharedStore;
use region_stream::Follow;
use shard_tables::StoreRefusal;
use tao_base::Entry;
use tao_keeper::Keeper;

/// A step of a stream, while the locks of both stores are held: adds the master's next entry to the slave's log, and answers it. None exactly where
/// the logs are told to be equally long. A refusal changes no table, and neither store.
///
/// `KeeperFault` comes only where the count of faults of one of the keepers rose, and `OutOfMemory` where there was no memory. Costs two calls of
/// keepers, and one more where an entry is added.
pub fn follow<K: Keeper, J: Sharing>(
    follow: &mut Follow,
    master: &mut SharedStore<K, J>,
    slave: &mut SharedStore<K, J>,
) -> Result<Option<Entry>, StoreRefusal>
    requires shard { master.old.store.name.shard ≡ slave.old.store.name.shard }
    requires master { master.old.store.role ≡ Master }
    requires slave { slave.old.store.role ≡ Slave }
    ensures next { WhereTold K.TELLS (IfOk result
        (IsNextOf ((K.state master.old.keeper).told master.old.store.name).log ((K.state slave.old.keeper).told slave.old.store.name).log)) }
    ensures empties { CountsEmpties follow.old follow.new result }
    ensures stands { IfOk result (λ moved. IfSome moved (StandsIn slave.new.store.view)) }
    ensures master { (master.new.store ≡ master.old.store) × (master.new.notes.items ≡ master.old.notes.items) }
    ensures stays { KeepsTables K.TELLS (K.state master.old.keeper) (K.state master.new.keeper) }
    ensures slave { StepsTo master.old.store.view (entry_moved result) slave.old.store slave.new.store }
    ensures tables { WhereTold K.TELLS (TableGains (K.state slave.old.keeper).told (K.state slave.new.keeper).told slave.old.store.name
        (entry_moved result) None) }
    ensures refused { IfErr result IsOfReads }
    ensures calls { CallsBoth (K.state master.old.keeper) (K.state master.new.keeper) (K.state slave.old.keeper) (K.state slave.new.keeper) result }
{
    follow.step(
        &mut master.store,
        &mut master.keeper,
        &mut slave.store,
        &mut slave.keeper,
    )
}
