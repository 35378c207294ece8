//! A slave's store that follows its master's, entry by entry.
ghost use Rattle.std.specs.Prelude.{◌≡◌, ◌≤◌, IfErr, IfOk, None, length};
ghost use Rattle.graph_model.specs.Told.{WhereTold};
ghost use Rattle.region_stream.specs.Following.{CallsBoth, CountsEmpties, IsNextOf, StepsTo, entry_moved};
ghost use Rattle.shard_tables.specs.Refusals.{IsOfReads};
ghost use Rattle.shard_tables.specs.Stores.{IsStoreOf};
ghost use Rattle.shard_tables.specs.Written.{TableGains};
ghost use Rattle.shard_tables.specs.declared.store.StoreRole.TheVariants.{Master, Slave};
ghost use Rattle.tao_keeper.specs.Growing.{LogsGrow};
ghost use Rattle.tao_keeper.specs.KeeperState.{KeepsTables};

use counts::Count;
use shard_tables::{StoreNode, StoreRefusal};
use std::marker::Model;
use tao_base::Entry;
use tao_keeper::Keeper;

/// Moves the entries of a master's log to a slave's store, and counts how often there was none to move.
#[derive(Clone, Copy)]
pub struct Follow {
    empties: Count,
}

impl Model for Follow {
    ghost use Rattle.std.specs.Prelude.{ℕ};

    ghost Value = { ℕ };

    ghost view = { λ f. f.empties };

    ghost inverse = { λ n. record { empties = n } };
}

impl Follow {
    /// Nothing was moved yet.
    pub fn make() -> Follow
        ensures { result ≡ 0 }
    {
        Follow {
            empties: Count::new(),
        }
    }

    /// How often there was no entry to move.
    pub fn empties(&self) -> u64
        ensures { result ≡ self.now }
    {
        self.empties.value()
    }

    /// Adds the master's next entry to the slave's log, and answers it: none exactly where the logs are told to be equally long.
    /// That entry is a live one: the master's cut is within the slave's log. A refusal changes no table, and neither store.
    ///
    /// `KeeperFault` comes only where the count of faults of one of the keepers rose, and `OutOfMemory` where there was no
    /// memory. Costs two calls of keepers, and one more where an entry is added.
    pub fn step<F: Keeper, T: Keeper>(
        &mut self,
        master: &mut StoreNode,
        master_keeper: &mut F,
        slave: &mut StoreNode,
        slave_keeper: &mut T,
    ) -> Result<Option<Entry>, StoreRefusal>
        requires master { master.old.role ≡ Master }
        requires slave { slave.old.role ≡ Slave }
        requires one_log { master.old.view.log ≡ slave.old.view.log }
        requires from { IsStoreOf F.TELLS (F.state master_keeper.old).told master.old }
        requires to { IsStoreOf T.TELLS (T.state slave_keeper.old).told slave.old }
        requires live { WhereTold T.TELLS
            (((F.state master_keeper.old).told master.old.name).cut ≤ length ((T.state slave_keeper.old).told slave.old.name).log) }

        // What is moved, and that it was counted where nothing is.
        ensures next { WhereTold T.TELLS (IfOk result
            (IsNextOf ((F.state master_keeper.old).told master.old.name).log ((T.state slave_keeper.old).told slave.old.name).log)) }
        ensures empties { CountsEmpties self.old self.new result }

        // The master and its tables stay.
        ensures master { master.new ≡ master.old }
        ensures stays { KeepsTables F.TELLS (F.state master_keeper.old) (F.state master_keeper.new) }
        ensures from { IsStoreOf F.TELLS (F.state master_keeper.new).told master.new }

        // The slave's log gains the entry.
        ensures slave { StepsTo master.old.view (entry_moved result) slave.old slave.new }
        ensures tables { WhereTold T.TELLS (TableGains (T.state slave_keeper.old).told (T.state slave_keeper.new).told slave.old.name
            (entry_moved result) None) }
        ensures logs { LogsGrow T.TELLS (T.state slave_keeper.old).told (T.state slave_keeper.new).told }
        ensures to { IsStoreOf T.TELLS (T.state slave_keeper.new).told slave.new }

        ensures refused { IfErr result IsOfReads }
        ensures calls { CallsBoth (F.state master_keeper.old) (F.state master_keeper.new) (T.state slave_keeper.old) (T.state slave_keeper.new) result }
    {
        let mut note = slave.note()?;
        master.meet(&mut note)?;
        let count = slave.length(slave_keeper)?;
        let found = master.entry(master_keeper, count + 1)?;
        match found {
            Some(entry) => {
                let moved = slave.take_next(slave_keeper, entry, note)?;
                Ok(Some(moved))
            }
            None => {
                self.empties.rise();
                Ok(None)
            }
        }
    }
}
