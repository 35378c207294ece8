//! The open jobs of a store.
ghost use Rattle.std.specs.Prelude.{◌≡◌, ◌≤◌, IfErr, IfOk, IfSome};
ghost use Rattle.graph_model.specs.Told.{WhereTold};
ghost use Rattle.shard_tables.specs.Refusals.{IsOfReads};
ghost use Rattle.shard_tables.specs.Stores.{IsStoreOf};
ghost use Rattle.tao_keeper.specs.Given.{IsGivenJob};
ghost use Rattle.tao_keeper.specs.Growing.{LogsGrow};
ghost use Rattle.tao_keeper.specs.KeeperState.{CallsKeeper, KeepsTables};
ghost use Rattle.tao_keeper.specs.Table.{Changes, IsLeastJob, Stays, after_end};

use super::refusal::StoreRefusal;
use super::store::StoreNode;
use tao_keeper::{Job, Keeper};

impl StoreNode {
    /// The open job of the least position, where one is open. One call of the keeper.
    pub fn first_job<M: Keeper>(&mut self, keeper: &mut M) -> Result<Option<Job>, StoreRefusal>
        requires keeper { IsStoreOf M.TELLS (M.state keeper.old).told self.old }
        ensures answer { WhereTold M.TELLS (IfOk result (IsLeastJob ((M.state keeper.old).told self.old.name).jobs)) }
        ensures given { IfOk result (λ found. IfSome found IsGivenJob) }
        ensures refusals { IfErr result IsOfReads }
        ensures same { self.new ≡ self.old }
        ensures stays { KeepsTables M.TELLS (M.state keeper.old) (M.state keeper.new) }
        ensures logs { LogsGrow M.TELLS (M.state keeper.old).told (M.state keeper.new).told }
        ensures keeper { IsStoreOf M.TELLS (M.state keeper.new).told self.new }
        ensures calls { CallsKeeper StoreRefusal.KeeperFault (M.state keeper.old) (M.state keeper.new) result }
    {
        Ok(keeper.first_job(self.name())?)
    }

    /// Ends the open job of a position: once all of its records are at the other end. Nothing changes where none is open,
    /// nor where the call is refused. One call of the keeper.
    pub fn end_job<M: Keeper>(&mut self, keeper: &mut M, position: u64) -> Result<(), StoreRefusal>
        requires keeper { IsStoreOf M.TELLS (M.state keeper.old).told self.old }
        ensures ends { WhereTold M.TELLS (Changes result (M.state keeper.old).told (M.state keeper.new).told self.old.name
            (after_end ((M.state keeper.old).told self.old.name) position)) }
        ensures logs { LogsGrow M.TELLS (M.state keeper.old).told (M.state keeper.new).told }
        ensures refusals { IfErr result IsOfReads }
        ensures same { self.new ≡ self.old }
        ensures keeper { IsStoreOf M.TELLS (M.state keeper.new).told self.new }
        ensures calls { CallsKeeper StoreRefusal.KeeperFault (M.state keeper.old) (M.state keeper.new) result }
    {
        Ok(keeper.end_job(self.name(), position)?)
    }
}
