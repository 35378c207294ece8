//! What a slave's store takes of its master's log.
ghost use Rattle.std.specs.Prelude.{◌≡◌, IfErr, IfOk, MatchResult, None};
ghost use Rattle.graph_model.specs.Told.{WhereTold};
ghost use Rattle.shard_log.specs.View.{Grows};
ghost use Rattle.shard_tables.specs.Refusals.{IsOfReads};
ghost use Rattle.shard_tables.specs.Slaves.{IsNextIn, store_seeing};
ghost use Rattle.shard_tables.specs.Stores.{IsStoreOf};
ghost use Rattle.shard_tables.specs.declared.store.StoreRole.TheVariants.{Slave};
ghost use Rattle.tao_keeper.specs.Given.{HaveSmallStamps};
ghost use Rattle.tao_keeper.specs.Growing.{LogsGrow};
ghost use Rattle.tao_keeper.specs.KeeperState.{CallsKeeper};
ghost use Rattle.tao_keeper.specs.Table.{Changes, after_commit};

use super::refusal::StoreRefusal;
use super::store::StoreNode;
use shard_log::Note;
use shard_log::growth::notes_are_sound;
use tao_base::Entry;
use tao_keeper::{Commit, Keeper};

impl StoreNode {
    /// Adds to a slave's log the entry that stands right behind it in what the note has seen of the master's, in one
    /// transaction and without a job. The store has then seen what the note has. A refusal changes no table, and not the store.
    ///
    /// `KeeperFault` comes only where the keeper's count of faults rose, and `OutOfMemory` where there was no memory. One call
    /// of the keeper.
    pub fn take_next<M: Keeper>(
        &mut self,
        keeper: &mut M,
        entry: Entry,
        note: Note,
    ) -> Result<Entry, StoreRefusal>
        requires slave { self.old.role ≡ Slave }
        requires keeper { IsStoreOf M.TELLS (M.state keeper.old).told self.old }
        requires one_log { self.old.view.log ≡ note.log }
        requires stamps { HaveSmallStamps entry.touches }
        requires next { WhereTold M.TELLS (IsNextIn note.entries ((M.state keeper.old).told self.old.name).log entry) }
        ensures entry { IfOk result (λ taken. taken ≡ entry) }
        ensures store { MatchResult result (λ _. self.new ≡ store_seeing self.old note) (λ _. self.new ≡ self.old) }
        ensures tables { WhereTold M.TELLS (Changes result (M.state keeper.old).told (M.state keeper.new).told self.old.name
            (after_commit ((M.state keeper.old).told self.old.name) entry None)) }
        ensures logs { LogsGrow M.TELLS (M.state keeper.old).told (M.state keeper.new).told }
        ensures refused { IfErr result IsOfReads }
        ensures grows { Grows self.old.view self.new.view }
        ensures keeper { IsStoreOf M.TELLS (M.state keeper.new).told self.new }
        ensures calls { CallsKeeper StoreRefusal.KeeperFault (M.state keeper.old) (M.state keeper.new) result }
    {
        let mut seen = self.note()?;
        seen.meet(note);
        notes_are_sound(&seen);
        let commit = Commit { entry, job: None };
        keeper.commit(self.name(), &commit)?;
        self.see(seen);
        Ok(commit.entry)
    }
}
