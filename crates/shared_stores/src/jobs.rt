//! The end of a job at the store of its entry.
ghost use Rattle.std.specs.Prelude.{◌≡◌, IfErr, IfOk, IsSomeAnd, IsTrue, Some, slice_get};
ghost use Rattle.graph_model.specs.Told.{WhereTold};
ghost use Rattle.shard_log.specs.View.{Grows, View};
ghost use Rattle.shard_tables.specs.Refusals.{IsOfReads};
ghost use Rattle.shard_tables.specs.declared.store.StoreRole.TheVariants.{Master};
ghost use Rattle.tao_keeper.specs.KeeperState.{CallsKeeper};
ghost use Rattle.tao_keeper.specs.Table.{Changes, after_end};
ghost use Rattle.shared_stores.specs.Asked.{lent_owed};
ghost use Rattle.shared_stores.specs.Owed.{IsDoneIn, IsOwedIn};

use crate::counted::CountedNote;
use crate::owed::OwedJob;
use crate::sharing::Sharing;
use crate::store::SharedStore;
use locked_model::ends_keep_locked;
use shard_log::Note;
use shard_tables::StoreRefusal;
use tao_base::OutOfMemory;
use tao_keeper::Keeper;

/// Whether the note of a shard's log, of these, has seen all that another note of it has.
fn has_seen(notes: &mut [CountedNote], shard: u16, other: CountedNote) -> Result<bool, OutOfMemory>
    requires notes { (own : View) → slice_get notes.old shard ≡ Some own → own.log ≡ other.log }
    ensures same { notes.new ≡ notes.old }
    ensures seen { IfOk result (λ seen. IsTrue seen → IsSomeAnd (slice_get notes.old shard) (Grows other)) }
{
    let place = usize::from(shard);
    if place < notes.len() {
        let own = &mut notes[place];
        own.has_seen(other)
    } else {
        Ok(false)
    }
}

impl<K: Keeper, J: Sharing> SharedStore<K, J> {
    /// The stage `end`: ends the job of an entry of this store's log, all of whose records stand in what a note has seen of the log where they are
    /// owed, and in what this store has seen of it. Nothing changes where none is open, nor where the call is refused.
    ///
    /// `KeeperFault` comes only where the keeper's count of faults rose. `OutOfMemory` comes where there was no memory, and where this store
    /// hasn't seen the records, as it has after the merge of the job. Costs a call of the keeper.
    pub fn end(
        &mut self,
        owed: &OwedJob<'_>,
        here: &mut Note,
        there: CountedNote,
    ) -> Result<(), StoreRefusal>
        requires shard { owed.now.from ≡ self.old.store.name.shard }
        requires master { self.old.store.role ≡ Master }
        requires owed { IsOwedIn K.TELLS J.making J.log here.old (lent_owed owed.now) }
        requires done { IsDoneIn J.making J.log there (lent_owed owed.now) }
        ensures ends { WhereTold K.TELLS (Changes result (K.state self.old.keeper).told (K.state self.new.keeper).told self.old.store.name
            (after_end ((K.state self.old.keeper).told self.old.store.name) owed.now.job.now.position)) }
        ensures grows { Grows here.old here.new }
        ensures store { self.new.store ≡ self.old.store }
        ensures notes { self.new.notes.items ≡ self.old.notes.items }
        ensures refused { IfErr result IsOfReads }
        ensures calls { CallsKeeper StoreRefusal.KeeperFault (K.state self.old.keeper) (K.state self.new.keeper) result }
    {
        self.store.meet(here)?;
        if !has_seen(&mut self.notes, owed.to, there)? {
            return Err(StoreRefusal::OutOfMemory);
        }
        ends_keep_locked();
        self.store.end_job(&mut self.keeper, owed.job.position)
    }
}
