//! Writes and merges through a leader.
ghost use Rattle.std.specs.Prelude.{◌≡◌, ◌<◌, IfOk, IfSome, IsTrue, MatchResult, Option, Some, is_some};
ghost use Rattle.std.specs.Bool.{OnTrue};
ghost use Rattle.graph_model.specs.Soundness.{IsSoundOf, is_client};
ghost use Rattle.graph_model.specs.Told.{WhereTold};
ghost use Rattle.leader_tier.specs.TakenWrites.{MayBeTaken, TakesWritten, taken_entry};
ghost use Rattle.cache_node.specs.served_shards.Served.{log_at};
ghost use Rattle.shard_log.specs.View.{as_note};
ghost use Rattle.shard_tables.specs.Stores.{IsStoreOf};
ghost use Rattle.shard_tables.specs.WriteDone.{MergeDone, StoreGains, WriteDone, asked_at, asked_merge_at};
ghost use Rattle.shard_tables.specs.declared.store.StoreRole.TheVariants.{Master};
ghost use Rattle.tao_base.specs.Writes.{ChangesType, write_shard};
ghost use Rattle.tao_keeper.specs.Given.{HaveSmallRecords};
ghost use Rattle.tao_schema.specs.Schema.{types_of};
ghost use Rattle.shard_tables.specs.write_model.MergeLaws.{MayBeMerged};

use crate::leader::Leader;
use shard_log::Note;
use shard_tables::{StoreNode, StoreRefusal, Wrote};
use std::alloc::Global;
use tao_base::{Entry, Origin, OutOfMemory, Write};
use tao_keeper::{Job, Keeper};
use tao_schema::Schema;

/// A note of the store's log for the leader to meet, where it is the preferred one: taken before anything is written, since
/// nothing may fail after that.
fn spare_note(preferred: bool, store: &mut StoreNode) -> Result<Option<Note>, OutOfMemory>
    ensures same { store.new ≡ store.old }
    ensures some { IfOk result (λ spare. is_some spare ≡ preferred) }
    ensures log { IfOk result (λ spare. IfSome spare (λ note. store.old.view.log ≡ note.log)) }
{
    if preferred {
        Ok(Some(store.note()?))
    } else {
        Ok(None)
    }
}

impl Leader {
    /// Makes the write of a client at the shard's master, as its store does. Where the leader is the one that its region
    /// prefers for the shard, its items then take the changesets of the entry, also of one that was written before, and the
    /// entry's position is marked; a stand-in's items and marks stay.
    ///
    /// Refused as the store refuses it, with the leader as it was. Nothing fails once the entry is written: an item for which
    /// there is no memory is dropped.
    ///
    /// Costs what the store's write costs, a note, and a look-up for each touch.
    pub fn write<M: Keeper>(
        &mut self,
        alloc: Global,
        preferred: bool,
        store: &mut StoreNode,
        keeper: &mut M,
        schema: &Schema,
        origin: Origin,
        write: &Write,
    ) -> Result<Wrote, StoreRefusal>
        requires log { OnTrue preferred (log_at store.old.name.shard self.old.served ≡ Some store.old.view.log) }
        requires master { store.old.role ≡ Master }
        requires keeper { IsStoreOf M.TELLS (M.state keeper.old).told store.old }
        requires client { IsTrue (is_client origin) }
        requires here { write_shard write.now ≡ store.old.name.shard }
        requires changes { ChangesType (types_of schema.now) write.now }
        requires sound { WhereTold M.TELLS (IsSoundOf (types_of schema.now) store.old.name.shard ((M.state keeper.old).told store.old.name).log) }

        // The leader's node.
        ensures node { TakesWritten (types_of schema.now) store.old.name.shard (taken_entry preferred result) (as_note store.new.view) self.old self.new }

        // The answer, the tables and the store, as a write of the store leaves them.
        ensures done { WriteDone M.TELLS store.old.name (asked_at (types_of schema.now) (M.state keeper.old).told store.old origin write.now)
            (M.state keeper.old) (M.state keeper.new) result }
        ensures store { StoreGains M.TELLS (M.state keeper.new).told store.old store.new result }
    {
        let spare = spare_note(preferred, store)?;
        let wrote = store.write(alloc, keeper, schema, origin, write);
        self.take_written(schema, store, &wrote, spare);
        wrote
    }

    /// Merges records that an entry of another shard owes to this one, as the shard's store does. Where the leader is the one
    /// that its region prefers for the shard, its items then take the changesets of the entry that was written, if one was, and
    /// the entry's position is marked; a stand-in's items and marks stay.
    ///
    /// Refused as the store refuses it, with the leader as it was. Nothing fails once the entry is written: an item for which
    /// there is no memory is dropped.
    pub fn merge<M: Keeper>(
        &mut self,
        alloc: Global,
        preferred: bool,
        store: &mut StoreNode,
        keeper: &mut M,
        schema: &Schema,
        from: u16,
        job: &Job,
    ) -> Result<Wrote, StoreRefusal>
        requires log { OnTrue preferred (log_at store.old.name.shard self.old.served ≡ Some store.old.view.log) }
        requires master { store.old.role ≡ Master }
        requires keeper { IsStoreOf M.TELLS (M.state keeper.old).told store.old }
        requires position { 0 < job.now.position }
        requires stamps { HaveSmallRecords job.now.edges }
        requires may { WhereTold M.TELLS
            (MayBeMerged store.old.name.shard ((M.state keeper.old).told store.old.name).log from job.now.position job.now.edges) }

        // The leader's node.
        ensures node { TakesWritten (types_of schema.now) store.old.name.shard (taken_entry preferred result) (as_note store.new.view) self.old self.new }

        // The answer, the tables and the store, as a merge of the store leaves them.
        ensures done { MergeDone M.TELLS store.old.name (asked_merge_at (M.state keeper.old).told store.old from job.now)
            (M.state keeper.old) (M.state keeper.new) result }
        ensures store { StoreGains M.TELLS (M.state keeper.new).told store.old store.new result }
    {
        let note = spare_note(preferred, store)?;
        let merged = store.merge(alloc, keeper, from, job);
        self.take_written(schema, store, &merged, note);
        merged
    }

    // Takes the changesets of what was written and marks its position, where a note was taken for it. Takes no memory but what
    // items grow by.
    fn take_written(
        &mut self,
        schema: &Schema,
        store: &mut StoreNode,
        answer: &Result<Wrote, StoreRefusal>,
        spare: Option<Note>,
    )
        requires master { store.old.role ≡ Master }
        requires log { IfSome spare (λ _. log_at store.old.name.shard self.old.served ≡ Some store.old.view.log) }
        requires one_log { IfSome spare (λ note. store.old.view.log ≡ note.log) }
        requires written { IfOk answer.now (MayBeTaken store.old) }
        ensures node { TakesWritten (types_of schema.now) store.old.name.shard (taken_entry (is_some spare) answer.now)
            (as_note store.old.view) self.old self.new }
        ensures same { store.new ≡ store.old }
    {
        let Some(spare) = spare else {
            return;
        };
        let Ok(wrote) = answer else {
            return;
        };
        let Some(entry) = &wrote.entry else {
            return;
        };
        let note = store.renew(spare);
        self.take_entry(schema, store.name().shard, entry, note);
    }
}
