//! The value of a store's lock.
ghost use Rattle.std.proofs.Props.{props};
ghost use Rattle.std.specs.Prelude.{ℕ, ◌≡◌, IfErr, IfOk, OnErr, OnOk};
ghost use Rattle.node_stages.specs.core_model.Asked.{settings};
ghost use Rattle.node_stages.specs.core_model.Reads.{IsRightAnswer, given_of, wanted};
ghost use Rattle.log_names.specs.Names.{IsOfLog};
ghost use Rattle.session_pass.specs.Passes.{ReachesIn};
ghost use Rattle.shard_log.specs.View.{Grows};
ghost use Rattle.shard_tables.specs.ReadOuts.{read_note};
ghost use Rattle.shard_tables.specs.Refusals.{IsOfReads};
ghost use Rattle.shard_tables.specs.Slaves.{HasMet};
ghost use Rattle.shard_tables.specs.Stores.{note_of};
ghost use Rattle.shard_tables.specs.declared.store.StoreRole.TheVariants.{Master};
ghost use Rattle.tao_base.specs.Queries.{query_key, query_shard};
ghost use Rattle.tao_keeper.specs.KeeperState.{CallsKeeper, KeepsTables};
ghost use Rattle.tao_schema.specs.Schema.{types_of};
ghost use Rattle.shared_stores.specs.Locked.{IsSharedStore, locked};
ghost use Rattle.shared_stores.specs.PastBound.{IsUndecidedGiven};

use crate::counted::CountedNote;
use crate::sharing::Sharing;
use node_stages::core_model::Around;
use shard_log::Note;
use shard_tables::{ReadOut, StoreNode, StoreRefusal};
use std::marker::PhantomData;
use tao_base::{OutOfMemory, Query, StoreName};
use tao_keeper::Keeper;

/// A store of a cluster, with its keeper, and for a master a note of each shard's log, in order: what its merges and ended jobs rest on. The note of
/// its own shard is never asked.
#[derive(Drop)]
pub struct SharedStore<K: Keeper, J: Sharing> {
    pub store: StoreNode,
    pub keeper: K,
    pub notes: Vec<CountedNote>,
    of: PhantomData<J>,
    pub ghost kept: { IsSharedStore K.TELLS J.making J.log (locked store (K.state keeper).told notes.items) } by { Prim.hlevel props },
}

impl<K: Keeper, J: Sharing> SharedStore<K, J> {
    /// A store that may be shared. Takes no memory.
    pub fn new(store: StoreNode, keeper: K, notes: Vec<CountedNote>) -> SharedStore<K, J>
        requires { IsSharedStore K.TELLS J.making J.log (locked store (K.state keeper).told notes.items) }
        ensures store { result.store ≡ store }
        ensures keeper { result.keeper ≡ keeper }
        ensures notes { result.notes ≡ notes }
    {
        SharedStore {
            store,
            keeper,
            notes,
            of: PhantomData,
        }
    }

    /// Its name.
    pub fn name(&self) -> StoreName
        ensures { result ≡ self.now.store.name }
    {
        self.store.name()
    }

    /// How often its keeper was called.
    pub fn calls(&self) -> u64
        ensures { result ≡ (K.state self.now.keeper).calls }
    {
        self.keeper.calls()
    }

    /// How often its keeper failed.
    pub fn faults(&self) -> u64
        ensures { result ≡ (K.state self.now.keeper).faults }
    {
        self.keeper.faults()
    }

    /// The note sees all that the store has of its shard's log: with a master all of it. What the note had seen begins that, or the other way
    /// round. Where there is no memory the note is as it was.
    pub fn meet(&mut self, note: &mut Note) -> Result<(), OutOfMemory>
        requires log { IsOfLog J.log self.old.store.name.shard note.old }
        ensures store { self.new.store ≡ self.old.store }
        ensures keeper { self.new.keeper ≡ self.old.keeper }
        ensures notes { self.new.notes.items ≡ self.old.notes.items }
        ensures met { OnOk result (HasMet self.old.store note.old note.new) }
        ensures grows { Grows note.old note.new }
        ensures err { OnErr result (note.new ≡ note.old) }
    {
        self.store.meet(note)
    }

    /// A note that has seen all that the store has.
    pub fn note(&mut self) -> Result<Note, OutOfMemory>
        ensures store { self.new.store ≡ self.old.store }
        ensures keeper { self.new.keeper ≡ self.old.keeper }
        ensures notes { self.new.notes.items ≡ self.old.notes.items }
        ensures note { IfOk result (λ note. note ≡ note_of self.old.store) }
        ensures log { IfOk result (IsOfLog J.log self.old.store.name.shard) }
    {
        self.store.note()
    }

    /// The stage `master`: the store answers from all that it has, at whatever floor the caller's note had reached; where the answer is one past the
    /// bound, no front of the list within it decides the query. The note then sees all of that. No table changes.
    ///
    /// `KeeperFault` comes only where the keeper's count of faults rose, and `OutOfMemory` where there was no memory. Costs what a read of the store
    /// does.
    pub fn read(
        &mut self,
        around: &Around<'_>,
        query: &Query,
        note: &mut Note,
    ) -> Result<ReadOut, StoreRefusal>
        requires schema { (settings around.now).schema ≡ J.making.settings.schema }
        requires here { query_shard query.now ≡ self.old.store.name.shard }
        requires master { self.old.store.role ≡ Master }
        requires log { IsOfLog J.log self.old.store.name.shard note.old }
        ensures given { IfOk result (λ out. (floor : ℕ) → ReachesIn note.old (query_key query.now) floor
            → IsRightAnswer (types_of J.making.settings.schema) (IsOfLog J.log) (wanted query.now floor) (given_of out)) }
        ensures past { IfOk result (λ out. IsUndecidedGiven (types_of J.making.settings.schema) query.now (given_of out)) }
        ensures whole { IfOk result (λ out. (read_note out).entries ≡ note.new.entries) }
        ensures grows { Grows note.old note.new }
        ensures store { self.new.store ≡ self.old.store }
        ensures notes { self.new.notes.items ≡ self.old.notes.items }
        ensures refused { IfErr result IsOfReads }
        ensures tables { KeepsTables K.TELLS (K.state self.old.keeper) (K.state self.new.keeper) }
        ensures calls { CallsKeeper StoreRefusal.KeeperFault (K.state self.old.keeper) (K.state self.new.keeper) result }
    {
        let config = around.config;
        self.store.meet(note)?;
        self.store
            .read(around.alloc, &mut self.keeper, &config.schema, query)
    }
}
