//! The value of a leader's lock.
ghost use Rattle.std.specs.Prelude.{◌≡◌, ◌≢◌, ◌≤◌, ◌+◌, IfErr, IfOk, IfSome, IsTrue, OnErr, OnOk, Some, if◌then◌else◌, is_some, length};
ghost use Rattle.std.specs.Prelude.{slice_get, true};
ghost use Rattle.core_model.specs.Asked.{lent_call, lent_read, settings};
ghost use Rattle.core_model.specs.Fleet.{named};
ghost use Rattle.core_model.specs.Jobs.{far_shard};
ghost use Rattle.core_model.specs.Messages.{IsRightMessage};
ghost use Rattle.core_model.specs.Reads.{IsRightAnswer};
ghost use Rattle.core_model.specs.Serving.{IsLeaderFor};
ghost use Rattle.graph_model.specs.Soundness.{is_client};
ghost use Rattle.graph_model.specs.Told.{WhereTold};
ghost use Rattle.core_model.specs.leader_tier.LeaderReads.{GivesAnswer, asked_read};
ghost use Rattle.core_model.specs.leader_tier.TakenWrites.{TakesWritten, taken_entry};
ghost use Rattle.log_names.specs.Names.{IsOfLog};
ghost use Rattle.shared_stores.specs.node_stages.Caches.{DeliversAs, leader_node, leader_refills};
ghost use Rattle.shared_stores.specs.node_stages.Relays.{RelaysTo};
ghost use Rattle.shared_stores.specs.node_stages.Stages.{LeaderDoes};
ghost use Rattle.shard_log.specs.View.{Begins, Grows, as_note, most_entries};
ghost use Rattle.shard_tables.specs.Refusals.{IsOfReads};
ghost use Rattle.shard_tables.specs.Slaves.{HasMet};
ghost use Rattle.shard_tables.specs.WriteDone.{MergeDone, StoreGains, WriteDone, asked_at, asked_merge_at};
ghost use Rattle.shard_tables.specs.Written.{LiesOn, StandsIn, WriteAnswers};
ghost use Rattle.shard_tables.specs.declared.store.StoreRole.TheVariants.{Master};
ghost use Rattle.shared_nodes.specs.Merges.{wrote_in};
ghost use Rattle.shared_nodes.specs.Nodes.{IsSharedNode};
ghost use Rattle.shared_stores.specs.Asked.{asked_of_seen, lent_owed};
ghost use Rattle.shared_stores.specs.Locked.{entries_seen};
ghost use Rattle.shared_stores.specs.Owed.{IsDoneIn, IsOwed, IsOwedIn, owed_by};
ghost use Rattle.tao_base.specs.Queries.{query_shard};
ghost use Rattle.tao_base.specs.Writes.{ChangesType, write_shard};
ghost use Rattle.tao_keeper.specs.KeeperState.{CallsKeeper, KeepsTables};
ghost use Rattle.tao_schema.specs.Schema.{types_of};

use core_model::laws::named_nodes_stay;
use core_model::leader_tier::{Leader, leaders_are_true};
use core_model::{Around, AuthoredWrite, Named, Wanted};
use maint_msg::Maint;
use node_name::NodeName;
use shard_log::Note;
use shard_tables::{LeaderAnswer, StoreRefusal, Wrote};
use shared_stores::node_stages::{deliver_to, relay_of};
use shared_stores::{
    CountedNote, OwedJob, SharedStore, Sharing, Spares, ask_at, commit_at, merge_at,
    see_each_other, see_gained,
};
use std::marker::{Model, PhantomData};
use tao_base::{Entry, OutOfMemory};
use tao_keeper::Keeper;
use tao_schema::Schema;

/// A leader of a cluster, with its name.
#[derive(Drop)]
pub struct SharedLeader<J: Sharing> {
    name: NodeName,
    leader: Leader,
    of: PhantomData<J>,
}

impl<J: Sharing> Model for SharedLeader<J> {
    ghost use Rattle.cache_items.specs.Node.{Node};
    ghost use Rattle.core_model.specs.Fleet.{named};
    ghost use Rattle.core_model.specs.declared.named.Named.{Named};
    ghost use Rattle.shared_nodes.specs.Nodes.{IsSharedNode};

    ghost Value = { Named Node };

    ghost view = { λ l. named l.name l.leader };

    ghost invariant = { λ l. IsSharedNode J.making J.log l.name l.leader };
}

/// What a merge wrote, and a note of all that the store where it was owed then has, in which the job is done.
#[derive(Drop)]
pub struct SharedMerge {
    pub wrote: Wrote,
    pub done: CountedNote,
}

/// The notes of two masters' logs see all of them, and each master sees the other's whole log. Answers two notes of what the first one has then seen.
/// Neither log changes, and no keeper is called.
fn meet_both<K: Keeper, J: Sharing>(
    schema: &Schema,
    near: &mut SharedStore<K, J>,
    far: &mut SharedStore<K, J>,
    here: &mut Note,
    there: &mut Note,
) -> Result<Spares, OutOfMemory>
    requires schema { schema.now ≡ J.making.settings.schema }
    requires masters { (near.old.store.role ≡ Master) × (far.old.store.role ≡ Master) }
    requires apart { near.old.store.name.shard ≢ far.old.store.name.shard }
    requires here { IsOfLog J.log near.old.store.name.shard here.old }
    requires there { IsOfLog J.log far.old.store.name.shard there.old }
    ensures here { Grows here.old here.new }
    ensures there { Grows there.old there.new }
    ensures met { OnOk result (HasMet near.old.store here.old here.new × HasMet far.old.store there.old there.new) }
    ensures back { OnOk result (entries_seen far.new.notes.items near.old.store.name.shard ≡ near.old.store.view.entries) }
    ensures own { IfOk result (λ spares. slice_get near.new.notes.items far.old.store.name.shard ≡ Some spares.own) }
    ensures whole { IfOk result (λ spares. spares.own.entries ≡ far.old.store.view.entries) }
    ensures given { IfOk result (λ spares. spares.given ≡ spares.own) }
    ensures few { IfOk result (λ spares. length spares.own.entries ≤ most_entries) }
    ensures stores { (near.new.store ≡ near.old.store) × (far.new.store ≡ far.old.store) }
    ensures keepers { (near.new.keeper ≡ near.old.keeper) × (far.new.keeper ≡ far.old.keeper) }
{
    near.meet(here)?;
    far.meet(there)?;
    see_each_other(schema, near, far)
}

/// What a merge answers: the master of the job's entry first sees what the other one gained by it.
fn see_merged<K: Keeper, J: Sharing>(
    schema: &Schema,
    near: &mut SharedStore<K, J>,
    far: &mut SharedStore<K, J>,
    spares: Spares,
    wrote: Result<Wrote, StoreRefusal>,
) -> Result<SharedMerge, StoreRefusal>
    requires schema { schema.now ≡ J.making.settings.schema }
    requires masters { (near.old.store.role ≡ Master) × (far.old.store.role ≡ Master) }
    requires apart { near.old.store.name.shard ≢ far.old.store.name.shard }
    requires own { slice_get near.old.notes.items far.old.store.name.shard ≡ Some spares.own }
    requires given { spares.given ≡ spares.own }
    requires few { length spares.own.entries ≤ most_entries }
    requires begins { Begins spares.own.entries far.old.store.view.entries }
    requires gained { IfOk wrote (λ w. length far.old.store.view.entries ≡ length spares.own.entries + (if is_some w.entry then 1 else 0)) }
    requires note { IfOk wrote (λ w. w.note ≡ as_note far.old.store.view) }
    requires back { entries_seen far.old.notes.items near.old.store.name.shard ≡ near.old.store.view.entries }
    ensures wrote { wrote_in result ≡ wrote }
    ensures note { IfOk result (λ merge. merge.wrote.note ≡ merge.done) }
    ensures near { (near.new.store ≡ near.old.store) × (near.new.keeper ≡ near.old.keeper) }
    ensures far { (far.new.store ≡ far.old.store) × (far.new.keeper ≡ far.old.keeper) }
{
    match wrote {
        Ok(wrote) => {
            let gained = wrote.entry.is_some();
            let done = see_gained(schema, near, far, spares, gained);
            Ok(SharedMerge { wrote, done })
        }
        Err(refusal) => {
            drop(spares);
            Err(refusal)
        }
    }
}

impl<J: Sharing> SharedLeader<J> {
    /// A leader that may be shared. Takes no memory.
    pub fn new(name: NodeName, leader: Leader) -> SharedLeader<J>
        requires { IsSharedNode J.making J.log name leader }
        ensures { result ≡ named name leader }
    {
        SharedLeader {
            name,
            leader,
            of: PhantomData,
        }
    }

    /// The leader with its name, no longer shared. Takes no memory.
    pub fn into_node(self) -> Named<Leader>
        ensures same { result ≡ self }
        ensures shared { IsSharedNode J.making J.log result.name result.node }
    {
        let SharedLeader { name, leader, .. } = self;
        Named { name, node: leader }
    }

    /// Its name.
    pub fn name(&self) -> NodeName
        ensures { result ≡ self.now.name }
    {
        self.name
    }

    /// The stage `ask`, with the lock of its region's store of the shard held too: the leader answers of an item of its own, or of the store. What it
    /// gives is right for the read, and of the shard's log.
    ///
    /// Refused as a leader's answer is, with the leader as it was.
    pub fn ask<K: Keeper>(
        &mut self,
        around: &Around<'_>,
        store: &mut SharedStore<K, J>,
        read: &Wanted<'_>,
    ) -> Result<LeaderAnswer, StoreRefusal>
        requires schema { (settings around.now).schema ≡ J.making.settings.schema }
        requires serves { IsLeaderFor J.making.settings (query_shard read.now.query.now) self.old.name }
        requires store { store.old.store.name.shard ≡ query_shard read.now.query.now }
        ensures name { self.new.name ≡ self.old.name }
        ensures does { IfOk result (λ given. LeaderDoes (λ from to. GivesAnswer
            (asked_read (types_of J.making.settings.schema) from read.now.query.now read.now.floor) store.old.store given to
            (K.state store.old.keeper) (K.state store.new.keeper)) self.old.node self.new.node) }
        ensures given { IfOk result (IsRightAnswer (types_of J.making.settings.schema) (IsOfLog J.log) (lent_read read.now)) }
        ensures err { OnErr result (self.new ≡ self.old) }
        ensures store { store.new.store ≡ store.old.store }
        ensures notes { store.new.notes.items ≡ store.old.notes.items }
        ensures refused { IfErr result IsOfReads }
        ensures tables { KeepsTables K.TELLS (K.state store.old.keeper) (K.state store.new.keeper) }
        ensures calls { CallsKeeper StoreRefusal.KeeperFault (K.state store.old.keeper) (K.state store.new.keeper) result }
    {
        named_nodes_stay();
        ask_at(around, &mut self.leader, store, read)
    }

    /// The stage `commit`, with the lock of the shard's master store held too: the write of a client is made at the store, and the leader's items take
    /// what was written. The caller's note of the shard's log first sees all of it, and the answer is one that the write has on what the note has then seen.
    /// A job that is answered is owed, where its records lie on another shard.
    ///
    /// Refused as a store's write is.
    pub fn commit<K: Keeper>(
        &mut self,
        around: &Around<'_>,
        store: &mut SharedStore<K, J>,
        call: &AuthoredWrite<'_>,
        note: &mut Note,
    ) -> Result<Wrote, StoreRefusal>
        requires schema { (settings around.now).schema ≡ J.making.settings.schema }
        requires serves { IsLeaderFor J.making.settings (write_shard call.now.write.now) self.old.name }
        requires here { write_shard call.now.write.now ≡ store.old.store.name.shard }
        requires master { store.old.store.role ≡ Master }
        requires log { IsOfLog J.log (write_shard call.now.write.now) note.old }
        requires client { IsTrue (is_client call.now.origin) }
        requires changes { ChangesType (types_of J.making.settings.schema) call.now.write.now }
        ensures name { self.new.name ≡ self.old.name }

        // What is answered, of what the note has then seen.
        ensures answer { WhereTold K.TELLS
            (WriteAnswers (asked_of_seen J.making (write_shard call.now.write.now) note.new.entries (lent_call call.now)) result) }
        ensures grows { Grows note.old note.new }
        ensures after { IfOk result (λ wrote. Grows note.new wrote.note) }
        ensures owes { IfOk result (λ wrote. IfSome wrote.job (λ job. IfSome wrote.entry (λ e. far_shard job ≢ write_shard call.now.write.now
            → IsOwed K.TELLS (types_of J.making.settings.schema) (owed_by (write_shard call.now.write.now) job e)))) }

        // What becomes of the leader, the store and its keeper.
        ensures does { LeaderDoes (TakesWritten (types_of J.making.settings.schema) (write_shard call.now.write.now) (taken_entry true result)
            (as_note store.new.store.view)) self.old.node self.new.node }
        ensures done { WriteDone K.TELLS store.old.store.name
            (asked_at (types_of J.making.settings.schema) (K.state store.old.keeper).told store.old.store call.now.origin call.now.write.now)
            (K.state store.old.keeper) (K.state store.new.keeper) result }
        ensures store { StoreGains K.TELLS (K.state store.new.keeper).told store.old.store store.new.store result }
        ensures notes { store.new.notes.items ≡ store.old.notes.items }
    {
        named_nodes_stay();
        commit_at(around, &mut self.leader, store, call, note)
    }

    /// The stage `inverse`, with the locks of both masters' stores held too: each store sees the other's whole log, the job is merged where it is owed,
    /// and the job's own store has then seen its records there, as it must before it ends the job. The caller's note of the other shard's log first sees
    /// all of it.
    ///
    /// Refused as a merge is, and as out of memory before anything is merged.
    pub fn merge<K: Keeper>(
        &mut self,
        around: &Around<'_>,
        near: &mut SharedStore<K, J>,
        far: &mut SharedStore<K, J>,
        owed: &OwedJob<'_>,
        here: &mut Note,
        there: &mut Note,
    ) -> Result<SharedMerge, StoreRefusal>
        requires schema { (settings around.now).schema ≡ J.making.settings.schema }
        requires serves { IsLeaderFor J.making.settings owed.now.to self.old.name }
        requires near { owed.now.from ≡ near.old.store.name.shard }
        requires far { owed.now.to ≡ far.old.store.name.shard }
        requires masters { (near.old.store.role ≡ Master) × (far.old.store.role ≡ Master) }
        requires owed { IsOwedIn K.TELLS J.making J.log here.old (lent_owed owed.now) }
        requires log { IsOfLog J.log owed.now.to there.old }
        ensures name { self.new.name ≡ self.old.name }

        // What is answered, of what the note has then seen.
        ensures grows { Grows here.old here.new }
        ensures there { Grows there.old there.new }
        ensures after { IfOk result (λ merge. Grows there.new merge.wrote.note) }
        ensures merged { IfOk result (λ merge. IsDoneIn J.making J.log merge.done (lent_owed owed.now)) }
        ensures note { IfOk result (λ merge. merge.wrote.note ≡ merge.done) }

        // What becomes of the leader, the stores and their keepers.
        ensures does { LeaderDoes (TakesWritten (types_of J.making.settings.schema) owed.now.to (taken_entry true (wrote_in result))
            (as_note far.new.store.view)) self.old.node self.new.node }
        ensures done { MergeDone K.TELLS far.old.store.name (asked_merge_at (K.state far.old.keeper).told far.old.store owed.now.from owed.now.job.now)
            (K.state far.old.keeper) (K.state far.new.keeper) (wrote_in result) }
        ensures store { StoreGains K.TELLS (K.state far.new.keeper).told far.old.store far.new.store (wrote_in result) }
        ensures near { (near.new.store ≡ near.old.store) × (near.new.keeper ≡ near.old.keeper) }
    {
        leaders_are_true(&self.leader);
        let config = around.config;
        let spares = meet_both(&config.schema, near, far, here, there)?;
        named_nodes_stay();
        let wrote = merge_at(around, &mut self.leader, far, owed);
        see_merged(&config.schema, near, far, spares, wrote)
    }

    /// The stage `relay`: the leader of a slave region takes the changes of an entry that stands in the note, and marks nothing.
    pub fn relay(&mut self, schema: &Schema, shard: u16, entry: &Entry, note: Note)
        requires schema { schema.now ≡ J.making.settings.schema }
        requires serves { IsLeaderFor J.making.settings shard self.old.name }
        requires log { IsOfLog J.log shard note }
        requires stands { StandsIn note entry.now }
        requires here { LiesOn note shard entry.now }
        ensures name { self.new.name ≡ self.old.name }
        ensures does { LeaderDoes (RelaysTo (types_of J.making.settings.schema) shard (Some entry.now) note) self.old.node self.new.node }
    {
        named_nodes_stay();
        relay_of(&mut self.leader, true, schema, shard, entry, note);
    }

    /// Processes a message of a shard's log. Answers how many items it dropped.
    pub fn deliver(&mut self, schema: &Schema, message: Maint) -> u64
        requires schema { schema.now ≡ J.making.settings.schema }
        requires message { IsRightMessage J.making.settings (IsOfLog J.log) self.old.name message }
        ensures name { self.new.name ≡ self.old.name }
        ensures does { LeaderDoes (DeliversAs leader_node leader_refills (types_of J.making.settings.schema) message result)
            self.old.node self.new.node }
    {
        named_nodes_stay();
        deliver_to(&mut self.leader, schema, message)
    }
}
