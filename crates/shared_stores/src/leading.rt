//! The stages at a leader and at the store of its lock's value, while that lock is held too.
ghost use Rattle.std.specs.Prelude.{◌≡◌, ◌≢◌, IfErr, IfOk, IfSome, IsTrue, OnErr, Some, true};
ghost use Rattle.node_stages.specs.core_model.Asked.{lent_call, settings};
ghost use Rattle.node_stages.specs.core_model.Jobs.{far_shard};
ghost use Rattle.graph_model.specs.Log.{entry_at};
ghost use Rattle.graph_model.specs.Soundness.{is_client};
ghost use Rattle.graph_model.specs.Told.{WhereTold};
ghost use Rattle.node_stages.specs.leader_tier.LeaderReads.{GivesAnswer, IsLegalAt, asked_read};
ghost use Rattle.node_stages.specs.leader_tier.TakenWrites.{TakesWritten, taken_entry};
ghost use Rattle.log_names.specs.Names.{IsOfLog};
ghost use Rattle.node_stages.specs.Stages.{LeaderDoes};
ghost use Rattle.served_shards.specs.Served.{log_at};
ghost use Rattle.shard_log.specs.View.{Grows, as_note};
ghost use Rattle.shard_tables.specs.Refusals.{IsOfReads};
ghost use Rattle.shard_tables.specs.WriteDone.{MergeDone, StoreGains, WriteDone, asked_at, asked_merge_at};
ghost use Rattle.shard_tables.specs.Written.{WriteAnswers};
ghost use Rattle.shard_tables.specs.declared.store.StoreRole.TheVariants.{Master};
ghost use Rattle.shared_stores.specs.Asked.{asked_of_seen, lent_owed};
ghost use Rattle.shared_stores.specs.Locked.{entries_seen};
ghost use Rattle.shared_stores.specs.Owed.{IsDoneIn, IsOwed, owed_by};
ghost use Rattle.tao_base.specs.Queries.{query_shard};
ghost use Rattle.tao_base.specs.Writes.{ChangesType, write_shard};
ghost use Rattle.tao_keeper.specs.KeeperState.{CallsKeeper, KeepsTables};
ghost use Rattle.tao_schema.specs.Schema.{types_of};

use crate::owed::OwedJob;
use crate::sharing::Sharing;
use crate::store::SharedStore;
use locked_model::{merges_keep_locked, writes_keep_locked};
use node_stages::core_model::{Around, AuthoredWrite, ShardJob, Wanted};
use node_stages::leader_tier::{Leader, leaders_are_true};
use node_stages::{ask_leader, commit_of, merge_of};
use shard_log::Note;
use shard_tables::{LeaderAnswer, StoreRefusal, Wrote, inverses_match};
use tao_keeper::Keeper;

/// The stage `ask`: the leader answers of an item of its own, or of the store. Refused as a leader's answer is, with the leader as it was.
pub fn ask_at<K: Keeper, J: Sharing>(
    around: &Around<'_>,
    leader: &mut Leader,
    store: &mut SharedStore<K, J>,
    read: &Wanted<'_>,
) -> Result<LeaderAnswer, StoreRefusal>
    requires log { log_at (query_shard read.now.query.now) leader.old.served ≡ Some store.old.store.view.log }
    ensures given { IfOk result (λ given. LeaderDoes (λ from to. GivesAnswer
        (asked_read (types_of (settings around.now).schema) from read.now.query.now read.now.floor) store.old.store given to
        (K.state store.old.keeper) (K.state store.new.keeper)) leader.old leader.new) }
    ensures legal { IfOk result (IsLegalAt (types_of (settings around.now).schema) read.now.query.now read.now.floor) }
    ensures err { OnErr result (leader.new ≡ leader.old) }
    ensures store { store.new.store ≡ store.old.store }
    ensures notes { store.new.notes.items ≡ store.old.notes.items }
    ensures refused { IfErr result IsOfReads }
    ensures tables { KeepsTables K.TELLS (K.state store.old.keeper) (K.state store.new.keeper) }
    ensures calls { CallsKeeper StoreRefusal.KeeperFault (K.state store.old.keeper) (K.state store.new.keeper) result }
{
    ask_leader(around, leader, &mut store.store, &mut store.keeper, read)
}

/// The stage `commit`: makes the write at the shard's preferred leader and the store. The caller's note of the shard's log first sees all of it, and
/// the answer is one that the write has on what the note has then seen. A job that is answered is owed, where its records lie on another shard.
///
/// Refused as a store's write is. Costs what a store's write does.
pub fn commit_at<K: Keeper, J: Sharing>(
    around: &Around<'_>,
    leader: &mut Leader,
    store: &mut SharedStore<K, J>,
    call: &AuthoredWrite<'_>,
    note: &mut Note,
) -> Result<Wrote, StoreRefusal>
    requires schema { (settings around.now).schema ≡ J.making.settings.schema }
    requires here { write_shard call.now.write.now ≡ store.old.store.name.shard }
    requires master { store.old.store.role ≡ Master }
    requires leader { log_at store.old.store.name.shard leader.old.served ≡ Some store.old.store.view.log }
    requires log { IsOfLog J.log store.old.store.name.shard note.old }
    requires client { IsTrue (is_client call.now.origin) }
    requires changes { ChangesType (types_of J.making.settings.schema) call.now.write.now }

    // What is answered, of what the note has then seen.
    ensures answer { WhereTold K.TELLS (WriteAnswers (asked_of_seen J.making store.old.store.name.shard note.new.entries (lent_call call.now)) result) }
    ensures grows { Grows note.old note.new }
    ensures after { IfOk result (λ wrote. Grows note.new wrote.note) }
    ensures owes { IfOk result (λ wrote. IfSome wrote.job (λ job. IfSome wrote.entry (λ e. far_shard job ≢ store.old.store.name.shard
        → IsOwed K.TELLS (types_of J.making.settings.schema) (owed_by store.old.store.name.shard job e)))) }

    // What becomes of the leader, the store and its keeper.
    ensures node { LeaderDoes
        (TakesWritten (types_of J.making.settings.schema) store.old.store.name.shard (taken_entry true result) (as_note store.new.store.view))
        leader.old leader.new }
    ensures done { WriteDone K.TELLS store.old.store.name
        (asked_at (types_of J.making.settings.schema) (K.state store.old.keeper).told store.old.store call.now.origin call.now.write.now)
        (K.state store.old.keeper) (K.state store.new.keeper) result }
    ensures store { StoreGains K.TELLS (K.state store.new.keeper).told store.old.store store.new.store result }
    ensures notes { store.new.notes.items ≡ store.old.notes.items }
{
    let config = around.config;
    leaders_are_true(leader);
    store.store.meet(note)?;
    inverses_match(&config.schema);
    writes_keep_locked();
    commit_of(
        around,
        leader,
        true,
        &mut store.store,
        &mut store.keeper,
        call,
    )
}

/// The stage `inverse`: merges a job at the preferred leader of the shard where it is owed, and the store there, which has seen the job's entry.
///
/// Refused as a merge is. Costs what a store's merge does.
pub fn merge_at<K: Keeper, J: Sharing>(
    around: &Around<'_>,
    leader: &mut Leader,
    store: &mut SharedStore<K, J>,
    owed: &OwedJob<'_>,
) -> Result<Wrote, StoreRefusal>
    requires schema { (settings around.now).schema ≡ J.making.settings.schema }
    requires here { owed.now.to ≡ store.old.store.name.shard }
    requires master { store.old.store.role ≡ Master }
    requires leader { log_at store.old.store.name.shard leader.old.served ≡ Some store.old.store.view.log }
    requires owed { IsOwed K.TELLS (types_of J.making.settings.schema) (lent_owed owed.now) }
    requires seen { WhereTold K.TELLS
        (entry_at (entries_seen store.old.notes.items owed.now.from) owed.now.entry.now.position ≡ Some owed.now.entry.now) }
    ensures node { LeaderDoes
        (TakesWritten (types_of J.making.settings.schema) store.old.store.name.shard (taken_entry true result) (as_note store.new.store.view))
        leader.old leader.new }
    ensures done { MergeDone K.TELLS store.old.store.name
        (asked_merge_at (K.state store.old.keeper).told store.old.store owed.now.from owed.now.job.now)
        (K.state store.old.keeper) (K.state store.new.keeper) result }
    ensures store { StoreGains K.TELLS (K.state store.new.keeper).told store.old.store store.new.store result }
    ensures merged { IfOk result (λ wrote. IsDoneIn J.making J.log wrote.note (lent_owed owed.now)) }
    ensures notes { store.new.notes.items ≡ store.old.notes.items }
{
    let config = around.config;
    let job = ShardJob {
        shard: owed.from,
        job: owed.job,
    };
    inverses_match(&config.schema);
    merges_keep_locked();
    merge_of(
        around,
        leader,
        true,
        &mut store.store,
        &mut store.keeper,
        &job,
    )
}
