//! The stages of a write: its commit and the merge of its job at a leader and a store, and its entry at a follower.
ghost use Rattle.std.specs.Bool.{OnTrue};
ghost use Rattle.std.specs.Prelude.{◌≡◌, IsTrue, Some};
ghost use Rattle.core_model.specs.Asked.{settings};
ghost use Rattle.core_model.specs.Writes.{AppliesTo};
ghost use Rattle.graph_model.specs.Soundness.{IsSoundOf, is_client};
ghost use Rattle.graph_model.specs.Told.{WhereTold};
ghost use Rattle.core_model.specs.leader_tier.TakenWrites.{TakesWritten, taken_entry};
ghost use Rattle.node_stages.specs.Stages.{FollowerDoes, LeaderDoes};
ghost use Rattle.served_shards.specs.Served.{log_at};
ghost use Rattle.shard_log.specs.View.{as_note};
ghost use Rattle.shard_tables.specs.Stores.{IsStoreOf};
ghost use Rattle.shard_tables.specs.WriteDone.{MergeDone, StoreGains, WriteDone, asked_at, asked_merge_at};
ghost use Rattle.shard_tables.specs.Written.{LiesOn, StandsIn};
ghost use Rattle.shard_tables.specs.declared.store.StoreRole.TheVariants.{Master};
ghost use Rattle.tao_base.specs.Writes.{ChangesType, write_shard};
ghost use Rattle.tao_keeper.specs.Given.{IsGivenJob};
ghost use Rattle.tao_schema.specs.Schema.{types_of};
ghost use Rattle.write_model.specs.MergeLaws.{MayBeMerged};

use core_model::follower_cache::{Follower, followers_are_true};
use core_model::leader_tier::{Leader, leaders_are_true};
use core_model::{Around, AuthoredWrite, ShardJob};
use shard_log::Note;
use shard_tables::{StoreNode, StoreRefusal, Wrote};
use tao_base::Entry;
use tao_keeper::Keeper;
use tao_schema::Schema;

/// The stage `commit`: makes the write at the leader and its store. A leader that stands in for the preferred one stays as it is.
pub fn commit_of<K: Keeper>(
    around: &Around<'_>,
    leader: &mut Leader,
    preferred: bool,
    store: &mut StoreNode,
    keepers: &mut K,
    call: &AuthoredWrite<'_>,
) -> Result<Wrote, StoreRefusal>
    requires log { OnTrue preferred (log_at store.old.name.shard leader.old.served ≡ Some store.old.view.log) }
    requires master { store.old.role ≡ Master }
    requires keeper { IsStoreOf K.TELLS (K.state keepers.old).told store.old }
    requires client { IsTrue (is_client call.now.origin) }
    requires here { write_shard call.now.write.now ≡ store.old.name.shard }
    requires changes { ChangesType (types_of (settings around.now).schema) call.now.write.now }
    requires sound { WhereTold K.TELLS
        (IsSoundOf (types_of (settings around.now).schema) store.old.name.shard ((K.state keepers.old).told store.old.name).log) }
    ensures node { LeaderDoes
        (TakesWritten (types_of (settings around.now).schema) store.old.name.shard (taken_entry preferred result) (as_note store.new.view))
        leader.old leader.new }
    ensures done { WriteDone K.TELLS store.old.name
        (asked_at (types_of (settings around.now).schema) (K.state keepers.old).told store.old call.now.origin call.now.write.now)
        (K.state keepers.old) (K.state keepers.new) result }
    ensures store { StoreGains K.TELLS (K.state keepers.new).told store.old store.new result }
{
    let config = around.config;
    leaders_are_true(leader);
    let wrote = leader.write(
        around.alloc,
        preferred,
        store,
        keepers,
        &config.schema,
        call.origin,
        call.write,
    );
    leaders_are_true(leader);
    wrote
}

/// The stage `inverse`: merges the job at the leader and the store where it is owed. A leader that stands in for the preferred one stays as it is.
pub fn merge_of<K: Keeper>(
    around: &Around<'_>,
    leader: &mut Leader,
    preferred: bool,
    store: &mut StoreNode,
    keepers: &mut K,
    job: &ShardJob<'_>,
) -> Result<Wrote, StoreRefusal>
    requires log { OnTrue preferred (log_at store.old.name.shard leader.old.served ≡ Some store.old.view.log) }
    requires master { store.old.role ≡ Master }
    requires keeper { IsStoreOf K.TELLS (K.state keepers.old).told store.old }
    requires given { IsGivenJob job.now.job.now }
    requires may { WhereTold K.TELLS (MayBeMerged store.old.name.shard ((K.state keepers.old).told store.old.name).log
        job.now.shard job.now.job.now.position job.now.job.now.edges) }
    ensures node { LeaderDoes
        (TakesWritten (types_of (settings around.now).schema) store.old.name.shard (taken_entry preferred result) (as_note store.new.view))
        leader.old leader.new }
    ensures done { MergeDone K.TELLS store.old.name (asked_merge_at (K.state keepers.old).told store.old job.now.shard job.now.job.now)
        (K.state keepers.old) (K.state keepers.new) result }
    ensures store { StoreGains K.TELLS (K.state keepers.new).told store.old store.new result }
{
    let config = around.config;
    leaders_are_true(leader);
    let wrote = leader.merge(
        around.alloc,
        preferred,
        store,
        keepers,
        &config.schema,
        job.shard,
        job.job,
    );
    leaders_are_true(leader);
    wrote
}

/// The stage `apply`: the follower takes the changes of the entry, and marks nothing.
pub fn apply_of(follower: &mut Follower, schema: &Schema, shard: u16, entry: &Entry, note: Note)
    requires log { log_at shard follower.old.node.served ≡ Some note.log }
    requires stands { StandsIn note entry.now }
    requires here { LiesOn note shard entry.now }
    ensures { FollowerDoes (AppliesTo (types_of schema.now) shard entry.now note) follower.old follower.new }
{
    followers_are_true(follower);
    follower.apply_entry(schema, shard, entry, note);
    followers_are_true(follower);
}
