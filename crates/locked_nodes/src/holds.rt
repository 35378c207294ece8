//! What is done while a lock is held. The value is known by its type alone, so its name is compared; the branch that can't come answers want of memory.
ghost use Rattle.std.specs.Prelude.{ℕ, ◌≡◌, IfErr, IfOk};
ghost use Rattle.core_model.specs.Asked.{lent_read, settings};
ghost use Rattle.core_model.specs.Reads.{IsRightAnswer, IsRightFill, given_of, wanted};
ghost use Rattle.core_model.specs.Serving.{IsFollowerFor, IsLeaderFor};
ghost use Rattle.locked_nodes.specs.Cluster.{MayFail};
ghost use Rattle.locked_nodes.specs.Replies.{RepliesRefused};
ghost use Rattle.log_names.specs.Names.{IsOfLog};
ghost use Rattle.session_pass.specs.Passes.{ReachesIn};
ghost use Rattle.shard_log.specs.GrowthLaws.{IsLegalIn};
ghost use Rattle.shard_log.specs.View.{Grows};
ghost use Rattle.shared_nodes.specs.Nodes.{IsKeptAsSeen, IsLegalHit};
ghost use Rattle.shared_nodes.specs.shared_stores.PastBound.{IsUndecidedGiven};
ghost use Rattle.tao_base.specs.Queries.{query_key, query_shard};
ghost use Rattle.tao_schema.specs.Schema.{types_of};

use ask_table::AskNo;
use core_model::{Around, Wanted};
use node_name::NodeName;
use replies::Reply;
use sealed_item::Fill;
use shard_log::Note;
use shard_tables::{LeaderAnswer, ReadOut, StoreRole};
use shared_nodes::shared_stores::{SharedStore, Sharing};
use shared_nodes::{SharedFollower, SharedKept, SharedLeader, SharedLook};
use store_replies::{out_of_memory, refused_as};
use tao_base::{OutOfMemory, Query, StoreName};
use tao_keeper::Keeper;
use tao_schema::Schema;

/// What a leader gave, and whether a keeper was called for it.
#[derive(Drop)]
pub struct Asked {
    pub given: LeaderAnswer,
    pub store: bool,
}

/// What the master's store read, and whether its keeper was called for it.
#[derive(Drop)]
pub struct Mastered {
    pub out: ReadOut,
    pub store: bool,
}

pub(crate) fn look<J: Sharing>(
    follower: &mut SharedFollower<J>,
    schema: &Schema,
    name: NodeName,
    read: &Wanted<'_>,
) -> Result<SharedLook, OutOfMemory>
    requires schema { schema.now ≡ J.making.settings.schema }
    requires serves { IsFollowerFor J.making.settings (query_shard read.now.query.now) name }
    ensures note { IfOk result (λ found. IsOfLog J.log (query_shard read.now.query.now) found.note) }
    ensures legal { IfOk result (λ found. IsLegalHit (types_of J.making.settings.schema) found.note (lent_read read.now) found.look) }
{
    if follower.name() != name {
        return Err(OutOfMemory);
    }
    follower.look(schema, read)
}

pub(crate) fn ask_at_once<J: Sharing>(
    follower: &mut SharedFollower<J>,
    name: NodeName,
    query: &Query,
) -> Option<AskNo>
    requires serves { IsFollowerFor J.making.settings (query_shard query.now) name }
{
    if follower.name() != name {
        return None;
    }
    follower.ask_at_once(query)
}

pub(crate) fn keep<J: Sharing>(
    follower: &mut SharedFollower<J>,
    schema: &Schema,
    name: NodeName,
    read: &Wanted<'_>,
    ask: Option<AskNo>,
    fill: Fill,
) -> Result<SharedKept, OutOfMemory>
    requires schema { schema.now ≡ J.making.settings.schema }
    requires serves { IsFollowerFor J.making.settings (query_shard read.now.query.now) name }
    requires fill { IsRightFill (types_of J.making.settings.schema) (IsOfLog J.log) (lent_read read.now) fill }
    ensures note { IfOk result (λ kept. IsOfLog J.log (query_shard read.now.query.now) kept.note) }
    ensures legal { IfOk result (λ kept.
        IsLegalIn (types_of J.making.settings.schema) fill.note read.now.query.now read.now.floor kept.answer fill.version) }
    ensures why { IfOk result (λ kept. IsKeptAsSeen kept.note (query_key read.now.query.now) kept.kept) }
{
    if follower.name() != name {
        return Err(OutOfMemory);
    }
    follower.keep(schema, read, ask, fill)
}

pub(crate) fn ask<K: Keeper, J: Sharing>(
    leader: &mut SharedLeader<J>,
    store: &mut SharedStore<K, J>,
    around: &Around<'_>,
    name: NodeName,
    at: StoreName,
    read: &Wanted<'_>,
) -> Result<Asked, Reply>
    requires schema { (settings around.now).schema ≡ J.making.settings.schema }
    requires serves { IsLeaderFor J.making.settings (query_shard read.now.query.now) name }
    requires at { at.shard ≡ query_shard read.now.query.now }
    ensures given { IfOk result (λ asked. IsRightAnswer (types_of J.making.settings.schema) (IsOfLog J.log) (lent_read read.now) asked.given) }
    ensures past { IfOk result (λ asked. IsUndecidedGiven (types_of J.making.settings.schema) read.now.query.now asked.given) }
    ensures err { IfErr result (RepliesRefused ⊥ (MayFail K.state)) }
{
    if leader.name() != name || store.name() != at {
        return Err(out_of_memory());
    }
    let calls = store.calls();
    match leader.ask(around, store, read) {
        Ok(given) => Ok(Asked {
            given,
            store: calls < store.calls(),
        }),
        Err(refusal) => Err(Reply::Refused(refused_as(refusal, store.faults()))),
    }
}

#[tactic(auto, using(crate::proofs::Seeing::stays_seen))]
pub(crate) fn read<K: Keeper, J: Sharing>(
    store: &mut SharedStore<K, J>,
    around: &Around<'_>,
    at: StoreName,
    query: &Query,
    note: &mut Note,
) -> Result<Mastered, Reply>
    requires schema { (settings around.now).schema ≡ J.making.settings.schema }
    requires at { at.shard ≡ query_shard query.now }
    requires log { IsOfLog J.log (query_shard query.now) note.old }
    ensures given { IfOk result (λ read. (floor : ℕ) → ReachesIn note.old (query_key query.now) floor
        → IsRightAnswer (types_of J.making.settings.schema) (IsOfLog J.log) (wanted query.now floor) (given_of read.out)) }
    ensures past { IfOk result (λ read. IsUndecidedGiven (types_of J.making.settings.schema) query.now (given_of read.out)) }
    ensures grows { Grows note.old note.new }
    ensures err { IfErr result (RepliesRefused ⊥ (MayFail K.state)) }
{
    if store.name() != at || store.store.role() != StoreRole::Master {
        return Err(out_of_memory());
    }
    let calls = store.calls();
    match store.read(around, query, note) {
        Ok(out) => Ok(Mastered {
            out,
            store: calls < store.calls(),
        }),
        Err(refusal) => Err(Reply::Refused(refused_as(refusal, store.faults()))),
    }
}
