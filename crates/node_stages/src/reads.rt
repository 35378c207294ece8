//! The stages of a read.
ghost use Rattle.std.specs.Prelude.{◌≡◌, IfErr, IfOk, IfSome, IsSome, OnErr, Some, true};
ghost use Rattle.cache_items.specs.Kept.{ask_at as open_ask_at};
ghost use Rattle.core_model.specs.cache_node.Answered.{ViewAnswers};
ghost use Rattle.core_model.specs.Asked.{settings};
ghost use Rattle.core_model.specs.Reads.{AsksAtOnce, EndsAsk, KeepsFill, taken_fill, wanted};
ghost use Rattle.core_model.specs.leader_tier.LeaderReads.{GivesAnswer, IsLegalAt, asked_read};
ghost use Rattle.node_stages.specs.Stages.{FollowerDoes, LeaderDoes, LooksTrue, OpensAsk};
ghost use Rattle.cache_items.specs.sealed_item.Decided.{content_decides};
ghost use Rattle.served_shards.specs.Served.{log_at, served_at};
ghost use Rattle.shard_tables.specs.Refusals.{IsOfReads};
ghost use Rattle.shard_tables.specs.Stores.{IsStoreOf};
ghost use Rattle.tao_base.specs.Keys.{key_shard};
ghost use Rattle.tao_base.specs.Queries.{query_key, query_shard};
ghost use Rattle.tao_keeper.specs.Growing.{LogsGrow};
ghost use Rattle.tao_keeper.specs.KeeperState.{CallsKeeper, KeepsTables};
ghost use Rattle.tao_schema.specs.Schema.{types_of};

use ask_table::AskNo;
use cache_items::sealed_item::Fill;
use core_model::follower_cache::{Follower, Kept, Look, followers_are_true};
use core_model::leader_tier::{Leader, leaders_are_true};
use core_model::{Around, Wanted};
use shard_tables::{LeaderAnswer, StoreNode, StoreRefusal};
use tao_base::{Answer, Key, OutOfMemory, Query};
use tao_keeper::Keeper;
use tao_schema::Schema;

/// What a follower found among its items, and the ask that it opened where it found nothing that answers.
#[derive(Drop)]
pub struct FirstLook {
    pub look: Look,
    /// None after a hit, and where as many asks are open on the follower as may be.
    pub ask: Option<AskNo>,
}

/// Opens an ask on the key after a miss.
fn open_ask(follower: &mut Follower, look: &Look, key: Key) -> Option<AskNo>
    requires { IsSome (served_at (key_shard key) follower.old.node.served) }
    ensures node { OpensAsk key look.now result follower.old.node follower.new.node }
    ensures rest { follower.new ≡ record follower.old { node = follower.new.node } }
{
    match look {
        Look::Hit { .. } => None,
        Look::Miss => follower.begin_ask(key),
    }
}

/// The answer of an item that is held, or an ask on its key.
fn look_and_open(
    follower: &mut Follower,
    schema: &Schema,
    query: &Query,
    floor: u64,
) -> Result<FirstLook, OutOfMemory>
    requires { IsSome (served_at (query_shard query.now) follower.old.node.served) }
    ensures looks { IfOk result (λ first. LooksTrue (types_of schema.now) (wanted query.now floor) first.look first.ask follower.old follower.new) }
    ensures err { OnErr result (follower.new ≡ follower.old) }
{
    let look = follower.look(schema, query, floor)?;
    let ask = open_ask(follower, &look, query.key());
    Ok(FirstLook { look, ask })
}

/// The stage `look`: the answer of an item that is held, or an ask on its key.
pub fn look_first(
    follower: &mut Follower,
    schema: &Schema,
    query: &Query,
    floor: u64,
) -> Result<FirstLook, OutOfMemory>
    requires { IsSome (served_at (query_shard query.now) follower.old.node.served) }
    ensures looks { IfOk result (λ first.
        FollowerDoes (LooksTrue (types_of schema.now) (wanted query.now floor) first.look first.ask) follower.old follower.new) }
    ensures err { OnErr result (follower.new ≡ follower.old) }
{
    followers_are_true(follower);
    let first = look_and_open(follower, schema, query, floor);
    followers_are_true(follower);
    first
}

/// Opens an ask on the key without a look.
fn open_at_once(follower: &mut Follower, key: Key) -> Option<AskNo>
    requires { IsSome (served_at (key_shard key) follower.old.node.served) }
    ensures { AsksAtOnce key result follower.old follower.new }
{
    follower.begin_ask(key)
}

/// The stage `look` of a critical read: an ask is opened at once.
pub fn open_true(follower: &mut Follower, key: Key) -> Option<AskNo>
    requires { IsSome (served_at (key_shard key) follower.old.node.served) }
    ensures { FollowerDoes (AsksAtOnce key result) follower.old follower.new }
{
    followers_are_true(follower);
    let ask = open_at_once(follower, key);
    followers_are_true(follower);
    ask
}

/// The stage `ask`: the leader answers of an item of its own, or of its store.
pub fn ask_leader<K: Keeper>(
    around: &Around<'_>,
    leader: &mut Leader,
    store: &mut StoreNode,
    keepers: &mut K,
    read: &Wanted<'_>,
) -> Result<LeaderAnswer, StoreRefusal>
    requires log { log_at (query_shard read.now.query.now) leader.old.served ≡ Some store.old.view.log }
    requires keeper { IsStoreOf K.TELLS (K.state keepers.old).told store.old }
    ensures given { IfOk result (λ given. LeaderDoes (λ from to. GivesAnswer
        (asked_read (types_of (settings around.now).schema) from read.now.query.now read.now.floor) store.old given to
        (K.state keepers.old) (K.state keepers.new)) leader.old leader.new) }
    ensures legal { IfOk result (IsLegalAt (types_of (settings around.now).schema) read.now.query.now read.now.floor) }
    ensures err { OnErr result (leader.new ≡ leader.old) }
    ensures refused { IfErr result IsOfReads }
    ensures same { store.new ≡ store.old }
    ensures tables { KeepsTables K.TELLS (K.state keepers.old) (K.state keepers.new) }
    ensures logs { LogsGrow K.TELLS (K.state keepers.old).told (K.state keepers.new).told }
    ensures keeper { IsStoreOf K.TELLS (K.state keepers.new).told store.new }
    ensures calls { CallsKeeper StoreRefusal.KeeperFault (K.state keepers.old) (K.state keepers.new) result }
{
    let config = around.config;
    leaders_are_true(leader);
    let given = leader.answer(
        around.alloc,
        store,
        keepers,
        &config.schema,
        read.query,
        read.floor,
    );
    leaders_are_true(leader);
    given
}

/// The stage `keep`, where a fill was given: the follower answers from it, and keeps it or not by the rule of its ask, which ends.
pub fn keep_fill(
    follower: &mut Follower,
    schema: &Schema,
    query: &Query,
    ask: Option<AskNo>,
    fill: Fill,
) -> Result<(Answer, Kept), OutOfMemory>
    requires key { fill.key ≡ query_key query.now }
    requires decides { content_decides (types_of schema.now) fill.content query.now ≡ true }
    requires log { log_at (query_shard query.now) follower.old.node.served ≡ Some fill.note.log }
    requires ask { IfSome ask (λ number. IfSome (open_ask_at number follower.old.node.asks) (λ a. a.key ≡ query_key query.now)) }
    ensures keeps { IfOk result (λ r. FollowerDoes (KeepsFill (types_of schema.now) query.now (taken_fill ask fill r.0 r.1)) follower.old follower.new) }
    ensures err { OnErr result (FollowerDoes (EndsAsk ask) follower.old follower.new) }
    ensures legal { IfOk result (λ r. ViewAnswers (types_of schema.now) fill.note query.now r.0 fill.version) }
{
    followers_are_true(follower);
    let kept = follower.take_fill(schema, ask, query, fill);
    followers_are_true(follower);
    kept
}

/// Ends the ask, where there is one.
fn end_given(follower: &mut Follower, ask: Option<AskNo>)
    ensures { EndsAsk ask follower.old follower.new }
{
    if let Some(ask) = ask {
        follower.end_ask(ask);
    }
}

/// Ends the ask of a read that is over without a fill.
pub fn end_open_ask(follower: &mut Follower, ask: Option<AskNo>)
    ensures { FollowerDoes (EndsAsk ask) follower.old follower.new }
{
    followers_are_true(follower);
    end_given(follower, ask);
    followers_are_true(follower);
}
