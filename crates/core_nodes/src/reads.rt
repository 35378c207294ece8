//! The stages of a read.
ghost use Rattle.std.specs.Prelude.{◌≡◌, ◌<◌, IfErr, IfOk, IfSome, IsSome, OnErr, Some, true};
ghost use Rattle.cache_items.specs.Kept.{ask_at as open_ask_at};
ghost use Rattle.cache_node.specs.Answered.{ViewAnswers};
ghost use Rattle.core_model.specs.Asked.{lent_read, settings};
ghost use Rattle.core_model.specs.Consistent.{GoesOn, IsConsistent, IsFleetOf};
ghost use Rattle.core_model.specs.Fleet.{ChangesNode, HasAsk, HasNode, region_of};
ghost use Rattle.core_model.specs.Pens.{pens_of, store_in};
ghost use Rattle.core_model.specs.Reads.{AsksAtOnce, EndsAsk, IsGivenAnswer, IsGivenFill, IsLegalLook, KeepsFill, LeaderAnswers, LooksFirst};
ghost use Rattle.core_model.specs.Reads.{store_calls, taken_fill, wanted};
ghost use Rattle.core_model.specs.Serving.{IsFollowerFor, IsLeaderFor};
ghost use Rattle.core_model.specs.Stores.{AreStoresOf, IsConfiguredStore, region_store};
ghost use Rattle.core_nodes.specs.Stages.{NodeIs};
ghost use Rattle.core_model.specs.leader_tier.LeaderReads.{IsLegalAt};
ghost use Rattle.node_stages.specs.Stages.{FollowerDoes, LeaderDoes, LooksTrue};
ghost use Rattle.sealed_item.specs.Decided.{content_decides};
ghost use Rattle.served_shards.specs.Served.{log_at, served_at};
ghost use Rattle.shard_log.specs.GrowthLaws.{IsLegalIn};
ghost use Rattle.shard_tables.specs.Refusals.{IsOfReads};
ghost use Rattle.shard_tables.specs.StoreView.{Store};
ghost use Rattle.tao_base.specs.Queries.{query_key, query_shard};
ghost use Rattle.tao_keeper.specs.KeeperState.{CallsKeeper, KeepsTables};
ghost use Rattle.tao_keeper.specs.Growing.{LogsGrow};
ghost use Rattle.tao_schema.specs.Schema.{types_of};

use crate::fleet::Fleet;
use crate::stores::region_store;
use ask_table::AskNo;
use core_model::leader_tier::Leader;
use core_model::{Around, Named, Wanted, named_place, region_of, store_place};
use follower_cache::{Follower, Kept};
use node_name::NodeName;
use node_stages::{FirstLook, ask_leader, end_open_ask, keep_fill, look_first, open_true};
use sealed_item::Fill;
use shard_tables::{LeaderAnswer, StoreNode, StoreRefusal};
use std::alloc::Global;
use tao_base::{Answer, OutOfMemory, Query};
use tao_keeper::Keeper;
use tao_schema::Schema;
use topology::Config;

fn look_at(
    followers: &mut [Named<Follower>],
    schema: &Schema,
    name: NodeName,
    query: &Query,
    floor: u64,
) -> Result<FirstLook, OutOfMemory>
    requires there { HasNode name followers.old }
    requires serves { NodeIs name (λ f. IsSome (served_at (query_shard query.now) f.node.served)) followers.old }
    ensures looks { IfOk result (λ first. ChangesNode name
        (FollowerDoes (LooksTrue (types_of schema.now) (wanted query.now floor) first.look first.ask)) followers.old followers.new) }
    ensures err { OnErr result (followers.new ≡ followers.old) }
{
    let place = named_place(followers, name);
    look_first(&mut followers[place].node, schema, query, floor)
}

fn open_at(followers: &mut [Named<Follower>], name: NodeName, query: &Query) -> Option<AskNo>
    requires there { HasNode name followers.old }
    requires serves { NodeIs name (λ f. IsSome (served_at (query_shard query.now) f.node.served)) followers.old }
    ensures { ChangesNode name (FollowerDoes (AsksAtOnce (query_key query.now) result)) followers.old followers.new }
{
    let place = named_place(followers, name);
    open_true(&mut followers[place].node, query.key())
}

fn ask_at<K: Keeper>(
    around: &Around<'_>,
    leaders: &mut [Named<Leader>],
    stores: &mut [StoreNode],
    keepers: &mut K,
    name: NodeName,
    read: &Wanted<'_>,
) -> Result<LeaderAnswer, StoreRefusal>
    requires there { HasNode name leaders.old }
    requires here { IsConfiguredStore (settings around.now) (region_store (region_of name) (query_shard read.now.query.now)) }
    requires logs { NodeIs name (λ node. (store : Store)
        → store_in stores.old (region_store (region_of name) (query_shard read.now.query.now)) ≡ Some store
        → log_at (query_shard read.now.query.now) node.served ≡ Some store.view.log) leaders.old }
    requires stores { AreStoresOf K.TELLS (settings around.now) (K.state keepers.old).told stores.old }
    ensures given { IfOk result (λ given. ChangesNode name (LeaderDoes
        (LeaderAnswers (types_of (settings around.now).schema) (lent_read read.now) given
        (store_calls (region_of name) stores.old (K.state keepers.old) (K.state keepers.new)))) leaders.old leaders.new) }
    ensures legal { IfOk result (IsLegalAt (types_of (settings around.now).schema) read.now.query.now read.now.floor) }
    ensures err { OnErr result (leaders.new ≡ leaders.old) }
    ensures refused { IfErr result IsOfReads }
    ensures same { stores.new ≡ stores.old }
    ensures tables { KeepsTables K.TELLS (K.state keepers.old) (K.state keepers.new) }
    ensures logs { LogsGrow K.TELLS (K.state keepers.old).told (K.state keepers.new).told }
    ensures calls { CallsKeeper StoreRefusal.KeeperFault (K.state keepers.old) (K.state keepers.new) result }
{
    let spot = named_place(leaders, name);
    let at = region_store(region_of(name), read.query.shard());
    let place = store_place(around.config, at);
    let leader = &mut leaders[spot].node;
    let store = &mut stores[place];
    ask_leader(around, leader, store, keepers, read)
}

fn keep_at(
    followers: &mut [Named<Follower>],
    schema: &Schema,
    name: NodeName,
    query: &Query,
    ask: Option<AskNo>,
    fill: Fill,
) -> Result<(Answer, Kept), OutOfMemory>
    requires there { HasNode name followers.old }
    requires key { fill.key ≡ query_key query.now }
    requires decides { content_decides (types_of schema.now) fill.content query.now ≡ true }
    requires log { NodeIs name (λ f. log_at (query_shard query.now) f.node.served ≡ Some fill.note.log) followers.old }
    requires ask { NodeIs name (λ f. IfSome ask (λ number. IfSome (open_ask_at number f.node.asks) (λ a. a.key ≡ query_key query.now))) followers.old }
    ensures keeps { IfOk result (λ r. ChangesNode name
        (FollowerDoes (KeepsFill (types_of schema.now) query.now (taken_fill ask fill r.0 r.1))) followers.old followers.new) }
    ensures err { OnErr result (ChangesNode name (FollowerDoes (EndsAsk ask)) followers.old followers.new) }
    ensures legal { IfOk result (λ r. ViewAnswers (types_of schema.now) fill.note query.now r.0 fill.version) }
{
    let place = named_place(followers, name);
    keep_fill(&mut followers[place].node, schema, query, ask, fill)
}

fn end_at(followers: &mut [Named<Follower>], name: NodeName, ask: Option<AskNo>)
    requires { HasNode name followers.old }
    ensures { ChangesNode name (FollowerDoes (EndsAsk ask)) followers.old followers.new }
{
    let place = named_place(followers, name);
    end_open_ask(&mut followers[place].node, ask);
}

impl Fleet {
    /// The stage `look`: the follower answers where it holds an item of the key at the floor or above that decides the query,
    /// which then stands first. Else it opens an ask on the key, unless 256 are open.
    ///
    /// The one error is that there is no memory for the answer, which leaves all as it was. Costs a look-up, and the answer.
    pub fn look(
        &mut self,
        config: &Config,
        follower: NodeName,
        query: &Query,
        floor: u64,
    ) -> Result<FirstLook, OutOfMemory>
        requires fleet { IsFleetOf config.now self.old }
        requires follower { IsFollowerFor config.now (query_shard query.now) follower }
        ensures looks { IfOk result (λ first. ChangesNode follower
            (LooksFirst (types_of config.now.schema) (wanted query.now floor) first.look first.ask) self.old.followers self.new.followers) }
        ensures rest { self.new ≡ record self.old { followers = self.new.followers } }
        ensures err { OnErr result (self.new ≡ self.old) }
        ensures fleet { IsFleetOf config.now self.new }
        ensures goes { GoesOn self.old self.new }
        ensures ask { IfOk result (λ first. IfSome first.ask (λ number. HasAsk follower number (query_key query.now) self.new.followers)) }
        ensures legal { IfOk result (λ first. IsLegalLook (types_of config.now.schema) (pens_of self.new.stores) (wanted query.now floor) first.look) }
    {
        look_at(&mut self.followers, &config.schema, follower, query, floor)
    }

    /// The stage `look` of a critical read, which the follower never answers: it opens an ask on the key at once, unless 256 are
    /// open. None exactly then. Takes no memory.
    pub fn ask_at_once(
        &mut self,
        config: &Config,
        follower: NodeName,
        query: &Query,
    ) -> Option<AskNo>
        requires fleet { IsFleetOf config.now self.old }
        requires follower { IsFollowerFor config.now (query_shard query.now) follower }
        ensures asks { ChangesNode follower (AsksAtOnce (query_key query.now) result) self.old.followers self.new.followers }
        ensures rest { self.new ≡ record self.old { followers = self.new.followers } }
        ensures fleet { IsFleetOf config.now self.new }
        ensures goes { GoesOn self.old self.new }
        ensures ask { IfSome result (λ number. HasAsk follower number (query_key query.now) self.new.followers) }
    {
        let _ = config;
        open_at(&mut self.followers, follower, query)
    }

    /// The stage `ask`, once it was carried to a leader that serves the shard: the leader answers of an item of its own, or of
    /// its region's store of the shard, and keeps what the store gave.
    ///
    /// `KeeperFault` comes only where the keepers' count of faults rose, and `OutOfMemory` where there was no memory; no node
    /// has changed then. Costs what `Leader::answer` does.
    pub fn ask<K: Keeper>(
        &mut self,
        alloc: Global,
        config: &Config,
        keepers: &mut K,
        leader: NodeName,
        read: &Wanted<'_>,
    ) -> Result<LeaderAnswer, StoreRefusal>
        requires consistent { IsConsistent K.TELLS config.now (K.state keepers.old).told self.old }
        requires leader { IsLeaderFor config.now (query_shard read.now.query.now) leader }
        requires here { IsConfiguredStore config.now (region_store (region_of leader) (query_shard read.now.query.now)) }
        ensures answers { IfOk result (λ given. ChangesNode leader
            (LeaderAnswers (types_of config.now.schema) (lent_read read.now) given
            (store_calls (region_of leader) self.old.stores (K.state keepers.old) (K.state keepers.new))) self.old.leaders self.new.leaders) }
        ensures rest { self.new ≡ record self.old { leaders = self.new.leaders } }
        ensures err { OnErr result (self.new ≡ self.old) }
        ensures consistent { IsConsistent K.TELLS config.now (K.state keepers.new).told self.new }
        ensures goes { GoesOn self.old self.new }
        ensures given { IfOk result (IsGivenAnswer (types_of config.now.schema) (pens_of self.new.stores) (lent_read read.now)) }
        ensures refused { IfErr result IsOfReads }
        ensures tables { KeepsTables K.TELLS (K.state keepers.old) (K.state keepers.new) }
        ensures logs { LogsGrow K.TELLS (K.state keepers.old).told (K.state keepers.new).told }
        ensures calls { CallsKeeper StoreRefusal.KeeperFault (K.state keepers.old) (K.state keepers.new) result }
    {
        ask_at(
            &Around { alloc, config },
            &mut self.leaders,
            &mut self.stores,
            keepers,
            leader,
            read,
        )
    }

    /// The stage `keep`, where a fill was given: the follower answers from it, and keeps it or not by the rule of its ask, which
    /// ends.
    ///
    /// The one error is that there is no memory for the answer: the ask has ended, and nothing else changed.
    pub fn keep(
        &mut self,
        config: &Config,
        follower: NodeName,
        read: &Wanted<'_>,
        ask: Option<AskNo>,
        fill: Fill,
    ) -> Result<(Answer, Kept), OutOfMemory>
        requires fleet { IsFleetOf config.now self.old }
        requires follower { IsFollowerFor config.now (query_shard read.now.query.now) follower }
        requires given { IsGivenFill (types_of config.now.schema) (pens_of self.old.stores) (lent_read read.now) fill }
        requires ask { IfSome ask (λ number. HasAsk follower number (query_key read.now.query.now) self.old.followers) }
        ensures keeps { IfOk result (λ r. ChangesNode follower
            (KeepsFill (types_of config.now.schema) read.now.query.now (taken_fill ask fill r.0 r.1)) self.old.followers self.new.followers) }
        ensures err { OnErr result (ChangesNode follower (EndsAsk ask) self.old.followers self.new.followers) }
        ensures rest { self.new ≡ record self.old { followers = self.new.followers } }
        ensures fleet { IsFleetOf config.now self.new }
        ensures goes { GoesOn self.old self.new }
        ensures legal { IfOk result (λ r.
            IsLegalIn (types_of config.now.schema) (pens_of self.new.stores (query_shard read.now.query.now)) read.now.query.now read.now.floor r.0
            fill.version) }
    {
        keep_at(
            &mut self.followers,
            &config.schema,
            follower,
            read.query,
            ask,
            fill,
        )
    }

    /// Ends the ask of a read that is over without a fill.
    pub fn end_ask(&mut self, config: &Config, follower: NodeName, shard: u16, ask: Option<AskNo>)
        requires fleet { IsFleetOf config.now self.old }
        requires follower { IsFollowerFor config.now shard follower }
        ensures ends { ChangesNode follower (EndsAsk ask) self.old.followers self.new.followers }
        ensures rest { self.new ≡ record self.old { followers = self.new.followers } }
        ensures fleet { IsFleetOf config.now self.new }
        ensures goes { GoesOn self.old self.new }
    {
        end_at(&mut self.followers, follower, ask);
    }
}
