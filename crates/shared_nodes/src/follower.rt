//! The value of a follower's lock.
ghost use Rattle.std.specs.Prelude.{◌≡◌, ◌≢◌, ◌⊎◌, IfOk, IfSome, IsSome, IsSomeAnd, IsTrue, OnErr, Some, true};
ghost use Rattle.cache_items.specs.Kept.{ask_at};
ghost use Rattle.cache_items.specs.declared.look.Kept.TheVariants.{Lost};
ghost use Rattle.cache_node.specs.Answered.{ViewAnswers};
ghost use Rattle.core_model.specs.Asked.{lent_read};
ghost use Rattle.core_model.specs.Fleet.{named, serves};
ghost use Rattle.core_model.specs.Messages.{IsRightMessage};
ghost use Rattle.core_model.specs.Reads.{AsksAtOnce, EndsAsk, IsRightFill, KeepsFill, taken_fill};
ghost use Rattle.core_model.specs.Serving.{IsFollowerFor};
ghost use Rattle.core_model.specs.Writes.{AppliesTo};
ghost use Rattle.log_names.specs.Names.{IsOfLog};
ghost use Rattle.shared_stores.specs.node_stages.Caches.{DeliversAs, follower_node, follower_refills};
ghost use Rattle.shared_stores.specs.node_stages.Stages.{FollowerDoes, LooksTrue};
ghost use Rattle.sealed_item.specs.Decided.{content_decides};
ghost use Rattle.served_shards.specs.Served.{log_at, served_at, view_at};
ghost use Rattle.shard_log.specs.GrowthLaws.{IsLegalIn};
ghost use Rattle.shard_tables.specs.Written.{LiesOn, StandsIn};
ghost use Rattle.shared_nodes.specs.Nodes.{IsKeptAsSeen, IsLegalHit, IsSharedNode};
ghost use Rattle.tao_base.specs.Queries.{query_key, query_shard};
ghost use Rattle.tao_schema.specs.Schema.{types_of};

use ask_table::AskNo;
use core_model::laws::named_nodes_stay;
use core_model::{Named, Wanted};
use follower_cache::{Follower, Kept, Look};
use maint_msg::Maint;
use node_name::NodeName;
use sealed_item::Fill;
use shard_log::Note;
use shared_stores::Sharing;
use shared_stores::node_stages::{
    FirstLook, apply_of, deliver_to, end_open_ask, keep_fill, look_first, open_true,
};
use std::marker::{Model, PhantomData};
use tao_base::{Answer, Entry, Key, OutOfMemory, Query};
use tao_schema::Schema;

/// A follower of a cluster, with its name.
#[derive(Drop)]
pub struct SharedFollower<J: Sharing> {
    name: NodeName,
    follower: Follower,
    of: PhantomData<J>,
}

impl<J: Sharing> Model for SharedFollower<J> {
    ghost use Rattle.core_model.specs.Fleet.{named};
    ghost use Rattle.core_model.specs.declared.named.Named.{Named};
    ghost use Rattle.follower_cache.specs.Seen.{FollowerState};
    ghost use Rattle.shared_nodes.specs.Nodes.{IsSharedNode};

    ghost Value = { Named FollowerState };

    ghost view = { λ f. named f.name f.follower };

    ghost invariant = { λ f. IsSharedNode J.making J.log f.name f.follower.node };
}

/// What a follower found among its items, the ask that it opened where that is nothing, and a note of what it has seen of the shard's log.
#[derive(Drop)]
pub struct SharedLook {
    pub look: Look,
    /// None after a hit, and where as many asks are open on the follower as may be.
    pub ask: Option<AskNo>,
    pub note: Note,
}

/// What a follower answered from a fill, whether it keeps that, and a note of what it had seen of the shard's log.
#[derive(Drop)]
pub struct SharedKept {
    pub answer: Answer,
    pub kept: Kept,
    pub note: Note,
}

/// Looks, with a note.
fn look_with_note(
    follower: &mut Follower,
    schema: &Schema,
    read: &Wanted<'_>,
) -> Result<SharedLook, OutOfMemory>
    requires serves { IsSome (served_at (query_shard read.now.query.now) follower.old.node.served) }
    ensures does { IfOk result (λ found.
        FollowerDoes (LooksTrue (types_of schema.now) (lent_read read.now) found.look found.ask) follower.old follower.new) }
    ensures note { IfOk result (λ found. view_at (query_shard read.now.query.now) follower.old.node.served ≡ Some found.note) }
    ensures err { OnErr result (follower.new ≡ follower.old) }
{
    let note = follower.note(read.query.shard())?;
    let FirstLook { look, ask } = look_first(follower, schema, read.query, read.floor)?;
    Ok(SharedLook { look, ask, note })
}

/// Whether the ask, where there is one, is open and on the key.
fn is_open_on(follower: &Follower, ask: &Option<AskNo>, key: &Key) -> bool
    ensures { IsTrue result → IfSome ask.now (λ number. IsSomeAnd (ask_at number follower.now.node.asks) (λ a. a.key ≡ key.now)) }
{
    match ask {
        None => true,
        Some(ask) => is_key(follower.asked_key(*ask), key),
    }
}

fn is_key(found: Option<Key>, key: &Key) -> bool
    ensures { IsTrue result → (found ≡ Some key.now) }
{
    match found {
        Some(found) => found == *key,
        None => false,
    }
}

/// Keeps a fill or not, with a note, where its ask is open on the key of the query, or it has none.
fn keep_with_note(
    follower: &mut Follower,
    schema: &Schema,
    query: &Query,
    ask: Option<AskNo>,
    fill: Fill,
) -> Result<SharedKept, OutOfMemory>
    requires serves { IsSome (served_at (query_shard query.now) follower.old.node.served) }
    requires key { fill.key ≡ query_key query.now }
    requires decides { content_decides (types_of schema.now) fill.content query.now ≡ true }
    requires log { log_at (query_shard query.now) follower.old.node.served ≡ Some fill.note.log }
    ensures does { IfOk result (λ kept.
        FollowerDoes (KeepsFill (types_of schema.now) query.now (taken_fill ask fill kept.answer kept.kept)) follower.old follower.new) }
    ensures err { OnErr result ((follower.new ≡ follower.old) ⊎ FollowerDoes (EndsAsk ask) follower.old follower.new) }
    ensures open { IfOk result (λ kept. kept.kept ≢ Lost) }
    ensures on { IfOk result (λ _.
        IfSome ask (λ number. IsSomeAnd (ask_at number follower.old.node.asks) (λ a. a.key ≡ query_key query.now))) }
    ensures note { IfOk result (λ kept. view_at (query_shard query.now) follower.old.node.served ≡ Some kept.note) }
    ensures legal { IfOk result (λ kept. ViewAnswers (types_of schema.now) fill.note query.now kept.answer fill.version) }
{
    let note = follower.note(query.shard())?;
    let key = query.key();
    if !is_open_on(follower, &ask, &key) {
        return Err(OutOfMemory);
    }
    let (answer, kept) = keep_fill(follower, schema, query, ask, fill)?;
    Ok(SharedKept { answer, kept, note })
}

impl<J: Sharing> SharedFollower<J> {
    /// A follower that may be shared. Takes no memory.
    pub fn new(name: NodeName, follower: Follower) -> SharedFollower<J>
        requires { IsSharedNode J.making J.log name follower.node }
        ensures { result ≡ named name follower }
    {
        SharedFollower {
            name,
            follower,
            of: PhantomData,
        }
    }

    /// The follower with its name, no longer shared. Takes no memory.
    pub fn into_node(self) -> Named<Follower>
        ensures same { result ≡ self }
        ensures shared { IsSharedNode J.making J.log result.name result.node.node }
    {
        let SharedFollower { name, follower, .. } = self;
        Named {
            name,
            node: follower,
        }
    }

    /// Its name.
    pub fn name(&self) -> NodeName
        ensures { result ≡ self.now.name }
    {
        self.name
    }

    /// The stage `look`: the answer of an item that is held, which is legal in the note, or an ask on its key.
    ///
    /// The one error is out of memory, after which nothing has changed.
    pub fn look(&mut self, schema: &Schema, read: &Wanted<'_>) -> Result<SharedLook, OutOfMemory>
        requires schema { schema.now ≡ J.making.settings.schema }
        requires serves { IsFollowerFor J.making.settings (query_shard read.now.query.now) self.old.name }
        ensures name { self.new.name ≡ self.old.name }
        ensures does { IfOk result (λ found.
            FollowerDoes (LooksTrue (types_of J.making.settings.schema) (lent_read read.now) found.look found.ask) self.old.node self.new.node) }
        ensures err { OnErr result (self.new ≡ self.old) }
        ensures note { IfOk result (λ found. IsOfLog J.log (query_shard read.now.query.now) found.note) }
        ensures legal { IfOk result (λ found. IsLegalHit (types_of J.making.settings.schema) found.note (lent_read read.now) found.look) }
    {
        named_nodes_stay();
        look_with_note(&mut self.follower, schema, read)
    }

    /// The stage `look` of a critical read: an ask is opened at once, unless as many are open as may be. Takes no memory.
    pub fn ask_at_once(&mut self, query: &Query) -> Option<AskNo>
        requires serves { IsFollowerFor J.making.settings (query_shard query.now) self.old.name }
        ensures name { self.new.name ≡ self.old.name }
        ensures does { FollowerDoes (AsksAtOnce (query_key query.now) result) self.old.node self.new.node }
    {
        open_true(&mut self.follower, query.key())
    }

    /// The stage `keep`: answers from the fill, in whose note that is legal, and keeps it or not by the rule of its ask, which ends.
    ///
    /// The one error is out of memory, also where the ask isn't open here on the key: so no ask is lost. Then the ask ends, or nothing has changed.
    pub fn keep(
        &mut self,
        schema: &Schema,
        read: &Wanted<'_>,
        ask: Option<AskNo>,
        fill: Fill,
    ) -> Result<SharedKept, OutOfMemory>
        requires schema { schema.now ≡ J.making.settings.schema }
        requires serves { IsFollowerFor J.making.settings (query_shard read.now.query.now) self.old.name }
        requires fill { IsRightFill (types_of J.making.settings.schema) (IsOfLog J.log) (lent_read read.now) fill }
        ensures name { self.new.name ≡ self.old.name }
        ensures does { IfOk result (λ kept. FollowerDoes
            (KeepsFill (types_of J.making.settings.schema) read.now.query.now (taken_fill ask fill kept.answer kept.kept)) self.old.node self.new.node) }
        ensures err { OnErr result ((self.new ≡ self.old) ⊎ FollowerDoes (EndsAsk ask) self.old.node self.new.node) }
        ensures why { IfOk result (λ kept. IsKeptAsSeen kept.note (query_key read.now.query.now) kept.kept) }
        ensures note { IfOk result (λ kept. IsOfLog J.log (query_shard read.now.query.now) kept.note) }
        ensures legal { IfOk result (λ kept.
            IsLegalIn (types_of J.making.settings.schema) fill.note read.now.query.now read.now.floor kept.answer fill.version) }
    {
        named_nodes_stay();
        keep_with_note(&mut self.follower, schema, read.query, ask, fill)
    }

    /// Ends the ask of a read that is over without a fill. Takes no memory.
    pub fn end_ask(&mut self, ask: Option<AskNo>)
        ensures name { self.new.name ≡ self.old.name }
        ensures does { FollowerDoes (EndsAsk ask) self.old.node self.new.node }
    {
        named_nodes_stay();
        end_open_ask(&mut self.follower, ask);
    }

    /// The stage `apply`: the items take the changes of an entry that stands in the note, and nothing is marked.
    pub fn apply(&mut self, schema: &Schema, shard: u16, entry: &Entry, note: Note)
        requires schema { schema.now ≡ J.making.settings.schema }
        requires serves { IsFollowerFor J.making.settings shard self.old.name }
        requires log { IsOfLog J.log shard note }
        requires stands { StandsIn note entry.now }
        requires here { LiesOn note shard entry.now }
        ensures name { self.new.name ≡ self.old.name }
        ensures does { FollowerDoes (AppliesTo (types_of J.making.settings.schema) shard entry.now note) self.old.node self.new.node }
    {
        named_nodes_stay();
        apply_of(&mut self.follower, schema, shard, entry, note);
    }

    /// Processes a message of a shard's log, and queues a refill for each list that it dropped. Answers how many items it dropped.
    pub fn deliver(&mut self, schema: &Schema, message: Maint) -> u64
        requires schema { schema.now ≡ J.making.settings.schema }
        requires message { IsRightMessage J.making.settings (IsOfLog J.log) self.old.name message }
        ensures name { self.new.name ≡ self.old.name }
        ensures does { FollowerDoes (DeliversAs follower_node follower_refills (types_of J.making.settings.schema) message result)
            self.old.node self.new.node }
    {
        named_nodes_stay();
        deliver_to(&mut self.follower, schema, message)
    }
}
