//! A follower: a cache node that takes in what it is sent, and queues refills of the lists that messages drop.
ghost use Rattle.std.specs.Prelude.{◌≡◌, ◌↔◌, ◌+◌, ◌-◌, ◌≤◌, ◌++◌, ℕ, [], All, Some, if◌then◌else◌, drop, is_some, length, option_copied};
ghost use Rattle.std.specs.Prelude.{option_to_list, take, true, IfNone, IfOk, IfSome, IsNone, IsSome, IsTrue, OnErr, OnOk, OnSome};
ghost use Rattle.cache_node.specs.shard_log.View.{Grows};
ghost use Rattle.std.specs.List.{IsDistinct};
ghost use Rattle.std.specs.Map.{keys_of as keys_held};
ghost use Rattle.lru.specs.LruCache.{last_entry};
ghost use Rattle.cache_node.specs.ask_table.Asks.{IsTable, is_full};
ghost use Rattle.tao_base.specs.Queries.{query_key};
ghost use Rattle.tao_base.specs.Keys.{key_shard, same_key};
ghost use Rattle.graph_model.specs.Log.{entry_at};
ghost use Rattle.graph_model.specs.Told.{WhereTold};
ghost use Rattle.tao_schema.specs.Schema.{types_of};
ghost use Rattle.cache_node.specs.sealed_item.Decided.{content_answer, content_decides};
ghost use Rattle.cache_node.specs.served_shards.Begun.{AreNotesOf, AreReached, AreToldAlike, begun_at};
ghost use Rattle.cache_node.specs.served_shards.Served.{IsLowWater, log_at, low_at, served_at, view_at};
ghost use Rattle.cache_node.specs.cache_items.Delivered.{dropped_lists};
ghost use Rattle.std.specs.Option.{option_map};
ghost use Rattle.cache_node.specs.cache_items.Kept.{GivesKept, ask_at, kept_of, took};
ghost use Rattle.cache_node.specs.cache_items.Look.{look_of, looked_at};
ghost use Rattle.cache_node.specs.cache_items.Node.{caught_up, delivered, drop_count, empty_node, emptied, item_at, met, with_ended_ask, with_opened_ask};
ghost use Rattle.cache_node.specs.cache_items.Node.{without, without_last};
ghost use Rattle.cache_node.specs.cache_items.Taken.{ChangesItems, with_change};
ghost use Rattle.cache_node.specs.cache_items.TakenEntry.{AppliesEntry};
ghost use Rattle.cache_node.specs.Answered.{LookAnswers, ViewAnswers};
ghost use Rattle.cache_node.specs.True.{IsTrueNode};
ghost use Rattle.follower_cache.specs.Refills.{Queues};
ghost use Rattle.follower_cache.specs.Seen.{follower_state};

use crate::queue::{Refill, RefillQueue};
use cache_node::ask_table::AskNo;
use cache_node::changeset::Changeset;
use cache_node::maint_msg::Maint;
use cache_node::sealed_item::Fill;
use cache_node::shard_log::Note;
use cache_node::{CacheNode, Item, Kept, Look, nodes_are_true};
use std::alloc::Global;
use std::marker::Model;
use tao_base::{Answer, Entry, Key, OutOfMemory, Query};
use tao_schema::Schema;

/// A follower: a cache node, and the refills that it has yet to ask for, of lists that messages dropped:
/// 256 at most.
#[derive(Drop)]
pub struct Follower {
    node: CacheNode,
    refills: RefillQueue,
}

impl Model for Follower {
    ghost use Rattle.follower_cache.specs.Seen.{FollowerState, follower_state};

    ghost Value = { FollowerState };

    ghost view = { λ f. follower_state f.node f.refills };
}

/// The node of every follower is true of the logs that it has seen, and at most 256 refills wait.
pub fn followers_are_true(follower: &Follower)
    ensures truth { IsTrueNode follower.now.node }
    ensures apart { IsDistinct same_key (keys_held follower.now.node.items) }
    ensures few { length follower.now.node.items ≤ follower.now.node.most }
    ensures asks { IsTable follower.now.node.asks }
    ensures refills { length follower.now.refills ≤ 256 }
{
    nodes_are_true(&follower.node);
    follower.refills.is_short();
}

impl Follower {
    /// A follower without items, asks and refills, with a mark and a note for each shard that it serves. The
    /// logs are told all, or none.
    pub fn make(
        alloc: Global,
        items: usize,
        served: &[u16],
        lows: &[u64],
        notes: Vec<Note>,
    ) -> Result<Follower, OutOfMemory>
        requires some { 1 ≤ items }
        requires each { length served.now ≡ length lows.now }
        requires reached { AreReached lows.now notes.items }
        requires alike { AreToldAlike notes.items }
        ensures { IfOk result (λ follower. follower ≡ follower_state (empty_node items (begun_at served.now lows.now notes.items)) []) }
    {
        let node = CacheNode::make(alloc, items, served, lows, notes)?;
        Ok(Follower {
            node,
            refills: RefillQueue::empty(alloc),
        })
    }

    /// A second note of the log of a shard: what the node has seen of it, in which its items are exact.
    pub fn note(&mut self, shard: u16) -> Result<Note, OutOfMemory>
        requires { IsSome (served_at shard self.old.node.served) }
        ensures same { self.new ≡ self.old }
        ensures view { IfOk result (λ note. view_at shard self.old.node.served ≡ Some note) }
    {
        self.node.note(shard)
    }

    /// The low-water mark of the shard: every position up to it was processed. 0 where the shard isn't
    /// served. Takes no memory.
    pub fn low(&self, shard: u16) -> u64
        ensures value { result ≡ low_at shard self.now.node.served }
        ensures marks { IfSome (served_at shard self.now.node.served) (λ s. IsLowWater s.marks) }
    {
        self.node.low(shard)
    }

    /// The item at the key. The order stays.
    pub fn item(&self, key: Key) -> Option<&Item>
        ensures { option_copied result ≡ item_at self.now.node.items key }
    {
        self.node.item(key)
    }

    /// The answer to a query, where the key's item has the floor's version or more and decides the query.
    /// That item then stands first; a miss leaves the order. Where there is no memory, nothing has changed.
    pub fn look(&mut self, schema: &Schema, query: &Query, floor: u64) -> Result<Look, OutOfMemory>
        ensures look { IfOk result (λ look. look ≡ look_of (types_of schema.now) (item_at self.old.node.items (query_key query.now)) query.now floor) }
        ensures node { IfOk result (λ look. self.new ≡ record self.old { node = looked_at (query_key query.now) look self.old.node }) }
        ensures err { OnErr result (self.new ≡ self.old) }
        ensures legal { IfOk result (LookAnswers (types_of schema.now) self.old.node.served query.now) }
    {
        self.node.look(schema, query, floor)
    }

    /// Opens an ask on the key, with the low-water mark of its shard and floor 0, and forgets what is marked
    /// ahead of that mark. None, and nothing changed, exactly where 256 are open or the numbers are used up.
    /// Takes no memory.
    pub fn begin_ask(&mut self, key: Key) -> Option<AskNo>
        requires { IsSome (served_at (key_shard key) self.old.node.served) }
        ensures full { IsNone result ↔ IsTrue (is_full self.old.node.asks) }
        ensures number { IfSome result (λ ask. ask ≡ self.old.node.asks.given + 1) }
        ensures begun { OnSome result (self.new ≡ record self.old { node = with_opened_ask key self.old.node }) }
        ensures none { IfNone result (self.new ≡ self.old) }
    {
        self.node.begin_ask(key)
    }

    /// The key of an open ask. None exactly where it isn't open. Takes no memory.
    pub fn asked_key(&self, ask: AskNo) -> Option<Key>
        ensures { result ≡ option_map (λ a. a.key) (ask_at ask self.now.node.asks) }
    {
        self.node.asked_key(ask)
    }

    /// Ends an ask without a fill. One that isn't open is ignored. Takes no memory.
    pub fn end_ask(&mut self, ask: AskNo)
        ensures { self.new ≡ record self.old { node = with_ended_ask (Some ask) self.old.node } }
    {
        self.node.end_ask(ask);
    }

    /// Answers from the fill, and keeps it where its ask is open and it has the ask's mark and floor. The
    /// ask ends. The one error is that there is no memory for the answer: the ask has ended, and
    /// nothing else changed.
    pub fn take_fill(
        &mut self,
        schema: &Schema,
        ask: Option<AskNo>,
        query: &Query,
        fill: Fill,
    ) -> Result<(Answer, Kept), OutOfMemory>
        requires key { fill.key ≡ query_key query.now }
        requires decides { content_decides (types_of schema.now) fill.content query.now ≡ true }
        requires log { log_at (key_shard fill.key) self.old.node.served ≡ Some fill.note.log }
        requires ask { IfSome ask (λ no. IfSome (ask_at no self.old.node.asks) (λ a. a.key ≡ fill.key)) }
        ensures answer { IfOk result (λ r. r.0 ≡ content_answer (types_of schema.now) fill.content query.now) }
        ensures kept { IfOk result (λ r. GivesKept (kept_of ask self.old.node.asks fill.version fill.as_of) r.1) }
        ensures node { IfOk result (λ r. self.new ≡ record self.old { node = took fill r.1 (with_ended_ask ask self.old.node) }) }
        ensures meets { OnOk result (IfSome (view_at (key_shard fill.key) self.new.node.served) (Grows fill.note)) }
        ensures err { OnErr result (self.new ≡ record self.old { node = with_ended_ask ask self.old.node }) }
        ensures legal { IfOk result (λ r. ViewAnswers (types_of schema.now) fill.note query.now r.0 fill.version) }
    {
        self.node.take_fill(schema, ask, query, fill)
    }

    /// Takes one touch of the log: an item of the version before it takes the change, an older one is
    /// dropped, and so is one for which there is no memory. Raises the asks on its key. Nothing is marked. A
    /// changeset of a shard that isn't served changes nothing.
    pub fn take_changeset(&mut self, schema: &Schema, change: Changeset)
        requires { IfSome (log_at (key_shard change.key) self.old.node.served) (λ log. log ≡ change.note.log) }
        ensures items { OnSome (served_at (key_shard change.key) self.old.node.served)
            (ChangesItems (types_of schema.now) change self.old.node.items self.new.node.items) }
        ensures node { OnSome (served_at (key_shard change.key) self.old.node.served)
            (self.new ≡ record self.old { node = with_change change self.new.node.items self.old.node }) }
        ensures unserved { IfNone (served_at (key_shard change.key) self.old.node.served) (self.new ≡ self.old) }
    {
        self.node.take_changeset(schema, change);
    }

    /// Applies an entry of the log that was written on the follower's behalf: all its changesets, one after another,
    /// as `take_changeset` does, with one note. Nothing is marked, so the entry's message is processed when it comes.
    /// The refills stay.
    ///
    /// Only items that grow take memory, and one that finds none is dropped.
    pub fn apply_entry(&mut self, schema: &Schema, shard: u16, entry: &Entry, note: Note)
        requires log { log_at shard self.old.node.served ≡ Some note.log }
        requires stands { WhereTold note.log.told (entry_at note.entries entry.now.position ≡ Some entry.now) }
        requires here { WhereTold note.log.told (All (λ t. key_shard t.key ≡ shard) entry.now.touches) }
        ensures node { AppliesEntry (types_of schema.now) shard entry.now note self.old.node self.new.node }
        ensures refills { self.new.refills ≡ self.old.refills }
    {
        self.node.apply_entry(schema, shard, entry, note);
    }

    /// Processes a message: drops each named item that is below its version, raises the asks on the
    /// named keys, and marks the position. Queues a refill for each list that it dropped, in the order of
    /// the message, while fewer than 256 wait and there is memory. Answers how many items it dropped.
    pub fn deliver(&mut self, schema: &Schema, message: Maint) -> u64
        requires { log_at message.shard self.old.node.served ≡ Some message.note.log }
        ensures count { result ≡ drop_count self.old.node.items message.keys }
        ensures node { self.new ≡ follower_state (delivered message self.old.node) self.new.refills }
        ensures refills { Queues (types_of schema.now) (dropped_lists self.old.node.items message.keys) self.old.refills self.new.refills }
    {
        let delivered = self.node.deliver(message);
        self.refills.queue_all(schema, delivered.lists.as_slice());
        delivered.dropped
    }

    /// Takes the oldest refill out. None exactly where none waits. Takes no memory.
    pub fn next_refill(&mut self) -> Option<Refill>
        ensures oldest { self.old.refills ≡ option_to_list result ++ self.new.refills }
        ensures node { self.new ≡ record self.old { refills = self.new.refills } }
        ensures none { IsNone result ↔ (self.old.refills ≡ []) }
    {
        self.refills.take()
    }

    /// Processes the entries of the log that follow the low-water mark. Takes no memory.
    pub fn catch_up(&mut self, shard: u16, entries: &[Entry], note: Note)
        requires log { log_at shard self.old.node.served ≡ Some note.log }
        requires next { WhereTold note.log.told (entries.now ≡ take (length entries.now) (drop (low_at shard self.old.node.served) note.entries)) }
        requires here { WhereTold note.log.told (All (λ e. All (λ t. key_shard t.key ≡ shard) e.touches) entries.now) }
        ensures { self.new ≡ record self.old { node = caught_up shard entries.now (met shard note self.old.node) } }
    {
        self.node.catch_up(shard, entries, note);
    }

    /// Drops the item at the key, and answers whether there was one. Takes no memory.
    pub fn evict(&mut self, key: Key) -> bool
        ensures held { result ≡ is_some (item_at self.old.node.items key) }
        ensures rest { self.new ≡ record self.old { node = record self.old.node { items = without key self.old.node.items } } }
    {
        self.node.evict(key)
    }

    /// Drops the item that was used least recently, and answers whether there was one. Takes no memory.
    pub fn evict_last(&mut self) -> bool
        ensures held { result ≡ is_some (last_entry self.old.node.items) }
        ensures rest { self.new ≡ record self.old { node = record self.old.node { items = without_last self.old.node.items } } }
    {
        self.node.evict_last()
    }

    /// Drops every item and refill, ends every ask, and begins the shards anew at these positions, with
    /// these notes met. Takes no memory.
    pub fn reset(&mut self, lows: &[u64], notes: Vec<Note>)
        requires logs { AreNotesOf self.old.node.served notes.items }
        requires reached { AreReached lows.now notes.items }
        ensures { self.new ≡ follower_state (emptied lows.now notes.items self.old.node) [] }
    {
        self.node.reset(lows, notes);
        self.refills.clear();
    }
}
