//! `Leader`, and what it does as any cache node does it.
ghost use Rattle.std.specs.Prelude.{◌≡◌, ◌+◌, ◌-◌, ◌≤◌, ℕ, [], All, Some, if◌then◌else◌, drop, is_some, length, option_copied, take, true, IfNone};
ghost use Rattle.std.specs.Prelude.{IfOk, IfSome, IsSome, OnErr, OnSome};
ghost use Rattle.std.specs.List.{IsDistinct};
ghost use Rattle.std.specs.Map.{keys_of as keys_held};
ghost use Rattle.lru.specs.LruCache.{last_entry};
ghost use Rattle.cache_node.specs.ask_table.Asks.{IsTable};
ghost use Rattle.tao_base.specs.Queries.{query_key, query_shard};
ghost use Rattle.tao_base.specs.Keys.{key_shard, same_key};
ghost use Rattle.graph_model.specs.Log.{entry_at};
ghost use Rattle.graph_model.specs.Told.{WhereTold};
ghost use Rattle.tao_schema.specs.Schema.{types_of};
ghost use Rattle.cache_node.specs.served_shards.Begun.{AreNotesOf, AreReached, AreToldAlike, begun_at};
ghost use Rattle.cache_node.specs.served_shards.Served.{IsLowWater, log_at, low_at, served_at, top_at, view_at};
ghost use Rattle.cache_node.specs.cache_items.Delivered.{AreSome, dropped_lists};
ghost use Rattle.cache_node.specs.cache_items.HandedOn.{HandsOn, handed_on, with_copy};
ghost use Rattle.cache_node.specs.cache_items.Kept.{GivesKept, own_kept_of};
ghost use Rattle.cache_node.specs.cache_items.Node.{caught_up, delivered, drop_count, empty_node, emptied, item_at, met, without, without_last};
ghost use Rattle.cache_node.specs.cache_items.Taken.{ChangesItems, with_change};
ghost use Rattle.cache_node.specs.cache_items.TakenEntry.{AppliesEntry, TakesEntry};
ghost use Rattle.cache_node.specs.True.{IsTrueNode};

use cache_node::changeset::Changeset;
use cache_node::maint_msg::Maint;
use cache_node::sealed_item::Fill;
use cache_node::{CacheNode, Delivered, Item, Kept, nodes_are_true};
use shard_log::Note;
use std::alloc::Global;
use std::marker::Model;
use tao_base::{Entry, Key, OutOfMemory, Query};
use tao_schema::Schema;

/// A leader: a cache node that asks its region's store itself. It opens no ask, so it forgets no mark.
#[derive(Drop)]
pub struct Leader {
    node: CacheNode,
}

impl Model for Leader {
    ghost use Rattle.cache_node.specs.cache_items.Node.{Node};

    ghost Value = { Node };

    ghost view = { λ l. l.node };
}

/// Every leader is true of the logs that it has seen, and holds no key twice.
pub fn leaders_are_true(leader: &Leader)
    ensures truth { IsTrueNode leader.now }
    ensures apart { IsDistinct same_key (keys_held leader.now.items) }
    ensures few { length leader.now.items ≤ leader.now.most }
    ensures asks { IsTable leader.now.asks }
{
    nodes_are_true(&leader.node);
}

impl Leader {
    /// A leader without items, with a mark and a note for each shard that it serves. The logs are told all, or
    /// none.
    pub fn make(
        alloc: Global,
        items: usize,
        served: &[u16],
        lows: &[u64],
        notes: Vec<Note>,
    ) -> Result<Leader, OutOfMemory>
        requires some { 1 ≤ items }
        requires each { length served.now ≡ length lows.now }
        requires reached { AreReached lows.now notes.items }
        requires alike { AreToldAlike notes.items }
        ensures { IfOk result (λ leader. leader ≡ empty_node items (begun_at served.now lows.now notes.items)) }
    {
        let node = CacheNode::make(alloc, items, served, lows, notes)?;
        Ok(Leader { node })
    }

    /// A second note of the log of a shard: what the leader has seen of it, in which its items are exact.
    pub fn note(&mut self, shard: u16) -> Result<Note, OutOfMemory>
        requires { IsSome (served_at shard self.old.served) }
        ensures same { self.new ≡ self.old }
        ensures view { IfOk result (λ note. view_at shard self.old.served ≡ Some note) }
    {
        self.node.note(shard)
    }

    /// The low-water mark of the shard: every position up to it was processed. 0 where the shard isn't
    /// served. Takes no memory.
    pub fn low(&self, shard: u16) -> u64
        ensures value { result ≡ low_at shard self.now.served }
        ensures marks { IfSome (served_at shard self.now.served) (λ s. IsLowWater s.marks) }
    {
        self.node.low(shard)
    }

    /// The item at the key. The order stays.
    pub fn item(&self, key: Key) -> Option<&Item>
        ensures { option_copied result ≡ item_at self.now.items key }
    {
        self.node.item(key)
    }

    /// Takes one touch of the log: an item of the version before it takes the change, an older one is
    /// dropped, and so is one for which there is no memory. Nothing is marked. A changeset of a shard that
    /// isn't served changes nothing.
    pub fn take_changeset(&mut self, schema: &Schema, change: Changeset)
        requires { IfSome (log_at (key_shard change.key) self.old.served) (λ log. log ≡ change.note.log) }
        ensures items { OnSome (served_at (key_shard change.key) self.old.served) (ChangesItems (types_of schema.now) change self.old.items self.new.items) }
        ensures node { OnSome (served_at (key_shard change.key) self.old.served) (self.new ≡ with_change change self.new.items self.old) }
        ensures unserved { IfNone (served_at (key_shard change.key) self.old.served) (self.new ≡ self.old) }
    {
        self.node.take_changeset(schema, change);
    }

    /// Applies an entry of the log that another node wrote: all its changesets, one after another, as
    /// `take_changeset` does, with one note. Nothing is marked, so the entry's message is processed when it comes.
    /// A leader of a slave region does so with a write that passed it on the way to the master.
    ///
    /// Only items that grow take memory, and one that finds none is dropped.
    pub fn apply_entry(&mut self, schema: &Schema, shard: u16, entry: &Entry, note: Note)
        requires log { log_at shard self.old.served ≡ Some note.log }
        requires stands { WhereTold note.log.told (entry_at note.entries entry.now.position ≡ Some entry.now) }
        requires here { WhereTold note.log.told (All (λ t. key_shard t.key ≡ shard) entry.now.touches) }
        ensures { AppliesEntry (types_of schema.now) shard entry.now note self.old self.new }
    {
        self.node.apply_entry(schema, shard, entry, note);
    }

    /// Processes a message: drops each named item that is below its version, and marks the position. No refill
    /// is queued.
    ///
    /// Whatever memory there is, the message is processed; a row for a dropped list is left out where
    /// none is found for it.
    pub fn deliver(&mut self, message: Maint) -> Delivered
        requires { log_at message.shard self.old.served ≡ Some message.note.log }
        ensures count { result.dropped ≡ drop_count self.old.items message.keys }
        ensures lists { AreSome result.lists (dropped_lists self.old.items message.keys) }
        ensures node { self.new ≡ delivered message self.old }
    {
        self.node.deliver(message)
    }

    /// Processes the entries of the log that follow the low-water mark. Takes no memory.
    pub fn catch_up(&mut self, shard: u16, entries: &[Entry], note: Note)
        requires log { log_at shard self.old.served ≡ Some note.log }
        requires next { WhereTold note.log.told (entries.now ≡ take (length entries.now) (drop (low_at shard self.old.served) note.entries)) }
        requires here { WhereTold note.log.told (All (λ e. All (λ t. key_shard t.key ≡ shard) e.touches) entries.now) }
        ensures { self.new ≡ caught_up shard entries.now (met shard note self.old) }
    {
        self.node.catch_up(shard, entries, note);
    }

    /// Drops the item at the key, and answers whether there was one. Takes no memory.
    pub fn evict(&mut self, key: Key) -> bool
        ensures held { result ≡ is_some (item_at self.old.items key) }
        ensures rest { self.new ≡ record self.old { items = without key self.old.items } }
    {
        self.node.evict(key)
    }

    /// Drops the item that was used least recently, and answers whether there was one. Takes no memory.
    pub fn evict_last(&mut self) -> bool
        ensures held { result ≡ is_some (last_entry self.old.items) }
        ensures rest { self.new ≡ record self.old { items = without_last self.old.items } }
    {
        self.node.evict_last()
    }

    /// Drops every item, and begins the shards anew at these positions, with these notes met. Takes no
    /// memory.
    pub fn reset(&mut self, lows: &[u64], notes: Vec<Note>)
        requires logs { AreNotesOf self.old.served notes.items }
        requires reached { AreReached lows.now notes.items }
        ensures { self.new ≡ emptied lows.now notes.items self.old }
    {
        self.node.reset(lows, notes);
    }

    /// A fill of the item of the query's key, where one is held that serves.
    pub(crate) fn serve(
        &mut self,
        schema: &Schema,
        query: &Query,
        floor: u64,
    ) -> Result<Option<Fill>, OutOfMemory>
        requires { IsSome (served_at (query_shard query.now) self.old.served) }
        ensures fill { IfOk result (HandsOn (types_of schema.now) self.old query.now floor) }
        ensures node { IfOk result (λ handed. self.new ≡ handed_on (query_key query.now) handed self.old) }
        ensures err { OnErr result (self.new ≡ self.old) }
    {
        self.node.serve(schema, query, floor)
    }

    /// Keeps a copy of the fill, where it is as of every position that is marked and there is memory.
    pub(crate) fn keep_copy(&mut self, fill: &mut Fill) -> Kept
        requires { log_at (key_shard fill.old.key) self.old.served ≡ Some fill.old.note.log }
        ensures fill { fill.new ≡ fill.old }
        ensures kept { GivesKept (own_kept_of (top_at (key_shard fill.old.key) self.old.served) fill.old.as_of) result }
        ensures node { self.new ≡ with_copy fill.old result self.old }
    {
        self.node.keep_copy(fill)
    }

    /// Takes all changesets of an entry, and marks its position.
    pub(crate) fn take_entry(&mut self, schema: &Schema, shard: u16, entry: &Entry, note: Note)
        requires log { log_at shard self.old.served ≡ Some note.log }
        requires stands { WhereTold note.log.told (entry_at note.entries entry.now.position ≡ Some entry.now) }
        requires here { WhereTold note.log.told (All (λ t. key_shard t.key ≡ shard) entry.now.touches) }
        ensures { TakesEntry (types_of schema.now) shard entry.now note self.old self.new }
    {
        self.node.take_entry(schema, shard, entry, note);
    }
}
