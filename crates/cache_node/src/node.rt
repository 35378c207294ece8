//! A cache node: how it looks among its items, keeps what it is given, and takes in the entries and messages of its shards.
ghost use Rattle.std.specs.Prelude.{◌≡◌, ◌↔◌, ◌+◌, ◌-◌, ◌≤◌, ℕ, [], All, Some, if◌then◌else◌, drop, is_some, length, option_copied, take, true, IfNone, IfOk};
ghost use Rattle.std.specs.Prelude.{IfSome, IsNone, IsSome, IsTrue, OnErr, OnOk, OnSome};
ghost use Rattle.shard_log.specs.View.{Grows};
ghost use Rattle.std.specs.List.{IsDistinct};
ghost use Rattle.std.specs.Map.{keys_of as keys_held};
ghost use Rattle.lru.specs.LruCache.{last_entry, promoted};
ghost use Rattle.ask_table.specs.Asks.{IsTable, is_full};
ghost use Rattle.tao_base.specs.Queries.{query_key, query_shard};
ghost use Rattle.tao_base.specs.Keys.{key_shard, same_key};
ghost use Rattle.graph_model.specs.Told.{WhereTold};
ghost use Rattle.tao_schema.specs.Schema.{types_of};
ghost use Rattle.cache_node.specs.Answered.{LookAnswers, ViewAnswers};
ghost use Rattle.cache_items.specs.Delivered.{AreSome, dropped_lists};
ghost use Rattle.served_shards.specs.Begun.{AreNotesOf, AreReached, AreToldAlike, begun_at};
ghost use Rattle.cache_items.specs.Node.{empty_node, emptied, caught_up, delivered, drop_count, with_ended_ask, item_at, met, with_opened_ask, without};
ghost use Rattle.cache_items.specs.Node.{without_last};
ghost use Rattle.cache_items.specs.HandedOn.{HandsOn, handed_on, with_copy};
ghost use Rattle.std.specs.Option.{option_map};
ghost use Rattle.cache_items.specs.Kept.{GivesKept, ask_at, kept_of, own_kept_of, took};
ghost use Rattle.cache_items.specs.sealed_item.Decided.{content_answer, content_decides};
ghost use Rattle.cache_items.specs.Look.{look_of, looked_at};
ghost use Rattle.served_shards.specs.Served.{IsLowWater, log_at, low_at, served_at, top_at, view_at};
ghost use Rattle.cache_items.specs.Taken.{ChangesItems, with_change};
ghost use Rattle.cache_items.specs.TakenEntry.{AppliesEntry, TakesEntry};
ghost use Rattle.graph_model.specs.Log.{entry_at};
ghost use Rattle.cache_node.specs.True.{IsTrueNode};

use ask_table::AskNo;
use cache_items::changeset::Changeset;
use cache_items::changeset::laws::changesets_are_of_one_touch;
use cache_items::maint_msg::Maint;
use cache_items::maint_msg::laws::messages_name_entries;
use cache_items::sealed_item::Fill;
use cache_items::sealed_item::laws::fills_are_sealed;
use cache_items::{Delivered, Holdings, Item, Kept, Look};
use shard_log::Note;
use shard_log::growth::notes_are_sound;
use std::alloc::Global;
use std::marker::Model;
use tao_base::{Answer, Entry, Key, OutOfMemory, Query};
use tao_schema::Schema;

/// A cache node. It serves some shards, and holds at most so many items of them.
///
/// Where the log of a shard is told, each item of the shard is exact in what the node has seen of that
/// log, and takes in each touch of its key at a position that the node has processed; and the floors
/// of the open asks hold every touch since they began.
#[derive(Drop)]
pub struct CacheNode {
    holdings: Holdings,
}

impl Model for CacheNode {
    ghost use Rattle.cache_items.specs.Node.{Node};
    ghost use Rattle.cache_node.specs.True.{IsTrueNode};

    ghost Value = { Node };

    ghost view = { λ n. n.holdings };

    ghost invariant = { λ n. IsTrueNode n.holdings };
}

/// Every node is true of the logs that it has seen, and holds no key twice.
pub fn nodes_are_true(node: &CacheNode)
    ensures truth { IsTrueNode node.now }
    ensures apart { IsDistinct same_key (keys_held node.now.items) }
    ensures few { length node.now.items ≤ node.now.most }
    ensures asks { IsTable node.now.asks }
{
    node.holdings.keys_differ();
}

impl CacheNode {
    /// A node without items and asks, with a mark and a note for each shard that it serves. The logs are
    /// told all, or none, as the tables of a keeper are.
    pub fn make(
        alloc: Global,
        items: usize,
        served: &[u16],
        lows: &[u64],
        notes: Vec<Note>,
    ) -> Result<CacheNode, OutOfMemory>
        requires some { 1 ≤ items }
        requires each { length served.now ≡ length lows.now }
        requires reached { AreReached lows.now notes.items }
        requires alike { AreToldAlike notes.items }
        ensures { IfOk result (λ node. node ≡ empty_node items (begun_at served.now lows.now notes.items)) }
    {
        let holdings = Holdings::make(alloc, items, served, lows, notes)?;
        Ok(CacheNode { holdings })
    }

    /// A second note of the log of a shard: what the node has seen of it, in which its items are exact.
    pub fn note(&mut self, shard: u16) -> Result<Note, OutOfMemory>
        requires { IsSome (served_at shard self.old.served) }
        ensures same { self.new ≡ self.old }
        ensures view { IfOk result (λ note. view_at shard self.old.served ≡ Some note) }
    {
        self.holdings.note(shard)
    }

    /// The low-water mark of the shard: every position up to it was processed. 0 where the shard isn't
    /// served. Takes no memory.
    pub fn low(&self, shard: u16) -> u64
        ensures value { result ≡ low_at shard self.now.served }
        ensures marks { IfSome (served_at shard self.now.served) (λ s. IsLowWater s.marks) }
    {
        self.holdings.low(shard)
    }

    /// The item at the key. The order stays.
    pub fn item(&self, key: Key) -> Option<&Item>
        ensures { option_copied result ≡ item_at self.now.items key }
    {
        self.holdings.item(&key)
    }

    /// The answer to a query: a hit where the key's item has the floor's version or more and decides
    /// the query. That item then stands first; a miss leaves the order. Where there is no memory, nothing
    /// has changed.
    pub fn look(&mut self, schema: &Schema, query: &Query, floor: u64) -> Result<Look, OutOfMemory>
        ensures look { IfOk result (λ look. look ≡ look_of (types_of schema.now) (item_at self.old.items (query_key query.now)) query.now floor) }
        ensures node { IfOk result (λ look. self.new ≡ looked_at (query_key query.now) look self.old) }
        ensures err { OnErr result (self.new ≡ self.old) }
        ensures legal { IfOk result (LookAnswers (types_of schema.now) self.old.served query.now) }
    {
        self.holdings.keys_differ();
        self.holdings.look(schema, query, floor)
    }

    /// Opens an ask on the key, with the low-water mark of its shard and floor 0, and forgets what is
    /// marked ahead of that mark. None, and nothing changed, exactly where 256 are open or the numbers
    /// are used up. Takes no memory.
    pub fn begin_ask(&mut self, key: Key) -> Option<AskNo>
        requires { IsSome (served_at (key_shard key) self.old.served) }
        ensures full { IsNone result ↔ IsTrue (is_full self.old.asks) }
        ensures number { IfSome result (λ ask. ask ≡ self.old.asks.given + 1) }
        ensures begun { OnSome result (self.new ≡ with_opened_ask key self.old) }
        ensures none { IfNone result (self.new ≡ self.old) }
    {
        self.holdings.begin_ask(&key)
    }

    /// The key of an open ask. None exactly where it isn't open. Takes no memory.
    pub fn asked_key(&self, ask: AskNo) -> Option<Key>
        ensures { result ≡ option_map (λ a. a.key) (ask_at ask self.now.asks) }
    {
        self.holdings.asked_key(ask)
    }

    /// Ends an ask without a fill. One that isn't open is ignored. Takes no memory.
    pub fn end_ask(&mut self, ask: AskNo)
        ensures { self.new ≡ with_ended_ask (Some ask) self.old }
    {
        self.holdings.end_ask(ask);
    }

    /// Answers from the fill, and keeps it where its ask is open and it has the ask's mark and floor.
    /// The ask ends. A kept fill stands first, and raises the other asks on its key. The node has then seen what the fill's note has seen.
    ///
    /// The one error is that there is no memory for the answer: the ask has ended, and nothing else changed.
    pub fn take_fill(
        &mut self,
        schema: &Schema,
        ask: Option<AskNo>,
        query: &Query,
        fill: Fill,
    ) -> Result<(Answer, Kept), OutOfMemory>
        requires key { fill.key ≡ query_key query.now }
        requires decides { content_decides (types_of schema.now) fill.content query.now ≡ true }
        requires log { log_at (key_shard fill.key) self.old.served ≡ Some fill.note.log }
        requires ask { IfSome ask (λ no. IfSome (ask_at no self.old.asks) (λ a. a.key ≡ fill.key)) }
        ensures answer { IfOk result (λ r. r.0 ≡ content_answer (types_of schema.now) fill.content query.now) }
        ensures kept { IfOk result (λ r. GivesKept (kept_of ask self.old.asks fill.version fill.as_of) r.1) }
        ensures node { IfOk result (λ r. self.new ≡ took fill r.1 (with_ended_ask ask self.old)) }
        ensures meets { OnOk result (IfSome (view_at (key_shard fill.key) self.new.served) (Grows fill.note)) }
        ensures err { OnErr result (self.new ≡ with_ended_ask ask self.old) }
        ensures legal { IfOk result (λ r. ViewAnswers (types_of schema.now) fill.note query.now r.0 fill.version) }
    {
        fills_are_sealed(&fill);
        self.holdings.keys_differ();
        self.holdings.take_fill(schema, ask, query, fill)
    }

    /// Answers from the fill, and keeps it where it is as of every position that is marked. It needs no
    /// ask, and forgets no mark.
    ///
    /// The one error is that there is no memory for the answer, after which nothing has changed.
    pub fn keep_own(
        &mut self,
        schema: &Schema,
        query: &Query,
        fill: Fill,
    ) -> Result<(Answer, Kept), OutOfMemory>
        requires key { fill.key ≡ query_key query.now }
        requires decides { content_decides (types_of schema.now) fill.content query.now ≡ true }
        requires log { log_at (key_shard fill.key) self.old.served ≡ Some fill.note.log }
        ensures answer { IfOk result (λ r. r.0 ≡ content_answer (types_of schema.now) fill.content query.now) }
        ensures kept { IfOk result (λ r. GivesKept (own_kept_of (top_at (key_shard fill.key) self.old.served) fill.as_of) r.1) }
        ensures node { IfOk result (λ r. self.new ≡ took fill r.1 self.old) }
        ensures err { OnErr result (self.new ≡ self.old) }
        ensures legal { IfOk result (λ r. ViewAnswers (types_of schema.now) fill.note query.now r.0 fill.version) }
    {
        fills_are_sealed(&fill);
        self.holdings.keys_differ();
        self.holdings.keep_own(schema, query, fill)
    }

    /// A fill of the item of the query's key, for a cache above: cut to the shortest front that decides the
    /// query, at the item's version, as of the low-water mark of its shard. None exactly where no item is
    /// held that has the floor's version or more and such a front within the bound. The item then stands
    /// first.
    ///
    /// Copies what it hands on. The one error is out of memory, after which nothing has changed.
    pub fn serve(
        &mut self,
        schema: &Schema,
        query: &Query,
        floor: u64,
    ) -> Result<Option<Fill>, OutOfMemory>
        requires { IsSome (served_at (query_shard query.now) self.old.served) }
        ensures fill { IfOk result (HandsOn (types_of schema.now) self.old query.now floor) }
        ensures node { IfOk result (λ handed. self.new ≡ handed_on (query_key query.now) handed self.old) }
        ensures err { OnErr result (self.new ≡ self.old) }
    {
        self.holdings.keys_differ();
        match self.holdings.serve(schema, query, floor)? {
            Some(parts) => Ok(Some(parts.seal())),
            None => Ok(None),
        }
    }

    /// Keeps a copy of the fill, where it is as of every position that is marked and there is memory for the
    /// copy, by the rule of `keep_own`. The fill stays with the caller. Where it isn't kept nothing has
    /// changed.
    pub fn keep_copy(&mut self, fill: &mut Fill) -> Kept
        requires { log_at (key_shard fill.old.key) self.old.served ≡ Some fill.old.note.log }
        ensures fill { fill.new ≡ fill.old }
        ensures kept { GivesKept (own_kept_of (top_at (key_shard fill.old.key) self.old.served) fill.old.as_of) result }
        ensures node { self.new ≡ with_copy fill.old result self.old }
    {
        fills_are_sealed(fill);
        self.holdings.keys_differ();
        self.holdings.keep_copy(fill)
    }

    /// Takes one touch of the log: an item of the version before it takes the change, an older one is
    /// dropped, and so is one for which there is no memory. Raises the asks on its key. Nothing is
    /// marked. A changeset of a shard that isn't served changes nothing.
    pub fn take_changeset(&mut self, schema: &Schema, change: Changeset)
        requires { IfSome (log_at (key_shard change.key) self.old.served) (λ log. log ≡ change.note.log) }
        ensures items { OnSome (served_at (key_shard change.key) self.old.served) (ChangesItems (types_of schema.now) change self.old.items self.new.items) }
        ensures node { OnSome (served_at (key_shard change.key) self.old.served) (self.new ≡ with_change change self.new.items self.old) }
        ensures unserved { IfNone (served_at (key_shard change.key) self.old.served) (self.new ≡ self.old) }
    {
        changesets_are_of_one_touch(&change);
        if self.holdings.serves(&change.key()) {
            self.holdings.keys_differ();
            self.holdings.take_changeset(schema, change);
        }
    }

    /// Takes an entry of the log that the node's own side wrote: all its changesets, one after another, as
    /// `take_changeset` does, and then its position is marked, as that of a message. So an item of the
    /// version before a touch takes the change, an older one is dropped, and one that has the version stays.
    ///
    /// Only items that grow take memory, and one that finds none is dropped: whatever memory there is, the
    /// entry is processed.
    pub fn take_entry(&mut self, schema: &Schema, shard: u16, entry: &Entry, note: Note)
        requires log { log_at shard self.old.served ≡ Some note.log }
        requires stands { WhereTold note.log.told (entry_at note.entries entry.now.position ≡ Some entry.now) }
        requires here { WhereTold note.log.told (All (λ t. key_shard t.key ≡ shard) entry.now.touches) }
        ensures { TakesEntry (types_of schema.now) shard entry.now note self.old self.new }
    {
        notes_are_sound(&note);
        self.holdings.keys_differ();
        self.holdings.take_entry(schema, shard, entry, note);
    }

    /// Applies an entry of the log that was written on the node's behalf: all its changesets, one after another, as
    /// `take_changeset` does, with one note. Nothing is marked, so the entry's message is processed when it comes.
    ///
    /// Only items that grow take memory, and one that finds none is dropped.
    pub fn apply_entry(&mut self, schema: &Schema, shard: u16, entry: &Entry, note: Note)
        requires log { log_at shard self.old.served ≡ Some note.log }
        requires stands { WhereTold note.log.told (entry_at note.entries entry.now.position ≡ Some entry.now) }
        requires here { WhereTold note.log.told (All (λ t. key_shard t.key ≡ shard) entry.now.touches) }
        ensures { AppliesEntry (types_of schema.now) shard entry.now note self.old self.new }
    {
        notes_are_sound(&note);
        self.holdings.keys_differ();
        self.holdings.apply_entry(schema, shard, entry, note);
    }

    /// Processes a message: drops each named item that is below its version, raises the asks on the
    /// named keys, and marks the position.
    ///
    /// Whatever memory there is, the message is processed; a row for a dropped list is left out where
    /// none is found for it.
    pub fn deliver(&mut self, message: Maint) -> Delivered
        requires { log_at message.shard self.old.served ≡ Some message.note.log }
        ensures count { result.dropped ≡ drop_count self.old.items message.keys }
        ensures lists { AreSome result.lists (dropped_lists self.old.items message.keys) }
        ensures node { self.new ≡ delivered message self.old }
    {
        messages_name_entries(&message);
        self.holdings.keys_differ();
        self.holdings.deliver(message)
    }

    /// Processes the entries of the log that follow the low-water mark. Takes no memory.
    pub fn catch_up(&mut self, shard: u16, entries: &[Entry], note: Note)
        requires log { log_at shard self.old.served ≡ Some note.log }
        requires next { WhereTold note.log.told (entries.now ≡ take (length entries.now) (drop (low_at shard self.old.served) note.entries)) }
        requires here { WhereTold note.log.told (All (λ e. All (λ t. key_shard t.key ≡ shard) e.touches) entries.now) }
        ensures { self.new ≡ caught_up shard entries.now (met shard note self.old) }
    {
        notes_are_sound(&note);
        self.holdings.keys_differ();
        self.holdings.meet(shard, note);
        self.holdings.catch_up(shard, entries);
    }

    /// Drops the item at the key, and answers whether there was one. Takes no memory.
    pub fn evict(&mut self, key: Key) -> bool
        ensures held { result ≡ is_some (item_at self.old.items key) }
        ensures rest { self.new ≡ record self.old { items = without key self.old.items } }
    {
        self.holdings.keys_differ();
        self.holdings.evict(&key)
    }

    /// Drops the item that was used least recently, and answers whether there was one. Takes no
    /// memory.
    pub fn evict_last(&mut self) -> bool
        ensures held { result ≡ is_some (last_entry self.old.items) }
        ensures rest { self.new ≡ record self.old { items = without_last self.old.items } }
    {
        self.holdings.keys_differ();
        self.holdings.evict_last()
    }

    /// Drops every item, ends every ask, and begins anew at these marks, with these notes met. Takes no
    /// memory.
    pub fn reset(&mut self, lows: &[u64], notes: Vec<Note>)
        requires logs { AreNotesOf self.old.served notes.items }
        requires reached { AreReached lows.now notes.items }
        ensures { self.new ≡ emptied lows.now notes.items self.old }
    {
        self.holdings.reset(lows, notes);
    }
}
