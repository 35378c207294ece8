//! `Holdings`, what a node holds.
ghost use Rattle.std.specs.Prelude.{◌≡◌, ◌↔◌, ◌+◌, ◌-◌, ◌^◌, ◌<◌, ◌≤◌, ℕ, [], Some, if◌then◌else◌, is_some, length, map, option_copied, take, true, IfNone};
ghost use Rattle.std.specs.Prelude.{IfOk, IfSome, IsNone, IsSome, IsTrue, OnErr, OnOk, OnSome};
ghost use Rattle.std.specs.Bool.{OnTrue};
ghost use Rattle.std.specs.List.{IsDistinct};
ghost use Rattle.std.specs.Map.{keys_of as keys_held};
ghost use Rattle.lru.specs.LruCache.{last_entry, lru_cache, promoted, put_entries};
ghost use Rattle.ask_table.specs.Asks.{IsTable, is_full, with_ask, with_floor};
ghost use Rattle.tao_base.specs.Queries.{query_key, query_shard};
ghost use Rattle.tao_base.specs.Keys.{key_shard, same_key};
ghost use Rattle.sealed_item.specs.tao_schema.Schema.{types_of};
ghost use Rattle.cache_items.specs.Delivered.{AddsRow, AreSome, dropped_lists, row_of, stale_row};
ghost use Rattle.served_shards.specs.Begun.{AreNotesOf, AreReached, begun_at};
ghost use Rattle.cache_items.specs.Node.{empty_node, emptied, caught_up, delivered, drop_count, dropped, with_ended_ask, item_at, is_stale as is_stale_word};
ghost use Rattle.cache_items.specs.Node.{met, processed, raised_all, with_opened_ask, without, without_last, without_stale};
ghost use Rattle.cache_items.specs.HandedOn.{HandsOn, IsFrontHeld, IsOfNode, handed_on, with_copy};
ghost use Rattle.std.specs.Option.{option_map};
ghost use Rattle.cache_items.specs.Kept.{GivesKept, ask_at, admits as admits_word, is_yes, item_of, kept_items, kept_of, own_kept_of, stays, took, with_item};
ghost use Rattle.sealed_item.specs.Decided.{content_answer, content_decides};
ghost use Rattle.cache_items.specs.Look.{look_of, looked_at};
ghost use Rattle.served_shards.specs.Meetings.{AreSeenSound, MeetEach, MeetsAt};
ghost use Rattle.served_shards.specs.Served.{IsLowWater, changed_at, forgetting, log_at, low_at, marking, served_at, top_at, view_at};
ghost use Rattle.cache_items.specs.Taken.{ChangesItems, TakesChange, with_change};
ghost use Rattle.cache_items.specs.TakenEntry.{AppliesEntry, TakesEntry, TakesTouches};
ghost use Rattle.maint_msg.specs.KeyVersions.{key_version, keys_of};
ghost use Rattle.changeset.specs.Changes.{change_by, seen_change};
ghost use Rattle.served_shards.specs.shard_log.View.{View};

use crate::delivered::{Delivered, DroppedLists};
use crate::item::Item;
use crate::look::{Kept, Look};
use crate::unsealed::Unsealed;
use ask_table::{AskNo, AskTable};
use changeset::Changeset;
use lru::LruCache;
use maint_msg::{KeyVersion, Maint};
use sealed_item::Fill;
use sealed_item::tao_schema::Schema;
use served_shards::ServedShards;
use served_shards::shard_log::Note;
use std::alloc::Global;
use std::marker::Model;
use std::num::NonZeroUsize;
use tao_base::{Answer, Change, Entry, Key, OutOfMemory, Query, Touch};

/// The items of a node, the most recently used first, with its asks and the shards that it serves.
#[derive(Drop)]
pub struct Holdings {
    items: LruCache<Key, Item>,
    asks: AskTable,
    shards: ServedShards,
}

impl Model for Holdings {
    ghost use Rattle.cache_items.specs.Node.{Node};

    ghost Value = { Node };

    ghost use Rattle.cache_items.specs.NodeView.{node_seen};

    ghost view = { node_seen };
}

impl Holdings {
    /// Nothing is held and no ask is open, and everything up to these positions is processed.
    ///
    /// Takes the memory of the asks and of a window of marks for each shard. The one error is out of
    /// memory.
    pub fn make(
        alloc: Global,
        items: usize,
        served: &[u16],
        lows: &[u64],
        notes: Vec<Note>,
    ) -> Result<Holdings, OutOfMemory>
        requires some { 1 ≤ items }
        requires each { length served.now ≡ length lows.now }
        requires reached { AreReached lows.now notes.items }
        ensures node { IfOk result (λ node. node ≡ empty_node items (begun_at served.now lows.now notes.items)) }
        ensures sound { IfOk result (λ node. AreSeenSound node.served) }
    {
        let shards = ServedShards::begin(alloc, served, lows, notes)?;
        let asks = AskTable::make(alloc)?;
        let Some(most) = NonZeroUsize::new(items) else {
            unreachable!()
        };
        Ok(Holdings {
            items: LruCache::sparse(alloc, most)?,
            asks,
            shards,
        })
    }

    /// No key is held twice, no more is held than may be, and the asks are a table.
    pub fn keys_differ(&self)
        ensures apart { IsDistinct same_key (keys_held self.now.items) }
        ensures few { length self.now.items ≤ self.now.most }
        ensures asks { IsTable self.now.asks }
    {
        let _ = self.items.len();
        let _ = self.asks.is_full();
    }

    /// A second note of the log of a served shard. The one error is out of memory.
    pub fn note(&mut self, shard: u16) -> Result<Note, OutOfMemory>
        requires { IsSome (served_at shard self.old.served) }
        ensures same { self.new ≡ self.old }
        ensures view { IfOk result (λ note. view_at shard self.old.served ≡ Some note) }
    {
        self.shards.split(shard)
    }

    /// The low-water mark of the shard, 0 where it isn't served.
    pub fn low(&self, shard: u16) -> u64
        ensures value { result ≡ low_at shard self.now.served }
        ensures marks { IfSome (served_at shard self.now.served) (λ s. IsLowWater s.marks) }
    {
        self.shards.low(shard)
    }

    // The greatest marked position of the shard, 0 where it isn't served.
    fn top(&self, shard: u16) -> u64
        ensures { result ≡ top_at shard self.now.served }
    {
        self.shards.top(shard)
    }

    /// Whether the shard of the key is served.
    pub fn serves(&self, key: &Key) -> bool
        ensures { result ≡ is_some (served_at (key_shard key.now) self.now.served) }
    {
        self.shards.serves(key.shard())
    }

    /// The item at the key.
    pub fn item(&self, key: &Key) -> Option<&Item>
        ensures { option_copied result ≡ item_at self.now.items key.now }
    {
        self.items.peek(key)
    }

    /// Drops the item at the key, and answers whether there was one. Takes no memory.
    pub fn evict(&mut self, key: &Key) -> bool
        ensures held { result ≡ is_some (item_at self.old.items key.now) }
        ensures rest { self.new ≡ record self.old { items = without key.now self.old.items } }
    {
        self.items.pop(key).is_some()
    }

    /// Drops the last item, and answers whether there was one. Takes no memory.
    pub fn evict_last(&mut self) -> bool
        ensures held { result ≡ is_some (last_entry self.old.items) }
        ensures rest { self.new ≡ record self.old { items = without_last self.old.items } }
    {
        self.items.pop_lru().is_some()
    }

    /// The answer to a query, where the item of its key has the version or more and decides it. That
    /// item then stands first. The one error is that there is no memory for the answer.
    pub fn look(&mut self, schema: &Schema, query: &Query, floor: u64) -> Result<Look, OutOfMemory>
        ensures look { IfOk result (λ look. look ≡ look_of (types_of schema.now) (item_at self.old.items (query_key query.now)) query.now floor) }
        ensures node { IfOk result (λ look. self.new ≡ looked_at (query_key query.now) look self.old) }
        ensures err { OnErr result (self.new ≡ self.old) }
    {
        let key = query.key();
        let look = self.find(&key, schema, query, floor)?;
        if let Look::Hit { .. } = &look {
            self.promote(&key);
        }
        Ok(look)
    }

    // The same, and nothing moves.
    fn find(
        &self,
        key: &Key,
        schema: &Schema,
        query: &Query,
        floor: u64,
    ) -> Result<Look, OutOfMemory>
        ensures { IfOk result (λ look. look ≡ look_of (types_of schema.now) (item_at self.now.items key.now) query.now floor) }
    {
        match self.item(key) {
            Some(item) => item.look(schema, query, floor),
            None => Ok(Look::Miss),
        }
    }

    // Brings the item at the key to the front.
    fn promote(&mut self, key: &Key)
        ensures { self.new ≡ record self.old { items = promoted (same_key key.now) self.old.items } }
    {
        self.items.promote(key);
    }

    /// Opens an ask on the key, and forgets what is marked ahead at its shard. Takes no memory.
    pub fn begin_ask(&mut self, key: &Key) -> Option<AskNo>
        ensures full { IsNone result ↔ IsTrue (is_full self.old.asks) }
        ensures number { IfSome result (λ ask. ask ≡ self.old.asks.given + 1) }
        ensures begun { OnSome result (self.new ≡ with_opened_ask key.now self.old) }
        ensures none { IfNone result (self.new ≡ self.old) }
    {
        let shard = key.shard();
        let low = self.low(shard);
        let ask = self.asks.begin(*key, low)?;
        self.shards.forget_ahead(shard);
        Some(ask)
    }

    /// The key of an open ask. None exactly where it isn't open. Takes no memory.
    pub fn asked_key(&self, ask: AskNo) -> Option<Key>
        ensures { result ≡ option_map (λ a. a.key) (ask_at ask self.now.asks) }
    {
        self.asks.key_of(ask)
    }

    /// Ends an ask, where it is open. Takes no memory.
    pub fn end_ask(&mut self, ask: AskNo)
        ensures { self.new ≡ with_ended_ask (Some ask) self.old }
    {
        self.asks.end(ask);
    }

    /// Answers from the fill, and keeps it where its ask admits it. The ask ends. The one error is that
    /// there is no memory for the answer.
    pub fn take_fill(
        &mut self,
        schema: &Schema,
        ask: Option<AskNo>,
        query: &Query,
        fill: Fill,
    ) -> Result<(Answer, Kept), OutOfMemory>
        requires decides { content_decides (types_of schema.now) fill.content query.now ≡ true }
        requires log { IfSome (log_at (key_shard fill.key) self.old.served) (λ log. log ≡ fill.note.log) }
        ensures answer { IfOk result (λ r. r.0 ≡ content_answer (types_of schema.now) fill.content query.now) }
        ensures kept { IfOk result (λ r. GivesKept (kept_of ask self.old.asks fill.version fill.as_of) r.1) }
        ensures node { IfOk result (λ r. self.new ≡ took fill r.1 (with_ended_ask ask self.old)) }
        ensures meets { IfOk result (λ r. MeetsAt (key_shard fill.key) fill.note self.old.served) }
        ensures err { OnErr result (self.new ≡ with_ended_ask ask self.old) }
    {
        let admitted = self.admit(ask, fill.version(), fill.as_of());
        let answer = fill.content().answer(schema, query)?;
        let kept = self.keep(admitted, fill);
        Ok((answer, kept))
    }

    /// Answers from the fill, and keeps it where it is as of every marked position. The one error is
    /// that there is no memory for the answer.
    pub fn keep_own(
        &mut self,
        schema: &Schema,
        query: &Query,
        fill: Fill,
    ) -> Result<(Answer, Kept), OutOfMemory>
        requires decides { content_decides (types_of schema.now) fill.content query.now ≡ true }
        requires log { IfSome (log_at (key_shard fill.key) self.old.served) (λ log. log ≡ fill.note.log) }
        ensures answer { IfOk result (λ r. r.0 ≡ content_answer (types_of schema.now) fill.content query.now) }
        ensures kept { IfOk result (λ r. GivesKept (own_kept_of (top_at (key_shard fill.key) self.old.served) fill.as_of) r.1) }
        ensures node { IfOk result (λ r. self.new ≡ took fill r.1 self.old) }
        ensures meets { IfOk result (λ r. MeetsAt (key_shard fill.key) fill.note self.old.served) }
        ensures err { OnErr result (self.new ≡ self.old) }
    {
        let admitted = admits_own(self.top(fill.key().shard()), fill.as_of());
        let answer = fill.content().answer(schema, query)?;
        let kept = self.keep(admitted, fill);
        Ok((answer, kept))
    }

    /// A fill of the item of the query's key, cut to the shortest front that decides the query, where the
    /// item has the version or more and has such a front: at the item's version, as of the low-water mark
    /// of its shard. That item then stands first. The one error is out of memory, after which nothing
    /// has changed.
    pub fn serve(
        &mut self,
        schema: &Schema,
        query: &Query,
        floor: u64,
    ) -> Result<Option<Unsealed>, OutOfMemory>
        requires { IsSome (served_at (query_shard query.now) self.old.served) }
        ensures fill { IfOk result (HandsOn (types_of schema.now) self.old query.now floor) }
        ensures node { IfOk result (λ handed. self.new ≡ handed_on (query_key query.now) handed self.old) }
        ensures err { OnErr result (self.new ≡ self.old) }
    {
        let key = query.key();
        match self.find_front(&key, schema, query, floor)? {
            Some(item) => Ok(Some(self.hand_on(&key, item)?)),
            None => Ok(None),
        }
    }

    // What is held at the key, cut to the shortest front that decides the query.
    fn find_front(
        &self,
        key: &Key,
        schema: &Schema,
        query: &Query,
        floor: u64,
    ) -> Result<Option<Item>, OutOfMemory>
        ensures { IfOk result (IsFrontHeld (types_of schema.now) query.now floor (item_at self.now.items key.now)) }
    {
        match self.item(key) {
            Some(item) => item.front(schema, query, floor),
            None => Ok(None),
        }
    }

    // The parts of a fill of the key, whose item then stands first.
    fn hand_on(&mut self, key: &Key, item: Item) -> Result<Unsealed, OutOfMemory>
        requires { IsSome (served_at (key_shard key.now) self.old.served) }
        ensures item { IfOk result (λ fill. item_of fill ≡ item) }
        ensures fill { IfOk result (IsOfNode self.old key.now) }
        ensures node { OnOk result (self.new ≡ record self.old { items = promoted (same_key key.now) self.old.items }) }
        ensures err { OnErr result (self.new ≡ self.old) }
    {
        let shard = key.shard();
        let note = self.note(shard)?;
        let as_of = self.low(shard);
        self.promote(key);
        Ok(Unsealed {
            key: *key,
            version: item.version,
            as_of,
            content: item.content,
            note,
        })
    }

    /// Keeps a copy of the fill, where it is as of every marked position and there is memory for the copy.
    /// The fill stays. Where it isn't kept nothing has changed.
    pub fn keep_copy(&mut self, fill: &mut Fill) -> Kept
        requires { IfSome (log_at (key_shard fill.old.key) self.old.served) (λ log. log ≡ fill.old.note.log) }
        ensures fill { fill.new ≡ fill.old }
        ensures kept { GivesKept (own_kept_of (top_at (key_shard fill.old.key) self.old.served) fill.old.as_of) result }
        ensures node { self.new ≡ with_copy fill.old result self.old }
        ensures meets { OnTrue (is_yes result) (MeetsAt (key_shard fill.old.key) fill.old.note self.old.served) }
    {
        match admits_own(self.top(fill.key().shard()), fill.as_of()) {
            Kept::Yes => match self.put_copy(fill) {
                Ok(()) => Kept::Yes,
                Err(OutOfMemory) => Kept::Memory,
            },
            other => other,
        }
    }

    // Puts a copy of the fill's content first, and then meets a copy of its note.
    fn put_copy(&mut self, fill: &mut Fill) -> Result<(), OutOfMemory>
        requires { IfSome (log_at (key_shard fill.old.key) self.old.served) (λ log. log ≡ fill.old.note.log) }
        ensures fill { fill.new ≡ fill.old }
        ensures ok { OnOk result (self.new ≡ took fill.old Kept.Yes self.old) }
        ensures meets { OnOk result (MeetsAt (key_shard fill.old.key) fill.old.note self.old.served) }
        ensures err { OnErr result (self.new ≡ self.old) }
    {
        let copy = fill.split()?;
        let (key, version, _, content, note) = copy.into_parts();
        self.put(&key, Item { version, content })?;
        self.meet(key.shard(), note);
        Ok(())
    }

    // Ends the ask, and says whether it admits the fill.
    fn admit(&mut self, ask: Option<AskNo>, version: u64, as_of: u64) -> Kept
        ensures kept { result ≡ kept_of ask self.old.asks version as_of }
        ensures asks { self.new ≡ with_ended_ask ask self.old }
    {
        let Some(ask) = ask else {
            return Kept::Asks;
        };
        match self.asks.end(ask) {
            None => Kept::Lost,
            Some((_, mark, floor)) => admits(mark, floor, version, as_of),
        }
    }

    // Keeps the fill where it is admitted and there is memory, and meets its note.
    fn keep(&mut self, admitted: Kept, fill: Fill) -> Kept
        requires { IfSome (log_at (key_shard fill.key) self.old.served) (λ log. log ≡ fill.note.log) }
        ensures kept { GivesKept admitted result }
        ensures node { self.new ≡ took fill result self.old }
        ensures meets { MeetsAt (key_shard fill.key) fill.note self.old.served }
    {
        let (key, version, _, content, note) = fill.into_parts();
        self.meet(key.shard(), note);
        match admitted {
            Kept::Yes => match self.put(&key, Item { version, content }) {
                Ok(()) => Kept::Yes,
                Err(OutOfMemory) => Kept::Memory,
            },
            other => other,
        }
    }

    // Puts the item first, where no longer one of its version is held, and raises the asks on its key.
    fn put(&mut self, key: &Key, item: Item) -> Result<(), OutOfMemory>
        ensures ok { OnOk result (self.new ≡ with_item key.now item self.old) }
        ensures err { OnErr result (self.new ≡ self.old) }
    {
        let version = item.version;
        if self.holds_longer(key, &item) {
            self.promote(key);
        } else {
            self.put_first(key, item)?;
        }
        self.asks.raise(*key, version);
        Ok(())
    }

    // Puts the item first, in place of the one that is held at its key.
    fn put_first(&mut self, key: &Key, item: Item) -> Result<(), OutOfMemory>
        ensures ok { OnOk result (self.new ≡ record self.old { items = put_entries same_key (lru_cache self.old.items self.old.most) key.now item }) }
        ensures err { OnErr result (self.new ≡ self.old) }
    {
        match self.items.put(*key, item) {
            Ok(_) => Ok(()),
            Err(_) => Err(OutOfMemory),
        }
    }

    // Whether a longer list of the item's version is held at the key.
    fn holds_longer(&self, key: &Key, item: &Item) -> bool
        ensures { result ≡ stays (item_at self.now.items key.now) item.now }
    {
        match self.item(key) {
            Some(old) => old.version == item.version && old.content.is_longer(&item.content),
            None => false,
        }
    }

    /// Meets a note of the shard's log, where the shard is served. Takes no memory.
    pub fn meet(&mut self, shard: u16, note: Note)
        requires { IfSome (log_at shard self.old.served) (λ log. log ≡ note.log) }
        ensures node { self.new ≡ met shard note self.old }
        ensures meets { MeetsAt shard note self.old.served }
    {
        self.shards.meet(shard, note);
    }

    /// Takes one touch of a log: what it does to the key's item is done, or the item is dropped, and the
    /// asks on the key are raised.
    pub fn take_changeset(&mut self, schema: &Schema, change: Changeset)
        requires { IfSome (log_at (key_shard change.key) self.old.served) (λ log. log ≡ change.note.log) }
        ensures items { ChangesItems (types_of schema.now) change self.old.items self.new.items }
        ensures node { self.new ≡ with_change change self.new.items self.old }
        ensures meets { MeetsAt (key_shard change.key) change.note self.old.served }
        ensures bits { change.after < 2 ^ 64 }
    {
        let (key, before, after, done, note) = change.into_parts();
        self.change_item(&key, before, after, &done, schema.bound_of(&key));
        self.asks.raise(key, after);
        self.meet(key.shard(), note);
    }

    // Lets the item at the key take the change, and drops it where that can't be.
    fn change_item(&mut self, key: &Key, before: u64, after: u64, change: &Change, bound: u64)
        requires { after ≡ before + 1 }
        ensures items { (note : View)
            → TakesChange bound (item_at self.old.items key.now) (seen_change key.now before after change.now note) self.old.items self.new.items }
        ensures others { self.new ≡ record self.old { items = self.new.items } }
    {
        let stays = match self.items.peek_mut(key) {
            Some(item) => item.take(before, after, change, bound),
            None => return,
        };
        if !stays {
            self.evict(key);
        }
    }

    /// Takes an entry that the node's own side wrote: lets the items take what its touches do, as changesets,
    /// raises the asks on the touched keys, and marks the position. Only items that grow take memory, and one
    /// that finds none is dropped.
    pub fn take_entry(&mut self, schema: &Schema, shard: u16, entry: &Entry, note: Note)
        requires { IfSome (log_at shard self.old.served) (λ log. log ≡ note.log) }
        ensures entry { TakesEntry (types_of schema.now) shard entry.now note self.old self.new }
        ensures meets { MeetsAt shard note self.old.served }
    {
        self.apply_entry(schema, shard, entry, note);
        self.mark(shard, entry.position);
    }

    /// Applies an entry that the node's own side wrote, as `take_entry` does, and marks nothing: its message is
    /// still to come.
    pub fn apply_entry(&mut self, schema: &Schema, shard: u16, entry: &Entry, note: Note)
        requires { IfSome (log_at shard self.old.served) (λ log. log ≡ note.log) }
        ensures entry { AppliesEntry (types_of schema.now) shard entry.now note self.old self.new }
        ensures meets { MeetsAt shard note self.old.served }
    {
        self.meet(shard, note);
        self.change_items(schema, entry.touches.as_slice());
    }

    // Lets the items take what the touches do, and raises the asks on their keys.
    fn change_items(&mut self, schema: &Schema, touches: &[Touch])
        ensures items { (note : View) → TakesTouches (types_of schema.now) note touches.now self.old.items self.new.items }
        ensures node { self.new
            ≡ record self.old {
              items = self.new.items;
              asks = raised_all (map key_version touches.now) self.old.asks;
            } }
    {
        for touch in touches {
            self.change_touched(schema, touch);
        }
    }

    // Lets the item at the touched key take what the touch does, and raises the asks on the key.
    fn change_touched(&mut self, schema: &Schema, touch: &Touch)
        ensures items { (note : View) → ChangesItems (types_of schema.now) (change_by touch.now note) self.old.items self.new.items }
        ensures node { self.new
            ≡ record self.old {
              items = self.new.items;
              asks = with_floor touch.now.key touch.now.version self.old.asks;
            } }
    {
        let before = touch.version.saturating_sub(1);
        let bound = schema.bound_of(&touch.key);
        self.change_item(&touch.key, before, before + 1, &touch.change, bound);
        self.raise(&touch.key, touch.version);
    }

    /// Processes a message: drops the named items that are below their versions, raises the asks on the
    /// named keys, marks the position. Only rows of dropped lists take memory, where there is some.
    pub fn deliver(&mut self, message: Maint) -> Delivered
        requires { IfSome (log_at message.shard self.old.served) (λ log. log ≡ message.note.log) }
        ensures count { result.dropped ≡ drop_count self.old.items message.keys }
        ensures lists { AreSome result.lists (dropped_lists self.old.items message.keys) }
        ensures node { self.new ≡ delivered message self.old }
        ensures meets { MeetsAt message.shard message.note self.old.served }
    {
        let (shard, position, keys, note) = message.into_parts();
        self.meet(shard, note);
        let delivered = self.drop_named(keys.as_slice());
        self.raise_named(keys.as_slice());
        self.mark(shard, position);
        delivered
    }

    // Drops the named items that are below their versions, with the rows for which there is memory.
    fn drop_named(&mut self, keys: &[KeyVersion]) -> Delivered
        ensures count { result.dropped ≡ drop_count self.old.items keys.now }
        ensures lists { AreSome result.lists (dropped_lists self.old.items keys.now) }
        ensures node { self.new ≡ record self.old { items = dropped self.old.items keys.now } }
    {
        let mut rows = DroppedLists::none(*self.items.allocator());
        let mut count = 0;
        for touched in keys {
            count += self.drop_stale(touched, &mut rows);
        }
        Delivered {
            dropped: count,
            lists: rows,
        }
    }

    // Drops the item where it is below the version, with a row where it is a list. How many it dropped.
    fn drop_stale(&mut self, touched: &KeyVersion, rows: &mut DroppedLists) -> u64
        ensures stale { result ≡ (if is_stale_word self.old.items touched.now then 1 else 0) }
        ensures one { result ≤ 1 }
        ensures node { self.new ≡ record self.old { items = without_stale touched.now self.old.items } }
        ensures rows { AddsRow (stale_row self.old.items touched.now) rows.old rows.new }
    {
        if !self.is_stale(&touched.key, touched.version) {
            return 0;
        }
        self.drop_with_row(touched, rows);
        1
    }

    // Drops the item at the touched key, with a row where it is a list.
    fn drop_with_row(&mut self, touched: &KeyVersion, rows: &mut DroppedLists)
        ensures node { self.new ≡ record self.old { items = without touched.now.key self.old.items } }
        ensures rows { AddsRow (row_of touched.now (item_at self.old.items touched.now.key)) rows.old rows.new }
    {
        let item = self.items.pop(&touched.key);
        rows.add(touched, &item);
    }

    // Whether the item at the key is below the version.
    fn is_stale(&self, key: &Key, version: u64) -> bool
        ensures { result ≡ is_stale_word self.now.items (record { key = key.now; version = version }) }
    {
        match self.item(key) {
            Some(item) => item.version < version,
            None => false,
        }
    }

    // Raises the asks on the named keys to their versions.
    fn raise_named(&mut self, keys: &[KeyVersion])
        ensures { self.new ≡ record self.old { asks = raised_all keys.now self.old.asks } }
    {
        for touched in keys {
            self.raise(&touched.key, touched.version);
        }
    }

    // Raises the asks on the key to the version.
    fn raise(&mut self, key: &Key, version: u64)
        ensures { self.new ≡ record self.old { asks = with_floor key.now version self.old.asks } }
    {
        self.asks.raise(*key, version);
    }

    // Marks a position of the shard.
    fn mark(&mut self, shard: u16, position: u64)
        ensures { self.new ≡ record self.old { served = changed_at shard (marking position) self.old.served } }
    {
        self.shards.mark(shard, position);
    }

    /// Processes entries of the shard's log, one after the other. Takes no memory.
    pub fn catch_up(&mut self, shard: u16, entries: &[Entry])
        ensures { self.new ≡ caught_up shard entries.now self.old }
    {
        for entry in entries {
            self.process(shard, entry);
        }
    }

    // Processes an entry.
    fn process(&mut self, shard: u16, entry: &Entry)
        ensures { self.new ≡ processed shard entry.now.position (keys_of entry.now) self.old }
    {
        self.take_touches(entry.touches.as_slice());
        self.mark(shard, entry.position);
    }

    // Drops what is below the touches' versions, and raises the asks on their keys.
    fn take_touches(&mut self, touches: &[Touch])
        ensures { self.new
            ≡ record self.old {
              items = dropped self.old.items (map key_version touches.now);
              asks = raised_all (map key_version touches.now) self.old.asks;
            } }
    {
        for touch in touches {
            self.drop_below(&touch.key, touch.version);
            self.raise(&touch.key, touch.version);
        }
    }

    // Drops the item at the key where it is below the version.
    fn drop_below(&mut self, key: &Key, version: u64)
        ensures { self.new ≡ record self.old { items = without_stale (record { key = key.now; version = version }) self.old.items } }
    {
        if self.is_stale(key, version) {
            self.evict(key);
        }
    }

    /// Drops every item, ends every ask, and begins the shards anew at these positions, with these notes
    /// met. Takes no memory.
    pub fn reset(&mut self, lows: &[u64], notes: Vec<Note>)
        requires logs { AreNotesOf self.old.served notes.items }
        requires reached { AreReached lows.now notes.items }
        ensures node { self.new ≡ emptied lows.now notes.items self.old }
        ensures meets { MeetEach self.old.served notes.items }
    {
        self.items.clear();
        self.asks.end_all();
        self.shards.restart(lows, notes);
    }
}

/// Whether an ask of this mark and floor admits a fill of this version as of this length.
fn admits(mark: u64, floor: u64, version: u64, as_of: u64) -> Kept
    ensures { result ≡ admits_word mark floor version as_of }
{
    if as_of < mark {
        Kept::Mark {
            have: as_of,
            need: mark,
        }
    } else if version < floor {
        Kept::Floor {
            have: version,
            need: floor,
        }
    } else {
        Kept::Yes
    }
}

/// Whether a node keeps its own store's fill as of this length, the greatest marked position being this.
fn admits_own(top: u64, as_of: u64) -> Kept
    ensures { result ≡ own_kept_of top as_of }
{
    if as_of < top {
        Kept::Mark {
            have: as_of,
            need: top,
        }
    } else {
        Kept::Yes
    }
}
