//! A leader or a follower as one kind of node: `Cache`.
use core_model::follower_cache::{Follower, Item, followers_are_true};
use core_model::leader_tier::{Leader, leaders_are_true};
use maint_msg::Maint;
use shard_log::Note;
use std::alloc::Global;
use tao_base::{Entry, Key, OutOfMemory};
use tao_schema::Schema;

/// A leader or a follower: a node with the refills that it has yet to ask for, of which a leader has none.
pub trait Cache {
    ghost use Rattle.std.specs.Prelude.{◌≡◌, ◌≤◌, IfOk, IfSome, IsSome, List, None, Some, drop, length, option_copied, take};
    ghost use Rattle.std.specs.List.{IsDistinct};
    ghost use Rattle.std.specs.Map.{keys_of as keys_held};
    ghost use Rattle.ask_table.specs.Asks.{IsTable};
    ghost use Rattle.cache_items.specs.Node.{Node, empty_node, item_at};
    ghost use Rattle.core_model.specs.cache_node.True.{IsTrueNode};
    ghost use Rattle.core_model.specs.Messages.{Processes};
    ghost use Rattle.core_model.specs.follower_cache.declared.queue.Refill.{Refill};
    ghost use Rattle.graph_model.specs.Told.{WhereTold};
    ghost use Rattle.node_stages.specs.Caches.{BeginsAs, ChangesAlone, DeliversAs, EvictsAs, IsEmptiedAs};
    ghost use Rattle.node_stages.specs.Catching.{TouchShard};
    ghost use Rattle.served_shards.specs.Begun.{AreNotesOf, AreReached, AreToldAlike, begun_at};
    ghost use Rattle.served_shards.specs.Served.{IsLowWater, log_at, low_at, served_at, view_at};
    ghost use Rattle.tao_base.specs.Keys.{same_key};
    ghost use Rattle.tao_schema.specs.Schema.{types_of};

    /// Its node.
    ghost node: { Self → Node };

    /// Its refills; a leader has none.
    ghost refills: { Self → List Refill };

    /// One without items, asks and refills, with a mark and a note for each shard that it serves. The logs are told all, or none.
    fn make(
        alloc: Global,
        items: usize,
        served: &[u16],
        lows: &[u64],
        notes: Vec<Note>,
    ) -> Result<Self, OutOfMemory>
        requires some { 1 ≤ items }
        requires each { length served.now ≡ length lows.now }
        requires reached { AreReached lows.now notes.items }
        requires alike { AreToldAlike notes.items }
        ensures { IfOk result (BeginsAs node refills (empty_node items (begun_at served.now lows.now notes.items))) };

    /// It is true of what it has seen, and what every node is: no key stands twice among its items, and its asks are a table.
    fn is_true(&self)
        ensures truth { IsTrueNode (node self.now) }
        ensures apart { IsDistinct same_key (keys_held (node self.now).items) }
        ensures asks { IsTable (node self.now).asks };

    /// The low-water mark of a shard; 0 where it isn't served.
    fn mark(&self, shard: u16) -> u64
        ensures value { result ≡ low_at shard (node self.now).served }
        ensures marks { IfSome (served_at shard (node self.now).served) (λ s. IsLowWater s.marks) };

    /// The item at the key. The order stays.
    fn item(&self, key: Key) -> Option<&Item>
        ensures { option_copied result ≡ item_at (node self.now).items key };

    /// A note of what it has seen of a shard's log.
    fn note(&mut self, shard: u16) -> Result<Note, OutOfMemory>
        requires served { IsSome (served_at shard (node self.old).served) }
        ensures view { IfOk result (λ note. view_at shard (node self.old).served ≡ Some note) }
        ensures same { self.new ≡ self.old };

    /// Processes a message: drops each named item that is below its version, raises the asks on the named keys, and marks the position. A
    /// follower queues a refill for each list that it dropped. Answers how many items it dropped.
    fn deliver(&mut self, schema: &Schema, message: Maint) -> u64
        requires { log_at message.shard (node self.old).served ≡ Some message.note.log }
        ensures { DeliversAs node refills (types_of schema.now) message result self.old self.new };

    /// Drops the item at the key, and answers whether there was one. Takes no memory.
    fn evict(&mut self, key: Key) -> bool
        ensures { EvictsAs node refills (Some key) result self.old self.new };

    /// Drops the item that was used least recently, and answers whether there was one. Takes no memory.
    fn evict_last(&mut self) -> bool
        ensures { EvictsAs node refills None result self.old self.new };

    /// Drops every item and refill, ends every ask, and begins the shards anew at these positions, with these notes met. Takes no memory.
    fn reset(&mut self, lows: &[u64], notes: Vec<Note>)
        requires logs { AreNotesOf (node self.old).served notes.items }
        requires reached { AreReached lows.now notes.items }
        ensures { IsEmptiedAs node refills lows.now notes.items self.old self.new };

    /// Processes the entries of a log that follow the low-water mark. Takes no memory.
    fn process(&mut self, shard: u16, entries: &[Entry], note: Note)
        requires log { log_at shard (node self.old).served ≡ Some note.log }
        requires next { WhereTold note.log.told (entries.now ≡ take (length entries.now) (drop (low_at shard (node self.old).served) note.entries)) }
        requires here { WhereTold note.log.told (TouchShard shard entries.now) }
        ensures { ChangesAlone node refills (Processes shard entries.now note) self.old self.new };
}

impl Cache for Leader {
    ghost use Rattle.node_stages.specs.Caches.{leader_node, leader_refills};

    ghost node = { leader_node };

    ghost refills = { leader_refills };

    fn make(
        alloc: Global,
        items: usize,
        served: &[u16],
        lows: &[u64],
        notes: Vec<Note>,
    ) -> Result<Leader, OutOfMemory> {
        let leader = Leader::make(alloc, items, served, lows, notes)?;
        leaders_are_true(&leader);
        Ok(leader)
    }

    fn is_true(&self) {
        leaders_are_true(self);
    }

    fn mark(&self, shard: u16) -> u64 {
        self.low(shard)
    }

    fn item(&self, key: Key) -> Option<&Item> {
        Leader::item(self, key)
    }

    fn note(&mut self, shard: u16) -> Result<Note, OutOfMemory> {
        Leader::note(self, shard)
    }

    #[tactic(auto, using(crate::proofs::Queueing::queues_none))]
    fn deliver(&mut self, schema: &Schema, message: Maint) -> u64 {
        let _ = schema;
        Leader::deliver(self, message).dropped
    }

    fn evict(&mut self, key: Key) -> bool {
        Leader::evict(self, key)
    }

    fn evict_last(&mut self) -> bool {
        Leader::evict_last(self)
    }

    fn reset(&mut self, lows: &[u64], notes: Vec<Note>) {
        Leader::reset(self, lows, notes);
    }

    fn process(&mut self, shard: u16, entries: &[Entry], note: Note) {
        self.catch_up(shard, entries, note);
    }
}

impl Cache for Follower {
    ghost use Rattle.node_stages.specs.Caches.{follower_node, follower_refills};

    ghost node = { follower_node };

    ghost refills = { follower_refills };

    fn make(
        alloc: Global,
        items: usize,
        served: &[u16],
        lows: &[u64],
        notes: Vec<Note>,
    ) -> Result<Follower, OutOfMemory> {
        let follower = Follower::make(alloc, items, served, lows, notes)?;
        followers_are_true(&follower);
        Ok(follower)
    }

    fn is_true(&self) {
        followers_are_true(self);
    }

    fn mark(&self, shard: u16) -> u64 {
        self.low(shard)
    }

    fn item(&self, key: Key) -> Option<&Item> {
        Follower::item(self, key)
    }

    fn note(&mut self, shard: u16) -> Result<Note, OutOfMemory> {
        Follower::note(self, shard)
    }

    fn deliver(&mut self, schema: &Schema, message: Maint) -> u64 {
        Follower::deliver(self, schema, message)
    }

    fn evict(&mut self, key: Key) -> bool {
        Follower::evict(self, key)
    }

    fn evict_last(&mut self) -> bool {
        Follower::evict_last(self)
    }

    fn reset(&mut self, lows: &[u64], notes: Vec<Note>) {
        Follower::reset(self, lows, notes);
    }

    fn process(&mut self, shard: u16, entries: &[Entry], note: Note) {
        self.catch_up(shard, entries, note);
    }
}
