//! Nodes that drop an item, or all that they hold.
ghost use Rattle.node_stages.specs.Caches.{EvictsAs, IsEmptiedAs};
ghost use Rattle.node_stages.specs.Stages.{CacheDoes};
ghost use Rattle.served_shards.specs.Begun.{AreNotesOf, AreReached};

use crate::cache::Cache;
use shard_log::Note;
use tao_base::Key;

/// Drops the item at the key, or without a key the one that was used least recently.
fn drop_item<C: Cache>(cache: &mut C, key: Option<Key>) -> bool
    ensures { EvictsAs C.node C.refills key result cache.old cache.new }
{
    match key {
        Some(key) => cache.evict(key),
        None => cache.evict_last(),
    }
}

/// A node drops the item at the key, or without a key the one that was used least recently. Answers whether there was one. Takes no memory.
pub fn evict_from<C: Cache>(cache: &mut C, key: Option<Key>) -> bool
    ensures { CacheDoes C.node (EvictsAs C.node C.refills key result) cache.old cache.new }
{
    cache.is_true();
    let held = drop_item(cache, key);
    cache.is_true();
    held
}

/// A node loses all that it holds, and begins anew at these marks, with these notes of its logs. Takes no memory.
pub fn empty_out<C: Cache>(cache: &mut C, lows: &[u64], notes: Vec<Note>)
    requires logs { AreNotesOf (C.node cache.old).served notes.items }
    requires reached { AreReached lows.now notes.items }
    ensures { CacheDoes C.node (IsEmptiedAs C.node C.refills lows.now notes.items) cache.old cache.new }
{
    cache.is_true();
    cache.reset(lows, notes);
    cache.is_true();
}
