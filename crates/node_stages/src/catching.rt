//! A node processes the rest of the log of a store.
ghost use Rattle.std.specs.Prelude.{◌≡◌, ◌≤◌, ◌++◌, ◌∷◌, [], IfErr, IfOk, OnErr, OnOk, Some, drop, length, take};
ghost use Rattle.core_model.specs.Messages.{Processes};
ghost use Rattle.graph_model.specs.Told.{WhereTold};
ghost use Rattle.node_stages.specs.Caches.{ChangesAlone};
ghost use Rattle.node_stages.specs.Catching.{ProcessesRest, TouchShard};
ghost use Rattle.node_stages.specs.Stages.{CacheDoes};
ghost use Rattle.served_shards.specs.Served.{log_at, low_at};
ghost use Rattle.shard_tables.specs.Refusals.{IsOfReads};
ghost use Rattle.shard_tables.specs.Stores.{IsStoreOf, note_of};
ghost use Rattle.tao_keeper.specs.KeeperState.{CallsKeeper, KeepsTables};

use crate::cache::Cache;
use shard_log::Note;
use shard_tables::{StoreNode, StoreRefusal};
use std::alloc::{AllocError, Global};
use tao_base::Entry;
use tao_keeper::Keeper;

/// What a node has yet to process of a log: the entries after its low-water mark, and a note that has seen them all.
#[derive(Drop)]
struct Rest {
    entries: Vec<Entry>,
    note: Note,
}

/// Puts an entry behind the others.
fn put(entries: &mut Vec<Entry>, entry: Entry) -> Result<(), AllocError>
    ensures { OnOk result (entries.new.items ≡ entries.old.items ++ entry ∷ []) }
{
    entries.push(entry)?;
    Ok(())
}

/// The entries of the keeper's log after a position that isn't before its cut, up to its length. A keeper that gives no entry at one of these positions tells
/// nothing: then the entries before it are all that there are.
fn entries_after<K: Keeper>(
    alloc: Global,
    store: &mut StoreNode,
    keepers: &mut K,
    low: u64,
    until: u64,
) -> Result<Vec<Entry>, StoreRefusal>
    requires keeper { IsStoreOf K.TELLS (K.state keepers.old).told store.old }
    requires live { WhereTold K.TELLS (((K.state keepers.old).told store.old.name).cut ≤ low) }
    requires all { WhereTold K.TELLS (until ≡ length ((K.state keepers.old).told store.old.name).log) }
    ensures entries { WhereTold K.TELLS (IfOk result (λ entries. entries.items ≡ drop low ((K.state keepers.old).told store.old.name).log)) }
    ensures refused { IfErr result IsOfReads }
    ensures same { store.new ≡ store.old }
    ensures tables { KeepsTables K.TELLS (K.state keepers.old) (K.state keepers.new) }
    ensures calls { CallsKeeper StoreRefusal.KeeperFault (K.state keepers.old) (K.state keepers.new) result }
{
    let mut entries = Vec::new(alloc);
    for place in low..until {
        let found = store.entry(keepers, place + 1)?;
        match found {
            Some(entry) => put(&mut entries, entry)?,
            None => return Ok(entries),
        }
    }
    Ok(entries)
}

/// What a node with that low-water mark has yet to process of the log of a store. Costs a call of the keeper for each entry.
fn read_rest<K: Keeper>(
    alloc: Global,
    store: &mut StoreNode,
    keepers: &mut K,
    low: u64,
    until: u64,
) -> Result<Rest, StoreRefusal>
    requires keeper { IsStoreOf K.TELLS (K.state keepers.old).told store.old }
    requires live { WhereTold K.TELLS (((K.state keepers.old).told store.old.name).cut ≤ low) }
    requires all { WhereTold K.TELLS (until ≡ length ((K.state keepers.old).told store.old.name).log) }
    ensures entries { WhereTold K.TELLS (IfOk result (λ rest. rest.entries.items ≡ drop low ((K.state keepers.old).told store.old.name).log)) }
    ensures note { IfOk result (λ rest. rest.note ≡ note_of store.old) }
    ensures refused { IfErr result IsOfReads }
    ensures same { store.new ≡ store.old }
    ensures tables { KeepsTables K.TELLS (K.state keepers.old) (K.state keepers.new) }
    ensures calls { CallsKeeper StoreRefusal.KeeperFault (K.state keepers.old) (K.state keepers.new) result }
{
    let entries = entries_after(alloc, store, keepers, low, until)?;
    let note = store.note()?;
    Ok(Rest { entries, note })
}

/// Processes these entries, beside what every node keeps.
fn process_all<C: Cache>(cache: &mut C, shard: u16, entries: &[Entry], note: Note)
    requires log { log_at shard (C.node cache.old).served ≡ Some note.log }
    requires next { WhereTold note.log.told (entries.now ≡ take (length entries.now) (drop (low_at shard (C.node cache.old).served) note.entries)) }
    requires here { WhereTold note.log.told (TouchShard shard entries.now) }
    ensures { CacheDoes C.node (ChangesAlone C.node C.refills (Processes shard entries.now note)) cache.old cache.new }
{
    cache.is_true();
    cache.process(shard, entries, note);
    cache.is_true();
}

/// A node processes what follows its low-water mark in the log of a store of a shard that it serves, up to this length. What follows the mark
/// is live: the mark isn't before the log's cut. Where it can't, the node stays as it was. Costs a call of the keeper for each entry, and takes the
/// memory of these entries.
pub fn catch_up_with<C: Cache, K: Keeper>(
    alloc: Global,
    cache: &mut C,
    store: &mut StoreNode,
    keepers: &mut K,
    until: u64,
) -> Result<(), StoreRefusal>
    requires log { log_at store.old.name.shard (C.node cache.old).served ≡ Some store.old.view.log }
    requires keeper { IsStoreOf K.TELLS (K.state keepers.old).told store.old }
    requires all { WhereTold K.TELLS (until ≡ length ((K.state keepers.old).told store.old.name).log) }
    requires here { WhereTold K.TELLS (TouchShard store.old.name.shard ((K.state keepers.old).told store.old.name).log) }
    requires live { WhereTold K.TELLS (((K.state keepers.old).told store.old.name).cut ≤ low_at store.old.name.shard (C.node cache.old).served) }
    ensures does { OnOk result (ProcessesRest C.node C.refills K.TELLS ((K.state keepers.old).told store.old.name).log store.old cache.old cache.new) }
    ensures err { OnErr result (cache.new ≡ cache.old) }
    ensures refused { IfErr result IsOfReads }
    ensures same { store.new ≡ store.old }
    ensures tables { KeepsTables K.TELLS (K.state keepers.old) (K.state keepers.new) }
    ensures calls { CallsKeeper StoreRefusal.KeeperFault (K.state keepers.old) (K.state keepers.new) result }
{
    let shard = store.name().shard;
    let low = cache.mark(shard);
    let Rest { entries, note } = read_rest(alloc, store, keepers, low, until)?;
    process_all(cache, shard, &entries, note);
    Ok(())
}
