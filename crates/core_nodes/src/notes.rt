//! Notes of the shards' logs, for those who are to see what was written.
ghost use Rattle.std.specs.Prelude.{◌≡◌, ◌<◌, IfOk, length};
ghost use Rattle.core_model.specs.Pens.{AreFirstNotes, pens_of};
ghost use Rattle.core_model.specs.Stores.{AreStores, store_count};
ghost use Rattle.core_nodes.specs.Beginning.{note_at};
ghost use Rattle.shard_log.specs.View.{as_note};

use crate::fleet::Fleet;
use crate::stores::master_store;
use core_model::{masters_are_regions, store_place};
use shard_log::Note;
use shard_tables::StoreNode;
use std::alloc::Global;
use tao_base::OutOfMemory;
use topology::Config;

/// A note of what the store at a place has seen of its shard's log.
pub(crate) fn note_at(stores: &mut [StoreNode], place: usize) -> Result<Note, OutOfMemory>
    requires within { place < length stores.old }
    ensures note { IfOk result (λ note. note ≡ note_at stores.old place) }
    ensures same { stores.new ≡ stores.old }
{
    let store = &mut stores[place];
    store.note()
}

/// A note that has seen all of a shard's log.
fn shard_note(config: &Config, stores: &mut [StoreNode], shard: u16) -> Result<Note, OutOfMemory>
    requires stores { AreStores config.now (store_count config.now) stores.old }
    requires here { shard < config.now.shards }
    ensures note { IfOk result (λ note. note ≡ as_note (pens_of stores.old shard)) }
    ensures same { stores.new ≡ stores.old }
{
    masters_are_regions(config);
    let place = store_place(config, master_store(config, shard));
    note_at(stores, place)
}

/// Notes of the logs of all shards, in order.
fn all_notes(
    alloc: Global,
    config: &Config,
    stores: &mut [StoreNode],
) -> Result<Vec<Note>, OutOfMemory>
    requires stores { AreStores config.now (store_count config.now) stores.old }
    ensures notes { IfOk result (λ notes. AreFirstNotes (pens_of stores.old) config.now.shards notes.items) }
    ensures same { stores.new ≡ stores.old }
{
    let mut notes = Vec::new(alloc);
    for shard in 0..config.shards {
        let note = shard_note(config, stores, shard)?;
        notes.push(note)?;
    }
    Ok(notes)
}

/// A note that has seen all of the shard's log, in place of a note of that log.
fn renew_at(config: &Config, stores: &mut [StoreNode], shard: u16, note: Note) -> Note
    requires stores { AreStores config.now (store_count config.now) stores.old }
    requires here { shard < config.now.shards }
    requires one_log { (pens_of stores.old shard).log ≡ note.log }
    ensures view { result ≡ as_note (pens_of stores.old shard) }
    ensures same { stores.new ≡ stores.old }
{
    masters_are_regions(config);
    let place = store_place(config, master_store(config, shard));
    let store = &mut stores[place];
    store.renew(note)
}

impl Fleet {
    /// A note of each shard's log, in order, which has seen all of it. The one error is out of memory.
    pub fn notes(&mut self, alloc: Global, config: &Config) -> Result<Vec<Note>, OutOfMemory>
        requires stores { AreStores config.now (store_count config.now) self.old.stores }
        ensures notes { IfOk result (λ notes. AreFirstNotes (pens_of self.old.stores) config.now.shards notes.items) }
        ensures same { self.new ≡ self.old }
    {
        all_notes(alloc, config, &mut self.stores)
    }

    /// A note of a shard's log, which has seen all of it. The one error is out of memory.
    pub fn note(&mut self, config: &Config, shard: u16) -> Result<Note, OutOfMemory>
        requires stores { AreStores config.now (store_count config.now) self.old.stores }
        requires here { shard < config.now.shards }
        ensures view { IfOk result (λ note. note ≡ as_note (pens_of self.old.stores shard)) }
        ensures same { self.new ≡ self.old }
    {
        shard_note(config, &mut self.stores, shard)
    }

    /// A note that has seen all of a shard's log, in place of a note of that log. Takes no memory, so that one who took a note before a
    /// write sees for certain what it wrote.
    pub fn renew(&mut self, config: &Config, shard: u16, note: Note) -> Note
        requires stores { AreStores config.now (store_count config.now) self.old.stores }
        requires here { shard < config.now.shards }
        requires one_log { (pens_of self.old.stores shard).log ≡ note.log }
        ensures view { result ≡ as_note (pens_of self.old.stores shard) }
        ensures same { self.new ≡ self.old }
    {
        renew_at(config, &mut self.stores, shard, note)
    }
}
