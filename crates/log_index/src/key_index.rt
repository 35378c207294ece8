//! What a log says of each key.
ghost use Rattle.std.specs.Prelude.{[], ◌≡◌, ◌++◌, IfOk, List, OnOk, drop, length, take};
ghost use Rattle.list_index.specs.ListState.{record_to};
ghost use Rattle.log_index.specs.KeyIndex.{KeysTell, Touched, state_at};
ghost use Rattle.tao_base.specs.declared.entry.Touch.{Touch as TouchValue};

use crate::key_table::KeyTable;
use crate::keys;
use std::alloc::Global;
use std::collections::BTreeMap;
use tao_base::{EdgeState, Edges, Entry, Id, Key, Object, OutOfMemory, Touch};

/// What a log says of each key that its entries touch.
#[derive(Drop)]
pub struct KeyIndex {
    alloc: Global,
    keys: BTreeMap<Key, KeyTable>,
}

impl KeyIndex {
    /// Of a log without entries.
    pub fn new(alloc: Global) -> KeyIndex
        ensures { KeysTell [] result.keys }
    {
        KeyIndex {
            alloc,
            keys: BTreeMap::new(alloc),
        }
    }

    /// Adds what an entry does. Once out of memory, the index says nothing.
    pub fn add(&mut self, entry: &Entry) -> Result<(), OutOfMemory>
        ensures { OnOk result ((touches : List TouchValue) → KeysTell touches self.old.keys → KeysTell (touches ++ entry.now.touches) self.new.keys) }
    {
        for touch in entry.touches.as_slice() {
            self.touch(touch)?;
        }
        Ok(())
    }

    fn touch(&mut self, touch: &Touch) -> Result<(), OutOfMemory>
        ensures { OnOk result (Touched touch.now self.old.keys self.new.keys) }
    {
        let table = keys::remove(&mut self.keys, &touch.key).unwrap_or(KeyTable::new(self.alloc));
        let table = table.after(&touch.change)?;
        keys::insert(&mut self.keys, touch.key, table)
    }

    pub fn version(&self, key: Key) -> u64
        ensures { result ≡ (state_at self.now.keys key).version }
    {
        match keys::find(&self.keys, &key) {
            Some(table) => table.version(),
            None => 0,
        }
    }

    /// Copies the object.
    pub fn object(&self, key: Key) -> Result<Option<Object>, OutOfMemory>
        ensures { IfOk result (λ found. found ≡ (state_at self.now.keys key).object) }
    {
        match keys::find(&self.keys, &key) {
            Some(table) => table.object(),
            None => Ok(None),
        }
    }

    pub fn count(&self, key: Key) -> u64
        ensures { result ≡ length (state_at self.now.keys key).list.edges }
    {
        match keys::find(&self.keys, &key) {
            Some(table) => table.count(),
            None => 0,
        }
    }

    /// Goes past the edges before `pos`, and copies those that it gives.
    pub fn stretch(&self, key: Key, pos: u64, most: u64) -> Result<Edges, OutOfMemory>
        ensures { IfOk result (λ given. given ≡ take most (drop pos (state_at self.now.keys key).list.edges)) }
    {
        match keys::find(&self.keys, &key) {
            Some(table) => table.stretch(self.alloc, pos, most),
            None => Ok(Edges::of(Vec::new(self.alloc))),
        }
    }

    /// Copies the record.
    pub fn record(&self, key: Key, id2: Id) -> Result<Option<EdgeState>, OutOfMemory>
        ensures { IfOk result (λ state. state ≡ record_to (state_at self.now.keys key).list id2) }
    {
        match keys::find(&self.keys, &key) {
            Some(table) => table.record(id2),
            None => Ok(None),
        }
    }
}
