//! A log with its index.
ghost use Rattle.std.specs.Prelude.{[], ◌≡◌, ◌≤◌, ◌∷◌, ◌++◌, if◌then◌else◌, IfOk, drop, is_ok, length, take};
ghost use Rattle.graph_model.specs.Edges.{edge_list, edge_record};
ghost use Rattle.graph_model.specs.Log.{additions, object, version};
ghost use Rattle.graph_model.specs.Soundness.{IsSound};
ghost use Rattle.tao_keeper.specs.Table.{StandsAt};

use crate::index::Index;
use crate::plain;
use std::alloc::{AllocError, Global};
use std::marker::Model;
use tao_base::{AType, EdgeState, Edges, Entry, Id, Key, Object, Origin, OutOfMemory};

/// A log, with its index where there was memory for one. Without, each answer is read from the entries themselves, and
/// the next change makes the index anew.
#[derive(Drop)]
pub struct IndexedLog {
    alloc: Global,
    entries: Vec<Entry>,
    added: u64,
    index: Option<Index>,
}

impl Model for IndexedLog {
    ghost use Rattle.std.specs.Prelude.{◌≡◌, IfSome, List};
    ghost use Rattle.graph_model.specs.Log.{additions};
    ghost use Rattle.log_index.specs.IndexOf.{IsIndexOf};
    ghost use Rattle.tao_base.specs.declared.entry.Entry.{Entry};

    ghost Value = { List Entry };

    ghost view = { λ l. l.entries.items };

    ghost invariant = { λ l. IfSome l.index (IsIndexOf l.entries.items) × (l.added ≡ additions l.entries.items) };
}

impl IndexedLog {
    /// Without entries.
    pub fn new(alloc: Global) -> IndexedLog
        ensures { result ≡ [] }
    {
        IndexedLog {
            alloc,
            entries: Vec::new(alloc),
            added: 0,
            index: Some(Index::new(alloc)),
        }
    }

    /// The entries, in their order.
    pub fn as_slice(&self) -> &[Entry]
        ensures { result.now ≡ self.now }
    {
        &self.entries
    }

    /// How many objects were added.
    pub fn added(&self) -> u64
        ensures { result ≡ additions self.now }
    {
        self.added
    }

    /// Adds an entry at the end. An error changes nothing. Looks up its origin and each key that it touches, with the edge
    /// that is changed there, and copies what it puts there. Where the index was lost it is made anew, which reads all
    /// entries; it is lost where there is no memory for it.
    pub fn push(&mut self, entry: Entry) -> Result<(), AllocError>
        ensures { self.new ≡ (if is_ok result then self.old ++ entry ∷ [] else self.old) }
    {
        self.entries.reserve(1)?;
        let index = Index::grown(self.alloc, self.index.take(), &self.entries, &entry);
        let added = self.added + plain::added_by(&entry);
        if self.entries.push(entry).is_err() {
            unreachable!();
        }
        self.added = added;
        self.index = index;
        Ok(())
    }

    /// Keeps so many first entries, and takes away those past them. Makes the index anew, which reads all entries that are
    /// left; it is lost where there is no memory for it.
    pub fn truncate(&mut self, count: u64)
        ensures { self.new ≡ take count self.old }
    {
        self.entries.truncate(count as usize);
        self.added = plain::additions_of(&self.entries);
        self.index = Index::of(self.alloc, &self.entries).ok();
    }

    /// Does the same, and gives what was taken away, for which it takes memory. An error changes nothing.
    pub fn split_off(&mut self, count: u64) -> Result<Vec<Entry>, AllocError>
        requires { count ≤ length self.old }
        ensures log { self.new ≡ (if is_ok result then take count self.old else self.old) }
        ensures taken { IfOk result (λ taken. taken.items ≡ drop count self.old) }
    {
        let taken = self.entries.split_off(count as usize)?;
        self.added = plain::additions_of(&self.entries);
        self.index = Index::of(self.alloc, &self.entries).ok();
        Ok(taken)
    }

    /// The edges of a list at the places from `pos` on, at most `most` of them. Goes past those before `pos`, and copies
    /// those that it gives.
    pub fn edges(&self, id1: Id, atype: AType, pos: u64, most: u64) -> Result<Edges, OutOfMemory>
        ensures { IfOk result (λ edges. edges ≡ take most (drop pos (edge_list self.now id1 atype))) }
    {
        match &self.index {
            Some(index) => index.keys.stretch(Key::List(id1, atype), pos, most),
            None => plain_graph::edges_of(self.alloc, &self.entries, id1, atype, pos, most),
        }
    }

    /// How many edges a list has.
    pub fn count(&self, id1: Id, atype: AType) -> Result<u64, OutOfMemory>
        ensures { IfOk result (λ count. count ≡ length (edge_list self.now id1 atype)) }
    {
        match &self.index {
            Some(index) => Ok(index.keys.count(Key::List(id1, atype))),
            None => plain_graph::count_of(self.alloc, &self.entries, id1, atype),
        }
    }

    /// The record of an edge. Copies it.
    pub fn record(&self, id1: Id, atype: AType, id2: Id) -> Result<Option<EdgeState>, OutOfMemory>
        ensures { IfOk result (λ state. state ≡ edge_record self.now id1 atype id2) }
    {
        match &self.index {
            Some(index) => index.keys.record(Key::List(id1, atype), id2),
            None => plain_graph::record_of(self.alloc, &self.entries, id1, atype, id2),
        }
    }

    /// The object of an id. Copies it.
    pub fn object(&self, id: Id) -> Result<Option<Object>, OutOfMemory>
        ensures { IfOk result (λ found. found ≡ object self.now id) }
    {
        match &self.index {
            Some(index) => index.keys.object(Key::Obj(id)),
            None => plain_graph::object_of(self.alloc, &self.entries, id),
        }
    }

    /// The position of the entry of an origin, where there is one.
    pub fn position(&self, origin: Origin) -> Option<u64>
        ensures { StandsAt self.now origin result }
    {
        match &self.index {
            Some(index) => index.positions.find(origin),
            None => plain::position_of(&self.entries, origin),
        }
    }

    /// The version of a key.
    pub fn version(&self, key: Key) -> u64
        requires { IsSound self.now }
        ensures { result ≡ version self.now key }
    {
        match &self.index {
            Some(index) => index.keys.version(key),
            None => plain_graph::version_of(&self.entries, &key),
        }
    }
}
