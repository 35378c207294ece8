//! What a log says of one key.
ghost use Rattle.std.specs.Prelude.{◌≡◌, IfOk, drop, length, take};
ghost use Rattle.graph_model.specs.Log.{object_after as object_then};
ghost use Rattle.list_index.specs.ListState.{record_to};
ghost use Rattle.log_index.specs.KeyState.{IsAfter, no_state};

use list_index::EdgeTable;
use std::alloc::Global;
use std::marker::Model;
use tao_base::{Change, EdgeState, Edges, Id, Object, OutOfMemory};

/// What a log says of one key: its version, and its object or its list.
#[derive(Drop)]
pub struct KeyTable {
    version: u64,
    object: Option<Object>,
    list: EdgeTable,
}

impl Model for KeyTable {
    ghost use Rattle.log_index.specs.KeyState.{KeyState};

    ghost Value = { KeyState };

    ghost view = { λ t. record { version = t.version; object = t.object; list = t.list } };
}

impl KeyTable {
    /// Of a key that no entry touches.
    pub fn new(alloc: Global) -> KeyTable
        ensures { result ≡ no_state }
    {
        KeyTable {
            version: 0,
            object: None,
            list: EdgeTable::new(alloc),
        }
    }

    /// The table after one more change. Where there is no memory, nothing is left.
    pub fn after(self, change: &Change) -> Result<KeyTable, OutOfMemory>
        ensures { IfOk result (λ table. IsAfter change.now self table) }
    {
        let KeyTable {
            version,
            object,
            list,
        } = self;
        let version = version.checked_add(1).ok_or(OutOfMemory)?;
        let object = object_after(object, change)?;
        let list = list.after(change)?;
        Ok(KeyTable {
            version,
            object,
            list,
        })
    }

    pub fn version(&self) -> u64
        ensures { result ≡ self.now.version }
    {
        self.version
    }

    /// Copies the object.
    pub fn object(&self) -> Result<Option<Object>, OutOfMemory>
        ensures { IfOk result (λ found. found ≡ self.now.object) }
    {
        Ok(self.object.clone()?)
    }

    pub fn count(&self) -> u64
        ensures { result ≡ length self.now.list.edges }
    {
        self.list.count()
    }

    /// The edges at the places from `pos` on, at most `most` of them. Goes past those before `pos`, and copies those that
    /// it gives.
    pub fn stretch(&self, alloc: Global, pos: u64, most: u64) -> Result<Edges, OutOfMemory>
        ensures { IfOk result (λ given. given ≡ take most (drop pos self.now.list.edges)) }
    {
        self.list.stretch(alloc, pos, most)
    }

    /// The record of the edge to an id. Copies it.
    pub fn record(&self, id2: Id) -> Result<Option<EdgeState>, OutOfMemory>
        ensures { IfOk result (λ state. state ≡ record_to self.now.list id2) }
    {
        self.list.record(id2)
    }
}

/// The object after one more change. Copies one that is put.
fn object_after(object: Option<Object>, change: &Change) -> Result<Option<Object>, OutOfMemory>
    ensures { IfOk result (λ found. found ≡ object_then change.now object) }
{
    match change {
        Change::PutObject(put) => Ok(Some(put.clone()?)),
        Change::DropObject => Ok(None),
        Change::SetEdge { .. } | Change::CutEdge { .. } => Ok(object),
    }
}
