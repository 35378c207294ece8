//! The entries of a shard's log.
ghost use Rattle.std.specs.Prelude.{◌≡◌, IfOk};

use super::edge::{Edge, Object, Stamp, Time};
use super::id::{Id, Key};
use super::memory::OutOfMemory;
use std::alloc::AllocError;
use std::marker::Model;

/// What an entry does at a key. `was` is the time of the edge just before, where it was live.
#[derive(Clone, Drop)]
pub enum Change {
    PutObject(Object),
    DropObject,
    SetEdge {
        edge: Edge,
        was: Option<Time>,
    },
    CutEdge {
        id2: Id,
        stamp: Stamp,
        was: Option<Time>,
    },
}

impl Change {
    /// A copy of the change. The payload of what it puts or sets takes memory.
    pub fn copy(&self) -> Result<Change, OutOfMemory>
        ensures { IfOk result (λ copy. copy ≡ self.now) }
    {
        Ok(self.clone()?)
    }
}

/// A key, what is done there, and the key's version after it: how many entries touch the key so far.
#[derive(Clone, Drop)]
pub struct Touch {
    pub key: Key,
    pub change: Change,
    pub version: u64,
}

/// The touches of an entry, in order: those at id1, the cut before the set, then those at id2.
#[derive(Clone, Drop)]
pub struct Touches {
    touches: Vec<Touch>,
}

impl Model for Touches {
    ghost use Rattle.std.specs.Prelude.{List};
    ghost use Rattle.tao_base.specs.declared.entry.Touch.{Touch};

    ghost Value = { List Touch };

    ghost view = { λ t. t.touches.items };
}

impl Touches {
    /// The touches of a vector, which is taken over. Takes no memory.
    pub fn of(touches: Vec<Touch>) -> Touches
        ensures { result ≡ touches.items }
    {
        Touches { touches }
    }

    /// The touches, in their order.
    pub fn as_slice(&self) -> &[Touch]
        ensures { result.now ≡ self.now }
    {
        self.touches.as_slice()
    }
}

/// Who asked for an entry: a client by its session and the number of its write, or the merge of the
/// job that the entry at a position of another shard's log left.
#[derive(Clone, Copy, PartialEq, Eq)]
pub enum Origin {
    Client { session: u32, seq: u64 },
    Merge { shard: u16, position: u64 },
}

/// What kind of call an entry is of. The number is that of the entry's spelling.
#[derive(Clone, Copy, Debug, PartialEq, Eq)]
pub enum Kind {
    ObjAdd = 1,
    ObjUpdate,
    ObjDelete,
    AssocAdd,
    AssocDelete,
    AssocChangeType,
    Merge,
}

/// One entry of a shard's log. Positions count from 1.
#[derive(Drop)]
pub struct Entry {
    pub position: u64,
    pub kind: Kind,
    pub origin: Origin,
    pub touches: Touches,
}

impl Clone for Entry {
    ghost is_clone = { λ source copy. copy ≡ source };

    fn clone(&self) -> Result<Entry, AllocError> {
        Ok(Entry {
            position: self.position,
            kind: self.kind,
            origin: self.origin,
            touches: self.touches.clone()?,
        })
    }
}
