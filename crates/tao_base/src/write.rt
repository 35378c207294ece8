//! The writes of clients.
ghost use Rattle.std.specs.Prelude.{◌≡◌};
ghost use Rattle.tao_base.specs.Writes.{write_kind, write_shard};

use super::data::Data;
use super::edge::Time;
use super::entry::Kind;
use super::id::{AType, Id, OType};

/// What a client asks to be written. An association is added, cut or moved by its two ids and its
/// type; data is given whole.
#[derive(Clone, Drop)]
pub enum Write {
    ObjAdd {
        shard: u16,
        otype: OType,
        payload: Data,
    },
    ObjUpdate {
        id: Id,
        payload: Data,
    },
    ObjDelete {
        id: Id,
    },
    AssocAdd {
        id1: Id,
        atype: AType,
        id2: Id,
        time: Time,
        payload: Data,
    },
    AssocDelete {
        id1: Id,
        atype: AType,
        id2: Id,
    },
    AssocChangeType {
        id1: Id,
        atype: AType,
        id2: Id,
        newtype: AType,
    },
}

impl Write {
    /// The shard that the write is made on: the one that it names, or that of its object or of the edge's id1.
    pub fn shard(&self) -> u16
        ensures { result ≡ write_shard self.now }
    {
        match self {
            Write::ObjAdd { shard, .. } => *shard,
            Write::ObjUpdate { id, .. } | Write::ObjDelete { id } => id.shard(),
            Write::AssocAdd { id1, .. }
            | Write::AssocDelete { id1, .. }
            | Write::AssocChangeType { id1, .. } => id1.shard(),
        }
    }

    /// The kind of the entry that the write makes.
    pub fn kind(&self) -> Kind
        ensures { result ≡ write_kind self.now }
    {
        match self {
            Write::ObjAdd { .. } => Kind::ObjAdd,
            Write::ObjUpdate { .. } => Kind::ObjUpdate,
            Write::ObjDelete { .. } => Kind::ObjDelete,
            Write::AssocAdd { .. } => Kind::AssocAdd,
            Write::AssocDelete { .. } => Kind::AssocDelete,
            Write::AssocChangeType { .. } => Kind::AssocChangeType,
        }
    }
}
