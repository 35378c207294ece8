//! Queries and their answers.
ghost use Rattle.std.specs.Prelude.{◌≡◌};
ghost use Rattle.tao_base.specs.Queries.{query_key, query_shard};

use super::edge::{Edges, Object, Time};
use super::id::{AType, Id, Key};
use std::marker::Model;

/// Ids, each once, in rising order.
#[derive(Clone, Drop)]
pub struct IdSet {
    ids: Vec<Id>,
}

impl Model for IdSet {
    ghost use Rattle.std.specs.Prelude.{List, ℕ};
    ghost use Rattle.tao_base.specs.Ids.{IsRising};

    ghost Value = { List ℕ };

    ghost view = { λ s. s.ids.items };

    ghost invariant = { λ s. IsRising s.ids.items };
}

impl IdSet {
    ghost use Rattle.std.specs.Prelude.{◌==◌, ◌↔◌, ℕ, Contains, length};
    ghost use Rattle.std.specs.List.{list_any};
    ghost use Rattle.tao_base.specs.Ids.{IsRising};

    /// The set of some ids, each of which may be given several times. Sorts them where they lie:
    /// takes no memory, and time in n log n.
    pub fn of(mut ids: Vec<Id>) -> IdSet
        ensures rising { IsRising result }
        ensures members { (id : ℕ) → Contains result id ↔ Contains ids.items id }
    {
        ids.sort_unstable();
        ids.dedup();
        IdSet { ids }
    }

    /// The ids, in rising order.
    pub fn as_slice(&self) -> &[Id]
        ensures value { result.now ≡ self.now }
        ensures rising { IsRising self.now }
    {
        self.ids.as_slice()
    }

    /// How many ids the set has.
    pub fn len(&self) -> usize
        ensures { result ≡ length self.now }
    {
        self.ids.len()
    }

    /// Whether the set has no id.
    pub fn is_empty(&self) -> bool
        ensures { result ≡ (length self.now == 0) }
    {
        self.ids.is_empty()
    }

    /// Whether the set has the id, by a binary search.
    pub fn contains(&self, id: Id) -> bool
        ensures { result ≡ list_any (λ member. member == id) self.now }
    {
        self.ids.binary_search(&id).is_ok()
    }
}

/// What a client asks to be read: an object, or of an association list the edges to some ids, its
/// length, the edges at some places, or the newest edges of some times.
#[derive(Clone, Drop)]
pub enum Query {
    ObjGet {
        id: Id,
    },
    AssocGet {
        id1: Id,
        atype: AType,
        ids: IdSet,
        high: Option<Time>,
        low: Option<Time>,
    },
    AssocCount {
        id1: Id,
        atype: AType,
    },
    AssocRange {
        id1: Id,
        atype: AType,
        pos: u32,
        limit: u32,
    },
    AssocTimeRange {
        id1: Id,
        atype: AType,
        high: Time,
        low: Time,
        limit: u32,
    },
}

impl Query {
    /// The key that the query reads.
    pub fn key(&self) -> Key
        ensures { result ≡ query_key self.now }
    {
        match self {
            Query::ObjGet { id } => Key::Obj(*id),
            Query::AssocGet { id1, atype, .. }
            | Query::AssocCount { id1, atype }
            | Query::AssocRange { id1, atype, .. }
            | Query::AssocTimeRange { id1, atype, .. } => Key::List(*id1, *atype),
        }
    }

    /// The shard of the query: that of its key.
    pub fn shard(&self) -> u16
        ensures { result ≡ query_shard self.now }
    {
        self.key().shard()
    }
}

/// What a query is answered with.
#[derive(Clone, Drop)]
pub enum Answer {
    Object(Option<Object>),
    Edges(Edges),
    Count(u64),
}
