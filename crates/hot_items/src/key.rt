//! Queries as keys, each of which stands in a place that may be used again.
ghost use Rattle.std.specs.Prelude.{◌≡◌, ◌≤◌, ◌<◌, IfOk, IsFalse, IsTrue, OnOk, length, vec_capacity};
ghost use Rattle.hot_items.specs.Keys.{asked_of, ids_of, part_of};
ghost use Rattle.hot_items.specs.KeyView.{asked};
ghost use Rattle.tao_base.specs.Queries.{query_key};

use std::alloc::{AllocError, Global};
use tao_base::{Id, Key, Query, Time};

/// What a query asks of its key, but for the ids.
#[derive(Clone, Copy, PartialEq, Eq, Hash)]
pub(crate) enum Part {
    Whole,
    Among {
        high: Option<Time>,
        low: Option<Time>,
    },
    Places {
        pos: u32,
        limit: u32,
    },
    Times {
        high: Time,
        low: Time,
        limit: u32,
    },
}

/// A query as the key under which its answer is held: what it reads, what it asks of that, and to which ids.
#[derive(Drop, PartialEq, Eq, Hash)]
pub(crate) struct HotKey {
    key: Key,
    part: Part,
    ids: Vec<Id>,
}

impl HotKey {
    /// The key of some query, without room for ids. Takes no memory.
    pub(crate) fn empty(alloc: Global) -> HotKey {
        let Some(id) = Id::read(1) else {
            unreachable!()
        };
        HotKey {
            key: Key::Obj(id),
            part: Part::Whole,
            ids: Vec::new(alloc),
        }
    }

    /// The key of a query. Takes memory for its ids alone.
    pub(crate) fn of(alloc: Global, query: &Query) -> Result<HotKey, AllocError>
        ensures { IfOk result (λ key. asked key ≡ asked_of query.now) }
    {
        Ok(HotKey {
            key: query.key(),
            part: part_of(query),
            ids: ids_of(query).to_vec(alloc)?,
        })
    }

    /// Becomes the key of a query, in the room that it has. Answers false where that is less than the query's ids need.
    /// Takes no memory.
    pub(crate) fn set(&mut self, query: &Query) -> bool
        ensures set { IsTrue result → asked self.new ≡ asked_of query.now }
        ensures none { IsFalse result → vec_capacity self.old.ids < length (ids_of query.now) }
        ensures room { vec_capacity self.old.ids ≤ vec_capacity self.new.ids }
    {
        let ids = ids_of(query);
        self.ids.clear();
        if self.ids.capacity() < ids.len() {
            return false;
        }
        if self.ids.extend_from_slice(ids).is_err() {
            unreachable!();
        }
        self.key = query.key();
        self.part = part_of(query);
        true
    }

    /// Makes room for so many ids. The one error is out of memory, after which the room is no less than it was.
    pub(crate) fn make_room(&mut self, count: usize) -> Result<(), AllocError>
        ensures made { OnOk result (count ≤ vec_capacity self.new.ids) }
        ensures room { vec_capacity self.old.ids ≤ vec_capacity self.new.ids }
    {
        self.ids.clear();
        self.ids.reserve(count)
    }
}

fn part_of(query: &Query) -> Part
    ensures { result ≡ part_of query.now }
{
    match query {
        Query::ObjGet { .. } | Query::AssocCount { .. } => Part::Whole,
        Query::AssocGet { high, low, .. } => Part::Among {
            high: *high,
            low: *low,
        },
        Query::AssocRange { pos, limit, .. } => Part::Places {
            pos: *pos,
            limit: *limit,
        },
        Query::AssocTimeRange {
            high,
            low,
            limit,
            ..
        } => Part::Times {
            high: *high,
            low: *low,
            limit: *limit,
        },
    }
}

/// The ids that a query names besides the one of its key.
pub(crate) fn ids_of(query: &Query) -> &[Id]
    ensures { result.now ≡ ids_of query.now }
{
    match query {
        Query::AssocGet { ids, .. } => ids.as_slice(),
        _ => &[],
    }
}
