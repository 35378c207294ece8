//! The refills that a follower has yet to ask for.
ghost use Rattle.std.specs.Prelude.{◌≡◌};
ghost use Rattle.tao_schema.specs.Schema.{types_of};
ghost use Rattle.follower_cache.specs.Refills.{list_refill, refill_of};

use cache_node::DroppedList;
use std::alloc::Global;
use std::collections::VecDeque;
use std::marker::Model;
use tao_base::{AType, Id, Key, Query};
use tao_schema::Schema;

/// How many refills may wait.
const MOST_REFILLS: usize = 256;

/// What to ask for a list that was dropped: as many edges as were held and ten more, at the version
/// that dropped it or above.
#[derive(Drop)]
pub struct Refill {
    pub query: Query,
    pub floor: u64,
}

/// The refills that wait, the oldest first: 256 at most.
#[derive(Drop)]
pub struct RefillQueue {
    rows: VecDeque<Refill>,
}

impl Model for RefillQueue {
    ghost use Rattle.std.specs.Prelude.{◌≤◌, List, length};
    ghost use Rattle.follower_cache.specs.declared.queue.Refill.{Refill};

    ghost Value = { List Refill };

    ghost view = { λ q. q.rows.items };

    ghost invariant = { λ q. length q.rows.items ≤ 256 };
}

impl RefillQueue {
    ghost use Rattle.std.specs.Prelude.{◌≡◌, ◌↔◌, ◌≤◌, ◌++◌, [], IsNone, Some, length, option_to_list};
    ghost use Rattle.follower_cache.specs.Refills.{Queues, QueuesRow, refill_of};
    ghost use Rattle.tao_schema.specs.Schema.{types_of};

    /// No refill waits.
    pub fn empty(alloc: Global) -> RefillQueue
        ensures { result ≡ [] }
    {
        RefillQueue {
            rows: VecDeque::new(alloc),
        }
    }

    /// At most 256 refills wait.
    pub fn is_short(&self)
        ensures { length self.now ≤ 256 }
    {
        let _ = self.rows.len();
    }

    /// Takes every refill out. Takes no memory.
    pub fn clear(&mut self)
        ensures { self.new ≡ [] }
    {
        self.rows.clear();
    }

    /// Takes the oldest refill out. Takes no memory.
    pub fn take(&mut self) -> Option<Refill>
        ensures oldest { self.old ≡ option_to_list result ++ self.new }
        ensures none { IsNone result ↔ (self.old ≡ []) }
    {
        self.rows.pop_front()
    }

    /// Queues a refill for each list that was dropped, in their order, while fewer than 256 wait and
    /// there is memory.
    pub fn queue_all(&mut self, schema: &Schema, dropped: &[DroppedList])
        ensures { Queues (types_of schema.now) dropped.now self.old self.new }
    {
        for row in dropped {
            self.queue_row(schema, row);
        }
    }

    fn queue_row(&mut self, schema: &Schema, row: &DroppedList)
        ensures { QueuesRow (refill_of (types_of schema.now) row.now) self.old self.new }
    {
        if let Some(refill) = refill_for(schema, row) {
            self.queue(refill);
        }
    }

    fn queue(&mut self, refill: Refill)
        ensures { QueuesRow (Some refill) self.old self.new }
    {
        if self.rows.len() < MOST_REFILLS {
            let _ = self.rows.push_back(refill);
        }
    }
}

/// The refill of a list that was dropped; none where the key isn't one of a list.
fn refill_for(schema: &Schema, row: &DroppedList) -> Option<Refill>
    ensures { result ≡ refill_of (types_of schema.now) row.now }
{
    match row.key {
        Key::Obj(_) => None,
        Key::List(id1, atype) => Some(refill_at(schema, id1, atype, row)),
    }
}

fn refill_at(schema: &Schema, id1: Id, atype: AType, row: &DroppedList) -> Refill
    ensures { result ≡ list_refill (types_of schema.now) id1 atype row.now }
{
    let limit = schema.bound(atype).min(row.length.saturating_add(10)) as u32;
    Refill {
        query: Query::AssocRange {
            id1,
            atype,
            pos: 0,
            limit,
        },
        floor: row.version,
    }
}
