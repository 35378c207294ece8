//! Where an edge stands in a list.
ghost use Rattle.std.specs.Prelude.{◌≡◌};
ghost use Rattle.list_index.specs.OrderKeys.{order_key_of};

use std::cmp::Reverse;
use tao_base::{Edge, Id, Time};

/// What a list is ordered by: the later time first, and of equal times the greater id2.
#[derive(Clone, Copy, PartialEq, Eq, PartialOrd, Ord)]
pub struct OrderKey {
    pub time: Reverse<Time>,
    pub id2: Reverse<Id>,
}

impl OrderKey {
    pub fn at(time: Time, id2: Id) -> OrderKey
        ensures time { result.time.0 ≡ time }
        ensures id2 { result.id2.0 ≡ id2 }
    {
        OrderKey {
            time: Reverse(time),
            id2: Reverse(id2),
        }
    }

    pub fn of(edge: &Edge) -> OrderKey
        ensures { result ≡ order_key_of edge.now }
    {
        OrderKey::at(edge.time, edge.id2)
    }
}
