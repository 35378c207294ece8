//! Whether two entries are the same.
ghost use Rattle.std.specs.Prelude.{◌≡◌, ◌↔◌, IsTrue};

use super::data::is_same_data;
use tao_base::{Change, Edge, Entry, Object, Touch};

fn is_same_object(object: &Object, other: &Object) -> bool
    ensures { IsTrue result ↔ (object.now ≡ other.now) }
{
    object.otype == other.otype && is_same_data(&object.payload, &other.payload)
}

fn is_same_edge(edge: &Edge, other: &Edge) -> bool
    ensures { IsTrue result ↔ (edge.now ≡ other.now) }
{
    edge.id2 == other.id2
        && edge.time == other.time
        && edge.stamp == other.stamp
        && is_same_data(&edge.payload, &other.payload)
}

fn is_same_change(change: &Change, other: &Change) -> bool
    ensures { IsTrue result ↔ (change.now ≡ other.now) }
{
    match (change, other) {
        (Change::PutObject(object), Change::PutObject(another)) => is_same_object(object, another),
        (Change::DropObject, Change::DropObject) => true,
        (
            Change::SetEdge { edge, was },
            Change::SetEdge {
                edge: another,
                was: before,
            },
        ) => was == before && is_same_edge(edge, another),
        (
            Change::CutEdge { id2, stamp, was },
            Change::CutEdge {
                id2: another,
                stamp: mark,
                was: before,
            },
        ) => id2 == another && stamp == mark && was == before,
        (_, _) => false,
    }
}

fn is_same_touch(touch: &Touch, other: &Touch) -> bool
    ensures { IsTrue result ↔ (touch.now ≡ other.now) }
{
    touch.key == other.key
        && touch.version == other.version
        && is_same_change(&touch.change, &other.change)
}

fn are_same_touches(touches: &[Touch], others: &[Touch]) -> bool
    ensures { IsTrue result ↔ (touches.now ≡ others.now) }
{
    if touches.len() != others.len() {
        return false;
    }
    for (touch, other) in touches.iter().zip(others) {
        if !is_same_touch(touch, other) {
            return false;
        }
    }
    true
}

/// Whether two entries are the same in all that they say.
pub fn is_same_entry(entry: &Entry, other: &Entry) -> bool
    ensures { IsTrue result ↔ (entry.now ≡ other.now) }
{
    entry.position == other.position
        && entry.kind == other.kind
        && entry.origin == other.origin
        && are_same_touches(entry.touches.as_slice(), other.touches.as_slice())
}
