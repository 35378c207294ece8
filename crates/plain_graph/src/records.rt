//! The record of an edge: what its last change left.
ghost use Rattle.std.specs.Prelude.{◌≡◌, IfOk, find, map, reverse};
ghost use Rattle.graph_model.specs.Edges.{edge_record, is_at, record_in, state_left};

use crate::changes::changes_at;
use std::alloc::Global;
use tao_base::{AType, Change, EdgeState, Entry, Id, Key, OutOfMemory};

/// The record of an edge, where it has one. Reads all entries, refers to each change of the list,
/// and copies the record.
pub fn record_of(
    alloc: Global,
    entries: &[Entry],
    id1: Id,
    atype: AType,
    id2: Id,
) -> Result<Option<EdgeState>, OutOfMemory>
    ensures { IfOk result (λ state. state ≡ edge_record entries.now id1 atype id2) }
{
    let changes = changes_at(alloc, entries, &Key::List(id1, atype))?;
    record_after(&changes, id2)
}

/// The record that changes leave of the edge to an id.
fn record_after(changes: &[&Change], id2: Id) -> Result<Option<EdgeState>, OutOfMemory>
    ensures { IfOk result (λ state. state ≡ record_in (map (λ c. c.now) changes.now) id2) }
{
    match last_of(changes, id2) {
        Some(change) => state_after(change),
        None => Ok(None),
    }
}

/// The last of the changes that is of the edge to an id.
fn last_of<'a>(changes: &[&'a Change], id2: Id) -> Option<&'a Change>
    ensures { result ≡ find (λ c. is_at id2 c.now) (reverse changes.now) }
{
    changes
        .iter()
        .rev()
        .copied()
        .find(|change| is_of(change, id2))
}

fn is_of(change: &Change, id2: Id) -> bool
    ensures { result ≡ is_at id2 change.now }
{
    match change {
        Change::SetEdge { edge, .. } => id2 == edge.id2,
        Change::CutEdge { id2: other, .. } => id2 == *other,
        Change::PutObject(_) | Change::DropObject => false,
    }
}

/// The record that a change leaves of an edge.
fn state_after(change: &Change) -> Result<Option<EdgeState>, OutOfMemory>
    ensures { IfOk result (λ state. state ≡ state_left change.now) }
{
    match change {
        Change::SetEdge { edge, .. } => Ok(Some(EdgeState::Live {
            time: edge.time,
            payload: edge.payload.clone()?,
            stamp: edge.stamp,
        })),
        Change::CutEdge { stamp, .. } => Ok(Some(EdgeState::Cut { stamp: *stamp })),
        Change::PutObject(_) | Change::DropObject => Ok(None),
    }
}
