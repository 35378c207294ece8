//! The object of an id: the one that was put last, unless it was dropped since.
ghost use Rattle.std.specs.Prelude.{◌≡◌, IfOk, None, find, is_some, map, reverse, unwrap_or};
ghost use Rattle.graph_model.specs.Log.{object, object_in, object_left as left_of_object};

use crate::changes::changes_at;
use std::alloc::Global;
use tao_base::{Change, Entry, Id, Key, Object, OutOfMemory};

/// The object of an id, where there is one. Reads all entries, refers to each change of the object,
/// and copies the object.
pub fn object_of(alloc: Global, entries: &[Entry], id: Id) -> Result<Option<Object>, OutOfMemory>
    ensures { IfOk result (λ found. found ≡ object entries.now id) }
{
    let changes = changes_at(alloc, entries, &Key::Obj(id))?;
    object_after(&changes)
}

/// The object that changes leave.
fn object_after(changes: &[&Change]) -> Result<Option<Object>, OutOfMemory>
    ensures { IfOk result (λ found. found ≡ object_in (map (λ c. c.now) changes.now)) }
{
    match last_of_object(changes) {
        Some(change) => object_left(change),
        None => Ok(None),
    }
}

/// The last of the changes that is of an object.
fn last_of_object<'a>(changes: &[&'a Change]) -> Option<&'a Change>
    ensures { result ≡ find (λ c. is_some (left_of_object c.now)) (reverse changes.now) }
{
    changes
        .iter()
        .rev()
        .copied()
        .find(|change| is_of_object(change))
}

fn is_of_object(change: &Change) -> bool
    ensures { result ≡ is_some (left_of_object change.now) }
{
    matches!(change, Change::PutObject(_) | Change::DropObject)
}

/// The object that a change leaves.
fn object_left(change: &Change) -> Result<Option<Object>, OutOfMemory>
    ensures { IfOk result (λ found. found ≡ unwrap_or (left_of_object change.now) None) }
{
    match change {
        Change::PutObject(object) => Ok(Some(object.clone()?)),
        Change::DropObject | Change::SetEdge { .. } | Change::CutEdge { .. } => Ok(None),
    }
}
