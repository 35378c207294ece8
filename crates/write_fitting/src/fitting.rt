//! Whether an entry is one that a write could have made.
ghost use Rattle.std.specs.Prelude.{◌≡◌, ◌↔◌, IsTrue, ◌&&◌, ◌==◌};
ghost use Rattle.write_model.specs.Writes.{FitsWrite};
ghost use Rattle.tao_base.specs.Writes.{write_kind};
ghost use Rattle.write_fitting.specs.Fitting.{cuts, drops, fits_first, fits_second, is_list, names, puts, same_data, sets};
ghost use Rattle.tao_base.specs.Ids.{shard_of};

use super::same_data::is_same;
use tao_base::edge::Time;
use tao_base::{AType, Change, Data, Entry, Id, Key, OType, Touch, Write};

fn adds_object(touch: &Touch, shard: u16, otype: OType, payload: &Data) -> bool
    ensures { result ≡ puts (λ id object. shard_of id == shard && object.otype.0 == otype.0
        && same_data object.payload payload.now) touch.now.key touch.now.change }
{
    match &touch.key {
        Key::Obj(id) => {
            match &touch.change {
                Change::PutObject(object) => {
                    id.shard() == shard
                        && object.otype == otype
                        && is_same(&object.payload, payload)
                }
                Change::DropObject | Change::SetEdge { .. } | Change::CutEdge { .. } => false,
            }
        }
        Key::List(..) => false,
    }
}

fn updates_object(touch: &Touch, id: Id, payload: &Data) -> bool
    ensures { result ≡ puts (λ other object. other == id && same_data object.payload payload.now) touch.now.key touch.now.change }
{
    match &touch.key {
        Key::Obj(other) => {
            match &touch.change {
                Change::PutObject(object) => *other == id && is_same(&object.payload, payload),
                Change::DropObject | Change::SetEdge { .. } | Change::CutEdge { .. } => false,
            }
        }
        Key::List(..) => false,
    }
}

fn drops_object(touch: &Touch, id: Id) -> bool
    ensures { result ≡ drops id touch.now.key touch.now.change }
{
    match &touch.key {
        Key::Obj(other) => {
            match &touch.change {
                Change::DropObject => *other == id,
                Change::PutObject(_) | Change::SetEdge { .. } | Change::CutEdge { .. } => false,
            }
        }
        Key::List(..) => false,
    }
}

fn is_list(key: &Key, id1: Id, atype: AType) -> bool
    ensures { result ≡ is_list id1 atype key.now }
{
    match key {
        Key::List(id, of) => *id == id1 && *of == atype,
        Key::Obj(_) => false,
    }
}

fn sets_edge(change: &Change, id2: Id, time: Time, payload: &Data) -> bool
    ensures { result ≡ sets (λ edge. edge.id2 == id2 && edge.time == time && same_data edge.payload payload.now) change.now }
{
    match change {
        Change::SetEdge { edge, .. } => {
            edge.id2 == id2 && edge.time == time && is_same(&edge.payload, payload)
        }
        Change::CutEdge { .. } | Change::PutObject(_) | Change::DropObject => false,
    }
}

fn moves_edge(change: &Change, id2: Id) -> bool
    ensures { result ≡ sets (λ edge. edge.id2 == id2) change.now }
{
    match change {
        Change::SetEdge { edge, .. } => edge.id2 == id2,
        Change::CutEdge { .. } | Change::PutObject(_) | Change::DropObject => false,
    }
}

fn cuts_edge(change: &Change, id2: Id) -> bool
    ensures { result ≡ cuts id2 change.now }
{
    match change {
        Change::CutEdge { id2: other, .. } => *other == id2,
        Change::SetEdge { .. } | Change::PutObject(_) | Change::DropObject => false,
    }
}

/// Whether the first touch is the write's.
fn fits_first(write: &Write, touch: &Touch) -> bool
    ensures { result ≡ fits_first write.now touch.now.key touch.now.change }
{
    match write {
        Write::ObjAdd {
            shard,
            otype,
            payload,
        } => adds_object(touch, *shard, *otype, payload),
        Write::ObjUpdate { id, payload } => updates_object(touch, *id, payload),
        Write::ObjDelete { id } => drops_object(touch, *id),
        Write::AssocAdd {
            id1,
            atype,
            id2,
            time,
            payload,
        } => { is_list(&touch.key, *id1, *atype) && sets_edge(&touch.change, *id2, *time, payload) }
        Write::AssocDelete { id1, atype, id2 } => {
            is_list(&touch.key, *id1, *atype) && cuts_edge(&touch.change, *id2)
        }
        Write::AssocChangeType {
            id1,
            atype,
            id2,
            ..
        } => is_list(&touch.key, *id1, *atype) && cuts_edge(&touch.change, *id2),
    }
}

/// Whether the touches after the first are the write's: a change of type has one at the new type.
fn fits_second(write: &Write, touches: &[Touch]) -> bool
    ensures { result ≡ fits_second write.now touches.now }
{
    match write {
        Write::AssocChangeType {
            id1,
            id2,
            newtype,
            ..
        } => {
            match touches {
                [] => false,
                [touch, ..] => {
                    is_list(&touch.key, *id1, *newtype) && moves_edge(&touch.change, *id2)
                }
            }
        }
        Write::ObjAdd { .. } => true,
        Write::ObjUpdate { .. } => true,
        Write::ObjDelete { .. } => true,
        Write::AssocAdd { .. } => true,
        Write::AssocDelete { .. } => true,
    }
}

/// Whether the touches say what the write names.
fn names(write: &Write, touches: &[Touch]) -> bool
    ensures { result ≡ names write.now touches.now }
{
    match touches {
        [] => false,
        [first, rest @ ..] => fits_first(write, first) && fits_second(write, rest),
    }
}

fn is_of_kind(entry: &Entry, write: &Write) -> bool
    ensures { IsTrue result ↔ (entry.now.kind ≡ write_kind write.now) }
{
    entry.kind == write.kind()
}

/// Whether the entry is one that the write could have made: it is of the write's kind, and its touches
/// say what the write names. Versions, stamps, the time before, a new id, and the time and data of a
/// change of type aren't compared.
pub fn fits(entry: &Entry, write: &Write) -> bool
    ensures { IsTrue result ↔ FitsWrite entry.now write.now }
{
    is_of_kind(entry, write) && names(write, entry.touches.as_slice())
}
