//! The fields of a touch.
ghost use Rattle.std.specs.Prelude.{◌≡◌};
ghost use Rattle.std.specs.List.{list_any};
ghost use Rattle.tao_base.specs.Keys.{same_key};
ghost use Rattle.entry_codec.specs.Gives.{GivesValue};
ghost use Rattle.entry_codec.specs.Reading.{spelled_any_key, spelled_change, spelled_cut, spelled_key, spelled_put, spelled_set, spelled_stamp};
ghost use Rattle.entry_codec.specs.Reading.{spelled_touch, spelled_was};

use crate::data_fields::read_data;
use crate::reader::Reader;
use crate::refusal::EntryRefusal;
use std::alloc::Global;
use tao_base::{AType, Change, Edge, Key, OType, Object, Stamp, Time, Touch};

/// A touch of a key that none of the earlier ones has.
pub fn read_touch(
    alloc: Global,
    reader: &mut Reader,
    earlier: &[Touch],
) -> Result<Touch, EntryRefusal>
    ensures { GivesValue result reader.new (spelled_touch earlier.now reader.old) }
{
    let key = read_key(reader, earlier)?;
    let version = reader.positive_u64()?;
    let change = read_change(alloc, reader, &key)?;
    Ok(Touch {
        key,
        change,
        version,
    })
}

fn read_key(reader: &mut Reader, earlier: &[Touch]) -> Result<Key, EntryRefusal>
    ensures { GivesValue result reader.new (spelled_key earlier.now reader.old) }
{
    let at = reader.place();
    let key = read_any_key(reader)?;
    if is_touched(earlier, &key) {
        return Err(EntryRefusal::BadEntry { at });
    }
    Ok(key)
}

fn is_touched(touches: &[Touch], key: &Key) -> bool
    ensures { result ≡ list_any (λ touch. same_key touch.key key.now) touches.now }
{
    touches.iter().any(|touch| touch.key == *key)
}

fn read_any_key(reader: &mut Reader) -> Result<Key, EntryRefusal>
    ensures { GivesValue result reader.new (spelled_any_key reader.old) }
{
    let at = reader.place();
    match reader.take_u8()? {
        1 => Ok(Key::Obj(reader.id()?)),
        2 => {
            let id1 = reader.id()?;
            Ok(Key::List(id1, AType(reader.take_u16()?)))
        }
        _ => Err(EntryRefusal::BadEntry { at }),
    }
}

fn read_change(alloc: Global, reader: &mut Reader, key: &Key) -> Result<Change, EntryRefusal>
    ensures { GivesValue result reader.new (spelled_change key.now reader.old) }
{
    let at = reader.place();
    match (key, reader.take_u8()?) {
        (Key::Obj(_), 1) => read_put(alloc, reader),
        (Key::Obj(_), 2) => Ok(Change::DropObject),
        (Key::List(..), 3) => read_set(alloc, reader),
        (Key::List(..), 4) => read_cut(reader),
        _ => Err(EntryRefusal::BadEntry { at }),
    }
}

fn read_put(alloc: Global, reader: &mut Reader) -> Result<Change, EntryRefusal>
    ensures { GivesValue result reader.new (spelled_put reader.old) }
{
    let otype = OType(reader.take_u16()?);
    let payload = read_data(alloc, reader)?;
    Ok(Change::PutObject(Object { otype, payload }))
}

fn read_set(alloc: Global, reader: &mut Reader) -> Result<Change, EntryRefusal>
    ensures { GivesValue result reader.new (spelled_set reader.old) }
{
    let id2 = reader.id()?;
    let time = reader.take_u32()?;
    let stamp = read_stamp(reader)?;
    let was = read_was(reader)?;
    let payload = read_data(alloc, reader)?;
    let edge = Edge {
        id2,
        time,
        payload,
        stamp,
    };
    Ok(Change::SetEdge { edge, was })
}

fn read_cut(reader: &mut Reader) -> Result<Change, EntryRefusal>
    ensures { GivesValue result reader.new (spelled_cut reader.old) }
{
    let id2 = reader.id()?;
    let stamp = read_stamp(reader)?;
    let was = read_was(reader)?;
    Ok(Change::CutEdge { id2, stamp, was })
}

fn read_stamp(reader: &mut Reader) -> Result<Stamp, EntryRefusal>
    ensures { GivesValue result reader.new (spelled_stamp reader.old) }
{
    let at = reader.place();
    let number = reader.take_u64()?;
    if number == 0 || number >= 1 << 63 {
        return Err(EntryRefusal::BadEntry { at });
    }
    let shard = reader.take_u16()?;
    Ok(Stamp { number, shard })
}

fn read_was(reader: &mut Reader) -> Result<Option<Time>, EntryRefusal>
    ensures { GivesValue result reader.new (spelled_was reader.old) }
{
    let at = reader.place();
    match reader.take_u8()? {
        0 => Ok(None),
        1 => Ok(Some(reader.take_u32()?)),
        _ => Err(EntryRefusal::BadEntry { at }),
    }
}
