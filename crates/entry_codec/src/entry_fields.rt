//! The fields of an entry.
ghost use Rattle.std.specs.Prelude.{◌≡◌, []};
ghost use Rattle.entry_codec.specs.Gives.{GivesValue, GivesItems};
ghost use Rattle.entry_codec.specs.Reading.{spelled_client, spelled_count, spelled_entry, spelled_kind, spelled_merge, spelled_origin, spelled_touches};

use crate::reader::Reader;
use crate::refusal::EntryRefusal;
use crate::touch_fields::read_touch;
use std::alloc::Global;
use tao_base::{Entry, Kind, Origin, Touch, Touches};

/// How many touches an entry has at most.
const MOST_TOUCHES: u8 = 4;

pub fn read_entry(alloc: Global, reader: &mut Reader) -> Result<Entry, EntryRefusal>
    ensures { GivesValue result reader.new (spelled_entry reader.old) }
{
    let position = reader.positive_u64()?;
    let kind = read_kind(reader)?;
    let origin = read_origin(reader, kind)?;
    let count = read_count(reader)?;
    let touches = Touches::of(read_touches(alloc, reader, count)?);
    Ok(Entry {
        position,
        kind,
        origin,
        touches,
    })
}

fn read_kind(reader: &mut Reader) -> Result<Kind, EntryRefusal>
    ensures { GivesValue result reader.new (spelled_kind reader.old) }
{
    let at = reader.place();
    match reader.take_u8()? {
        1 => Ok(Kind::ObjAdd),
        2 => Ok(Kind::ObjUpdate),
        3 => Ok(Kind::ObjDelete),
        4 => Ok(Kind::AssocAdd),
        5 => Ok(Kind::AssocDelete),
        6 => Ok(Kind::AssocChangeType),
        7 => Ok(Kind::Merge),
        _ => Err(EntryRefusal::BadEntry { at }),
    }
}

fn read_origin(reader: &mut Reader, kind: Kind) -> Result<Origin, EntryRefusal>
    ensures { GivesValue result reader.new (spelled_origin kind reader.old) }
{
    match kind {
        Kind::Merge => read_merge(reader),
        _ => read_client(reader),
    }
}

fn read_client(reader: &mut Reader) -> Result<Origin, EntryRefusal>
    ensures { GivesValue result reader.new (spelled_client reader.old) }
{
    let session = reader.positive_u32()?;
    let seq = reader.positive_u64()?;
    Ok(Origin::Client { session, seq })
}

fn read_merge(reader: &mut Reader) -> Result<Origin, EntryRefusal>
    ensures { GivesValue result reader.new (spelled_merge reader.old) }
{
    let at = reader.place();
    let number = reader.take_u32()?;
    let Ok(shard) = u16::try_from(number) else {
        return Err(EntryRefusal::BadEntry { at });
    };
    let position = reader.positive_u64()?;
    Ok(Origin::Merge { shard, position })
}

fn read_count(reader: &mut Reader) -> Result<u8, EntryRefusal>
    ensures { GivesValue result reader.new (spelled_count reader.old) }
{
    let at = reader.place();
    let count = reader.take_u8()?;
    if count == 0 || count > MOST_TOUCHES {
        return Err(EntryRefusal::BadEntry { at });
    }
    Ok(count)
}

fn read_touches(alloc: Global, reader: &mut Reader, count: u8) -> Result<Vec<Touch>, EntryRefusal>
    ensures { GivesItems result reader.new (spelled_touches count [] reader.old) }
{
    let mut touches = Vec::new(alloc);
    for _ in 0..count {
        let touch = read_touch(alloc, reader, &touches)?;
        touches.push(touch)?;
    }
    Ok(touches)
}
