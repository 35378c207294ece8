//! The fields of a data.
ghost use Rattle.std.specs.Int.{w16};
ghost use Rattle.entry_codec.specs.Fields.{spelled_bytes, spelled_number, only, up_to};
ghost use Rattle.entry_codec.specs.Gives.{GivesValue, GivesBytes, GivesItems};
ghost use Rattle.entry_codec.specs.Reading.{spelled_data, is_next_key, spelled_next_key, spelled_pair, spelled_pairs, spelled_text};
ghost use Rattle.std.specs.Prelude.{◌≡◌, ◌<◌, ◌^◌, []};
ghost use Rattle.std.specs.Str.{is_utf8};

use crate::reader::Reader;
use crate::refusal::EntryRefusal;
use std::alloc::Global;
use tao_base::{Data, Pair, Text};

/// A data: the number of its pairs, and each key with its value.
pub fn read_data(alloc: Global, reader: &mut Reader) -> Result<Data, EntryRefusal>
    ensures { GivesValue result reader.new (spelled_data reader.old) }
{
    let start = reader.place();
    let count = reader.take_u8()?;
    if usize::from(count) > Data::MOST_PAIRS {
        return Err(EntryRefusal::BadEntry { at: start });
    }
    Ok(Data::of(read_pairs(alloc, reader, start + Data::MOST_BYTES, count)?))
}

/// So many pairs, which end at the place `end` or before.
fn read_pairs(
    alloc: Global,
    reader: &mut Reader,
    end: u64,
    count: u8,
) -> Result<Vec<Pair>, EntryRefusal>
    ensures { GivesItems result reader.new (spelled_pairs end count [] reader.old) }
{
    let mut pairs = Vec::new(alloc);
    for _ in 0..count {
        let pair = read_pair(alloc, reader, end, &pairs)?;
        pairs.push(pair)?;
    }
    Ok(pairs)
}

fn read_pair(
    alloc: Global,
    reader: &mut Reader,
    end: u64,
    earlier: &[Pair],
) -> Result<Pair, EntryRefusal>
    ensures { GivesValue result reader.new (spelled_pair end earlier.now reader.old) }
{
    let key = read_next_key(alloc, reader, end, earlier)?;
    let value = read_text(alloc, reader, end)?;
    Ok(Pair { key, value })
}

fn read_text(alloc: Global, reader: &mut Reader, end: u64) -> Result<Text, EntryRefusal>
    ensures { GivesValue result reader.new (spelled_text end reader.old) }
{
    let len = read_len(reader, end)?;
    let text = read_utf8(reader, end, len)?;
    Ok(Text::copy_of(alloc, text)?)
}

/// A key that is greater than the last of the earlier pairs.
fn read_next_key(
    alloc: Global,
    reader: &mut Reader,
    end: u64,
    earlier: &[Pair],
) -> Result<Text, EntryRefusal>
    ensures { GivesValue result reader.new (spelled_next_key end earlier.now reader.old) }
{
    let len = read_len(reader, end)?;
    let at = reader.place();
    let key = read_utf8(reader, end, len)?;
    if !is_above_last(earlier, key) {
        return Err(EntryRefusal::BadEntry { at });
    }
    Ok(Text::copy_of(alloc, key)?)
}

fn is_above_last(earlier: &[Pair], key: &str) -> bool
    ensures { result ≡ is_next_key earlier.now key.now }
{
    match earlier {
        [] => true,
        [.., last] => last.key.as_str() < key,
    }
}

fn read_len(reader: &mut Reader, end: u64) -> Result<usize, EntryRefusal>
    ensures { GivesValue result reader.new (up_to end (spelled_number w16) reader.old) }
{
    let at = reader.place();
    let len = reader.take_u16()?;
    if reader.place() > end {
        return Err(EntryRefusal::BadEntry { at });
    }
    Ok(usize::from(len))
}

fn read_utf8<'a>(reader: &mut Reader<'a>, end: u64, len: usize) -> Result<&'a str, EntryRefusal>
    ensures { GivesBytes result reader.new (only is_utf8 (up_to end (spelled_bytes len)) reader.old) }
{
    let at = reader.place();
    let bytes = reader.take_up_to(end, len)?;
    match std::str::from_utf8(bytes) {
        Ok(text) => Ok(text),
        Err(_) => Err(EntryRefusal::BadEntry { at }),
    }
}
