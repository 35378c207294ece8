//! A data's bytes alone, outside of an entry.
ghost use Rattle.std.specs.Prelude.{◌≡◌, IfOk};
ghost use Rattle.tao_base.specs.Data.{data_bytes};
ghost use Rattle.entry_codec.specs.Gives.{Answers};
ghost use Rattle.entry_codec.specs.Reading.{data_in};

use crate::data_fields::read_data;
use crate::reader::Reader;
use crate::refusal::EntryRefusal;
use crate::writing::put_data;
use std::alloc::Global;
use tao_base::{Bytes, Data, OutOfMemory};

/// The data's spelling, as it stands in an entry. Takes time by its size.
pub fn encode_data(alloc: Global, payload: &Data) -> Result<Bytes, OutOfMemory>
    ensures { IfOk result (λ bytes. bytes ≡ data_bytes payload.now) }
{
    let mut out = Vec::new(alloc);
    put_data(&mut out, payload)?;
    Ok(Bytes::of(out))
}

/// The data that all of the bytes spell, or the first place that is refused. Takes time by their number.
pub fn decode_data(alloc: Global, bytes: &[u8]) -> Result<Data, EntryRefusal>
    ensures { Answers result (data_in bytes.now) }
{
    let mut reader = Reader::of(bytes);
    let payload = read_data(alloc, &mut reader)?;
    if !reader.is_at_end() {
        return Err(EntryRefusal::BadEntry { at: reader.place() });
    }
    Ok(payload)
}
