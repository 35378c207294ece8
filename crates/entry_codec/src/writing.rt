//! The bytes of an entry, written part by part.
ghost use Rattle.std.specs.Prelude.{◌≡◌, ◌++◌, ◌∷◌, [], ◌<◌, ◌≤◌, ◌+◌, ◌^◌, length, flat_map, All, OnOk};
ghost use Rattle.std.specs.Int.{to_be_bytes, w16, w32, w64};
ghost use Rattle.tao_base.specs.Data.{data_bytes, pair_bytes, text_bytes};
ghost use Rattle.tao_base.specs.declared.entry.Change.TheVariants.{CutEdge, SetEdge};
ghost use Rattle.std.specs.Str.{IsUtf8};
ghost use Rattle.entry_codec.specs.Values.{ChangeFits, DataFits, EntryFits, IsId, KeyFits, OriginFits, PairFits, StampFits, TouchFits, WasFits};
ghost use Rattle.tao_base.specs.Spelling.{change_bytes, key_bytes, kind_byte, origin_bytes, spelling, stamp_bytes, touch_bytes, was_bytes};

use std::alloc::AllocError;
use tao_base::{
    AType, Change, Data, Edge, Entry, Id, Key, Kind, Origin, Pair, Stamp, Text, Time, Touch,
};

/// Writes the entry at the end. What is written is a value of the program, so its numbers are of
/// their widths: callers learn it here.
pub fn put_entry(out: &mut Vec<u8>, entry: &Entry) -> Result<(), AllocError>
    ensures bytes { length entry.now.touches ≤ 4 → OnOk result (out.new.items ≡ out.old.items ++ spelling entry.now) }
    ensures fits { OnOk result (EntryFits entry.now) }
{
    put_head(out, entry)?;
    put_touches(out, entry.touches.as_slice())
}

fn put_touches(out: &mut Vec<u8>, touches: &[Touch]) -> Result<(), AllocError>
    ensures bytes { OnOk result (out.new.items ≡ out.old.items ++ flat_map touch_bytes touches.now) }
    ensures fits { OnOk result (All TouchFits touches.now) }
{
    for touch in touches {
        put_touch(out, touch)?;
    }
    Ok(())
}

fn put_head(out: &mut Vec<u8>, entry: &Entry) -> Result<(), AllocError>
    ensures bytes { length entry.now.touches ≤ 4 → OnOk result (out.new.items ≡ out.old.items
        ++ to_be_bytes w64 entry.now.position ++ (kind_byte entry.now.kind ∷ origin_bytes entry.now.origin) ++ length entry.now.touches ∷ []) }
    ensures fits { OnOk result ((entry.now.position < 2 ^ 64) × OriginFits entry.now.origin) }
{
    put_u64(out, entry.position)?;
    put_u8(out, byte_of(entry.kind))?;
    put_origin(out, &entry.origin)?;
    put_u8(out, entry.touches.as_slice().len().min(255) as u8)
}

fn byte_of(kind: Kind) -> u8
    ensures { result ≡ kind_byte kind }
{
    kind as u8
}

fn put_origin(out: &mut Vec<u8>, origin: &Origin) -> Result<(), AllocError>
    ensures bytes { OnOk result (out.new.items ≡ out.old.items ++ origin_bytes origin.now) }
    ensures fits { OnOk result (OriginFits origin.now) }
{
    match origin {
        Origin::Client { session, seq } => {
            put_u32(out, *session)?;
            put_u64(out, *seq)
        }
        Origin::Merge { shard, position } => {
            put_u32(out, u32::from(*shard))?;
            put_u64(out, *position)
        }
    }
}

fn put_touch(out: &mut Vec<u8>, touch: &Touch) -> Result<(), AllocError>
    ensures bytes { OnOk result (out.new.items ≡ out.old.items ++ touch_bytes touch.now) }
    ensures fits { OnOk result (TouchFits touch.now) }
{
    put_key(out, &touch.key)?;
    put_u64(out, touch.version)?;
    put_change(out, &touch.change)
}

fn put_key(out: &mut Vec<u8>, key: &Key) -> Result<(), AllocError>
    ensures bytes { OnOk result (out.new.items ≡ out.old.items ++ key_bytes key.now) }
    ensures fits { OnOk result (KeyFits key.now) }
{
    match key {
        Key::Obj(id) => put_tagged_id(out, 1, *id),
        Key::List(id1, atype) => put_list_key(out, *id1, *atype),
    }
}

fn put_list_key(out: &mut Vec<u8>, id1: Id, atype: AType) -> Result<(), AllocError>
    ensures bytes { OnOk result (out.new.items ≡ out.old.items ++ key_bytes (Key.List id1 atype)) }
    ensures fits { OnOk result (KeyFits (Key.List id1 atype)) }
{
    put_tagged_id(out, 2, id1)?;
    put_u16(out, atype.0)
}

fn put_change(out: &mut Vec<u8>, change: &Change) -> Result<(), AllocError>
    ensures bytes { OnOk result (out.new.items ≡ out.old.items ++ change_bytes change.now) }
    ensures fits { OnOk result (ChangeFits change.now) }
{
    match change {
        Change::PutObject(object) => {
            put_u8(out, 1)?;
            put_u16(out, object.otype.0)?;
            put_data(out, &object.payload)
        }
        Change::DropObject => put_u8(out, 2),
        Change::SetEdge { edge, was } => put_set(out, edge, *was),
        Change::CutEdge { id2, stamp, was } => put_cut(out, *id2, stamp, *was),
    }
}

fn put_set(out: &mut Vec<u8>, edge: &Edge, was: Option<Time>) -> Result<(), AllocError>
    ensures bytes { OnOk result (out.new.items ≡ out.old.items ++ change_bytes (SetEdge edge.now was)) }
    ensures fits { OnOk result (ChangeFits (SetEdge edge.now was)) }
{
    put_place(out, edge)?;
    put_stamp(out, &edge.stamp)?;
    put_was(out, was)?;
    put_data(out, &edge.payload)
}

fn put_place(out: &mut Vec<u8>, edge: &Edge) -> Result<(), AllocError>
    ensures bytes { OnOk result (out.new.items ≡ out.old.items ++ ((3 ∷ to_be_bytes w64 edge.now.id2) ++ to_be_bytes w32 edge.now.time)) }
    ensures fits { OnOk result (IsId edge.now.id2 × (edge.now.time < 2 ^ 32)) }
{
    put_tagged_id(out, 3, edge.id2)?;
    put_u32(out, edge.time)
}

fn put_cut(out: &mut Vec<u8>, id2: Id, stamp: &Stamp, was: Option<Time>) -> Result<(), AllocError>
    ensures bytes { OnOk result (out.new.items ≡ out.old.items ++ change_bytes (CutEdge id2 stamp.now was)) }
    ensures fits { OnOk result (ChangeFits (CutEdge id2 stamp.now was)) }
{
    put_tagged_id(out, 4, id2)?;
    put_stamp(out, stamp)?;
    put_was(out, was)
}

fn put_tagged_id(out: &mut Vec<u8>, tag: u8, id: Id) -> Result<(), AllocError>
    ensures bytes { OnOk result (out.new.items ≡ out.old.items ++ tag ∷ to_be_bytes w64 id) }
    ensures fits { OnOk result (IsId id) }
{
    put_u8(out, tag)?;
    put_u64(out, id.number())
}

fn put_stamp(out: &mut Vec<u8>, stamp: &Stamp) -> Result<(), AllocError>
    ensures bytes { OnOk result (out.new.items ≡ out.old.items ++ stamp_bytes stamp.now) }
    ensures fits { OnOk result (StampFits stamp.now) }
{
    put_u64(out, stamp.number)?;
    put_u16(out, stamp.shard)
}

fn put_was(out: &mut Vec<u8>, was: Option<Time>) -> Result<(), AllocError>
    ensures bytes { OnOk result (out.new.items ≡ out.old.items ++ was_bytes was) }
    ensures fits { WasFits was }
{
    match was {
        None => put_u8(out, 0),
        Some(time) => {
            put_u8(out, 1)?;
            put_u32(out, time)
        }
    }
}

pub fn put_data(out: &mut Vec<u8>, payload: &Data) -> Result<(), AllocError>
    ensures bytes { OnOk result (out.new.items ≡ out.old.items ++ data_bytes payload.now) }
    ensures fits { OnOk result (DataFits payload.now) }
{
    let pairs = payload.pairs();
    put_u8(out, pairs.len() as u8)?;
    for pair in pairs {
        put_pair(out, pair)?;
    }
    Ok(())
}

fn put_pair(out: &mut Vec<u8>, pair: &Pair) -> Result<(), AllocError>
    requires { length pair.now.key + length pair.now.value < 2 ^ 16 }
    ensures bytes { OnOk result (out.new.items ≡ out.old.items ++ pair_bytes pair.now) }
    ensures fits { OnOk result (PairFits pair.now) }
{
    put_text(out, &pair.key)?;
    put_text(out, &pair.value)
}

fn put_text(out: &mut Vec<u8>, text: &Text) -> Result<(), AllocError>
    requires { length text.now < 2 ^ 16 }
    ensures bytes { OnOk result (out.new.items ≡ out.old.items ++ text_bytes text.now) }
    ensures fits { OnOk result (IsUtf8 text.now) }
{
    let bytes = text.as_str().as_bytes();
    put_u16(out, bytes.len() as u16)?;
    out.extend_from_slice(bytes)
}

fn put_u8(out: &mut Vec<u8>, n: u8) -> Result<(), AllocError>
    ensures { OnOk result (out.new.items ≡ out.old.items ++ n ∷ []) }
{
    out.push(n)?;
    Ok(())
}

fn put_u16(out: &mut Vec<u8>, n: u16) -> Result<(), AllocError>
    ensures { OnOk result (out.new.items ≡ out.old.items ++ to_be_bytes w16 n) }
{
    out.extend_from_slice(&n.to_be_bytes())
}

fn put_u32(out: &mut Vec<u8>, n: u32) -> Result<(), AllocError>
    ensures { OnOk result (out.new.items ≡ out.old.items ++ to_be_bytes w32 n) }
{
    out.extend_from_slice(&n.to_be_bytes())
}

fn put_u64(out: &mut Vec<u8>, n: u64) -> Result<(), AllocError>
    ensures { OnOk result (out.new.items ≡ out.old.items ++ to_be_bytes w64 n) }
{
    out.extend_from_slice(&n.to_be_bytes())
}
