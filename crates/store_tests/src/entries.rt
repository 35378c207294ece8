//! Bytes from outside: the entry of one add and what is refused near it, and each kind and each tag once there and back.
use entry_codec::{EntryRefusal, Spelled};
use std::alloc::Global;
use std::test::Fail;
use tao_base::{Entry, Kind};

/// Bytes, and the kind of the entry that they spell, or the place at which they are refused.
const ROWS: [(&str, Result<Kind, EntryRefusal>); 11] = [
    // An edge from 1 to 2 added by session 1.
    (
        "0000000000000001 04 00000001 0000000000000001 01 02 0000000000000001 0000 0000000000000001 03 0000000000000002 00000005 0000000000000001 0000 00 00",
        Ok(Kind::AssocAdd),
    ),
    // The same without its last byte, and with one more.
    (
        "0000000000000001 04 00000001 0000000000000001 01 02 0000000000000001 0000 0000000000000001 03 0000000000000002 00000005 0000000000000001 0000 00",
        Err(EntryRefusal::BadEntry { at: 65 }),
    ),
    (
        "0000000000000001 04 00000001 0000000000000001 01 02 0000000000000001 0000 0000000000000001 03 0000000000000002 00000005 0000000000000001 \
         0000 00 00 00",
        Err(EntryRefusal::BadEntry { at: 66 }),
    ),
    // No kind, and nothing.
    ("0000000000000001 00", Err(EntryRefusal::BadEntry { at: 8 })),
    ("", Err(EntryRefusal::BadEntry { at: 0 })),
    // An object put, with two pairs and with none.
    (
        "0000000000000001 01 00000001 0000000000000001 01 01 0000000000000001 0000000000000001 01 0203 02 0001 61 0000 0004 6e616d65 0003 416e6e",
        Ok(Kind::ObjAdd),
    ),
    (
        "0000000000000002 02 00000001 0000000000000002 01 01 0000000000000001 0000000000000002 01 0203 00",
        Ok(Kind::ObjUpdate),
    ),
    // An object dropped, with the greatest numbers.
    (
        "ffffffffffffffff 03 ffffffff ffffffffffffffff 01 01 ffffffffffffffff ffffffffffffffff 02",
        Ok(Kind::ObjDelete),
    ),
    // An edge cut that was live at time 5.
    (
        "0000000000000004 05 00000001 0000000000000003 01 02 0000000000000001 0007 0000000000000002 04 0000000000000002 7fffffffffffffff ffff 01 00000005",
        Ok(Kind::AssocDelete),
    ),
    // An edge cut, and set in another list.
    (
        "0000000000000005 06 00000001 0000000000000004 02 02 0000000000000001 0000 0000000000000003 04 0000000000000002 0000000000000002 0000 01 \
         00000005 02 0000000000000001 0001 0000000000000001 03 0000000000000002 00000005 0000000000000002 0000 00 00",
        Ok(Kind::AssocChangeType),
    ),
    // The merge of another shard's job.
    (
        "0000000000000001 07 0000ffff 0000000000000009 01 02 0001000000000001 0000 0000000000000001 03 0000000000000001 00000005 0000000000000001 0000 00 00",
        Ok(Kind::Merge),
    ),
];

fn bytes_of(alloc: Global, spaced: &str) -> Result<Vec<u8>, Fail> {
    let mut digits = String::new(alloc);
    for part in spaced.split(' ') {
        digits.push_str(part)?;
    }
    hex::decode(alloc, digits.as_str()).map_err(Fail::from)
}

/// Whether the entry is spelled in these bytes.
fn is_spelled_in(alloc: Global, entry: &Entry, bytes: &[u8]) -> bool {
    match entry.encode(alloc) {
        Ok(spelling) => spelling.as_slice() == bytes,
        Err(_) => false,
    }
}

/// What comes of the bytes, and whether their entry is spelled in them.
fn come_of(alloc: Global, bytes: &[u8]) -> (Result<Kind, EntryRefusal>, bool) {
    match Entry::decode(alloc, bytes) {
        Ok(entry) => (Ok(entry.kind), is_spelled_in(alloc, &entry, bytes)),
        Err(refusal) => (Err(refusal), true),
    }
}

#[test]
fn entries_go_there_and_back(rt: HostRuntime) -> Result<(), Fail> {
    for (spaced, came) in ROWS {
        let bytes = bytes_of(rt.alloc(), spaced)?;
        assert_eq!(rt; come_of(rt.alloc(), &bytes), (came, true), "{spaced}");
    }
    Ok(())
}
