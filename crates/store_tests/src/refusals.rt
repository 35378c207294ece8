//! The texts of a store's refusals, which no reply has.
use shard_tables::StoreRefusal;
use std::test::Fail;

const TEXTS: [(StoreRefusal, &str); 5] = [
    (
        StoreRefusal::ShardFull { serial: 7 },
        "the shard is full: serial 7",
    ),
    (
        StoreRefusal::StampFull { number: 7 },
        "the edge's stamps are used up: 7",
    ),
    (
        StoreRefusal::TooOld {
            cut: 8,
            position: 7,
        },
        "the write's entry is old: position 7, cut 8",
    ),
    (
        StoreRefusal::SeqReused { position: 7 },
        "another write has this number: position 7",
    ),
    (StoreRefusal::OutOfMemory, "out of memory"),
];

#[test]
fn a_refusal_has_its_text(rt: HostRuntime) -> Result<(), Fail> {
    for (refusal, text) in TEXTS {
        assert_eq!(rt; refusal.to_string(rt.alloc())?.as_str(), text);
    }
    Ok(())
}
