//! A keeper for each of two stores, which are called as one.
use keeper_map::{Fails, MapKeeper};
use keepers::Keepers;
use std::alloc::Global;
use std::test::Fail;
use tao_base::StoreName;
use tao_keeper::{KeepFail, Keeper, Opened};

const EAST: StoreName = StoreName {
    region: 0,
    shard: 0,
};

const WEST: StoreName = StoreName {
    region: 1,
    shard: 0,
};

/// A store that has no keeper.
const SOUTH: StoreName = StoreName {
    region: 2,
    shard: 0,
};

/// A keeper that nothing was written to, of whose calls these fail.
fn keeper_failing_at(alloc: Global, calls: Vec<u64>) -> MapKeeper {
    let fails = Fails {
        calls,
        commits: Vec::new(alloc),
        from: None,
    };
    MapKeeper::make(alloc, fails)
}

#[test]
fn a_call_is_one_of_the_store_s_keeper(rt: HostRuntime) -> Result<(), Fail> {
    let alloc = rt.alloc();
    let of_east = keeper_failing_at(alloc, Vec::new(alloc));
    let of_west = keeper_failing_at(alloc, vec![in alloc; 2]?);
    let mut all = Keepers::of(vec![in alloc; of_east, of_west]?, 1);
    let rows: [(StoreName, &[u8], Result<Opened, KeepFail>); 6] = [
        (EAST, b"east", Ok(Opened::Ready)),
        (WEST, b"west", Ok(Opened::Ready)),
        (WEST, b"west", Err(KeepFail::Failed)),
        (WEST, b"east", Ok(Opened::OtherLine)),
        (EAST, b"east", Ok(Opened::Ready)),
        (SOUTH, b"east", Err(KeepFail::Failed)),
    ];
    for (at, line, answer) in rows {
        assert_eq!(rt; all.open(at, line), answer);
    }
    assert_eq!(rt; (all.calls(), all.faults()), (6, 2));
    for (keeper, counts) in all.into_keepers().as_slice().iter().zip([(2, 0), (3, 1)]) {
        assert_eq!(rt; (keeper.calls(), keeper.faults()), counts);
    }
    Ok(())
}
