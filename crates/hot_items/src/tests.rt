//! With memory, what is taken is held: no contract says so, since out of memory needs no cause.
use crate::{Hint, HotCache, HotReply};
use std::test::Fail;
use tao_base::{AType, Answer, Id, Query};

fn count_of(answer: &Answer) -> Option<u64> {
    match answer {
        Answer::Count(count) => Some(*count),
        _ => None,
    }
}

fn full(version: u64, count: u64) -> HotReply {
    HotReply::Full {
        epoch: 0,
        version,
        answer: Answer::Count(count),
    }
}

#[test]
fn a_full_reply_answers_an_unchanged_one(rt: HostRuntime) -> Result<(), Fail> {
    let id1 = Id::read(7).ok_or("an id")?;
    let query = Query::AssocCount {
        id1,
        atype: AType(0),
    };
    let mut cache = HotCache::make(rt.alloc(), 1)?;
    cache.take(&query, full(3, 5))?;
    let hint = Hint {
        epoch: 0,
        version: 3,
    };
    assert_eq!(rt; cache.hint(&query), Some(hint));
    let reply = HotReply::Unchanged {
        epoch: 0,
        version: 3,
    };
    let answer = cache.take(&query, reply)?;
    assert_eq!(rt; count_of(&answer), Some(5));
    Ok(())
}
