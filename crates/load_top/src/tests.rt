//! Loads over streams in memory.
use crate::{NoGate, load_top};
use command_words::LoadWords;
use std::alloc::{AllocError, Global};
use std::sync::Wait;
use std::test::Fail;
use std::thread::Threads;
use tao_io::{MemorySink, MemorySource};

/// One region, one tier and one shard.
const SMALL: &str =
    "{\"assocs\":[{\"name\":\"likes\"}],\"objects\":[\"user\"],\"regions\":[{\"name\":\"east\",\"tiers\":[{\"name\":\"t1\"}]}],\"shards\":1}\n";

/// What was written by a load of one call on two threads, and its status and number of keepers.
#[derive(Drop)]
struct Wrote {
    code: u8,
    keepers: usize,
    output: MemorySink,
}

/// The load of an input, with the calls of the source and the sink that fail.
fn loaded<R: Threads + Wait + Sync>(
    rt: &R,
    alloc: Global,
    input: &str,
    source_fails: &[u64],
    sink_fails: &[u64],
) -> Result<Wrote, AllocError> {
    let bytes = input.as_bytes().to_vec(alloc)?;
    let mut source = MemorySource::of(bytes, source_fails.to_vec(alloc)?);
    let mut output = MemorySink::make(alloc, sink_fails.to_vec(alloc)?);
    let words = LoadWords {
        threads: 2,
        seed: 0,
        calls: 1,
    };
    let (status, keepers) = load_top(rt, alloc, &mut source, &mut output, words, &NoGate);
    Ok(Wrote {
        code: status.code,
        keepers: keepers.len(),
        output,
    })
}

/// A load of one call, which reads, and those that end before.
#[test]
fn a_load_ends_as_its_streams_allow(rt: HostRuntime) -> Result<(), Fail> {
    let rows: [(&str, &[u64], &[u64], u8, usize, &str); 5] = [
        (
            SMALL,
            &[],
            &[],
            0,
            1,
            "{\"edges\":0,\"logs\":[0],\"ok\":\"load\",\"refused\":0}\n",
        ),
        (
            "",
            &[],
            &[],
            3,
            0,
            "{\"bad\":\"configuration\",\"field\":\"\"}\n",
        ),
        (
            "{}\n",
            &[],
            &[],
            3,
            0,
            "{\"bad\":\"configuration\",\"field\":\"shards\"}\n",
        ),
        (SMALL, &[1], &[], 4, 0, ""),
        (SMALL, &[], &[1], 5, 0, ""),
    ];
    for (input, source_fails, sink_fails, code, keepers, text) in rows {
        let wrote = loaded(&rt, rt.alloc(), input, source_fails, sink_fails)?;
        assert_eq!(&rt; wrote.code, code);
        assert_eq!(&rt; wrote.keepers, keepers);
        assert_eq!(&rt; wrote.output.bytes(), text.as_bytes());
    }
    Ok(())
}
