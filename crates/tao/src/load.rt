//! A load over the standard streams.
ghost use Rattle.std.specs.Prelude.{◌<◌};

use crate::watched::WatchedGate;
use command_words::LoadWords;
use load_top::load_top;
use std::mem;
use std::sync::Wait;
use std::thread::Threads;
use tao_io::{StdSink, StdSource};

/// Makes the calls of a load on its threads, over stores in memory, and answers the status.
pub fn load<R: Threads + Wait + Sync>(rt: &HostRuntime, threads: &R, words: LoadWords) -> u8
    requires { 0 < words.threads }
{
    let mut input = StdSource::of(rt.stdin());
    let mut output = StdSink::of(rt.stdout());
    let gate = WatchedGate::of(rt, words.calls);
    let (status, keepers) = load_top(threads, rt.alloc(), &mut input, &mut output, words, &gate);
    if !keepers.is_empty() {
        gate.end();
    }
    // The process ends, and its memory with it: to let go of each entry would take a tenth of the load's time.
    mem::forget(keepers);
    status.code
}
