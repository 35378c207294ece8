//! How far a run or a load is, which is told on standard error where that is a terminal.
use load_top::Gate;
use std::fs;
use std::sync::atomic::{AtomicU64, Ordering};
use tao_io::{Sink, SinkFailed};

/// After how many calls progress is told again.
const STEP: u64 = 1_000;

/// A sink, and whether somebody watches.
#[derive(Drop)]
pub struct Watched<'r, S> {
    rt: &'r HostRuntime,
    sink: S,
    is_watched: bool,
}

/// Whether standard error is a terminal. Where the system doesn't tell, it is none.
fn is_terminal(rt: &HostRuntime) -> bool {
    match fs::read_link(rt, "/proc/self/fd/2") {
        Ok(path) => {
            let name = path.as_str();
            name.starts_with("/dev/pts/") || name.starts_with("/dev/tty")
        }
        Err(_) => false,
    }
}

impl<'r, S> Watched<'r, S> {
    pub fn of(rt: &'r HostRuntime, sink: S) -> Watched<'r, S> {
        Watched {
            rt,
            sink,
            is_watched: is_terminal(rt),
        }
    }
}

impl<'r, S: Sink> Sink for Watched<'r, S> {
    ghost taken = { λ w. S.taken w.sink };

    ghost faults = { λ w. S.faults w.sink };

    fn put(&mut self, piece: &[u8]) -> Result<usize, SinkFailed> {
        self.sink.put(piece)
    }

    fn flush(&mut self) -> Result<(), SinkFailed> {
        self.sink.flush()
    }

    fn progress(&mut self, done: u64, all: u64) {
        if self.is_watched && (done % STEP == 0 || done == all) {
            let end = if done == all { "\n" } else { "" };
            // Where standard error takes nothing, nothing is told.
            let _ = eprint!(self.rt; "\r{done} of {all} calls{end}");
        }
    }
}

/// A load's gate, by which the calls come past that read, and whether somebody watches.
#[derive(Drop)]
pub struct WatchedGate<'r> {
    rt: &'r HostRuntime,
    calls: u64,
    /// The number of the last call that was told of.
    told: AtomicU64,
    is_watched: bool,
}

impl<'r> WatchedGate<'r> {
    /// The gate of a load of so many calls.
    pub fn of(rt: &'r HostRuntime, calls: u64) -> WatchedGate<'r> {
        WatchedGate {
            rt,
            calls,
            told: AtomicU64::new(0),
            is_watched: is_terminal(rt),
        }
    }

    /// Tells of the first call of each step that comes past. Each thread makes its calls in order, so those before it are made, but for some of other threads.
    fn pass(&self, call: u64) {
        if self.is_watched && call / STEP > self.told.fetch_max(call, Ordering::SeqCst) / STEP {
            // Where standard error takes nothing, nothing is told.
            let _ = eprint!(self.rt; "\r{call} of {} calls", self.calls);
        }
    }

    /// Tells that all calls were made.
    pub fn end(&self) {
        if self.is_watched {
            // Where standard error takes nothing, nothing is told.
            let _ = eprintln!(self.rt; "\r{} of {} calls", self.calls, self.calls);
        }
    }
}

impl<'r> Gate for WatchedGate<'r> {
    fn store_read(&self, call: u64) {
        self.pass(call);
    }

    fn hit(&self, call: u64) {
        self.pass(call);
    }
}
