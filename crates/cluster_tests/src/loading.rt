//! Loads of a generated workload, and what no clause can say of them: that two threads make their calls beside one another, and none holds a lock through a
//! whole call.
ghost use Rattle.std.specs.Prelude.{◌<◌};

use cluster_plays::{SMALL, WIDE};
use config_json::read_config;
use new_stores::keepers_for;
use replies::Lengths;
use std::alloc::Global;
use std::process::Abort;
use std::sync::Wait;
use std::sync::atomic::{AtomicU64, Ordering};
use std::test::Fail;
use std::thread;
use std::thread::Threads;
use tao_busy::{Gate, LoadAsked, LoadSummary, NoGate, load};

/// So often a held read looks whether it may go on.
const TURNS: u64 = 10_000_000;

/// A load: its threads, its seed and its calls.
#[derive(Clone, Copy)]
struct Asked {
    threads: u32,
    seed: u64,
    calls: u64,
}

/// Holds the first read that a leader or a store answered until another read is a hit.
#[derive(Drop)]
struct HeldGate {
    /// The number of the read that is held; 0 before there is one.
    held: AtomicU64,
    /// 1 once another read was a hit.
    passed: AtomicU64,
    /// 1 once the held read has looked too often.
    ran_out: AtomicU64,
}

impl HeldGate {
    fn new() -> HeldGate {
        HeldGate {
            held: AtomicU64::new(0),
            passed: AtomicU64::new(0),
            ran_out: AtomicU64::new(0),
        }
    }

    /// Waits until another read was a hit, or it looked too often.
    fn hold(&self) {
        for _ in 0..TURNS {
            if self.passed.load(Ordering::SeqCst) == 1 {
                return;
            }
            thread::yield_now();
        }
        self.ran_out.store(1, Ordering::SeqCst);
    }
}

impl Gate for HeldGate {
    fn store_read(&self, call: u64) {
        let first = self
            .held
            .compare_exchange(0, call, Ordering::SeqCst, Ordering::SeqCst);
        if first.is_ok() {
            self.hold();
        }
    }

    fn hit(&self, call: u64) {
        let held = self.held.load(Ordering::SeqCst);
        if held != 0 && held != call {
            self.passed.store(1, Ordering::SeqCst);
        }
    }
}

/// What a load comes to, over new keepers. None for want of memory, or where it is refused.
fn loaded<R: Threads + Wait + Sync, G: Gate + Sync>(
    rt: &R,
    alloc: Global,
    line: &str,
    what: Asked,
    gate: &G,
) -> Option<LoadSummary>
    requires { 0 < what.threads }
{
    let Ok(config) = read_config(alloc, line.as_bytes()) else {
        return None;
    };
    let Ok(keepers) = keepers_for(alloc, &config) else {
        return None;
    };
    let asked = LoadAsked {
        config: &config,
        line: line.as_bytes(),
        threads: what.threads,
        seed: what.seed,
        calls: what.calls,
    };
    match load(rt, alloc, &asked, keepers, gate) {
        Ok((summary, keepers)) => {
            drop(keepers);
            Some(summary)
        }
        Err(refusal) => {
            drop(refusal);
            None
        }
    }
}

/// The lengths of logs, added up.
fn all_entries(logs: &Lengths) -> u64 {
    let mut entries = 0_u64;
    for length in logs.as_slice() {
        entries = entries.saturating_add(*length);
    }
    entries
}

/// What a summary says: its edges, its logs' entries, added up, and how many calls were refused.
fn said(alloc: Global, summary: LoadSummary) -> Option<String> {
    let entries = all_entries(&summary.logs);
    let LoadSummary { edges, refused, .. } = summary;
    format!(in alloc; "edges {edges} entries {entries} refused {refused}").ok()
}

/// A load of one call leaves a log of no entry.
#[test]
fn one_call_leaves_nothing(rt: HostRuntime) -> Result<(), Fail> {
    let what = Asked {
        threads: 2,
        seed: 0,
        calls: 1,
    };
    let Some(summary) = loaded(&rt, rt.alloc(), SMALL, what, &NoGate) else {
        return Err("memory")?;
    };
    let Some(text) = said(rt.alloc(), summary) else {
        return Err("memory")?;
    };
    assert_eq!(&rt; text.as_str(), "edges 0 entries 0 refused 0");
    Ok(())
}

/// A read that is held lets the other thread's reads through.
#[test]
fn a_held_read_holds_no_other(rt: HostRuntime) -> Result<(), Fail> {
    let what = Asked {
        threads: 2,
        seed: 7,
        calls: 1_000,
    };
    let gate = HeldGate::new();
    let Some(summary) = loaded(&rt, rt.alloc(), SMALL, what, &gate) else {
        return Err("memory")?;
    };
    assert_eq!(&rt; summary.refused, 0);
    assert_eq!(&rt; gate.passed.load(Ordering::SeqCst), 1);
    assert_eq!(&rt; gate.ran_out.load(Ordering::SeqCst), 0);
    drop(summary);
    Ok(())
}

/// Four threads over two regions are refused nothing, and leave entries.
#[test]
fn many_threads_load_two_regions(rt: HostRuntime) -> Result<(), Fail> {
    let what = Asked {
        threads: 4,
        seed: 3,
        calls: 1_000,
    };
    let Some(summary) = loaded(&rt, rt.alloc(), WIDE, what, &NoGate) else {
        return Err("memory")?;
    };
    assert_eq!(&rt; summary.refused, 0);
    let entries = all_entries(&summary.logs);
    assert!(&rt; 300 < entries, "the writes are in the logs");
    drop(summary);
    Ok(())
}
