//! A source and a sink over memory, which fail at the calls that they are told to fail at.
ghost use Rattle.std.specs.Prelude.{◌≡◌, ◌↔◌, [], length, take, min, IsErr, IfOk};
ghost use Rattle.std.specs.Io.{ReadsAtMost, WritesAtMost};
ghost use Rattle.std.specs.Io.KnownBytes.{ReadConsumes, WriteAppends};
ghost use Rattle.counts.specs.Count.{HasCause};
ghost use Rattle.counts.specs.Planned.{FailsNext};
ghost use Rattle.tao_io.specs.Plan.{new_plan, CountsCall};
ghost use Rattle.tao_io.specs.Sink.{TakesSome};

use crate::plan::FaultPlan;
use crate::{Sink, SinkFailed, Source, SourceFailed};
use std::alloc::Global;
use std::marker::Model;

/// Copies as many bytes as there are and fit.
fn copy_front(from: &[u8], into: &mut [u8]) -> usize
    ensures count { result ≡ min (length into.old) (length from.now) }
    ensures front { take result into.new ≡ take result from.now }
{
    let count = into.len().min(from.len());
    into[..count].copy_from_slice(&from[..count]);
    count
}

/// Bytes in memory as a source.
#[derive(Drop)]
pub struct MemorySource {
    bytes: Vec<u8>,
    at: usize,
    plan: FaultPlan,
}

impl Model for MemorySource {
    ghost use Rattle.std.specs.Prelude.{◌≤◌, length, drop};
    ghost use Rattle.tao_io.specs.Plan.{PlannedSource};

    ghost Value = { PlannedSource };

    ghost view = { λ s. record { left = drop s.at s.bytes.items; plan = s.plan } };

    ghost invariant = { λ s. s.at ≤ length s.bytes.items };
}

impl MemorySource {
    /// A source of these bytes. The calls of `take` whose numbers are listed fail; the first call has the number 1.
    pub fn of(bytes: Vec<u8>, fails: Vec<u64>) -> MemorySource
        ensures left { result.left ≡ bytes.items }
        ensures plan { result.plan ≡ new_plan fails.items }
    {
        MemorySource {
            bytes,
            at: 0,
            plan: FaultPlan::of(fails),
        }
    }
}

impl Source for MemorySource {
    ghost use Rattle.std.specs.Prelude.{Some};

    ghost left = { λ s. Some s.left };

    ghost faults = { λ s. s.plan.faults };

    /// Takes as many bytes as there are and fit. It fails exactly at the listed calls.
    fn take(&mut self, into: &mut [u8]) -> Result<usize, SourceFailed>
        ensures bound { ReadsAtMost result into.new }
        ensures bytes { ReadConsumes (Some self.old.left) (Some self.new.left) result into.new }
        ensures cause { HasCause self.old.plan.faults self.new.plan.faults result }

        ensures listed { IsErr result ↔ FailsNext self.old.plan.calls }
        ensures most { IfOk result (λ n. n ≡ min (length into.old) (length self.old.left)) }
        ensures counted { CountsCall self.old.plan self.new.plan result }
    {
        if self.plan.count_call() {
            self.plan.count_fault();
            return Err(SourceFailed);
        }
        let count = copy_front(&self.bytes[self.at..], into);
        self.at += count;
        Ok(count)
    }
}

/// A sink that keeps what it takes in memory.
#[derive(Drop)]
pub struct MemorySink {
    bytes: Vec<u8>,
    plan: FaultPlan,
}

impl Model for MemorySink {
    ghost use Rattle.tao_io.specs.Plan.{PlannedSink};

    ghost Value = { PlannedSink };

    ghost view = { λ s. record { taken = s.bytes.items; plan = s.plan } };
}

impl MemorySink {
    /// An empty sink. The calls of `put` whose numbers are listed fail; the first call has the number 1.
    pub fn make(alloc: Global, fails: Vec<u64>) -> MemorySink
        ensures taken { result.taken ≡ [] }
        ensures plan { result.plan ≡ new_plan fails.items }
    {
        MemorySink {
            bytes: Vec::new(alloc),
            plan: FaultPlan::of(fails),
        }
    }

    /// What it took.
    pub fn bytes(&self) -> &[u8]
        ensures { result.now ≡ self.now.taken }
    {
        &self.bytes
    }
}

impl Sink for MemorySink {
    ghost use Rattle.std.specs.Prelude.{Some};

    ghost taken = { λ s. Some s.taken };

    ghost faults = { λ s. s.plan.faults };

    /// Takes the whole piece. It fails at the listed calls, and where it finds no memory.
    fn put(&mut self, piece: &[u8]) -> Result<usize, SinkFailed>
        ensures bound { WritesAtMost result piece.now }
        ensures bytes { WriteAppends (Some self.old.taken) (Some self.new.taken) result piece.now }
        ensures cause { HasCause self.old.plan.faults self.new.plan.faults result }
        ensures some { TakesSome self.old.plan.faults self.new.plan.faults result piece.now }

        ensures listed { FailsNext self.old.plan.calls → IsErr result }
        ensures whole { IfOk result (λ n. n ≡ length piece.now) }
        ensures counted { CountsCall self.old.plan self.new.plan result }
    {
        let listed = self.plan.count_call();
        if listed || self.bytes.extend_from_slice(piece).is_err() {
            self.plan.count_fault();
            return Err(SinkFailed);
        }
        Ok(piece.len())
    }

    fn flush(&mut self) -> Result<(), SinkFailed> {
        Ok(())
    }

    fn progress(&mut self, _done: u64, _all: u64) {}
}
