//! Which calls of the keeper in memory fail.
ghost use Rattle.std.specs.Prelude.{◌≡◌, ◌↔◌, false, IsTrue};
ghost use Rattle.counts.specs.Planned.{after_next, from_one};
ghost use Rattle.keeper_map.specs.Plan.{CallFails, CallsAsPlanned, CommitIsListed, CommitsAsPlanned, EndsAsPlanned, FailsOn, mended, with_call};

use counts::{Count, PlannedCalls};
use std::marker::Model;
use tao_keeper::KeepFail;

/// The numbers of the calls that fail, among all calls and among the commits. Both count from 1.
#[derive(Drop)]
pub struct Fails {
    pub calls: Vec<u64>,
    pub commits: Vec<u64>,
    /// Every call from this number on fails too.
    pub from: Option<u64>,
}

/// Which calls fail, and what was counted so far.
#[derive(Drop)]
pub struct FaultPlan {
    calls: PlannedCalls,
    commits: PlannedCalls,
    from: Option<u64>,
    is_mended: bool,
    faults: Count,
}

impl Model for FaultPlan {
    ghost use Rattle.keeper_map.specs.Plan.{CallPlan};

    ghost Value = { CallPlan };

    ghost view = { λ p. record { calls = p.calls; commits = p.commits; from = p.from; is_mended = p.is_mended; faults = p.faults } };
}

impl FaultPlan {
    /// Nothing was counted yet.
    pub fn of(fails: Fails) -> FaultPlan
        ensures calls { result.calls ≡ from_one fails.calls.items }
        ensures commits { result.commits ≡ from_one fails.commits.items }
        ensures from { result.from ≡ fails.from }
        ensures planned { result.is_mended ≡ false }
        ensures faults { result.faults ≡ 0 }
    {
        FaultPlan {
            calls: PlannedCalls::of(fails.calls),
            commits: PlannedCalls::of(fails.commits),
            from: fails.from,
            is_mended: false,
            faults: Count::new(),
        }
    }

    /// How many calls were counted so far, commits among them.
    pub fn calls(&self) -> u64
        ensures { result ≡ self.now.calls.count }
    {
        self.calls.count()
    }

    /// How many calls failed so far.
    pub fn faults(&self) -> u64
        ensures { result ≡ self.now.faults }
    {
        self.faults.value()
    }

    /// Takes away all failures that are to come. What was counted stays.
    pub fn mend(&mut self)
        ensures { self.new ≡ mended self.old }
    {
        self.is_mended = true;
    }

    /// Whether the next call is one of those from which on every one fails.
    fn fails_on(&self) -> bool
        ensures { IsTrue result ↔ FailsOn self.now }
    {
        match self.from {
            Some(first) => first <= self.calls.count().saturating_add(1),
            None => false,
        }
    }

    /// Counts a call, and says whether it is to fail.
    fn next_call_fails(&mut self) -> bool
        ensures fails { IsTrue result ↔ CallFails self.old }
        ensures counted { self.new ≡ with_call self.old }
    {
        let fails_on = self.fails_on();
        let is_listed = self.calls.next_fails();
        !self.is_mended && (is_listed || fails_on)
    }

    /// Counts a commit, and says whether it is to fail by its number among the commits.
    fn next_commit_fails(&mut self) -> bool
        ensures fails { IsTrue result ↔ CommitIsListed self.old }
        ensures counted { self.new ≡ record self.old { commits = after_next self.old.commits } }
    {
        let is_listed = self.commits.next_fails();
        !self.is_mended && is_listed
    }

    /// Counts a call, which fails where its number is listed, or every call from there on is to fail.
    pub fn begin_call(&mut self) -> Result<(), KeepFail>
        ensures { CallsAsPlanned self.old self.new result }
    {
        let fails = self.next_call_fails();
        self.fail_where(fails)
    }

    /// Counts a commit, which fails there too, and where its number among the commits is listed.
    pub fn begin_commit(&mut self) -> Result<(), KeepFail>
        ensures { CommitsAsPlanned self.old self.new result }
    {
        let call_fails = self.next_call_fails();
        let commit_fails = self.next_commit_fails();
        self.fail_where(call_fails || commit_fails)
    }

    fn fail_where(&mut self, fails: bool) -> Result<(), KeepFail>
        ensures { EndsAsPlanned (IsTrue fails) self.old self.new result }
    {
        if fails {
            self.faults.rise();
            return Err(KeepFail::Failed);
        }
        Ok(())
    }
}
