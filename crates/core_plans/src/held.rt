//! What a read or a write between two of its stages is, and what comes of it when it is over.
ghost use Rattle.std.specs.Prelude.{◌≡◌, None, option_and_then};
ghost use Rattle.core_plans.specs.Held.{IsOver, learner, next_stage, nothing_learnt, learnt_with};
ghost use Rattle.core_steps.specs.OtherEnds.{learnt_entry_of, learnt_far};

use core_steps::{LearntEntry, learnt_entry_of, learnt_far};
use read_plan::{ReadPlan, ReadStage};
use replies::{Reply, Stage};
use shard_tables::Wrote;
use tao_base::Origin;
use write_plan::{Committed, EndedWrite, WritePlan, WriteStage};

/// A read or a write between two of its stages.
#[derive(Drop)]
pub enum HeldPlan {
    Read(ReadPlan),
    Write(WritePlan),
}

/// What a session learns of a write: its own entry, and the one that it wrote at the other end.
#[derive(Drop)]
pub struct LearntEntries {
    pub here: Option<LearntEntry>,
    pub other: Option<LearntEntry>,
}

/// What comes of a plan that is over: its reply, and what its session learns with it.
#[derive(Drop)]
pub struct EndedPlan {
    pub reply: Reply,
    pub learnt: LearntEntries,
}

impl LearntEntries {
    /// Nothing is learnt.
    fn none() -> LearntEntries
        ensures { result ≡ nothing_learnt }
    {
        LearntEntries {
            here: None,
            other: None,
        }
    }

    /// What a write of the shard wrote, by what its commit answered and by what was written at the other end.
    fn of(shard: u16, committed: Option<Committed>, other: Option<Wrote>) -> LearntEntries
        ensures here { result.here ≡ option_and_then (λ c. learnt_entry_of shard c.wrote) committed }
        ensures other { result.other ≡ learnt_far (option_and_then (λ c. c.wrote.job) committed) other }
    {
        match committed {
            Some(Committed { wrote, .. }) => LearntEntries {
                other: learnt_far(&wrote.job, other),
                here: learnt_entry_of(shard, wrote),
            },
            None => LearntEntries::none(),
        }
    }
}

/// The session of a read, before a stage that may answer it.
fn reader_of(plan: &ReadPlan) -> Option<u32>
    ensures { result ≡ learner (HeldPlan.Read plan.now) }
{
    match plan.next() {
        ReadStage::Look | ReadStage::Keep => plan.reader(),
        _ => None,
    }
}

/// The session of a write of which only the last stage is left.
fn writer_of(plan: &WritePlan) -> Option<u32>
    ensures { result ≡ learner (HeldPlan.Write plan.now) }
{
    match (plan.next(), plan.origin()) {
        (WriteStage::Apply, Origin::Client { session, .. }) => Some(session),
        _ => None,
    }
}

impl HeldPlan {
    /// The stage that follows. None exactly where none is left.
    pub fn next(&self) -> Option<Stage>
        ensures { result ≡ next_stage self.now }
    {
        match self {
            HeldPlan::Read(plan) => plan.next().name(),
            HeldPlan::Write(plan) => plan.next().said(),
        }
    }

    /// The session that is to learn of the plan, before a stage that may be its last: of a write what it wrote, of a read which version it
    /// answers.
    pub fn learner(&self) -> Option<u32>
        ensures { result ≡ learner self.now }
    {
        match self {
            HeldPlan::Read(plan) => reader_of(plan),
            HeldPlan::Write(plan) => writer_of(plan),
        }
    }

    /// The reply of a plan that is over, and what is learnt with it: what a write that was carried out wrote at both ends.
    pub fn finish(self) -> EndedPlan
        requires { next_stage self ≡ None }
        ensures over { IsOver self result.reply }
        ensures learnt { result.learnt ≡ learnt_with result.reply self }
    {
        match self {
            HeldPlan::Read(plan) => EndedPlan {
                reply: plan.finish(),
                learnt: LearntEntries::none(),
            },
            HeldPlan::Write(plan) => {
                let shard = plan.write().shard();
                let EndedWrite {
                    reply,
                    committed,
                    other,
                } = plan.into_parts();
                let learnt = match &reply {
                    Reply::Called(_) => LearntEntries::of(shard, committed, other),
                    _ => LearntEntries::none(),
                };
                EndedPlan { reply, learnt }
            }
        }
    }
}
