//! `WritePlan`, the plan of a write.
ghost use Rattle.std.specs.Prelude.{◌≡◌, ◌≢◌, None, Some, option_copied};

use crate::committed::Committed;
use crate::progress::{OtherEnd, WayBack, reply_by, stage_after};
use crate::results::{CommitAnswer, LeftOpen, WriteResult};
use crate::stage::WriteStage;
use node_name::NodeName;
use replies::{Reply, When};
use shard_log::Note;
use shard_tables::Wrote;
use std::marker::Model;
use tao_base::{Entry, Origin, Write};
use tao_keeper::Job;

/// What a write leaves at its end.
#[derive(Drop)]
pub struct EndedWrite {
    pub reply: Reply,
    /// What its commit answered; none where that was refused.
    pub committed: Option<Committed>,
    /// What it wrote at the other end, as far as that is known.
    pub other: Option<Wrote>,
}

/// The plan of a write: what came of the stages that were done, from which the next one and in the end the reply follow.
///
/// No call takes memory, and each costs constant time.
#[derive(Drop)]
pub struct WritePlan {
    write: Write,
    origin: Origin,
    region: u16,
    tier: u16,
    follower: NodeName,
    committed: Option<Committed>,
    relay: Option<Note>,
    spare: Option<Note>,
    job: OtherEnd,
    other: Option<Wrote>,
    back: WayBack,
    refused: Option<Reply>,
    hops: u64,
}

impl Model for WritePlan {
    ghost use Rattle.write_plan.specs.PlanView.{plan_seen};
    ghost use Rattle.write_plan.specs.Plans.{Writing};

    ghost Value = { Writing };

    ghost view = { plan_seen };
}

impl WritePlan {
    ghost use Rattle.replies.specs.declared.reply.Reply.{Reply};
    ghost use Rattle.write_plan.specs.Plans.{after_left_open, after_result, after_stage, after_way, answered_entry, answered_job, answered_passed};
    ghost use Rattle.write_plan.specs.Plans.{begun_write, next_of};
    ghost use Rattle.write_plan.specs.Plans.{refused_by, reply_of, when_of, written_there};
    ghost use Rattle.write_plan.specs.Stages.{result_stage};
    ghost use Rattle.write_plan.specs.declared.stage.WriteStage.TheVariants.{Done};

    /// The plan of a write that a session of a tier asked a follower for. Nothing of it is done yet.
    pub fn begin(
        write: Write,
        origin: Origin,
        region: u16,
        tier: u16,
        follower: NodeName,
    ) -> WritePlan
        ensures { result ≡ begun_write write origin region tier follower }
    {
        WritePlan {
            write,
            origin,
            region,
            tier,
            follower,
            committed: None,
            relay: None,
            spare: None,
            job: OtherEnd::Due,
            other: None,
            back: WayBack::Ahead,
            refused: None,
            hops: 0,
        }
    }

    /// The stage that is next.
    pub fn next(&self) -> WriteStage
        ensures { result ≡ next_of self.now }
    {
        if self.refused.is_some() {
            return WriteStage::Done;
        }
        match &self.committed {
            None => WriteStage::Commit,
            Some(committed) => stage_after(committed, self.job, self.back),
        }
    }

    /// What is to be written.
    pub fn write(&self) -> &Write
        ensures { result.now ≡ self.now.write }
    {
        &self.write
    }

    /// The session that asked for it, and the number of its write.
    pub fn origin(&self) -> Origin
        ensures { result ≡ self.now.origin }
    {
        self.origin
    }

    /// The place of the region that it is asked from.
    pub fn region(&self) -> u16
        ensures { result ≡ self.now.region }
    {
        self.region
    }

    /// The place of the tier that it is asked from, in its region.
    pub fn tier(&self) -> u16
        ensures { result ≡ self.now.tier }
    {
        self.tier
    }

    /// The follower that was asked.
    pub fn follower(&self) -> NodeName
        ensures { result ≡ self.now.follower }
    {
        self.follower
    }

    /// What the commit answered; none before it, and where it was refused.
    pub fn committed(&self) -> Option<&Committed>
        ensures { option_copied result ≡ self.now.committed }
    {
        self.committed.as_ref()
    }

    /// The leader that the write passed on the way to its commit; none exactly where it passed none, and before the commit was answered.
    pub fn passed(&self) -> Option<NodeName>
        ensures { result ≡ answered_passed self.now }
    {
        match &self.committed {
            Some(committed) => committed.passed,
            None => None,
        }
    }

    /// The entry in the answer of the commit; none exactly where it had none.
    pub fn entry(&self) -> Option<&Entry>
        ensures { option_copied result ≡ answered_entry self.now }
    {
        match &self.committed {
            Some(committed) => committed.wrote.entry.as_ref(),
            None => None,
        }
    }

    /// The job in the answer of the commit; none exactly where it had none.
    pub fn job(&self) -> Option<&Job>
        ensures { option_copied result ≡ answered_job self.now }
    {
        match &self.committed {
            Some(committed) => committed.wrote.job.as_ref(),
            None => None,
        }
    }

    /// Whether what ends the plan now ends it after its entry stands, which a refusal says: where the commit answered an entry, also
    /// one that stood there before.
    pub fn when(&self) -> When
        ensures { result ≡ when_of (answered_entry self.now) }
    {
        match self.entry() {
            Some(entry) => When::After {
                position: entry.position,
            },
            None => When::Before,
        }
    }

    /// What was written at the other end, as far as that is known.
    pub fn other(&self) -> Option<&Wrote>
        ensures { option_copied result ≡ self.now.other }
    {
        self.other.as_ref()
    }

    /// How many carries over links the stages took so far. At its last value, 2^64 - 1, the number stands still.
    pub fn hops(&self) -> u64
        ensures { result ≡ self.now.hops }
    {
        self.hops
    }

    /// Hands out the note that came with the answer of the commit for the leader that was passed; none exactly where none came, or it
    /// was handed out.
    pub fn relay(&mut self) -> Option<Note>
        ensures note { result ≡ self.old.relay }
        ensures rest { self.new ≡ record self.old { relay = None } }
    {
        self.relay.take()
    }

    /// Hands out the note that came with the answer of the commit for its follower; none exactly where none came, or it was handed out.
    pub fn spare(&mut self) -> Option<Note>
        ensures note { result ≡ self.old.spare }
        ensures rest { self.new ≡ record self.old { spare = None } }
    {
        self.spare.take()
    }

    /// Takes what came of the stage that is next, and how many carries it took. What came of another stage changes nothing.
    pub fn take(&mut self, came: WriteResult, hops: u64)
        ensures next { result_stage came ≡ next_of self.old → self.new ≡ after_stage self.old came hops }
        ensures other { result_stage came ≢ next_of self.old → self.new ≡ self.old }
    {
        if came.stage() == self.next() {
            self.hops = self.hops.saturating_add(hops);
            self.keep(came);
        } else {
            drop(came);
        }
    }

    /// Keeps what came of a stage.
    fn keep(&mut self, came: WriteResult)
        ensures { self.new ≡ after_result self.old came }
    {
        match came {
            WriteResult::Commit(answer) => self.keep_commit(answer),
            WriteResult::Inverse(answer) => self.keep_inverse(answer),
            WriteResult::End(answer) => self.keep_end(answer),
            WriteResult::Relay(answer) => self.keep_relayed(answer),
            WriteResult::Apply(answer) => self.keep_applied(answer),
        }
    }

    fn keep_commit(&mut self, answer: Result<CommitAnswer, Reply>)
        ensures { self.new ≡ after_result self.old (WriteResult.Commit answer) }
    {
        match answer {
            Ok(
                CommitAnswer {
                    committed,
                    relay,
                    spare,
                },
            ) => {
                self.committed = Some(committed);
                self.relay = relay;
                self.spare = Some(spare);
            }
            Err(reply) => self.refuse(reply),
        }
    }

    fn keep_inverse(&mut self, answer: Result<Wrote, LeftOpen>)
        ensures { self.new ≡ after_result self.old (WriteResult.Inverse answer) }
    {
        match answer {
            Ok(wrote) => {
                self.job = OtherEnd::Merged;
                self.know(Some(wrote));
            }
            Err(left) => self.keep_open(left),
        }
    }

    fn keep_end(&mut self, answer: Result<(), LeftOpen>)
        ensures { self.new ≡ after_result self.old (WriteResult.End answer) }
    {
        match answer {
            Ok(()) => self.job = OtherEnd::Ended,
            Err(left) => self.keep_open(left),
        }
    }

    fn keep_open(&mut self, left: LeftOpen)
        ensures { self.new ≡ after_left_open self.old left }
    {
        match left {
            LeftOpen::Scheduled { why, wrote } => {
                self.job = OtherEnd::Open { why };
                self.know(wrote);
            }
            LeftOpen::Refused(reply) => self.refuse(reply),
        }
    }

    /// Keeps what came of the way back to the leader that was passed, after which nobody needs its note.
    fn keep_relayed(&mut self, answer: Result<(), Reply>)
        ensures { self.new ≡ after_result self.old (WriteResult.Relay answer) }
    {
        self.relay = None;
        self.keep_way(answer, WayBack::Relayed);
    }

    /// Keeps what came of the last stage, after which nobody needs the follower's note.
    fn keep_applied(&mut self, answer: Result<(), Reply>)
        ensures { self.new ≡ after_result self.old (WriteResult.Apply answer) }
    {
        self.spare = None;
        self.keep_way(answer, WayBack::Applied);
    }

    fn keep_way(&mut self, answer: Result<(), Reply>, back: WayBack)
        ensures { self.new ≡ after_way self.old answer back }
    {
        match answer {
            Ok(()) => self.back = back,
            Err(reply) => self.refuse(reply),
        }
    }

    /// Keeps what was written at the other end.
    fn know(&mut self, wrote: Option<Wrote>)
        ensures { self.new ≡ record self.old { other = written_there self.old.other wrote } }
    {
        if self.other.is_none() {
            self.other = wrote;
        }
    }

    fn refuse(&mut self, reply: Reply)
        ensures { self.new ≡ refused_by self.old reply }
    {
        self.refused = Some(reply);
    }

    /// The reply of a plan that is done, with what its commit answered and what was written at the other end.
    pub fn into_parts(self) -> EndedWrite
        requires { next_of self ≡ Done }
        ensures reply { reply_of self ≡ Some result.reply }
        ensures committed { result.committed ≡ self.committed }
        ensures other { result.other ≡ self.other }
    {
        let WritePlan {
            committed,
            job,
            other,
            refused,
            hops,
            ..
        } = self;
        EndedWrite {
            reply: reply_by(refused, &committed, job, hops),
            committed,
            other,
        }
    }

    /// The reply of a plan that is done.
    pub fn finish(self) -> Reply
        requires { next_of self ≡ Done }
        ensures { reply_of self ≡ Some result }
    {
        let EndedWrite { reply, .. } = self.into_parts();
        reply
    }
}
