//! The stages of a write's other end: its job is merged at the other shard, and then ended.
ghost use Rattle.std.specs.Prelude.{◌≡◌, ◌<◌, IfErr, IfOk, OnErr, OnOk, Some};
ghost use Rattle.core_mail.specs.Inboxes.{AreInboxesOf, HaveArrived};
ghost use Rattle.core_model.specs.Asked.{lent_job};
ghost use Rattle.core_model.specs.Consistent.{IsConsistent};
ghost use Rattle.core_model.specs.Growing.{StoresGrow};
ghost use Rattle.core_model.specs.Jobs.{CanBeMerged, IsMergedJob, far_shard, job_on};
ghost use Rattle.core_model.specs.Pens.{pens_of};
ghost use Rattle.core_model.specs.Serving.{IsLeaderIn};
ghost use Rattle.core_model.specs.States.{AreStatesOf};
ghost use Rattle.core_model.specs.Stores.{master_of};
ghost use Rattle.core_steps.specs.MergeAnswers.{RefusesMerge, left_open_as, merge_answer};
ghost use Rattle.core_steps.specs.OtherEnds.{Crosses, EndsOver, FailsToCross, MergesOver, StandsThere, TakesMerge, job_way};
ghost use Rattle.core_steps.specs.OtherEnds.{known_of, master_leader, learnt_entry_of, learnt_far, sent_job};
ghost use Rattle.core_steps.specs.declared.jobs.JobSender.{JobSender as Sender};
ghost use Rattle.core_steps.specs.Posting.{CanPost, ChangesNoNode, PostsOn};
ghost use Rattle.core_steps.specs.World.{world};
ghost use Rattle.core_nodes.specs.Settling.{IsLaterLink};
ghost use Rattle.graph_model.specs.Told.{WhereTold};
ghost use Rattle.shard_tables.specs.Jobs.{IsOfMerges};
ghost use Rattle.tao_keeper.specs.KeeperState.{IsLater};
ghost use Rattle.tao_link.specs.Shown.{LinkShown};

use crate::nodes::Nodes;
use crate::routes::{TierPlace, carry};
use core_model::{ShardJob, far_shard, masters_are_regions};
use node_name::NodeName;
use replies::ScheduledWhy;
use shard_log::Note;
use shard_tables::{StoreRefusal, Wrote};
use store_replies::why_left_open;
use tao_base::Entry;
use tao_keeper::{Job, Keeper};
use tao_link::{Link, LinkFailed};
use topology::Config;
use write_plan::LeftOpen;

/// An entry of a shard's log, and a note that has seen it there.
#[derive(Drop)]
pub struct LearntEntry {
    pub shard: u16,
    pub entry: Entry,
    pub note: Note,
}

/// The entry of what was written on a shard, where there is one. Takes no memory.
pub fn learnt_entry_of(shard: u16, wrote: Wrote) -> Option<LearntEntry>
    ensures { result ≡ learnt_entry_of shard wrote }
{
    Some(LearntEntry {
        shard,
        entry: wrote.entry?,
        note: wrote.note,
    })
}

/// The entry that was written at the other end, where there is one. Takes no memory.
pub fn learnt_far(job: &Option<Job>, wrote: Option<Wrote>) -> Option<LearntEntry>
    ensures { result ≡ learnt_far job.now wrote }
{
    learnt_entry_of(far_shard(job.as_ref()?), wrote?)
}

/// Who sends a job to the shard where it is owed: the leader that committed its entry, for a session of a tier, which trusts leaders or suspects them.
#[derive(Clone, Copy)]
pub struct JobSender {
    pub leader: NodeName,
    pub by: TierPlace,
}

/// Carries a call, or its answer, from one node to another, unless they are one.
fn carry_between<L: Link>(link: &mut L, from: NodeName, to: NodeName) -> Result<(), LinkFailed>
    ensures crosses { OnOk result (Crosses from to (L.shown link.old) (L.shown link.new)) }
    ensures fails { OnErr result (FailsToCross from to (L.shown link.old) (L.shown link.new)) }
{
    if from == to {
        return Ok(());
    }
    carry(link, from, to)
}

/// A job that stays open, which the store refused to merge or to end.
fn left_open_as(refusal: StoreRefusal) -> LeftOpen
    requires { IsOfMerges refusal }
    ensures { result ≡ left_open_as refusal }
{
    LeftOpen::Scheduled {
        why: why_left_open(&refusal),
        wrote: None,
    }
}

/// What a merge is answered, over the carry back.
fn merge_answer(
    merged: Result<Wrote, StoreRefusal>,
    back: Result<(), LinkFailed>,
) -> Result<Wrote, LeftOpen>
    requires { IfErr merged IsOfMerges }
    ensures { result ≡ merge_answer merged back }
{
    let wrote = match merged {
        Ok(wrote) => wrote,
        Err(refusal) => return Err(left_open_as(refusal)),
    };
    match back {
        Ok(()) => Ok(wrote),
        Err(LinkFailed) => Err(LeftOpen::Scheduled {
            why: ScheduledWhy::LinkFault,
            wrote: Some(wrote),
        }),
    }
}

impl Nodes {
    /// The leader that a tier chooses for a shard in the region that has its master: the preferred one, or the next round about, that is up and that the
    /// tier doesn't suspect. None exactly where the shard isn't configured or there is none such.
    pub fn master_leader(&self, config: &Config, by: TierPlace, shard: u16) -> Option<NodeName>
        ensures { result ≡ master_leader config.now self.now.topology by shard }
    {
        if shard >= config.shards {
            return None;
        }
        let region = self.topology.master(shard);
        self.topology.leader((by.region, by.tier), region, shard)
    }

    /// Merges the job at a leader of the shard on which its records lie. Of a new entry those who see the shard's log are notified.
    fn merge_at<K: Keeper>(
        &mut self,
        config: &Config,
        keepers: &mut K,
        leader: NodeName,
        job: &ShardJob<'_>,
    ) -> Result<Wrote, StoreRefusal>
        requires consistent { IsConsistent K.TELLS config.now (K.state keepers.old).told self.old.fleet }
        requires inboxes { AreInboxesOf config.now (pens_of self.old.fleet.stores) self.old.mail }
        requires arrived { WhereTold K.TELLS (HaveArrived (K.state keepers.old).told self.old.mail) }
        requires states { AreStatesOf config.now self.old.topology }
        requires here { far_shard job.now.job.now < config.now.shards }
        requires leader { IsLeaderIn config.now (master_of config.now (far_shard job.now.job.now)) leader }
        requires job { CanBeMerged K.TELLS config.now (K.state keepers.old).told (lent_job job.now) }
        ensures takes { (sender : Sender) (before after : LinkShown) → IfOk result (λ wrote.
            TakesMerge K.TELLS config.now (job_way (sent_job sender (lent_job job.now)) leader) wrote
            (world self.old (K.state keepers.old) before) (world self.new (K.state keepers.new) after)) }
        ensures refused { IfErr result (λ refusal.
            RefusesMerge K.TELLS config.now (lent_job job.now) refusal (K.state keepers.old) (K.state keepers.new)) }
        ensures rests { (before after : LinkShown) → OnErr result (ChangesNoNode K.TELLS
            (world self.old (K.state keepers.old) before) (world self.new (K.state keepers.new) after)) }
        ensures merged { WhereTold K.TELLS (OnOk result (IsMergedJob config.now (K.state keepers.new).told (lent_job job.now))) }
        ensures stands { IfOk result (λ wrote. StandsThere config.now job.now.job.now (Some wrote) self.new.fleet.stores) }
        ensures on { (before after : LinkShown) → IsLaterLink before after → PostsOn K.TELLS config.now
            (world self.old (K.state keepers.old) before) (world self.new (K.state keepers.new) after) }
    {
        masters_are_regions(config);
        let mut wrote = self.fleet.merge(self.alloc, config, keepers, leader, job)?;
        self.notify_of(config, leader, far_shard(job.job), &mut wrote);
        Ok(wrote)
    }

    /// The stage `inverse`: a job of a shard is carried from the leader that committed it to one of the master's region of the shard on which its records
    /// lie, which merges it, and takes what was written unless it stands in for another, and the answer is carried back, also that of a merge that was
    /// refused. It is the leader that the master's region prefers, or the next one round about, that is up and that the session's tier doesn't suspect.
    /// Where both are one node nothing is carried. Of a new entry those who see the log are notified as after a write.
    ///
    /// The job stays open. Whatever fails leaves it so: `LinkFault` only where the link's count of faults rose, `KeeperFault` only where the keepers'
    /// did, `LogFull` where the other shard's log has no room for the entry, `NoServer` where that shard isn't configured or no leader can be chosen for it,
    /// `Memory` where there was none.
    /// What was written although its answer was lost is said. Costs what `Leader::merge` does, and a message for each tier of the region.
    pub fn merge_over<K: Keeper, L: Link>(
        &mut self,
        config: &Config,
        keepers: &mut K,
        link: &mut L,
        sender: JobSender,
        job: &ShardJob<'_>,
    ) -> Result<Wrote, LeftOpen>
        requires ready { CanPost K.TELLS config.now (world self.old (K.state keepers.old) (L.shown link.old)) }
        requires job { CanBeMerged K.TELLS config.now (K.state keepers.old).told (lent_job job.now) }
        ensures merges { MergesOver K.TELLS config.now (sent_job sender (lent_job job.now)) result
            (world self.old (K.state keepers.old) (L.shown link.old)) (world self.new (K.state keepers.new) (L.shown link.new)) }
        ensures merged { WhereTold K.TELLS (OnOk result (IsMergedJob config.now (K.state keepers.new).told (lent_job job.now))) }
        ensures stands { StandsThere config.now job.now.job.now (known_of result) self.new.fleet.stores }
        ensures on { PostsOn K.TELLS config.now
            (world self.old (K.state keepers.old) (L.shown link.old)) (world self.new (K.state keepers.new) (L.shown link.new)) }
    {
        let Some(merging) = self.master_leader(config, sender.by, far_shard(job.job)) else {
            return Err(LeftOpen::Scheduled {
                why: ScheduledWhy::NoServer,
                wrote: None,
            });
        };
        let leader = sender.leader;
        if let Err(LinkFailed) = carry_between(link, leader, merging) {
            return Err(LeftOpen::Scheduled {
                why: ScheduledWhy::LinkFault,
                wrote: None,
            });
        }
        let merged = self.merge_at(config, keepers, merging, job);
        let back = carry_between(link, merging, leader);
        merge_answer(merged, back)
    }

    /// The stage `end`: a job that was merged is ended at its own shard. Whatever fails leaves it open: `KeeperFault` only where the keepers' count of
    /// faults rose, and `Memory` where there was none. One call of the keeper.
    pub fn end_over<K: Keeper>(
        &mut self,
        config: &Config,
        keepers: &mut K,
        shard: u16,
        job: &Job,
    ) -> Result<(), LeftOpen>
        requires consistent { IsConsistent K.TELLS config.now (K.state keepers.old).told self.old.fleet }
        requires here { shard < config.now.shards }
        requires merged { WhereTold K.TELLS (IsMergedJob config.now (K.state keepers.old).told (job_on shard job.now)) }
        ensures ends { (link : LinkShown) → EndsOver K.TELLS config.now (job_on shard job.now) result
            (world self.old (K.state keepers.old) link) (world self.new (K.state keepers.new) link) }
        ensures same { self.new ≡ self.old }
        ensures consistent { IsConsistent K.TELLS config.now (K.state keepers.new).told self.new.fleet }
        ensures grows { StoresGrow K.TELLS config.now (K.state keepers.old).told (K.state keepers.new).told }
        ensures later { IsLater (K.state keepers.old) (K.state keepers.new) }
    {
        masters_are_regions(config);
        match self.fleet.end_job(config, keepers, shard, job) {
            Ok(()) => Ok(()),
            Err(refusal) => Err(left_open_as(refusal)),
        }
    }
}
