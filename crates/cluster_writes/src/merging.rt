//! The stages `inverse` and `end`: the other end of a write.
ghost use Rattle.std.specs.Prelude.{◌≡◌, ◌≤◌, ◌<◌, ◌-◌, IfErr, IfOk, IfSome, IsSome, IsSomeAnd, MatchResult, None, OnErr, Some, Ok, Err};
ghost use Rattle.cluster_writes.specs.Open.{IsDoneThere, IsMergeOf, IsNotEnded, IsWriteOf, Opening, OwesIn, StepsAtOnce, StepsWrite};
ghost use Rattle.core_model.specs.Serving.{IsLeaderFor};
ghost use Rattle.counts.specs.Count.{Rose};
ghost use Rattle.graph_model.specs.Told.{WhereTold};
ghost use Rattle.locked_nodes.specs.Cluster.{MayFail, on_cluster};
ghost use Rattle.locked_nodes.specs.Passes.{IsPassOf};
ghost use Rattle.locked_writes.specs.Writes.{MergesSince, StaysOpenFor};
ghost use Rattle.log_names.specs.Names.{IsOfLog};
ghost use Rattle.replies.specs.declared.calls.ScheduledWhy.TheVariants.{LinkFault};
ghost use Rattle.shard_log.specs.View.{Grows};
ghost use Rattle.shard_tables.specs.Written.{LiesOn, StandsIn};
ghost use Rattle.shared_stores.specs.Asked.{lent_owed};
ghost use Rattle.shared_stores.specs.Owed.{IsDoneIn, IsOwedIn};
ghost use Rattle.tao_base.specs.Writes.{write_shard};
ghost use Rattle.write_plan.specs.Plans.{next_of};
ghost use Rattle.write_plan.specs.declared.results.LeftOpen.TheVariants.{Scheduled};
ghost use Rattle.write_plan.specs.declared.stage.WriteStage.TheVariants as stage;

use crate::open::{OpenWrite, owed_of};
use core_model::masters_are_regions;
use locked_nodes::LockedNodes;
use locked_nodes::core_nodes::master_store;
use locked_nodes::shared_nodes::SharedMerge;
use locked_writes::{MergePlace, NotMerged, end, merge, notify};
use node_name::NodeName;
use replies::ScheduledWhy;
use session_pass::Pass;
use shard_log::Note;
use shard_tables::Wrote;
use shared_stores::{CountedNote, OwedJob, Sharing};
use std::sync::Wait;
use tao_keeper::Keeper;
use tao_link::{Link, LinkFailed};
use write_plan::{LeftOpen, WritePlan, WriteResult, committer};

/// What came of a merge: what it wrote, or why the job stays open; a note in which the job is done; and one of the log where it isn't.
#[derive(Drop)]
pub(crate) struct CameOfMerge {
    pub(crate) result: Result<Wrote, LeftOpen>,
    pub(crate) done: Option<CountedNote>,
    pub(crate) far: Option<Note>,
}

/// Carries a job, or its answer, from one leader to another, unless they are one.
fn carry_between<L: Link>(link: &mut L, from: NodeName, to: NodeName) -> Result<(), LinkFailed>
    ensures carries { (L.shown link.old).carries ≤ (L.shown link.new).carries }
    ensures later { (L.shown link.old).faults ≤ (L.shown link.new).faults }
    ensures failed { OnErr result (Rose (L.shown link.old).faults (L.shown link.new).faults) }
{
    if from == to {
        return Ok(());
    }
    link.carry(from, to)
}

/// A job that stays open, of which nothing was written.
fn left_for(why: ScheduledWhy, far: Option<Note>) -> CameOfMerge
    ensures result { result.result ≡ Err (Scheduled why None) }
    ensures done { result.done ≡ None }
    ensures far { result.far ≡ far }
{
    CameOfMerge {
        result: Err(LeftOpen::Scheduled { why, wrote: None }),
        done: None,
        far,
    }
}

/// What a merge is answered, over the carry back: what was written is known also where its answer was lost.
fn answered(merge: SharedMerge, back: Result<(), LinkFailed>) -> CameOfMerge
    ensures result { MatchResult back (λ _. result.result ≡ Ok merge.wrote) (λ _. result.result ≡ Err (Scheduled LinkFault (Some merge.wrote))) }
    ensures done { result.done ≡ Some merge.done }
    ensures far { result.far ≡ None }
{
    let SharedMerge { wrote, done } = merge;
    let result = match back {
        Ok(()) => Ok(wrote),
        Err(LinkFailed) => Err(LeftOpen::Scheduled {
            why: ScheduledWhy::LinkFault,
            wrote: Some(wrote),
        }),
    };
    CameOfMerge {
        result,
        done: Some(done),
        far: None,
    }
}

/// Tells those who see the log where a job is owed of the entry of its merge.
fn notify_merged<K: Keeper, J: Sharing, R: Wait>(
    nodes: &LockedNodes<'_, K, J>,
    rt: &R,
    shard: u16,
    wrote: &mut Wrote,
)
    requires here { shard < J.making.settings.shards }
    requires log { IsOfLog J.log shard wrote.old.note }
    requires stands { IfSome wrote.old.entry (StandsIn wrote.old.note) }
    requires lies { IfSome wrote.old.entry (LiesOn wrote.old.note shard) }
    ensures { wrote.new ≡ wrote.old }
{
    if let Some(entry) = &wrote.entry {
        notify(nodes, rt, shard, entry, &mut wrote.note);
    }
}

/// Merges a job at the leader where it is owed. Those who see the log there are notified of what it wrote.
fn merge_there<K: Keeper, J: Sharing, R: Wait>(
    nodes: &LockedNodes<'_, K, J>,
    rt: &R,
    leader: NodeName,
    owed: &OwedJob<'_>,
    seen: &mut Note,
    there: Note,
) -> Result<SharedMerge, NotMerged>
    requires there { owed.now.to < J.making.settings.shards }
    requires leader { IsLeaderFor J.making.settings owed.now.to leader }
    requires owed { IsOwedIn K.TELLS J.making J.log seen.old (lent_owed owed.now) }
    requires log { IsOfLog J.log owed.now.to there }
    ensures grows { Grows seen.old seen.new }
    ensures since { IfOk result (λ merge. Grows there merge.wrote.note) }
    ensures writes { IfOk result (λ merge. WhereTold K.TELLS
        (MergesSince owed.now.from owed.now.job.now there.entries merge.wrote.note.entries merge.wrote.entry)) }
    ensures merged { IfOk result (λ merge. IsDoneIn J.making J.log merge.done (lent_owed owed.now)) }
    ensures note { IfOk result (λ merge. merge.wrote.note ≡ merge.done) }
    ensures stands { IfOk result (λ merge. IfSome merge.wrote.entry (StandsIn merge.wrote.note)) }
    ensures lies { IfOk result (λ merge. IfSome merge.wrote.entry (LiesOn merge.wrote.note owed.now.to)) }
    ensures told { IfOk result (λ merge. merge.done.log.told ≡ K.TELLS) }
    ensures log { IfErr result (λ left. IfSome left.seen (IsOfLog J.log owed.now.to)) }
    ensures seen_told { IfErr result (λ left. IfSome left.seen (λ note. note.log.told ≡ K.TELLS)) }
    ensures why { IfErr result (λ left. StaysOpenFor (MayFail K.state) J.making.settings.log_max left.seen left.why) }
{
    let place = MergePlace {
        leader,
        near: master_store(nodes.config(), owed.from),
        far: master_store(nodes.config(), owed.to),
    };
    match merge(nodes, rt, place, owed, seen, there) {
        Ok(merged) => {
            let mut merge = merged;
            notify_merged(nodes, rt, owed.to, &mut merge.wrote);
            Ok(merge)
        }
        Err(left) => Err(left),
    }
}

/// The leader that the master's region prefers for a shard.
fn leader_of<K: Keeper, J: Sharing>(nodes: &LockedNodes<'_, K, J>, shard: u16) -> NodeName
    requires here { shard < J.making.settings.shards }
    ensures { IsLeaderFor J.making.settings shard result }
{
    masters_are_regions(nodes.config());
    nodes.leader_for(master_store(nodes.config(), shard).region, shard)
}

/// Merges a job where it is owed, over the link between the leader that committed its entry and the one that merges it. What is written there begins with
/// what the pass had seen of the log there.
fn merge_over<K: Keeper, J: Sharing, R: Wait, L: Link>(
    nodes: &LockedNodes<'_, K, J>,
    rt: &R,
    pass: &mut Pass,
    link: &mut L,
    plan: &WritePlan,
    seen: &mut Note,
) -> CameOfMerge
    requires pass { IsPassOf J.making J.log pass.old }
    requires committed { IsSome plan.now.committed }
    requires owes { OwesIn (on_cluster K.TELLS K.state J.making J.log) plan.now seen.old }
    ensures carries { (L.shown link.old).carries ≤ (L.shown link.new).carries }
    ensures later { (L.shown link.old).faults ≤ (L.shown link.new).faults }
    ensures grows { Grows seen.old seen.new }
    ensures merge { IsMergeOf (on_cluster K.TELLS K.state J.making J.log) pass.old.notes plan.now
        (Rose (L.shown link.old).faults (L.shown link.new).faults) result }
    ensures pass { pass.new ≡ pass.old }
{
    let Some(owed) = owed_of(nodes.config(), plan) else {
        return left_for(ScheduledWhy::Memory, None);
    };
    let Ok(there) = pass.note(owed.to) else {
        return left_for(ScheduledWhy::Memory, None);
    };
    let sender = committer(plan);
    let leader = leader_of(nodes, owed.to);
    if let Err(LinkFailed) = carry_between(link, sender, leader) {
        drop(there);
        return left_for(ScheduledWhy::LinkFault, None);
    }
    let merged = merge_there(nodes, rt, leader, &owed, seen, there);
    let back = carry_between(link, leader, sender);
    match merged {
        Ok(merge) => answered(merge, back),
        Err(NotMerged { why, seen }) => left_for(why, seen),
    }
}

/// The stage `inverse` of a write.
pub(crate) fn inverse_stage<K: Keeper, J: Sharing, R: Wait, L: Link>(
    nodes: &LockedNodes<'_, K, J>,
    rt: &R,
    pass: &mut Pass,
    link: &mut L,
    write: &mut OpenWrite,
)
    ghost begun: { Opening }
    requires pass { IsPassOf J.making J.log pass.old }
    requires notes { pass.old.notes ≡ begun.notes }
    requires write { IsWriteOf (on_cluster K.TELLS K.state J.making J.log) begun (L.shown link.old).faults write.old }
    requires stage { next_of write.old.plan ≡ stage.Inverse }
    ensures steps { StepsWrite (on_cluster K.TELLS K.state J.making J.log) begun (L.shown link.new).faults
        ((L.shown link.new).carries - (L.shown link.old).carries) write.old write.new }
    ensures pass { pass.new ≡ pass.old }
    ensures later { (L.shown link.old).carries ≤ (L.shown link.new).carries }
{
    let carries = link.carries();
    let CameOfMerge { result, done, far } = merge_over(
        nodes,
        rt,
        pass,
        link,
        &write.plan,
        &mut write.seen,
    );
    let hops = link.carries().saturating_sub(carries);
    put(&mut write.done, done);
    put(&mut write.far, far);
    write.plan.take(WriteResult::Inverse(result), hops);
}

/// Puts a value in the place of another, which is dropped.
fn put<T: Drop>(place: &mut T, value: T)
    ensures { place.new ≡ value }
{
    *place = value;
}

/// Ends the job of a write, which is done where it is owed.
fn end_there<K: Keeper, J: Sharing, R: Wait>(
    nodes: &LockedNodes<'_, K, J>,
    rt: &R,
    plan: &WritePlan,
    seen: &mut Note,
    done: CountedNote,
) -> Result<(), LeftOpen>
    requires owes { OwesIn (on_cluster K.TELLS K.state J.making J.log) plan.now seen.old }
    requires done { IsDoneThere (on_cluster K.TELLS K.state J.making J.log) plan.now done }
    ensures grows { Grows seen.old seen.new }
    ensures left { IfErr result (IsNotEnded (on_cluster K.TELLS K.state J.making J.log)) }
{
    let Some(owed) = owed_of(nodes.config(), plan) else {
        drop(done);
        return Err(LeftOpen::Scheduled {
            why: ScheduledWhy::Memory,
            wrote: None,
        });
    };
    let near = master_store(nodes.config(), owed.from);
    match end(nodes, rt, near, &owed, seen, done) {
        Ok(()) => Ok(()),
        Err(why) => Err(LeftOpen::Scheduled { why, wrote: None }),
    }
}

/// The stage `end` of a write, which takes no carry.
pub(crate) fn end_stage<K: Keeper, J: Sharing, R: Wait>(
    nodes: &LockedNodes<'_, K, J>,
    rt: &R,
    write: &mut OpenWrite,
)
    requires owes { OwesIn (on_cluster K.TELLS K.state J.making J.log) write.old.plan write.old.seen }
    requires done { IsSomeAnd write.old.done (IsDoneThere (on_cluster K.TELLS K.state J.making J.log) write.old.plan) }
    requires stage { next_of write.old.plan ≡ stage.End }
    ensures { StepsAtOnce (on_cluster K.TELLS K.state J.making J.log) write.old write.new }
{
    let Some(done) = write.done.take() else {
        unreachable!();
    };
    let result = end_there(nodes, rt, &write.plan, &mut write.seen, done);
    write.plan.take(WriteResult::End(result), 0);
}
