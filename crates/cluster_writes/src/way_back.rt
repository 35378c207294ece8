//! The stages `relay` and `apply`: the way back of a write, to the leader that it passed and then to its follower.
ghost use Rattle.std.specs.Prelude.{◌≡◌, ◌≤◌, ◌-◌, IfErr, IfSome, IsSome};
ghost use Rattle.cluster_writes.specs.Open.{IsLinkRefusal, IsWayNote, IsWriteOf, Opening, StepsWrite};
ghost use Rattle.core_model.specs.Serving.{IsFollowerFor, IsLeaderFor};
ghost use Rattle.counts.specs.Count.{Rose};
ghost use Rattle.locked_nodes.specs.Cluster.{on_cluster};
ghost use Rattle.tao_base.specs.Writes.{write_shard};
ghost use Rattle.write_plan.specs.Plans.{answered_entry, answered_passed, next_of, when_of};
ghost use Rattle.write_plan.specs.declared.stage.WriteStage.TheVariants as stage;

use crate::open::OpenWrite;
use locked_nodes::LockedNodes;
use locked_writes::{apply, relay};
use node_name::NodeName;
use replies::Reply;
use shard_log::Note;
use shared_stores::Sharing;
use std::sync::Wait;
use store_replies::link_fault;
use tao_keeper::Keeper;
use tao_link::{Link, LinkFailed};
use write_plan::{
    WritePlan, WriteResult, committer, last_before, passed_of, relay_note_of, spare_note_of,
};

/// A carry on the way back, after which the write's refusal says where its entry stands.
fn carry_back<L: Link>(
    link: &mut L,
    from: NodeName,
    to: NodeName,
    plan: &WritePlan,
) -> Result<(), Reply>
    ensures carries { (L.shown link.old).carries ≤ (L.shown link.new).carries }
    ensures later { (L.shown link.old).faults ≤ (L.shown link.new).faults }
    ensures failed { IfErr result (IsLinkRefusal (Rose (L.shown link.old).faults (L.shown link.new).faults) (when_of (answered_entry plan.now))) }
{
    match link.carry(from, to) {
        Ok(()) => Ok(()),
        Err(LinkFailed) => Err(Reply::Refused(link_fault(link.faults(), plan.when()))),
    }
}

/// Lets the leader that a write passed take its entry. Without one there is nothing to take.
fn relay_to<K: Keeper, J: Sharing, R: Wait>(
    nodes: &LockedNodes<'_, K, J>,
    rt: &R,
    leader: NodeName,
    plan: &WritePlan,
    note: Note,
)
    requires leader { IsLeaderFor J.making.settings (write_shard plan.now.write) leader }
    requires note { IsWayNote (on_cluster K.TELLS K.state J.making J.log) plan.now note }
{
    match plan.entry() {
        Some(entry) => relay(nodes, rt, leader, plan.write().shard(), entry, note),
        None => drop(note),
    }
}

/// Lets the follower of a write take its entry. Without one there is nothing to take.
fn apply_to<K: Keeper, J: Sharing, R: Wait>(
    nodes: &LockedNodes<'_, K, J>,
    rt: &R,
    plan: &WritePlan,
    note: Note,
)
    requires follower { IsFollowerFor J.making.settings (write_shard plan.now.write) plan.now.follower }
    requires note { IsWayNote (on_cluster K.TELLS K.state J.making J.log) plan.now note }
{
    match plan.entry() {
        Some(entry) => apply(
            nodes,
            rt,
            plan.follower(),
            plan.write().shard(),
            entry,
            note,
        ),
        None => drop(note),
    }
}

/// Carries what was committed to the leader that the write passed, and lets that take it.
fn relay_over<K: Keeper, J: Sharing, R: Wait, L: Link>(
    nodes: &LockedNodes<'_, K, J>,
    rt: &R,
    link: &mut L,
    plan: &WritePlan,
    note: Note,
) -> Result<(), Reply>
    requires committed { IsSome plan.now.committed }
    requires passes { IsSome (answered_passed plan.now) }
    requires passed { IfSome (answered_passed plan.now) (IsLeaderFor J.making.settings (write_shard plan.now.write)) }
    requires note { IsWayNote (on_cluster K.TELLS K.state J.making J.log) plan.now note }
    ensures carries { (L.shown link.old).carries ≤ (L.shown link.new).carries }
    ensures later { (L.shown link.old).faults ≤ (L.shown link.new).faults }
    ensures failed { IfErr result (IsLinkRefusal (Rose (L.shown link.old).faults (L.shown link.new).faults) (when_of (answered_entry plan.now))) }
{
    let passed = passed_of(plan);
    if let Err(reply) = carry_back(link, committer(plan), passed, plan) {
        drop(note);
        return Err(reply);
    }
    relay_to(nodes, rt, passed, plan, note);
    Ok(())
}

/// Carries what was committed from the last leader to the follower, and lets that take it.
fn apply_over<K: Keeper, J: Sharing, R: Wait, L: Link>(
    nodes: &LockedNodes<'_, K, J>,
    rt: &R,
    link: &mut L,
    plan: &WritePlan,
    note: Note,
) -> Result<(), Reply>
    requires committed { IsSome plan.now.committed }
    requires follower { IsFollowerFor J.making.settings (write_shard plan.now.write) plan.now.follower }
    requires note { IsWayNote (on_cluster K.TELLS K.state J.making J.log) plan.now note }
    ensures carries { (L.shown link.old).carries ≤ (L.shown link.new).carries }
    ensures later { (L.shown link.old).faults ≤ (L.shown link.new).faults }
    ensures failed { IfErr result (IsLinkRefusal (Rose (L.shown link.old).faults (L.shown link.new).faults) (when_of (answered_entry plan.now))) }
{
    if let Err(reply) = carry_back(link, last_before(plan), plan.follower(), plan) {
        drop(note);
        return Err(reply);
    }
    apply_to(nodes, rt, plan, note);
    Ok(())
}

/// The stage `relay` of a write.
pub(crate) fn relay_stage<K: Keeper, J: Sharing, R: Wait, L: Link>(
    nodes: &LockedNodes<'_, K, J>,
    rt: &R,
    link: &mut L,
    write: &mut OpenWrite,
)
    ghost begun: { Opening }
    requires write { IsWriteOf (on_cluster K.TELLS K.state J.making J.log) begun (L.shown link.old).faults write.old }
    requires stage { next_of write.old.plan ≡ stage.Relay }
    ensures steps { StepsWrite (on_cluster K.TELLS K.state J.making J.log) begun (L.shown link.new).faults
        ((L.shown link.new).carries - (L.shown link.old).carries) write.old write.new }
    ensures later { (L.shown link.old).carries ≤ (L.shown link.new).carries }
{
    let carries = link.carries();
    let note = relay_note_of(&mut write.plan);
    let came = relay_over(nodes, rt, link, &write.plan, note);
    let hops = link.carries().saturating_sub(carries);
    write.plan.take(WriteResult::Relay(came), hops);
}

/// The stage `apply` of a write.
pub(crate) fn apply_stage<K: Keeper, J: Sharing, R: Wait, L: Link>(
    nodes: &LockedNodes<'_, K, J>,
    rt: &R,
    link: &mut L,
    write: &mut OpenWrite,
)
    ghost begun: { Opening }
    requires write { IsWriteOf (on_cluster K.TELLS K.state J.making J.log) begun (L.shown link.old).faults write.old }
    requires stage { next_of write.old.plan ≡ stage.Apply }
    ensures steps { StepsWrite (on_cluster K.TELLS K.state J.making J.log) begun (L.shown link.new).faults
        ((L.shown link.new).carries - (L.shown link.old).carries) write.old write.new }
    ensures later { (L.shown link.old).carries ≤ (L.shown link.new).carries }
{
    let carries = link.carries();
    let note = spare_note_of(&mut write.plan);
    let came = apply_over(nodes, rt, link, &write.plan, note);
    let hops = link.carries().saturating_sub(carries);
    write.plan.take(WriteResult::Apply(came), hops);
}
