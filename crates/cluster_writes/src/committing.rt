//! The stage `commit`.
ghost use Rattle.std.specs.Prelude.{◌≡◌, ◌≤◌, ◌<◌, ◌-◌, IfErr, IfOk, IfSome, IsTrue, OnErr, Some, length};
ghost use Rattle.cluster_writes.specs.Open.{IsAnswerOf, IsWriteOf, Opening, RefusesCommit, StepsWrite, call_planned};
ghost use Rattle.core_model.specs.Serving.{IsLeaderFor};
ghost use Rattle.counts.specs.Count.{Rose};
ghost use Rattle.graph_model.specs.Soundness.{is_client};
ghost use Rattle.locked_nodes.specs.Cluster.{on_cluster};
ghost use Rattle.log_names.specs.Names.{IsOfLog};
ghost use Rattle.shard_log.specs.View.{Grows};
ghost use Rattle.shard_tables.specs.Written.{HasEntry, LiesOn, StandsIn};
ghost use Rattle.tao_base.specs.Writes.{ChangesType, write_shard};
ghost use Rattle.tao_schema.specs.Schema.{types_of};
ghost use Rattle.write_model.specs.Writes.{FitsWrite};
ghost use Rattle.write_plan.specs.Committing.{has_inverse, kind_said};
ghost use Rattle.write_plan.specs.Plans.{next_of};
ghost use Rattle.write_plan.specs.declared.stage.WriteStage.TheVariants as stage;

use crate::open::OpenWrite;
use core_model::{AuthoredWrite, masters_are_regions};
use locked_nodes::LockedNodes;
use locked_nodes::core_nodes::master_store;
use locked_writes::{CommitPlace, CommittedThere, commit, notify};
use node_name::NodeName;
use replies::{Reply, When};
use shard_log::Note;
use shard_tables::Wrote;
use shared_stores::Sharing;
use std::sync::Wait;
use store_replies::link_fault;
use tao_base::StoreName;
use tao_keeper::Keeper;
use tao_link::{Link, LinkFailed};
use write_plan::{CommitAnswer, Committed, WritePlan, WriteResult};

/// Whom a write goes to: the leader that commits it, its store, and the leader of a slave region that it passes on the way there.
#[derive(Clone, Copy)]
struct WayThere {
    leader: NodeName,
    store: StoreName,
    passed: Option<NodeName>,
}

/// The way of a write to its commit, where all nodes are up: the leaders that the regions prefer.
fn way_there<K: Keeper, J: Sharing>(nodes: &LockedNodes<'_, K, J>, plan: &WritePlan) -> WayThere
    requires home { plan.now.region < length J.making.settings.regions }
    requires here { write_shard plan.now.write < J.making.settings.shards }
    ensures leader { IsLeaderFor J.making.settings (write_shard plan.now.write) result.leader }
    ensures store { result.store.shard ≡ write_shard plan.now.write }
    ensures passed { IfSome result.passed (IsLeaderFor J.making.settings (write_shard plan.now.write)) }
{
    let shard = plan.write().shard();
    masters_are_regions(nodes.config());
    let store = master_store(nodes.config(), shard);
    let passed = if plan.region() == store.region {
        None
    } else {
        Some(nodes.leader_for(plan.region(), shard))
    };
    WayThere {
        leader: nodes.leader_for(store.region, shard),
        store,
        passed,
    }
}

/// Carries a write from its follower to the leader that commits it, over the one that it passes.
fn carry_there<L: Link>(link: &mut L, way: WayThere, plan: &WritePlan) -> Result<(), LinkFailed>
    ensures carries { (L.shown link.old).carries ≤ (L.shown link.new).carries }
    ensures later { (L.shown link.old).faults ≤ (L.shown link.new).faults }
    ensures failed { OnErr result (Rose (L.shown link.old).faults (L.shown link.new).faults) }
{
    match way.passed {
        Some(passed) => {
            link.carry(plan.follower(), passed)?;
            link.carry(passed, way.leader)
        }
        None => link.carry(plan.follower(), way.leader),
    }
}

/// Tells those who see the log of an entry that is new.
fn notify_of_new<K: Keeper, J: Sharing, R: Wait>(
    nodes: &LockedNodes<'_, K, J>,
    rt: &R,
    shard: u16,
    wrote: &mut Wrote,
)
    requires here { shard < J.making.settings.shards }
    requires log { IsOfLog J.log shard wrote.old.note }
    requires stands { IfSome wrote.old.entry (StandsIn wrote.old.note) }
    requires lies { IfSome wrote.old.entry (LiesOn wrote.old.note shard) }
    ensures { wrote.new ≡ wrote.old }
{
    if wrote.retry {
        return;
    }
    if let Some(entry) = &wrote.entry {
        notify(nodes, rt, shard, entry, &mut wrote.note);
    }
}

/// What was committed, as the plan takes it, with the notes for its way back.
fn answer_of<K: Keeper, J: Sharing>(
    nodes: &LockedNodes<'_, K, J>,
    way: WayThere,
    plan: &WritePlan,
    done: CommittedThere,
) -> CommitAnswer
    requires fits { IfSome done.wrote.entry (λ e. FitsWrite e plan.now.write) }
    requires has { HasEntry plan.now.write done.wrote.entry }
    ensures wrote { result.committed.wrote ≡ done.wrote }
    ensures leader { result.committed.leader ≡ way.leader }
    ensures passed { result.committed.passed ≡ way.passed }
    ensures kind { kind_said plan.now.write done.wrote.entry ≡ Some result.committed.kind }
    ensures paired { result.committed.paired ≡ has_inverse (types_of J.making.settings.schema) plan.now.write }
    ensures relay { result.relay ≡ done.relay }
    ensures spare { result.spare ≡ done.spare }
{
    let CommittedThere {
        wrote,
        relay,
        spare,
    } = done;
    CommitAnswer {
        committed: Committed::of(nodes.schema(), plan.write(), wrote, way.leader, way.passed),
        relay,
        spare,
    }
}

/// Commits a write at the leader that it was sent to. Those who see its shard's log are notified of an entry that is new.
fn commit_there<K: Keeper, J: Sharing, R: Wait>(
    nodes: &LockedNodes<'_, K, J>,
    rt: &R,
    way: WayThere,
    plan: &WritePlan,
    seen: &mut Note,
) -> Result<CommitAnswer, Reply>
    requires here { write_shard plan.now.write < J.making.settings.shards }
    requires leader { IsLeaderFor J.making.settings (write_shard plan.now.write) way.leader }
    requires store { way.store.shard ≡ write_shard plan.now.write }
    requires passed { IfSome way.passed (IsLeaderFor J.making.settings (write_shard plan.now.write)) }
    requires log { IsOfLog J.log (write_shard plan.now.write) seen.old }
    requires client { IsTrue (is_client plan.now.origin) }
    requires changes { ChangesType (types_of J.making.settings.schema) plan.now.write }
    ensures grows { Grows seen.old seen.new }
    ensures answer { IfOk result (IsAnswerOf (on_cluster K.TELLS K.state J.making J.log) (call_planned plan.now) seen.old seen.new) }
    ensures refused { IfErr result (RefusesCommit (on_cluster K.TELLS K.state J.making J.log) (call_planned plan.now) seen.new ⊥) }
{
    let (origin, write) = (plan.origin(), plan.write());
    let place = CommitPlace {
        leader: way.leader,
        store: way.store,
        passes: way.passed.is_some(),
    };
    let call = AuthoredWrite { origin, write };
    match commit(nodes, rt, place, &call, seen) {
        Ok(committed) => {
            let mut done = committed;
            notify_of_new(nodes, rt, write.shard(), &mut done.wrote);
            Ok(answer_of(nodes, way, plan, done))
        }
        Err(refusal) => Err(Reply::Refused(refusal)),
    }
}

/// Sends a write to the leader that commits it.
fn commit_over<K: Keeper, J: Sharing, R: Wait, L: Link>(
    nodes: &LockedNodes<'_, K, J>,
    rt: &R,
    link: &mut L,
    plan: &WritePlan,
    seen: &mut Note,
) -> Result<CommitAnswer, Reply>
    requires home { plan.now.region < length J.making.settings.regions }
    requires here { write_shard plan.now.write < J.making.settings.shards }
    requires log { IsOfLog J.log (write_shard plan.now.write) seen.old }
    requires client { IsTrue (is_client plan.now.origin) }
    requires changes { ChangesType (types_of J.making.settings.schema) plan.now.write }
    ensures carries { (L.shown link.old).carries ≤ (L.shown link.new).carries }
    ensures later { (L.shown link.old).faults ≤ (L.shown link.new).faults }
    ensures grows { Grows seen.old seen.new }
    ensures answer { IfOk result (IsAnswerOf (on_cluster K.TELLS K.state J.making J.log) (call_planned plan.now) seen.old seen.new) }
    ensures refused { IfErr result (RefusesCommit (on_cluster K.TELLS K.state J.making J.log) (call_planned plan.now) seen.new
        (Rose (L.shown link.old).faults (L.shown link.new).faults)) }
{
    let way = way_there(nodes, plan);
    if let Err(LinkFailed) = carry_there(link, way, plan) {
        return Err(Reply::Refused(link_fault(link.faults(), When::Before)));
    }
    commit_there(nodes, rt, way, plan, seen)
}

/// The stage `commit` of a write.
pub(crate) fn commit_stage<K: Keeper, J: Sharing, R: Wait, L: Link>(
    nodes: &LockedNodes<'_, K, J>,
    rt: &R,
    link: &mut L,
    write: &mut OpenWrite,
)
    ghost begun: { Opening }
    requires write { IsWriteOf (on_cluster K.TELLS K.state J.making J.log) begun (L.shown link.old).faults write.old }
    requires stage { next_of write.old.plan ≡ stage.Commit }
    ensures steps { StepsWrite (on_cluster K.TELLS K.state J.making J.log) begun (L.shown link.new).faults
        ((L.shown link.new).carries - (L.shown link.old).carries) write.old write.new }
    ensures later { (L.shown link.old).carries ≤ (L.shown link.new).carries }
{
    let carries = link.carries();
    let came = commit_over(nodes, rt, link, &write.plan, &mut write.seen);
    let hops = link.carries().saturating_sub(carries);
    write.plan.take(WriteResult::Commit(came), hops);
}
