//! The stages of a write, one after another.
ghost use Rattle.std.specs.Prelude.{◌≡◌, ◌≢◌, ◌≤◌, ◌-◌};
ghost use Rattle.cluster_writes.specs.Open.{IsUnderWay, IsWriteOf, Opening, StepsWrite, call_planned};
ghost use Rattle.locked_nodes.specs.Cluster.{on_cluster};
ghost use Rattle.locked_nodes.specs.Passes.{IsPassOf};
ghost use Rattle.write_plan.specs.Plans.{next_of};
ghost use Rattle.write_plan.specs.declared.stage.WriteStage.TheVariants as stage;

use crate::committing::commit_stage;
use crate::merging::{end_stage, inverse_stage};
use crate::open::OpenWrite;
use crate::way_back::{apply_stage, relay_stage};
use locked_nodes::LockedNodes;
use session_pass::Pass;
use shared_stores::Sharing;
use std::sync::Wait;
use tao_keeper::Keeper;
use tao_link::Link;
use write_plan::WriteStage;

/// Does the stage of a write that follows, where it hasn't ended.
fn step<K: Keeper, J: Sharing, R: Wait, L: Link>(
    nodes: &LockedNodes<'_, K, J>,
    rt: &R,
    pass: &mut Pass,
    link: &mut L,
    write: &mut OpenWrite,
)
    ghost begun: { Opening }
    requires pass { IsPassOf J.making J.log pass.old }
    requires notes { pass.old.notes ≡ begun.notes }
    requires write { IsWriteOf (on_cluster K.TELLS K.state J.making J.log) begun (L.shown link.old).faults write.old }
    requires goes_on { next_of write.old.plan ≢ stage.Done }
    ensures steps { StepsWrite (on_cluster K.TELLS K.state J.making J.log) begun (L.shown link.new).faults
        ((L.shown link.new).carries - (L.shown link.old).carries) write.old write.new }
    ensures pass { pass.new ≡ pass.old }
    ensures later { (L.shown link.old).carries ≤ (L.shown link.new).carries }
{
    match write.plan.next() {
        WriteStage::Commit => commit_stage(nodes, rt, link, write),
        WriteStage::Inverse => inverse_stage(nodes, rt, pass, link, write),
        WriteStage::End => end_stage(nodes, rt, write),
        WriteStage::Relay => relay_stage(nodes, rt, link, write),
        WriteStage::Apply => apply_stage(nodes, rt, link, write),
        WriteStage::Done => unreachable!(),
    }
}

/// Does the stages of a write until none is left. The pass stays as it was.
pub(crate) fn run_write<K: Keeper, J: Sharing, R: Wait, L: Link>(
    nodes: &LockedNodes<'_, K, J>,
    rt: &R,
    pass: &mut Pass,
    link: &mut L,
    write: OpenWrite,
) -> OpenWrite
    ghost begun: { Opening }
    requires pass { IsPassOf J.making J.log pass.old }
    requires notes { pass.old.notes ≡ begun.notes }
    requires write { IsWriteOf (on_cluster K.TELLS K.state J.making J.log) begun (L.shown link.old).faults write }
    requires carries { begun.carries ≡ (L.shown link.old).carries }
    requires hops { write.plan.hops ≡ 0 }
    ensures write { IsUnderWay (on_cluster K.TELLS K.state J.making J.log) begun (call_planned write.plan) (L.shown link.new) result }
    ensures done { next_of result.plan ≡ stage.Done }
    ensures pass { pass.new ≡ pass.old }
{
    let mut write = write;
    for _ in rt.forever() {
        if write.plan.next() == WriteStage::Done {
            break;
        }
        step(nodes, rt, pass, link, &mut write);
    }
    write
}
