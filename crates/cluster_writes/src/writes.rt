//! The writes of sessions.
ghost use Rattle.std.specs.Prelude.{◌≡◌, ◌≤◌, ◌<◌, Some, slice_get};
ghost use Rattle.cluster_writes.specs.Learning.{IsBegunWrite};
ghost use Rattle.cluster_writes.specs.Replies.{EndsWrite, HasEnded, RepliesToWrite};
ghost use Rattle.core_model.specs.Asked.{client_call};
ghost use Rattle.locked_nodes.specs.Begun.{begun};
ghost use Rattle.locked_nodes.specs.Cluster.{on_cluster};
ghost use Rattle.locked_nodes.specs.Passes.{IsPassOf, PassGoesOn};
ghost use Rattle.shard_log.specs.View.{View};
ghost use Rattle.tao_base.specs.Writes.{ChangesType, write_shard};
ghost use Rattle.tao_base.specs.declared.entry.Origin.TheVariants.{Client};
ghost use Rattle.tao_schema.specs.Schema.{types_of};

use crate::learning::{is_carried_out, learn_committed, learn_other, shard_of_other};
use crate::open::OpenWrite;
use crate::running::run_write;
use locked_nodes::{LockedNodes, prepare};
use replies::Reply;
use request_check::CheckedWrite;
use session_pass::Pass;
use shared_stores::Sharing;
use std::sync::Wait;
use store_replies::out_of_memory;
use tao_keeper::Keeper;
use tao_link::Link;
use write_plan::{EndedWrite, WritePlan};

/// A write of a session that is begun. Takes no memory.
fn begin_write<K: Keeper, J: Sharing>(
    nodes: &LockedNodes<'_, K, J>,
    pass: &Pass,
    call: CheckedWrite,
) -> WritePlan
    requires pass { IsPassOf J.making J.log pass.now }
    requires here { write_shard call.write < J.making.settings.shards }
    ensures { IsBegunWrite J.making pass.now (client_call (Client call.session call.seq) call.write) result }
{
    let follower = nodes.follower_for(pass.region(), pass.tier(), call.write.shard());
    let origin = call.origin();
    WritePlan::begin(call.write, origin, pass.region(), pass.tier(), follower)
}

/// The reply of a write that has ended. Its session learns what that says was written, and its pass sees what the stages have.
fn end_write<K: Keeper, J: Sharing>(
    nodes: &LockedNodes<'_, K, J>,
    pass: &mut Pass,
    write: OpenWrite,
) -> Reply
    requires pass { IsPassOf J.making J.log pass.old }
    requires room { 16 ≤ pass.old.spare }
    requires write { HasEnded (on_cluster K.TELLS K.state J.making J.log) write }
    ensures pass { IsPassOf J.making J.log pass.new }
    ensures on { PassGoesOn pass.old pass.new }
    ensures replies { EndsWrite (on_cluster K.TELLS K.state J.making J.log) write pass.old pass.new result }
{
    let OpenWrite {
        plan,
        seen,
        far,
        ..
    } = write;
    let shard = plan.write().shard();
    let other_shard = shard_of_other(nodes, &plan);
    let EndedWrite {
        reply,
        committed,
        other,
    } = plan.into_parts();
    let told = is_carried_out(&reply);
    learn_committed::<J>(pass, shard, committed, seen, told);
    learn_other::<J>(pass, other_shard, other, far, told);
    reply
}

/// A write of a session, under the session's number for it.
///
/// Where it is acknowledged, its entry stands in what the pass has then seen of the shard's log, once under its origin, and fits the write; a new one stands
/// past what the pass had seen before. Where nothing was changed, there was nothing to change at a beginning of that log which what the pass had seen begins.
/// Where a new entry's inverse is said to be written, what the pass has then seen there has it, or a later record. The session learns what the entry touches,
/// and what was merged of its job at the other end, where that is known; no other floor changes. A refusal has its cause, says the position of the entry
/// where that stands all the same, and teaches the session nothing. The hops are the carries that the link counted.
pub fn write<K: Keeper, J: Sharing, R: Wait, L: Link>(
    nodes: &LockedNodes<'_, K, J>,
    rt: &R,
    pass: &mut Pass,
    link: &mut L,
    call: CheckedWrite,
) -> Reply
    requires pass { IsPassOf J.making J.log pass.old }
    requires here { write_shard call.write < J.making.settings.shards }
    requires changes { ChangesType (types_of J.making.settings.schema) call.write }
    ensures pass { IsPassOf J.making J.log pass.new }
    ensures on { PassGoesOn pass.old pass.new }
    ensures replies { (seen : View) → slice_get pass.old.notes (write_shard call.write) ≡ Some seen
        → RepliesToWrite (on_cluster K.TELLS K.state J.making J.log) (begun seen (L.shown link.old)) (client_call (Client call.session call.seq) call.write)
        pass.old pass.new (L.shown link.new) result }
{
    let shard = call.write.shard();
    let Ok(seen) = prepare::<J>(pass, shard) else {
        return out_of_memory();
    };
    let plan = begin_write(nodes, pass, call);
    let write = OpenWrite {
        plan,
        seen,
        done: None,
        far: None,
    };
    let write = run_write(nodes, rt, pass, link, write);
    end_write(nodes, pass, write)
}
