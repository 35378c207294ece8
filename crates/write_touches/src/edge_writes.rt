//! The touches of a write to an edge: at id1 first, and then at id2 where it lies on the same shard.
ghost use Rattle.std.specs.Prelude.{◌≡◌, ◌≤◌, ◌<◌, IfOk, MatchResult, map};
ghost use Rattle.std.specs.List.{list_any};
ghost use Rattle.graph_model.specs.Edges.{live_time, number_of, state_left};
ghost use Rattle.write_model.specs.Writes.{change_to, edge_touch};
ghost use Rattle.write_touches.specs.Edges.{AreStamped, WriteRecords, WritesRecord, is_past_stamps, touch_over};
ghost use Rattle.write_touches.specs.Touching.{NameWrite};
ghost use Rattle.write_touches.specs.Touching.{AreTouches, HasNone, IsEdgeWrite};
ghost use Rattle.tao_base.specs.Stamps.{stamp_of};
ghost use Rattle.tao_keeper.specs.KeeperState.{CallsKeeper, KeepsTables};
ghost use Rattle.tao_keeper.specs.Given.{HaveSmallStamps};
ghost use Rattle.graph_model.specs.Told.{WhereTold};
ghost use Rattle.tao_schema.specs.Schema.{types_of};

use super::near_ends::with_near_ends;
use super::own_records::{LAST_EPOCH, own_updates};
use super::refusal::TouchRefusal;
use std::alloc::{AllocError, Global};
use tao_base::{Change, Edge, EdgeState, Id, Key, StoreName, Time, Touch, Write};
use tao_keeper::{KeepFail, Keeper, STAMP_LIMIT};
use tao_schema::Schema;
use write_model::merges::EdgeUpdate;

/// The time of an edge that is live.
fn live_time(old: &Option<EdgeState>) -> Option<Time>
    ensures { result ≡ live_time old.now }
{
    match old {
        Some(EdgeState::Live { time, .. }) => Some(*time),
        Some(EdgeState::Cut { .. }) => None,
        None => None,
    }
}

/// The change that writes the record of an edge.
fn change_to(id2: Id, state: &EdgeState, was: Option<Time>) -> Result<Change, AllocError>
    requires { (stamp_of state.now).number < STAMP_LIMIT }
    ensures change { IfOk result (λ change. change ≡ change_to id2 state.now was) }
    ensures small { IfOk result (λ change. number_of (state_left change) < STAMP_LIMIT) }
{
    match state {
        EdgeState::Live {
            time,
            payload,
            stamp,
        } => {
            let edge = Edge {
                id2,
                time: *time,
                payload: payload.clone()?,
                stamp: *stamp,
            };
            Ok(Change::SetEdge { edge, was })
        }
        EdgeState::Cut { stamp } => Ok(Change::CutEdge {
            id2,
            stamp: *stamp,
            was,
        }),
    }
}

/// The touch that writes a record over the one that stands there. Asks the keeper for the version of
/// the list.
pub fn touch_over<M: Keeper>(
    keeper: &mut M,
    at: StoreName,
    update: &EdgeUpdate,
    old: &Option<EdgeState>,
) -> Result<Touch, KeepFail>
    requires { (stamp_of update.now.3).number < STAMP_LIMIT }
    ensures touch { WhereTold M.TELLS (IfOk result (λ t. t ≡ touch_over ((M.state keeper.old).told at).log update.now old.now)) }
    ensures writes { IfOk result (WritesRecord update.now) }
    ensures small { IfOk result (λ t. number_of (state_left t.change) < STAMP_LIMIT) }
    ensures stays { KeepsTables M.TELLS (M.state keeper.old) (M.state keeper.new) }
    ensures calls { CallsKeeper KeepFail.Failed (M.state keeper.old) (M.state keeper.new) result }
{
    let (id1, atype, id2, state) = update;
    let version = keeper.version(at, Key::List(*id1, *atype))?;
    let change = change_to(*id2, state, live_time(old))?;
    Ok(Touch {
        key: Key::List(*id1, *atype),
        change,
        version: version + 1,
    })
}

/// The touch that writes a record. Asks the keeper for the record that stands there and for the
/// version of the list.
fn edge_touch<M: Keeper>(
    keeper: &mut M,
    at: StoreName,
    update: &EdgeUpdate,
) -> Result<Touch, KeepFail>
    requires { (stamp_of update.now.3).number < STAMP_LIMIT }
    ensures touch { WhereTold M.TELLS (IfOk result (λ t. t ≡ edge_touch ((M.state keeper.old).told at).log update.now)) }
    ensures writes { IfOk result (WritesRecord update.now) }
    ensures small { IfOk result (λ t. number_of (state_left t.change) < STAMP_LIMIT) }
    ensures stays { KeepsTables M.TELLS (M.state keeper.old) (M.state keeper.new) }
    ensures calls { CallsKeeper KeepFail.Failed (M.state keeper.old) (M.state keeper.new) result }
{
    let (id1, atype, id2, _) = update;
    let old = keeper.edge(at, *id1, *atype, *id2)?;
    touch_over(keeper, at, update, &old)
}

/// The touches that write records, in their order.
fn edge_touches<M: Keeper>(
    alloc: Global,
    keeper: &mut M,
    at: StoreName,
    updates: &[EdgeUpdate],
) -> Result<Vec<Touch>, KeepFail>
    requires { AreStamped updates.now }
    ensures touches { WhereTold M.TELLS (IfOk result (λ ts. ts.items ≡ map (edge_touch ((M.state keeper.old).told at).log) updates.now)) }
    ensures write { IfOk result (λ ts. WriteRecords updates.now ts.items) }
    ensures small { IfOk result (λ ts. HaveSmallStamps ts.items) }
    ensures stays { KeepsTables M.TELLS (M.state keeper.old) (M.state keeper.new) }
    ensures calls { CallsKeeper KeepFail.Failed (M.state keeper.old) (M.state keeper.new) result }
{
    let mut touches = Vec::new(alloc);
    for update in updates {
        touches.push(edge_touch(keeper, at, update)?)?;
    }
    Ok(touches)
}

fn has_past_stamp(updates: &[EdgeUpdate]) -> bool
    ensures { result ≡ list_any is_past_stamps updates.now }
{
    updates
        .iter()
        .any(|update| update.3.stamp().number == STAMP_LIMIT)
}

/// The touches of a write to an edge, in the epoch of its shard.
pub fn edge_write<M: Keeper>(
    alloc: Global,
    keeper: &mut M,
    at: StoreName,
    schema: &Schema,
    epoch: u64,
    write: &Write,
) -> Result<Vec<Touch>, TouchRefusal>
    requires edge { IsEdgeWrite write.now }
    requires epoch { epoch ≤ LAST_EPOCH }
    ensures touches { WhereTold M.TELLS (MatchResult result (λ ts. AreTouches (types_of schema.now) epoch
        ((M.state keeper.old).told at).log write.now ts.items) (HasNone ((M.state keeper.old).told at).log write.now)) }
    ensures names { IfOk result (λ ts. NameWrite write.now ts.items) }
    ensures small { IfOk result (λ ts. HaveSmallStamps ts.items) }
    ensures stays { KeepsTables M.TELLS (M.state keeper.old) (M.state keeper.new) }
    ensures calls { CallsKeeper TouchRefusal.KeeperFault (M.state keeper.old) (M.state keeper.new) result }
{
    let own = own_updates(alloc, keeper, at, epoch, write)?;
    if has_past_stamp(&own) {
        return Err(TouchRefusal::StampFull {
            number: STAMP_LIMIT - 1,
        });
    }
    let updates = with_near_ends(alloc, schema, own)?;
    Ok(edge_touches(alloc, keeper, at, &updates)?)
}
