//! The records that a write to an edge gives at id1.
ghost use Rattle.std.specs.Prelude.{◌≡◌, ◌≤◌, ◌<◌, ◌∷◌, [], IfOk};
ghost use Rattle.graph_model.specs.Edges.{number_of};
ghost use Rattle.write_model.specs.Writes.{own_updates};
ghost use Rattle.write_touches.specs.Edges.{AreNext, AreOverSome, cut_over, move_over, stamp_after};
ghost use Rattle.tao_keeper.specs.KeeperState.{CallsKeeper, KeepsTables};
ghost use Rattle.graph_model.specs.Told.{WhereTold};

use std::alloc::{AllocError, Global};
use tao_base::{AType, Data, EdgeState, Id, Stamp, StoreName, Time, Write};
use tao_keeper::{KeepFail, Keeper, STAMP_LIMIT};
use write_model::merges::EdgeUpdate;

/// No shard's epoch is past this one.
pub const LAST_EPOCH: u64 = 1_000;

/// How many numbers an epoch has.
const EPOCH_NUMBERS: u64 = 1 << 32;

/// The stamp after that of a record, in an epoch: the first of the epoch where there is none so late.
fn stamp_after(epoch: u64, id1: Id, old: &Option<EdgeState>) -> Stamp
    requires number { number_of old.now < STAMP_LIMIT }
    requires epoch { epoch ≤ LAST_EPOCH }
    ensures { result ≡ stamp_after epoch id1 old.now }
{
    let number = match old {
        Some(state) => state.stamp().number,
        None => 0,
    };
    Stamp {
        number: number.max(epoch * EPOCH_NUMBERS) + 1,
        shard: id1.shard(),
    }
}

/// The records of a deletion.
fn cut_over(
    alloc: Global,
    epoch: u64,
    id1: Id,
    atype: AType,
    id2: Id,
    old: &Option<EdgeState>,
) -> Result<Vec<EdgeUpdate>, AllocError>
    requires number { number_of old.now < STAMP_LIMIT }
    requires epoch { epoch ≤ LAST_EPOCH }
    ensures updates { IfOk result (λ us. us.items ≡ cut_over epoch id1 atype id2 old.now) }
    ensures next { IfOk result (λ us. AreNext us.items) }
{
    match old {
        Some(EdgeState::Live { .. }) => {
            let stamp = stamp_after(epoch, id1, old);
            Ok(vec![in alloc; (id1, atype, id2, EdgeState::Cut { stamp })]?)
        }
        Some(EdgeState::Cut { .. }) => Ok(Vec::new(alloc)),
        None => Ok(Vec::new(alloc)),
    }
}

/// The records of a change of type, over the records of both types.
fn move_over(
    alloc: Global,
    epoch: u64,
    id1: Id,
    atype: AType,
    id2: Id,
    newtype: AType,
    old: &Option<EdgeState>,
    there: &Option<EdgeState>,
) -> Result<Vec<EdgeUpdate>, AllocError>
    requires old { number_of old.now < STAMP_LIMIT }
    requires there { number_of there.now < STAMP_LIMIT }
    requires epoch { epoch ≤ LAST_EPOCH }
    ensures updates { IfOk result (λ us. us.items ≡ move_over epoch id1 atype id2 newtype old.now there.now) }
    ensures next { IfOk result (λ us. AreNext us.items) }
{
    match old {
        Some(EdgeState::Live { time, payload, .. }) => {
            let cut = EdgeState::Cut {
                stamp: stamp_after(epoch, id1, old),
            };
            let set = EdgeState::Live {
                time: *time,
                payload: payload.clone()?,
                stamp: stamp_after(epoch, id1, there),
            };
            Ok(vec![in alloc; (id1, atype, id2, cut), (id1, newtype, id2, set)]?)
        }
        Some(EdgeState::Cut { .. }) => Ok(Vec::new(alloc)),
        None => Ok(Vec::new(alloc)),
    }
}

/// The records of an add.
fn set_over(
    alloc: Global,
    epoch: u64,
    id1: Id,
    atype: AType,
    id2: Id,
    time: Time,
    payload: &Data,
    old: &Option<EdgeState>,
) -> Result<Vec<EdgeUpdate>, AllocError>
    requires number { number_of old.now < STAMP_LIMIT }
    requires epoch { epoch ≤ LAST_EPOCH }
    ensures updates { IfOk result (λ us. us.items ≡ (id1, atype, id2, EdgeState.Live time payload.now (stamp_after epoch id1 old.now)) ∷ []) }
    ensures next { IfOk result (λ us. AreNext us.items) }
{
    let set = EdgeState::Live {
        time,
        payload: payload.clone()?,
        stamp: stamp_after(epoch, id1, old),
    };
    Ok(vec![in alloc; (id1, atype, id2, set)]?)
}

/// The records that a write gives at id1, in the epoch of its shard. Asks the keeper for the records that stand there.
pub fn own_updates<M: Keeper>(
    alloc: Global,
    keeper: &mut M,
    at: StoreName,
    epoch: u64,
    write: &Write,
) -> Result<Vec<EdgeUpdate>, KeepFail>
    requires epoch { epoch ≤ LAST_EPOCH }
    ensures updates { WhereTold M.TELLS (IfOk result (λ us. us.items ≡ own_updates epoch ((M.state keeper.old).told at).log write.now)) }
    ensures over { IfOk result (λ us. AreOverSome epoch write.now us.items) }
    ensures next { IfOk result (λ us. AreNext us.items) }
    ensures stays { KeepsTables M.TELLS (M.state keeper.old) (M.state keeper.new) }
    ensures calls { CallsKeeper KeepFail.Failed (M.state keeper.old) (M.state keeper.new) result }
{
    match write {
        Write::AssocAdd {
            id1,
            atype,
            id2,
            time,
            payload,
        } => {
            let old = keeper.edge(at, *id1, *atype, *id2)?;
            Ok(set_over(alloc, epoch, *id1, *atype, *id2, *time, payload, &old)?)
        }
        Write::AssocDelete { id1, atype, id2 } => {
            let old = keeper.edge(at, *id1, *atype, *id2)?;
            Ok(cut_over(alloc, epoch, *id1, *atype, *id2, &old)?)
        }
        Write::AssocChangeType {
            id1,
            atype,
            id2,
            newtype,
        } => {
            let old = keeper.edge(at, *id1, *atype, *id2)?;
            let there = keeper.edge(at, *id1, *newtype, *id2)?;
            Ok(move_over(alloc, epoch, *id1, *atype, *id2, *newtype, &old, &there)?)
        }
        Write::ObjAdd { .. } => Ok(Vec::new(alloc)),
        Write::ObjUpdate { .. } => Ok(Vec::new(alloc)),
        Write::ObjDelete { .. } => Ok(Vec::new(alloc)),
    }
}
