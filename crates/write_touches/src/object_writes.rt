//! The touch of a write to an object.
ghost use Rattle.std.specs.Prelude.{◌≡◌, ◌≤◌, ◌<◌, ◌+◌, ◌*◌, ◌^◌, ◌∷◌, [], IfOk, MatchResult, None, false};
ghost use Rattle.graph_model.specs.Edges.{state_left};
ghost use Rattle.write_model.specs.Writes.{object_touches, touch_of};
ghost use Rattle.write_touches.specs.Touching.{HasTouch, IsOneChange, NameWrite};
ghost use Rattle.write_touches.specs.Touching.{HasNone, lacks_serial};
ghost use Rattle.tao_keeper.specs.KeeperState.{CallsKeeper, KeepsTables};
ghost use Rattle.tao_keeper.specs.Given.{HaveSmallStamps};
ghost use Rattle.graph_model.specs.Told.{WhereTold};

use super::refusal::TouchRefusal;
use std::alloc::Global;
use tao_base::{Change, Data, Id, Key, OType, Object, StoreName, Touch, Write};
use tao_keeper::{KeepFail, Keeper, SERIAL_LIMIT};

/// The serial that no object has.
const LAST_SERIAL: u64 = SERIAL_LIMIT - 1;

/// The touch that changes an object. Asks the keeper for the object's version.
fn object_touch<M: Keeper>(
    alloc: Global,
    keeper: &mut M,
    at: StoreName,
    id: Id,
    change: Change,
) -> Result<Vec<Touch>, KeepFail>
    requires { state_left change ≡ None }
    ensures touches { WhereTold M.TELLS (IfOk result (λ ts. ts.items ≡ touch_of ((M.state keeper.old).told at).log (Key.Obj id) change ∷ [])) }
    ensures one { IfOk result (λ ts. IsOneChange (Key.Obj id) change ts.items) }
    ensures small { IfOk result (λ ts. HaveSmallStamps ts.items) }
    ensures stays { KeepsTables M.TELLS (M.state keeper.old) (M.state keeper.new) }
    ensures calls { CallsKeeper KeepFail.Failed (M.state keeper.old) (M.state keeper.new) result }
{
    let version = keeper.version(at, Key::Obj(id))?;
    let touch = Touch {
        key: Key::Obj(id),
        change,
        version: version + 1,
    };
    Ok(vec![in alloc; touch]?)
}

/// The id of a shard's next object.
fn id_of(shard: u16, serial: u64) -> Id
    requires positive { 1 ≤ serial }
    requires room { serial < 2 ^ 48 }
    ensures { result ≡ shard * 2 ^ 48 + serial }
{
    match Id::read(u64::from(shard) * SERIAL_LIMIT + serial) {
        Some(id) => id,
        None => unreachable!(),
    }
}

/// Adds an object: its serial is the one after that of the last.
pub fn add_object<M: Keeper>(
    alloc: Global,
    keeper: &mut M,
    at: StoreName,
    shard: u16,
    otype: OType,
    payload: &Data,
) -> Result<Vec<Touch>, TouchRefusal>
    ensures touches { WhereTold M.TELLS (MatchResult result (λ ts. ts.items
        ≡ object_touches ((M.state keeper.old).told at).log (Write.ObjAdd shard otype payload.now))
        (HasNone ((M.state keeper.old).told at).log (Write.ObjAdd shard otype payload.now))) }
    ensures names { IfOk result (λ ts. NameWrite (Write.ObjAdd shard otype payload.now) ts.items) }
    ensures one { IfOk result (λ ts. HasTouch (Write.ObjAdd shard otype payload.now) ts.items) }
    ensures serial { WhereTold M.TELLS (IfOk result (λ _.
        lacks_serial ((M.state keeper.old).told at).log (Write.ObjAdd shard otype payload.now) ≡ false)) }
    ensures small { IfOk result (λ ts. HaveSmallStamps ts.items) }
    ensures stays { KeepsTables M.TELLS (M.state keeper.old) (M.state keeper.new) }
    ensures calls { CallsKeeper TouchRefusal.KeeperFault (M.state keeper.old) (M.state keeper.new) result }
{
    let serial = keeper.last_serial(at)? + 1;
    if serial >= LAST_SERIAL {
        return Err(TouchRefusal::ShardFull {
            serial: LAST_SERIAL,
        });
    }
    let payload = payload.clone()?;
    let id = id_of(shard, serial);
    let change = Change::PutObject(Object { otype, payload });
    Ok(object_touch(alloc, keeper, at, id, change)?)
}

/// Gives an object other data; no touch where there is no object.
pub fn update_object<M: Keeper>(
    alloc: Global,
    keeper: &mut M,
    at: StoreName,
    id: Id,
    payload: &Data,
) -> Result<Vec<Touch>, KeepFail>
    ensures touches { WhereTold M.TELLS (IfOk result (λ ts. ts.items
        ≡ object_touches ((M.state keeper.old).told at).log (Write.ObjUpdate id payload.now))) }
    ensures names { IfOk result (λ ts. NameWrite (Write.ObjUpdate id payload.now) ts.items) }
    ensures small { IfOk result (λ ts. HaveSmallStamps ts.items) }
    ensures stays { KeepsTables M.TELLS (M.state keeper.old) (M.state keeper.new) }
    ensures calls { CallsKeeper KeepFail.Failed (M.state keeper.old) (M.state keeper.new) result }
{
    let found = keeper.object(at, id)?;
    match found {
        Some(old) => {
            let object = Object {
                otype: old.otype,
                payload: payload.clone()?,
            };
            object_touch(alloc, keeper, at, id, Change::PutObject(object))
        }
        None => Ok(Vec::new(alloc)),
    }
}

/// Drops an object; no touch where there is none.
pub fn delete_object<M: Keeper>(
    alloc: Global,
    keeper: &mut M,
    at: StoreName,
    id: Id,
) -> Result<Vec<Touch>, KeepFail>
    ensures touches { WhereTold M.TELLS (IfOk result (λ ts. ts.items ≡ object_touches ((M.state keeper.old).told at).log (Write.ObjDelete id))) }
    ensures names { IfOk result (λ ts. NameWrite (Write.ObjDelete id) ts.items) }
    ensures small { IfOk result (λ ts. HaveSmallStamps ts.items) }
    ensures stays { KeepsTables M.TELLS (M.state keeper.old) (M.state keeper.new) }
    ensures calls { CallsKeeper KeepFail.Failed (M.state keeper.old) (M.state keeper.new) result }
{
    let found = keeper.object(at, id)?;
    match found {
        Some(_) => object_touch(alloc, keeper, at, id, Change::DropObject),
        None => Ok(Vec::new(alloc)),
    }
}
