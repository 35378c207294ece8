//! The touches of a write.
ghost use Rattle.std.specs.Prelude.{◌≤◌, IfOk, MatchResult};
ghost use Rattle.graph_model.specs.Told.{WhereTold};
ghost use Rattle.tao_keeper.specs.Given.{HaveSmallStamps};
ghost use Rattle.tao_keeper.specs.KeeperState.{CallsKeeper, KeepsTables};
ghost use Rattle.tao_schema.specs.Schema.{types_of};
ghost use Rattle.write_touches.specs.Touching.{AreTouches, HasNone, HasTouch, NameWrite};

use super::edge_writes::edge_write;
use super::object_writes::{add_object, delete_object, update_object};
use super::own_records::LAST_EPOCH;
use super::refusal::TouchRefusal;
use std::alloc::Global;
use tao_base::{StoreName, Touch, Write};
use tao_keeper::Keeper;
use tao_schema::Schema;

/// The touches of a write, in the epoch of its shard; none where nothing is there to change. No table changes.
///
/// Refused where the object that would be added has no serial (`ShardFull`), where a record at id1 has no next stamp
/// (`StampFull`), where a call of the keeper failed (`KeeperFault`), and as out of memory. Costs one call of the keeper
/// for the object, the last serial or the record at id1, or two for the records at id1 of both types; and one for an
/// object's touch, and two for each touch of an edge, of which there are four at most.
pub fn touches_of<M: Keeper>(
    alloc: Global,
    keeper: &mut M,
    at: StoreName,
    schema: &Schema,
    epoch: u64,
    write: &Write,
) -> Result<Vec<Touch>, TouchRefusal>
    requires epoch { epoch ≤ LAST_EPOCH }
    ensures touches { WhereTold M.TELLS (MatchResult result (λ ts. AreTouches (types_of schema.now) epoch
        ((M.state keeper.old).told at).log write.now ts.items) (HasNone ((M.state keeper.old).told at).log write.now)) }
    ensures names { IfOk result (λ ts. NameWrite write.now ts.items) }
    ensures one { IfOk result (λ ts. HasTouch write.now ts.items) }
    ensures small { IfOk result (λ ts. HaveSmallStamps ts.items) }
    ensures stays { KeepsTables M.TELLS (M.state keeper.old) (M.state keeper.new) }
    ensures calls { CallsKeeper TouchRefusal.KeeperFault (M.state keeper.old) (M.state keeper.new) result }
{
    match write {
        Write::ObjAdd {
            shard,
            otype,
            payload,
        } => add_object(alloc, keeper, at, *shard, *otype, payload),
        Write::ObjUpdate { id, payload } => Ok(update_object(alloc, keeper, at, *id, payload)?),
        Write::ObjDelete { id } => Ok(delete_object(alloc, keeper, at, *id)?),
        Write::AssocAdd { .. } => edge_write(alloc, keeper, at, schema, epoch, write),
        Write::AssocDelete { .. } => edge_write(alloc, keeper, at, schema, epoch, write),
        Write::AssocChangeType { .. } => edge_write(alloc, keeper, at, schema, epoch, write),
    }
}
