//! The calls on objects and associations: their types first, then the shards of their ids, then what
//! their own rules refuse.
ghost use Rattle.std.specs.Prelude.{◌≡◌};
ghost use Rattle.outcomes.specs.Results.{Gives};
ghost use Rattle.request_check.specs.Refusal.{name_unless_memory};
ghost use Rattle.request_check.specs.Names.{settings};
ghost use Rattle.tao_schema.specs.Schema.{types_of};
ghost use Rattle.request_check.specs.Calls.{configured_ends, list_type, edge_type, checked_obj_add, checked_obj_update, checked_obj_delete};
ghost use Rattle.request_check.specs.Calls.{checked_assoc_add, checked_assoc_delete, has_type, is_type, checked_assoc_change_type, checked_write};
ghost use Rattle.request_check.specs.Calls.{bounded_ids, checked_obj_get, checked_assoc_get, checked_assoc_count, checked_assoc_range};
ghost use Rattle.request_check.specs.Calls.{checked_assoc_time_range, checked_call, checked_query, checked_read_call, checked_write_call};

use crate::checked::{CheckedCall, CheckedRead, CheckedWrite};
use crate::names::Names;
use crate::refusal::NameError;
use replies::NameRefused;
use requests::{Call, EdgeName, ListName, QueryText, ReadCall, WriteCall, WriteText};
use tao_base::{AType, Data, Id, IdSet, Query, Text, Time, Write};
use tao_schema::Schema;

/// Refuses an edge one of whose ends lies on a shard that isn't configured.
fn configured_ends(names: &Names<'_>, edge: &EdgeName) -> Result<(), NameError>
    ensures { Gives name_unless_memory result (configured_ends (settings names.now) edge.now) }
{
    names.id(edge.list.id1)?;
    names.id(edge.id2)
}

pub(crate) fn list_type(names: &Names<'_>, list: &ListName) -> Result<AType, NameError>
    ensures { Gives name_unless_memory result (list_type (settings names.now) list.now) }
{
    let atype = names.atype(list.atype.as_str())?;
    names.id(list.id1)?;
    Ok(atype)
}

fn edge_type(names: &Names<'_>, edge: &EdgeName) -> Result<AType, NameError>
    ensures { Gives name_unless_memory result (edge_type (settings names.now) edge.now) }
{
    let atype = names.atype(edge.list.atype.as_str())?;
    configured_ends(names, edge)?;
    Ok(atype)
}

// ---- writes

fn checked_write(names: &Names<'_>, write: &WriteText) -> Result<Write, NameError>
    ensures { Gives name_unless_memory result (checked_write (settings names.now) write.now) }
{
    match write {
        WriteText::ObjAdd {
            shard,
            otype,
            payload,
        } => checked_obj_add(names, *shard, otype, payload),
        WriteText::ObjUpdate { id, payload } => checked_obj_update(names, *id, payload),
        WriteText::ObjDelete { id } => checked_obj_delete(names, *id),
        WriteText::AssocAdd {
            edge,
            time,
            payload,
        } => checked_assoc_add(names, edge, *time, payload),
        WriteText::AssocDelete { edge } => checked_assoc_delete(names, edge),
        WriteText::AssocChangeType { edge, newtype } => checked_assoc_change_type(
            names, edge, newtype,
        ),
    }
}

fn checked_obj_add(
    names: &Names<'_>,
    shard: u16,
    otype: &Text,
    payload: &Data,
) -> Result<Write, NameError>
    ensures { Gives name_unless_memory result (checked_obj_add (settings names.now) shard otype.now payload.now) }
{
    let otype = names.otype(otype.as_str())?;
    names.shard(shard)?;
    Ok(Write::ObjAdd {
        shard,
        otype,
        payload: payload.clone()?,
    })
}

fn checked_obj_update(names: &Names<'_>, id: Id, payload: &Data) -> Result<Write, NameError>
    ensures { Gives name_unless_memory result (checked_obj_update (settings names.now) id payload.now) }
{
    names.id(id)?;
    Ok(Write::ObjUpdate {
        id,
        payload: payload.clone()?,
    })
}

fn checked_obj_delete(names: &Names<'_>, id: Id) -> Result<Write, NameError>
    ensures { Gives name_unless_memory result (checked_obj_delete (settings names.now) id) }
{
    names.id(id)?;
    Ok(Write::ObjDelete { id })
}

fn checked_assoc_add(
    names: &Names<'_>,
    edge: &EdgeName,
    time: Time,
    payload: &Data,
) -> Result<Write, NameError>
    ensures { Gives name_unless_memory result (checked_assoc_add (settings names.now) edge.now time payload.now) }
{
    let atype = edge_type(names, edge)?;
    Ok(Write::AssocAdd {
        id1: edge.list.id1,
        atype,
        id2: edge.id2,
        time,
        payload: payload.clone()?,
    })
}

fn checked_assoc_delete(names: &Names<'_>, edge: &EdgeName) -> Result<Write, NameError>
    ensures { Gives name_unless_memory result (checked_assoc_delete (settings names.now) edge.now) }
{
    let atype = edge_type(names, edge)?;
    Ok(Write::AssocDelete {
        id1: edge.list.id1,
        atype,
        id2: edge.id2,
    })
}

fn is_inverse(schema: &Schema, atype: AType, newtype: AType) -> bool
    ensures { result ≡ is_type newtype ((types_of schema.now).inverse atype) }
{
    match schema.inverse(atype) {
        Some(inverse) => inverse == newtype,
        None => false,
    }
}

/// Whether an edge of the type has the new one already: its own, or between an object and itself that of its
/// other end, since these are one edge.
fn has_type(schema: &Schema, edge: &EdgeName, atype: AType, newtype: AType) -> bool
    ensures { result ≡ has_type (types_of schema.now) edge.now atype newtype }
{
    atype.0 == newtype.0 || (edge.list.id1 == edge.id2 && is_inverse(schema, atype, newtype))
}

fn checked_assoc_change_type(
    names: &Names<'_>,
    edge: &EdgeName,
    name: &Text,
) -> Result<Write, NameError>
    ensures { Gives name_unless_memory result (checked_assoc_change_type (settings names.now) edge.now name.now) }
{
    let oldtype = names.atype(edge.list.atype.as_str())?;
    let newtype = names.atype(name.as_str())?;
    configured_ends(names, edge)?;
    let config = names.config;
    if has_type(&config.schema, edge, oldtype, newtype) {
        let name = Text::copy_of(names.alloc, name.as_str())?;
        return Err(NameError::Refused(NameRefused::SameType { name }));
    }
    Ok(Write::AssocChangeType {
        id1: edge.list.id1,
        atype: oldtype,
        id2: edge.id2,
        newtype,
    })
}

// ---- reads

fn checked_query(names: &Names<'_>, query: &QueryText) -> Result<Query, NameError>
    ensures { Gives name_unless_memory result (checked_query (settings names.now) query.now) }
{
    match query {
        QueryText::ObjGet { id } => checked_obj_get(names, *id),
        QueryText::AssocGet {
            list,
            ids,
            high,
            low,
        } => checked_assoc_get(names, list, ids, *high, *low),
        QueryText::AssocCount { list } => checked_assoc_count(names, list),
        QueryText::AssocRange { list, pos, limit } => checked_assoc_range(
            names, list, *pos, *limit,
        ),
        QueryText::AssocTimeRange {
            list,
            high,
            low,
            limit,
        } => checked_assoc_time_range(names, list, *high, *low, *limit),
    }
}

/// Refuses more ids than edges of the type are kept.
fn bounded_ids(names: &Names<'_>, atype: AType, ids: &IdSet) -> Result<(), NameError>
    ensures { Gives name_unless_memory result (bounded_ids (settings names.now) atype ids.now) }
{
    let config = names.config;
    let bound = config.schema.bound(atype);
    let count = ids.len() as u64;
    if count <= bound {
        Ok(())
    } else {
        Err(NameError::Refused(NameRefused::Limit { bound, count }))
    }
}

fn checked_obj_get(names: &Names<'_>, id: Id) -> Result<Query, NameError>
    ensures { Gives name_unless_memory result (checked_obj_get (settings names.now) id) }
{
    names.id(id)?;
    Ok(Query::ObjGet { id })
}

fn checked_assoc_get(
    names: &Names<'_>,
    list: &ListName,
    ids: &IdSet,
    high: Option<Time>,
    low: Option<Time>,
) -> Result<Query, NameError>
    ensures { Gives name_unless_memory result (checked_assoc_get (settings names.now) list.now ids.now high low) }
{
    let atype = list_type(names, list)?;
    bounded_ids(names, atype, ids)?;
    Ok(Query::AssocGet {
        id1: list.id1,
        atype,
        ids: ids.clone()?,
        high,
        low,
    })
}

fn checked_assoc_count(names: &Names<'_>, list: &ListName) -> Result<Query, NameError>
    ensures { Gives name_unless_memory result (checked_assoc_count (settings names.now) list.now) }
{
    let atype = list_type(names, list)?;
    Ok(Query::AssocCount {
        id1: list.id1,
        atype,
    })
}

fn checked_assoc_range(
    names: &Names<'_>,
    list: &ListName,
    pos: u32,
    limit: u32,
) -> Result<Query, NameError>
    ensures { Gives name_unless_memory result (checked_assoc_range (settings names.now) list.now pos limit) }
{
    let atype = list_type(names, list)?;
    Ok(Query::AssocRange {
        id1: list.id1,
        atype,
        pos,
        limit,
    })
}

fn checked_assoc_time_range(
    names: &Names<'_>,
    list: &ListName,
    high: Time,
    low: Time,
    limit: u32,
) -> Result<Query, NameError>
    ensures { Gives name_unless_memory result (checked_assoc_time_range (settings names.now) list.now high low limit) }
{
    let atype = list_type(names, list)?;
    Ok(Query::AssocTimeRange {
        id1: list.id1,
        atype,
        high,
        low,
        limit,
    })
}

// ---- calls

fn checked_write_call(names: &Names<'_>, call: &WriteCall) -> Result<CheckedWrite, NameError>
    ensures { Gives name_unless_memory result (checked_write_call (settings names.now) call.now) }
{
    Ok(CheckedWrite {
        session: call.session,
        seq: call.seq,
        write: checked_write(names, &call.write)?,
    })
}

pub(crate) fn checked_read_call(
    names: &Names<'_>,
    call: &ReadCall,
) -> Result<CheckedRead, NameError>
    ensures { Gives name_unless_memory result (checked_read_call (settings names.now) call.now) }
{
    Ok(CheckedRead {
        session: call.session,
        query: checked_query(names, &call.query)?,
        critical: call.critical,
    })
}

pub(crate) fn checked_call(names: &Names<'_>, call: &Call) -> Result<CheckedCall, NameError>
    ensures { Gives name_unless_memory result (checked_call (settings names.now) call.now) }
{
    match call {
        Call::Write(call) => Ok(CheckedCall::Write(checked_write_call(names, call)?)),
        Call::Read(call) => Ok(CheckedCall::Read(checked_read_call(names, call)?)),
    }
}
