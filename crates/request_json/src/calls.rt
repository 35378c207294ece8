//! The calls on objects and associations: the fields of each, in their order.
ghost use Rattle.outcomes.specs.Results.{Gives};
ghost use Rattle.request_json.specs.Refusal.{unless_memory};
ghost use Rattle.request_json.specs.Fields.{said};
ghost use Rattle.request_json.specs.Calls.{session_field, seq_field, limit_field, write_of, obj_add_of, obj_update_of, obj_delete_of, assoc_add_of};
ghost use Rattle.request_json.specs.Calls.{assoc_delete_of, assoc_change_type_of, read_of, obj_get_of, assoc_get_of, assoc_count_of, assoc_range_of};
ghost use Rattle.request_json.specs.Calls.{assoc_time_range_of};

use crate::fields::Fields;
use crate::refusal::LineRefusal;
use requests::{QueryText, ReadCall, WriteCall, WriteText};
use words::{ReadWord, WriteWord};

pub(crate) fn session_field(fields: &Fields<'_, '_>) -> Result<u32, LineRefusal>
    ensures { Gives unless_memory result (session_field (said fields.now)) }
{
    fields.small("session", 1)
}

fn seq_field(fields: &Fields<'_, '_>) -> Result<u64, LineRefusal>
    ensures { Gives unless_memory result (seq_field (said fields.now)) }
{
    fields.number("seq", 1, u64::MAX)
}

fn limit_field(fields: &Fields<'_, '_>) -> Result<u32, LineRefusal>
    ensures { Gives unless_memory result (limit_field (said fields.now)) }
{
    fields.small("limit", 1)
}

// ---- writes

pub(crate) fn write_of(word: WriteWord, fields: &Fields<'_, '_>) -> Result<WriteCall, LineRefusal>
    ensures { Gives unless_memory result (write_of word (said fields.now)) }
{
    match word {
        WriteWord::ObjAdd => obj_add_of(fields),
        WriteWord::ObjUpdate => obj_update_of(fields),
        WriteWord::ObjDelete => obj_delete_of(fields),
        WriteWord::AssocAdd => assoc_add_of(fields),
        WriteWord::AssocDelete => assoc_delete_of(fields),
        WriteWord::AssocChangeType => assoc_change_type_of(fields),
    }
}

fn obj_add_of(fields: &Fields<'_, '_>) -> Result<WriteCall, LineRefusal>
    ensures { Gives unless_memory result (obj_add_of (said fields.now)) }
{
    Ok(WriteCall {
        session: session_field(fields)?,
        seq: seq_field(fields)?,
        write: WriteText::ObjAdd {
            shard: fields.short("shard")?,
            otype: fields.text("otype")?,
            payload: fields.data_last(&["do", "session", "seq", "shard", "otype", "data"])?,
        },
    })
}

fn obj_update_of(fields: &Fields<'_, '_>) -> Result<WriteCall, LineRefusal>
    ensures { Gives unless_memory result (obj_update_of (said fields.now)) }
{
    Ok(WriteCall {
        session: session_field(fields)?,
        seq: seq_field(fields)?,
        write: WriteText::ObjUpdate {
            id: fields.id("id")?,
            payload: fields.data_last(&["do", "session", "seq", "id", "data"])?,
        },
    })
}

fn obj_delete_of(fields: &Fields<'_, '_>) -> Result<WriteCall, LineRefusal>
    ensures { Gives unless_memory result (obj_delete_of (said fields.now)) }
{
    let call = WriteCall {
        session: session_field(fields)?,
        seq: seq_field(fields)?,
        write: WriteText::ObjDelete {
            id: fields.id("id")?,
        },
    };
    fields.only(&["do", "session", "seq", "id"])?;
    Ok(call)
}

fn assoc_add_of(fields: &Fields<'_, '_>) -> Result<WriteCall, LineRefusal>
    ensures { Gives unless_memory result (assoc_add_of (said fields.now)) }
{
    let names = [
        "do", "session", "seq", "id1", "atype", "id2", "time", "data",
    ];
    Ok(WriteCall {
        session: session_field(fields)?,
        seq: seq_field(fields)?,
        write: WriteText::AssocAdd {
            edge: fields.edge()?,
            time: fields.small("time", 0)?,
            payload: fields.data_last(&names)?,
        },
    })
}

fn assoc_delete_of(fields: &Fields<'_, '_>) -> Result<WriteCall, LineRefusal>
    ensures { Gives unless_memory result (assoc_delete_of (said fields.now)) }
{
    let call = WriteCall {
        session: session_field(fields)?,
        seq: seq_field(fields)?,
        write: WriteText::AssocDelete {
            edge: fields.edge()?,
        },
    };
    fields.only(&["do", "session", "seq", "id1", "atype", "id2"])?;
    Ok(call)
}

fn assoc_change_type_of(fields: &Fields<'_, '_>) -> Result<WriteCall, LineRefusal>
    ensures { Gives unless_memory result (assoc_change_type_of (said fields.now)) }
{
    let call = WriteCall {
        session: session_field(fields)?,
        seq: seq_field(fields)?,
        write: WriteText::AssocChangeType {
            edge: fields.edge()?,
            newtype: fields.text("newtype")?,
        },
    };
    fields.only(&["do", "session", "seq", "id1", "atype", "id2", "newtype"])?;
    Ok(call)
}

// ---- reads

pub(crate) fn read_of(word: ReadWord, fields: &Fields<'_, '_>) -> Result<ReadCall, LineRefusal>
    ensures { Gives unless_memory result (read_of word (said fields.now)) }
{
    match word {
        ReadWord::ObjGet => obj_get_of(fields),
        ReadWord::AssocGet => assoc_get_of(fields),
        ReadWord::AssocCount => assoc_count_of(fields),
        ReadWord::AssocRange => assoc_range_of(fields),
        ReadWord::AssocTimeRange => assoc_time_range_of(fields),
    }
}

fn obj_get_of(fields: &Fields<'_, '_>) -> Result<ReadCall, LineRefusal>
    ensures { Gives unless_memory result (obj_get_of (said fields.now)) }
{
    let call = ReadCall {
        session: session_field(fields)?,
        query: QueryText::ObjGet {
            id: fields.id("id")?,
        },
        critical: fields.flag("critical")?,
    };
    fields.only(&["do", "session", "id", "critical"])?;
    Ok(call)
}

fn assoc_get_of(fields: &Fields<'_, '_>) -> Result<ReadCall, LineRefusal>
    ensures { Gives unless_memory result (assoc_get_of (said fields.now)) }
{
    let call = ReadCall {
        session: session_field(fields)?,
        query: QueryText::AssocGet {
            list: fields.list()?,
            ids: fields.ids("ids")?,
            high: fields.maybe_small("high")?,
            low: fields.maybe_small("low")?,
        },
        critical: fields.flag("critical")?,
    };
    fields.only(&[
        "do", "session", "id1", "atype", "ids", "high", "low", "critical",
    ])?;
    Ok(call)
}

fn assoc_count_of(fields: &Fields<'_, '_>) -> Result<ReadCall, LineRefusal>
    ensures { Gives unless_memory result (assoc_count_of (said fields.now)) }
{
    let call = ReadCall {
        session: session_field(fields)?,
        query: QueryText::AssocCount {
            list: fields.list()?,
        },
        critical: fields.flag("critical")?,
    };
    fields.only(&["do", "session", "id1", "atype", "critical"])?;
    Ok(call)
}

fn assoc_range_of(fields: &Fields<'_, '_>) -> Result<ReadCall, LineRefusal>
    ensures { Gives unless_memory result (assoc_range_of (said fields.now)) }
{
    let call = ReadCall {
        session: session_field(fields)?,
        query: QueryText::AssocRange {
            list: fields.list()?,
            pos: fields.small("pos", 0)?,
            limit: limit_field(fields)?,
        },
        critical: fields.flag("critical")?,
    };
    fields.only(&["do", "session", "id1", "atype", "pos", "limit", "critical"])?;
    Ok(call)
}

fn assoc_time_range_of(fields: &Fields<'_, '_>) -> Result<ReadCall, LineRefusal>
    ensures { Gives unless_memory result (assoc_time_range_of (said fields.now)) }
{
    let call = ReadCall {
        session: session_field(fields)?,
        query: QueryText::AssocTimeRange {
            list: fields.list()?,
            high: fields.small("high", 0)?,
            low: fields.small("low", 0)?,
            limit: limit_field(fields)?,
        },
        critical: fields.flag("critical")?,
    };
    fields.only(&[
        "do", "session", "id1", "atype", "high", "low", "limit", "critical",
    ])?;
    Ok(call)
}
