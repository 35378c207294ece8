//! The requests about stores: the fields of each, in their order.
ghost use Rattle.outcomes.specs.Results.{Gives};
ghost use Rattle.request_json.specs.Refusal.{unless_memory};
ghost use Rattle.request_json.specs.Fields.{said};
ghost use Rattle.request_json.specs.Stores.{audit_of, repair_of, settle_of, stream_of, trim_of};

use crate::fields::{Fields, bad_line};
use crate::inner::{asked_within, inner_read_of};
use crate::refusal::LineRefusal;
use json_fields::fields::object_at;
use requests::StoreRequest;

pub(crate) fn stream_of(fields: &Fields<'_, '_>) -> Result<StoreRequest, LineRefusal>
    ensures { Gives unless_memory result (stream_of (said fields.now)) }
{
    let region = fields.text("region")?;
    let shard = fields.short("shard")?;
    let position = fields.maybe_number("position", 1, u64::MAX)?;
    fields.only(&["do", "region", "shard", "position"])?;
    Ok(StoreRequest::Stream {
        region,
        shard,
        position,
    })
}

pub(crate) fn trim_of(fields: &Fields<'_, '_>) -> Result<StoreRequest, LineRefusal>
    ensures { Gives unless_memory result (trim_of (said fields.now)) }
{
    let region = fields.text("region")?;
    let shard = fields.short("shard")?;
    let position = fields.number("position", 1, u64::MAX)?;
    fields.only(&["do", "region", "shard", "position"])?;
    Ok(StoreRequest::Trim {
        region,
        shard,
        position,
    })
}

pub(crate) fn repair_of(fields: &Fields<'_, '_>) -> Result<StoreRequest, LineRefusal>
    ensures { Gives unless_memory result (repair_of (said fields.now)) }
{
    let shard = fields.short("shard")?;
    fields.only(&["do", "shard"])?;
    Ok(StoreRequest::Repair { shard })
}

pub(crate) fn settle_of(fields: &Fields<'_, '_>) -> Result<StoreRequest, LineRefusal>
    ensures { Gives unless_memory result (settle_of (said fields.now)) }
{
    fields.only(&["do"])?;
    Ok(StoreRequest::Settle)
}

pub(crate) fn audit_of(fields: &Fields<'_, '_>) -> Result<StoreRequest, LineRefusal>
    ensures { Gives unless_memory result (audit_of (said fields.now)) }
{
    let Some(value) = object_at(fields.value, "request") else {
        return Err(bad_line(fields.alloc, "request"));
    };
    let alloc = fields.alloc;
    let inner = inner_read_of(&Fields { alloc, value });
    let read = asked_within(fields, &["do", "request"], inner)?;
    Ok(StoreRequest::Audit(read))
}
