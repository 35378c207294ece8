//! The requests about cache nodes: the fields of each, in their order.
ghost use Rattle.outcomes.specs.Results.{Gives};
ghost use Rattle.request_json.specs.Refusal.{unless_memory};
ghost use Rattle.request_json.specs.Fields.{said};
ghost use Rattle.request_json.specs.Caches.{delivery_of, drop_of, evict_of, inbox_of, key_fields, key_given, message_of, refilling_of, show_of};

use crate::fields::{Fields, bad_line, needed, node_of};
use crate::refusal::LineRefusal;
use requests::{CacheRequest, KeyName, ListName, MessageName};
use std::alloc::Global;
use tao_base::{Id, Text};
use words::DeliveryWord;

// ---- messages

fn message_of(fields: &Fields<'_, '_>) -> Result<MessageName, LineRefusal>
    ensures { Gives unless_memory result (message_of (said fields.now)) }
{
    let message = MessageName {
        node: fields.text("node")?,
        message: fields.small("message", 0)?,
    };
    fields.only(&["do", "node", "message"])?;
    Ok(message)
}

pub(crate) fn delivery_of(
    word: DeliveryWord,
    fields: &Fields<'_, '_>,
) -> Result<CacheRequest, LineRefusal>
    ensures { Gives unless_memory result (delivery_of word (said fields.now)) }
{
    match word {
        DeliveryWord::Deliver => message_of(fields).map(CacheRequest::Deliver),
        DeliveryWord::Again => message_of(fields).map(CacheRequest::Again),
    }
}

pub(crate) fn drop_of(fields: &Fields<'_, '_>) -> Result<CacheRequest, LineRefusal>
    ensures { Gives unless_memory result (drop_of (said fields.now)) }
{
    message_of(fields).map(CacheRequest::Drop)
}

pub(crate) fn inbox_of(fields: &Fields<'_, '_>) -> Result<CacheRequest, LineRefusal>
    ensures { Gives unless_memory result (inbox_of (said fields.now)) }
{
    node_of(fields).map(|node| CacheRequest::Inbox { node })
}

// ---- items

pub(crate) fn refilling_of(fields: &Fields<'_, '_>) -> Result<CacheRequest, LineRefusal>
    ensures { Gives unless_memory result (refilling_of (said fields.now)) }
{
    node_of(fields).map(|node| CacheRequest::Refill { node })
}

/// The key that is given by an id alone or by an id1 and a type together. None where nothing is given.
fn key_given(
    alloc: Global,
    id: Option<Id>,
    id1: Option<Id>,
    atype: Option<Text>,
) -> Result<Option<KeyName>, LineRefusal>
    ensures { Gives unless_memory result (key_given id id1 atype) }
{
    match (id, id1, atype) {
        (None, None, None) => Ok(None),
        (Some(id), None, None) => Ok(Some(KeyName::Object(id))),
        (None, Some(id1), Some(atype)) => Ok(Some(KeyName::List(ListName { id1, atype }))),
        _ => Err(bad_line(alloc, "id")),
    }
}

fn key_fields(fields: &Fields<'_, '_>) -> Result<Option<KeyName>, LineRefusal>
    ensures { Gives unless_memory result (key_fields (said fields.now)) }
{
    let id = fields.maybe_id("id")?;
    let id1 = fields.maybe_id("id1")?;
    let atype = fields.maybe_text("atype")?;
    key_given(fields.alloc, id, id1, atype)
}

pub(crate) fn evict_of(fields: &Fields<'_, '_>) -> Result<CacheRequest, LineRefusal>
    ensures { Gives unless_memory result (evict_of (said fields.now)) }
{
    let node = fields.text("node")?;
    let key = key_fields(fields)?;
    fields.only(&["do", "node", "id", "id1", "atype"])?;
    Ok(CacheRequest::Evict { node, key })
}

pub(crate) fn show_of(fields: &Fields<'_, '_>) -> Result<CacheRequest, LineRefusal>
    ensures { Gives unless_memory result (show_of (said fields.now)) }
{
    let node = fields.text("node")?;
    let key = needed(fields.alloc, "id", key_fields(fields)?)?;
    fields.only(&["do", "node", "id", "id1", "atype"])?;
    Ok(CacheRequest::Show { node, key })
}
