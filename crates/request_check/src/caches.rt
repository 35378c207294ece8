//! What is asked of cache nodes.
ghost use Rattle.outcomes.specs.Results.{Gives};
ghost use Rattle.request_check.specs.Refusal.{name_unless_memory};
ghost use Rattle.request_check.specs.Names.{settings};
ghost use Rattle.request_check.specs.Caches.{checked_cache, checked_evict, checked_show, key_named, maybe_key_named};
ghost use Rattle.requests.specs.declared.caches.CacheRequest.TheVariants.{Deliver, Again, Drop, Refill, Inbox};

use crate::calls::list_type;
use crate::kind::NodeKind;
use crate::names::Names;
use crate::refusal::NameError;
use node_name::NodeName;
use requests::{CacheRequest, KeyName, MessageName};
use tao_base::{Key, Text};

/// What is asked of a cache node. Each is a leader or a follower, and for a refill a follower.
#[derive(Drop)]
pub enum CheckedCache {
    Deliver { node: NodeName, message: u32 },
    Again { node: NodeName, message: u32 },
    Drop { node: NodeName, message: u32 },
    Refill { node: NodeName },
    /// Without a key the item that was used least recently.
    Evict { node: NodeName, key: Option<Key> },
    Show { node: NodeName, key: Key },
    Inbox { node: NodeName },
}

pub(crate) fn checked_cache(
    names: &Names<'_>,
    asked: &CacheRequest,
) -> Result<CheckedCache, NameError>
    ensures { Gives name_unless_memory result (checked_cache (settings names.now) asked.now) }
{
    match asked {
        CacheRequest::Deliver(name) => checked_deliver(names, name),
        CacheRequest::Again(name) => checked_again(names, name),
        CacheRequest::Drop(name) => checked_drop(names, name),
        CacheRequest::Refill { node } => checked_refill(names, node),
        CacheRequest::Evict { node, key } => checked_evict(names, node, key),
        CacheRequest::Show { node, key } => checked_show(names, node, key),
        CacheRequest::Inbox { node } => checked_inbox(names, node),
    }
}

// ---- messages

fn checked_deliver(names: &Names<'_>, name: &MessageName) -> Result<CheckedCache, NameError>
    ensures { Gives name_unless_memory result (checked_cache (settings names.now) (Deliver name.now)) }
{
    let node = names.node(NodeKind::Cache, &name.node)?;
    let message = name.message;
    Ok(CheckedCache::Deliver { node, message })
}

fn checked_again(names: &Names<'_>, name: &MessageName) -> Result<CheckedCache, NameError>
    ensures { Gives name_unless_memory result (checked_cache (settings names.now) (Again name.now)) }
{
    let node = names.node(NodeKind::Cache, &name.node)?;
    let message = name.message;
    Ok(CheckedCache::Again { node, message })
}

fn checked_drop(names: &Names<'_>, name: &MessageName) -> Result<CheckedCache, NameError>
    ensures { Gives name_unless_memory result (checked_cache (settings names.now) (Drop name.now)) }
{
    let node = names.node(NodeKind::Cache, &name.node)?;
    let message = name.message;
    Ok(CheckedCache::Drop { node, message })
}

fn checked_inbox(names: &Names<'_>, node: &Text) -> Result<CheckedCache, NameError>
    ensures { Gives name_unless_memory result (checked_cache (settings names.now) (Inbox node.now)) }
{
    let node = names.node(NodeKind::Cache, node)?;
    Ok(CheckedCache::Inbox { node })
}

// ---- items

fn checked_refill(names: &Names<'_>, node: &Text) -> Result<CheckedCache, NameError>
    ensures { Gives name_unless_memory result (checked_cache (settings names.now) (Refill node.now)) }
{
    let node = names.node(NodeKind::Follower, node)?;
    Ok(CheckedCache::Refill { node })
}

fn key_named(names: &Names<'_>, key: &KeyName) -> Result<Key, NameError>
    ensures { Gives name_unless_memory result (key_named (settings names.now) key.now) }
{
    match key {
        KeyName::Object(id) => {
            names.id(*id)?;
            Ok(Key::Obj(*id))
        }
        KeyName::List(list) => {
            let atype = list_type(names, list)?;
            Ok(Key::List(list.id1, atype))
        }
    }
}

fn maybe_key_named(names: &Names<'_>, key: &Option<KeyName>) -> Result<Option<Key>, NameError>
    ensures { Gives name_unless_memory result (maybe_key_named (settings names.now) key.now) }
{
    match key {
        None => Ok(None),
        Some(key) => Ok(Some(key_named(names, key)?)),
    }
}

fn checked_evict(
    names: &Names<'_>,
    node: &Text,
    key: &Option<KeyName>,
) -> Result<CheckedCache, NameError>
    ensures { Gives name_unless_memory result (checked_evict (settings names.now) node.now key.now) }
{
    let node = names.node(NodeKind::Cache, node)?;
    let key = maybe_key_named(names, key)?;
    Ok(CheckedCache::Evict { node, key })
}

fn checked_show(names: &Names<'_>, node: &Text, key: &KeyName) -> Result<CheckedCache, NameError>
    ensures { Gives name_unless_memory result (checked_show (settings names.now) node.now key.now) }
{
    let node = names.node(NodeKind::Cache, node)?;
    let key = key_named(names, key)?;
    Ok(CheckedCache::Show { node, key })
}
