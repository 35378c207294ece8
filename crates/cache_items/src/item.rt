//! What a node holds at a key.
ghost use Rattle.std.specs.Prelude.{◌≡◌, ◌<◌, ◌+◌, IfOk, MatchBool, OnErr, OnOk};
ghost use Rattle.sealed_item.specs.tao_schema.Schema.{types_of};
ghost use Rattle.cache_items.specs.HandedOn.{IsFrontItem};
ghost use Rattle.cache_items.specs.Look.{item_look};
ghost use Rattle.cache_items.specs.Taken.{StaysBy, changed_content};

use crate::look::Look;
use sealed_item::Content;
use sealed_item::tao_schema::Schema;
use tao_base::{Change, Object, OutOfMemory, Query};

/// What was found at a key, which is exact at the version.
#[derive(Drop)]
pub struct Item {
    pub version: u64,
    pub content: Content,
}

impl Item {
    /// The answer, where the item has the version or more and decides the query.
    pub(crate) fn look(
        &self,
        schema: &Schema,
        query: &Query,
        floor: u64,
    ) -> Result<Look, OutOfMemory>
        ensures { IfOk result (λ look. look ≡ item_look (types_of schema.now) self.now query.now floor) }
    {
        if self.version < floor {
            return Ok(Look::Miss);
        }
        match self.content.read(schema, query)? {
            Some(answer) => Ok(Look::Hit {
                answer,
                version: self.version,
            }),
            None => Ok(Look::Miss),
        }
    }

    /// The item cut to its shortest front that decides the query, where it has the version or more and
    /// has one.
    pub(crate) fn front(
        &self,
        schema: &Schema,
        query: &Query,
        floor: u64,
    ) -> Result<Option<Item>, OutOfMemory>
        ensures { IfOk result (IsFrontItem (types_of schema.now) query.now floor self.now) }
    {
        if self.version < floor {
            return Ok(None);
        }
        match self.content.front(schema, query)? {
            Some(content) => Ok(Some(Item {
                version: self.version,
                content,
            })),
            None => Ok(None),
        }
    }

    /// Takes the change where the version is the one before it. False where the item is to be dropped.
    pub(crate) fn take(&mut self, before: u64, after: u64, change: &Change, bound: u64) -> bool
        requires { after ≡ before + 1 }
        ensures { MatchBool result (StaysBy bound self.old self.new before after change.now) ((self.old.version < after) × (self.new ≡ self.old)) }
    {
        if after <= self.version {
            return true;
        }
        if self.version != before || change_content(&mut self.content, change, bound).is_err() {
            return false;
        }
        self.version = after;
        true
    }
}

fn change_content(content: &mut Content, change: &Change, bound: u64) -> Result<(), OutOfMemory>
    ensures ok { OnOk result (content.new ≡ changed_content content.old change.now bound) }
    ensures err { OnErr result (content.new ≡ content.old) }
{
    match content {
        Content::List(prefix) => prefix.apply(change, bound),
        Content::Object(object) => change_object(object, change),
    }
}

fn change_object(object: &mut Option<Object>, change: &Change) -> Result<(), OutOfMemory>
    ensures ok { OnOk result (Content.Object object.new ≡ changed_content (Content.Object object.old) change.now 0) }
    ensures err { OnErr result (object.new ≡ object.old) }
{
    match change {
        Change::PutObject(new) => *object = Some(new.clone()?),
        Change::DropObject => *object = None,
        Change::SetEdge { .. } | Change::CutEdge { .. } => {}
    }
    Ok(())
}
