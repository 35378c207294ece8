//! A fill that a node reads for itself, and a second note of one, which no run makes.
ghost use Rattle.std.specs.Prelude.{◌≡◌, IfOk, None, Some, false};
ghost use Rattle.sealed_item.specs.Fills.{sealed_item};
ghost use Rattle.served_shards.specs.Served.{log_at};
ghost use Rattle.tao_base.specs.Ids.{shard_of};

use crate::rig::{one_note, schema};
use cache_node::{CacheNode, Kept};
use sealed_item::{Content, Fill};
use shard_log::{Note, ShardLog};
use std::alloc::Global;
use std::test::Fail;
use tao_base::{Answer, Id, Key, OutOfMemory, Query};
use tao_schema::Schema;

/// Of a log that isn't told, a fill says nothing.
fn no_object(id: Id, note: Note) -> Fill
    requires { note.log.told ≡ false }
    ensures { result ≡ sealed_item (Key.Obj id) 0 0 (Content.Object None) note }
{
    Fill::seal(Key::Obj(id), 0, 0, Content::Object(None), note)
}

/// A node that serves the first shard.
fn node_of(alloc: Global, note: Note) -> Result<CacheNode, OutOfMemory>
    requires { note.log.told ≡ false }
    ensures { IfOk result (λ node. log_at 0 node.served ≡ Some note.log) }
{
    let notes = one_note(alloc, note)?;
    CacheNode::make(alloc, 2, &[0], &[0], notes)
}

/// Whether the node keeps that there is no object, and answers so.
fn keep_at(node: &mut CacheNode, schema: &Schema, id: Id, note: Note) -> Result<bool, OutOfMemory>
    requires here { shard_of id ≡ 0 }
    requires log { log_at 0 node.old.served ≡ Some note.log }
    requires untold { note.log.told ≡ false }
{
    let fill = no_object(id, note);
    let (answer, kept) = node.keep_own(schema, &Query::ObjGet { id }, fill)?;
    Ok(kept == Kept::Yes && matches!(answer, Answer::Object(None)))
}

/// The same of a node and a log that are made for it.
fn keep_own_of_new(alloc: Global, schema: &Schema, id: Id) -> Result<bool, OutOfMemory> {
    if id.shard() != 0 {
        return Ok(false);
    }
    let mut pen = ShardLog::make(alloc, Vec::new(alloc), false)?;
    let mut node = node_of(alloc, pen.note()?)?;
    let mut given = no_object(id, pen.note()?);
    let note = given.split_note()?;
    keep_at(&mut node, schema, id, note)
}

#[test]
fn a_node_keeps_what_it_reads_for_itself(rt: HostRuntime) -> Result<(), Fail> {
    let id = Id::read(1).ok_or("an id")?;
    let schema = schema(rt.alloc())?;
    assert!(rt; keep_own_of_new(rt.alloc(), &schema, id)?);
    Ok(())
}
