//! What the commit of a write answers.
ghost use Rattle.std.specs.Prelude.{◌≡◌, IfSome, Some};
ghost use Rattle.shard_tables.specs.Written.{HasEntry};
ghost use Rattle.tao_schema.specs.Schema.{types_of};
ghost use Rattle.write_model.specs.Writes.{FitsWrite};
ghost use Rattle.write_plan.specs.Committing.{IsAdding, has_inverse, kind_said};

use node_name::NodeName;
use replies::WriteKind;
use shard_tables::{Wrote, object_added};
use tao_base::{Entry, Write};
use tao_schema::Schema;

/// What the master's leader answered, and who it was.
#[derive(Drop)]
pub struct Committed {
    /// What its store wrote.
    pub wrote: Wrote,
    /// The leader that wrote: the master's.
    pub leader: NodeName,
    /// The leader of a slave region that was passed on the way there.
    pub passed: Option<NodeName>,
    /// Which write it was, as its reply says it.
    pub kind: WriteKind,
    /// Whether a type that the write names has an inverse.
    pub paired: bool,
}

/// The addition of the object that the entry adds.
fn adding(entry: &Option<Entry>, write: &Write) -> WriteKind
    requires adds { IsAdding write.now }
    requires fits { IfSome entry.now (λ e. FitsWrite e write.now) }
    requires entry { HasEntry write.now entry.now }
    ensures { kind_said write.now entry.now ≡ Some result }
{
    let Some(entry) = entry else { unreachable!() };
    match object_added(entry) {
        Some(id) => WriteKind::ObjAdd { id },
        None => unreachable!(),
    }
}

/// Which write it was.
pub fn kind_said(write: &Write, entry: &Option<Entry>) -> WriteKind
    requires fits { IfSome entry.now (λ e. FitsWrite e write.now) }
    requires entry { HasEntry write.now entry.now }
    ensures { kind_said write.now entry.now ≡ Some result }
{
    match write {
        Write::ObjAdd { .. } => adding(entry, write),
        Write::ObjUpdate { .. } => WriteKind::ObjUpdate,
        Write::ObjDelete { .. } => WriteKind::ObjDelete,
        Write::AssocAdd { .. } => WriteKind::AssocAdd,
        Write::AssocDelete { .. } => WriteKind::AssocDelete,
        Write::AssocChangeType { .. } => WriteKind::AssocChangeType,
    }
}

/// Whether a type that the write names has an inverse.
fn has_inverse(schema: &Schema, write: &Write) -> bool
    ensures { result ≡ has_inverse (types_of schema.now) write.now }
{
    match write {
        Write::ObjAdd { .. } | Write::ObjUpdate { .. } | Write::ObjDelete { .. } => false,
        Write::AssocAdd { atype, .. } | Write::AssocDelete { atype, .. } => {
            schema.inverse(*atype).is_some()
        }
        Write::AssocChangeType { atype, newtype, .. } => {
            schema.inverse(*atype).is_some() || schema.inverse(*newtype).is_some()
        }
    }
}

impl Committed {
    /// What a leader answered to the write, by its store's answer to it. Takes no memory.
    pub fn of(
        schema: &Schema,
        write: &Write,
        wrote: Wrote,
        leader: NodeName,
        passed: Option<NodeName>,
    ) -> Committed
        requires fits { IfSome wrote.entry (λ e. FitsWrite e write.now) }
        requires entry { HasEntry write.now wrote.entry }
        ensures wrote { result.wrote ≡ wrote }
        ensures leader { result.leader ≡ leader }
        ensures passed { result.passed ≡ passed }
        ensures kind { kind_said write.now wrote.entry ≡ Some result.kind }
        ensures paired { result.paired ≡ has_inverse (types_of schema.now) write.now }
    {
        Committed {
            kind: kind_said(write, &wrote.entry),
            paired: has_inverse(schema, write),
            wrote,
            leader,
            passed,
        }
    }
}
