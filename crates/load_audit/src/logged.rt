//! The edges of a log, and which of them were met.
ghost use Rattle.std.specs.Prelude.{◌≡◌, ◌+◌, ◌<◌, ◌^◌, if◌then◌else◌, IfOk, OnErr, OnOk, not, true};
ghost use Rattle.std.specs.HashSet.{contains, hash_set_len};
ghost use Rattle.load_audit.specs.Logged.{end_of, record_at, same_logged};
ghost use Rattle.load_audit.specs.declared.logged.LoggedEdge.{LoggedEdge as Logged};

use std::collections::HashSet;
use tao_base::{AType, Change, Id, Key, OutOfMemory, Touch};

/// An edge, in a log.
#[derive(Clone, Copy, PartialEq, Eq, Hash)]
pub(crate) struct LoggedEdge {
    pub(crate) id1: Id,
    pub(crate) atype: AType,
    pub(crate) id2: Id,
}

/// The edge to which a change of a list leads, and whether it leaves it live; none where the change is of an object.
fn end_of(change: &Change) -> Option<(Id, bool)>
    ensures { result ≡ end_of change.now }
{
    match change {
        Change::SetEdge { edge, .. } => Some((edge.id2, true)),
        Change::CutEdge { id2, .. } => Some((*id2, false)),
        Change::PutObject(_) | Change::DropObject => None,
    }
}

/// The edge of the record that a touch writes, and whether that is live; none where the touch is of an object.
pub(crate) fn record_at(touch: &Touch) -> Option<(LoggedEdge, bool)>
    ensures { result ≡ record_at touch.now }
{
    match touch.key {
        Key::Obj(_) => None,
        Key::List(id1, atype) => {
            let (id2, is_live) = end_of(&touch.change)?;
            Some((LoggedEdge { id1, atype, id2 }, is_live))
        }
    }
}

/// Takes the edge among those that were met, and says whether it is the first time. One look-up.
pub(crate) fn meet(met: &mut HashSet<LoggedEdge>, edge: LoggedEdge) -> Result<bool, OutOfMemory>
    ensures first { IfOk result (λ is_first. is_first ≡ not (contains same_logged met.old edge)) }
    ensures after { OnOk result ((other : Logged) → contains same_logged met.new other
        ≡ (if same_logged edge other then true else contains same_logged met.old other)) }
    ensures many { IfOk result (λ is_first. hash_set_len met.new ≡ hash_set_len met.old + (if is_first then 1 else 0)) }
    ensures few { OnOk result (hash_set_len met.new < 2 ^ 63) }
    ensures err { OnErr result (met.new.keys ≡ met.old.keys) }
{
    let many = met.len();
    met.insert(edge)?;
    Ok(many < met.len())
}
