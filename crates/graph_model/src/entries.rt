//! How what a log says of a key changes by one more entry.
ghost use Rattle.graph_model.specs.EntryLaws.{
  AppliesTouches,
  ChangesByTouch,
  ListFollows,
  ObjectFollows,
  RecordFollows,
  VersionFollows,
};

use tao_base::{AType, Entry, Id, Key};

/// An entry that touches no key twice makes one change at each key that it touches.
#[tactic(auto, using(crate::proofs::EntryLemmas::changes_by_touch))]
pub fn changes_go_by_touch(_entry: &Entry)
    ensures { ChangesByTouch _entry.now }
{}

/// How a key's version changes.
#[tactic(auto, using(crate::proofs::EntryLemmas::version_follows))]
pub fn version_follows(_log: &[Entry], _entry: &Entry, _key: Key)
    ensures { VersionFollows _log.now _entry.now _key }
{}

/// How an object changes.
#[tactic(auto, using(crate::proofs::EntryLemmas::object_follows))]
pub fn object_follows(_log: &[Entry], _entry: &Entry, _id: Id)
    ensures { ObjectFollows _log.now _entry.now _id }
{}

/// How the record of an edge changes.
#[tactic(auto, using(crate::proofs::EntryLemmas::record_follows))]
pub fn record_follows(_log: &[Entry], _entry: &Entry, _id1: Id, _atype: AType, _id2: Id)
    ensures { RecordFollows _log.now _entry.now _id1 _atype _id2 }
{}

/// How a list changes.
#[tactic(auto, using(crate::proofs::EntryLemmas::list_follows))]
pub fn list_follows(_log: &[Entry], _entry: &Entry, _id1: Id, _atype: AType)
    ensures { ListFollows _log.now _entry.now _id1 _atype }
{}

/// At each key that it touches, an entry that touches no key twice does the touch's change.
#[tactic(auto, using(crate::proofs::EntryLemmas::applies_touches))]
pub fn entries_apply_touches(_log: &[Entry], _entry: &Entry)
    ensures { AppliesTouches _log.now _entry.now }
{}
