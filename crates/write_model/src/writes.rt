//! What the entries of writes keep of a log. Each law is the contract of a function.
ghost use Rattle.write_model.specs.WriteLaws.{ForwardFollows, LaterTouches, PlainAddFollows};

use tao_base::{AType, Edge, EdgeState, Entry, Id, Origin, Write};

/// An edge of a type without an inverse is added by an entry with one touch, which follows the log.
#[tactic(auto, using(crate::proofs::Forward::plain_add_follows))]
pub fn plain_add_follows(_log: &[Entry], _origin: &Origin, _id1: Id, _atype: AType, _edge: &Edge)
    ensures { PlainAddFollows _log.now _origin.now _id1 _atype _edge.now }
{}

/// The entry of a write keeps the log of its shard sound.
#[tactic(auto, using(crate::proofs::Forward::forward_follows))]
pub fn forward_entries_follow(
    _shard: u16,
    _log: &[Entry],
    _origin: &Origin,
    _write: &Write,
    _entry: &Entry,
)
    ensures { ForwardFollows _shard _log.now _origin.now _write.now _entry.now }
{}

/// A record with a later stamp than the log's makes a touch that follows the log.
#[tactic(auto, using(crate::proofs::Touches::later_touches))]
pub fn later_records_follow(
    _log: &[Entry],
    _origin: &Origin,
    _id1: Id,
    _atype: AType,
    _id2: Id,
    _state: &EdgeState,
)
    ensures { LaterTouches _log.now _origin.now _id1 _atype _id2 _state.now }
{}
